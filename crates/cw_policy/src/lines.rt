//! The lines of refusals.

ghost use Rattle.std.specs.Prelude.{◌≡◌, ◌++◌};
ghost use Rattle.std.specs.Option.{option_copied};
ghost use Rattle.cw_io.specs.Written.{Follows};
ghost use Rattle.cw_policy.specs.Lines as spec;

use crate::fault::{Path, PolicyFault};
use crate::keys::{Key, Section, key_text, keys_of};
use cw_io::{Sink, Writer};
use cw_regex::RegexFault;

/// Appends a text.
fn put<S: Sink>(piece: &str, line: &mut Writer<S>, out: &mut S)
    requires follows { Follows S.taken S.faults S.refused line.old out.old }
    ensures text { line.new.text ≡ line.old.text ++ piece.now }
    ensures begun { line.new.begun ≡ line.old.begun }
    ensures follows { Follows S.taken S.faults S.refused line.new out.new }
{
    line.put(piece.as_bytes(), out);
}

/// The kind of table that a path's number stands for.
fn section_of(number: u8) -> Section
    ensures { result ≡ spec.section_of number }
{
    match number {
        0 => Section::Root,
        1 => Section::Descriptor,
        2 => Section::Limit,
        3 => Section::At,
        _ => Section::Rule,
    }
}

/// The name of a kind of table.
fn section_text(section: Section) -> &'static str
    ensures { result.now ≡ spec.section_text section }
{
    match section {
        Section::Root => "root",
        Section::Descriptor => "descriptor",
        Section::Limit => "limit",
        Section::At => "at",
        Section::Rule => "rule",
    }
}

/// Appends a number between brackets.
fn put_in_brackets<S: Sink>(number: u32, line: &mut Writer<S>, out: &mut S)
    requires follows { Follows S.taken S.faults S.refused line.old out.old }
    ensures text { line.new.text ≡ line.old.text ++ spec.in_brackets number }
    ensures begun { line.new.begun ≡ line.old.begun }
    ensures follows { Follows S.taken S.faults S.refused line.new out.new }
{
    put("[", line, out);
    line.put_number(u64::from(number), out);
    put("]", line, out);
}

/// The name of a key, empty where there is none.
fn text_of_key(key: Option<&Key>) -> &'static str
    ensures { result.now ≡ spec.text_of_key (option_copied key.entry) }
{
    match key {
        Some(found) => key_text(*found),
        None => "",
    }
}

/// The name of the key with this number among the keys of its table, from 1.
fn key_named(section: Section, key: u8) -> &'static str
    ensures { result.now ≡ spec.key_named section key }
{
    text_of_key(keys_of(section).get(key.saturating_sub(1) as usize))
}

/// Appends an item's number from 0 in brackets; `item` counts from 1, and 0 is the value itself, for which nothing stands.
fn put_item<S: Sink>(item: u32, line: &mut Writer<S>, out: &mut S)
    requires follows { Follows S.taken S.faults S.refused line.old out.old }
    ensures text { line.new.text ≡ line.old.text ++ spec.item_text item }
    ensures begun { line.new.begun ≡ line.old.begun }
    ensures follows { Follows S.taken S.faults S.refused line.new out.new }
{
    if item == 0 {
        return;
    }
    put_in_brackets(item - 1, line, out);
}

/// Appends the name of a key of the root; for key 0, the root itself, `root`.
fn put_root_key<S: Sink>(key: u8, line: &mut Writer<S>, out: &mut S)
    requires follows { Follows S.taken S.faults S.refused line.old out.old }
    ensures text { line.new.text ≡ line.old.text ++ spec.root_key key }
    ensures begun { line.new.begun ≡ line.old.begun }
    ensures follows { Follows S.taken S.faults S.refused line.new out.new }
{
    if key == 0 {
        return put("root", line, out);
    }
    put(key_named(Section::Root, key), line, out);
}

/// Appends `.` and the name of a key; `key` counts from 1 along its table's keys, and 0 is the table itself, for which nothing stands.
fn put_dotted_key<S: Sink>(section: Section, key: u8, line: &mut Writer<S>, out: &mut S)
    requires follows { Follows S.taken S.faults S.refused line.old out.old }
    ensures text { line.new.text ≡ line.old.text ++ spec.dotted_key section key }
    ensures begun { line.new.begun ≡ line.old.begun }
    ensures follows { Follows S.taken S.faults S.refused line.new out.new }
{
    if key == 0 {
        return;
    }
    put(".", line, out);
    put(key_named(section, key), line, out);
}

/// Appends a table of an array by its number from 0, and the key in it.
fn put_table_key<S: Sink>(section: Section, index: u32, key: u8, line: &mut Writer<S>, out: &mut S)
    requires follows { Follows S.taken S.faults S.refused line.old out.old }
    ensures text { line.new.text ≡ line.old.text ++ spec.table_key section index key }
    ensures begun { line.new.begun ≡ line.old.begun }
    ensures follows { Follows S.taken S.faults S.refused line.new out.new }
{
    put(section_text(section), line, out);
    put_in_brackets(index, line, out);
    put_dotted_key(section, key, line, out);
}

/// Appends a table and a key in it.
fn put_key<S: Sink>(section: Section, index: u32, key: u8, line: &mut Writer<S>, out: &mut S)
    requires follows { Follows S.taken S.faults S.refused line.old out.old }
    ensures text { line.new.text ≡ line.old.text ++ spec.key_part section index key }
    ensures begun { line.new.begun ≡ line.old.begun }
    ensures follows { Follows S.taken S.faults S.refused line.new out.new }
{
    match section {
        Section::Root => put_root_key(key, line, out),
        _ => put_table_key(section, index, key, line, out),
    }
}

/// Appends a path, as `root`, `format`, `split[2]`, `limit[1]`, `limit[1].keep` or `limit[1].keep[0]`.
pub fn put_path<S: Sink>(path: Path, line: &mut Writer<S>, out: &mut S)
    requires follows { Follows S.taken S.faults S.refused line.old out.old }
    ensures text { line.new.text ≡ line.old.text ++ spec.path_text path }
    ensures begun { line.new.begun ≡ line.old.begun }
    ensures follows { Follows S.taken S.faults S.refused line.new out.new }
{
    put_key(section_of(path.array), path.index, path.key, line, out);
    put_item(path.item, line, out);
}

/// Appends which expression is meant: that of the rule with this number.
fn put_rule<S: Sink>(index: u32, line: &mut Writer<S>, out: &mut S)
    requires follows { Follows S.taken S.faults S.refused line.old out.old }
    ensures text { line.new.text ≡ line.old.text ++ spec.rule_text index }
    ensures begun { line.new.begun ≡ line.old.begun }
    ensures follows { Follows S.taken S.faults S.refused line.new out.new }
{
    put("policy: regex rule", line, out);
    put_in_brackets(index, line, out);
}

/// The same, with what is refused and its offset in the expression, in bytes.
fn put_refused<S: Sink>(index: u32, reason: &str, at: u32, line: &mut Writer<S>, out: &mut S)
    requires follows { Follows S.taken S.faults S.refused line.old out.old }
    ensures text { line.new.text ≡ line.old.text ++ spec.refused index reason.now at }
    ensures begun { line.new.begun ≡ line.old.begun }
    ensures follows { Follows S.taken S.faults S.refused line.new out.new }
{
    put_rule(index, line, out);
    put(reason, line, out);
    line.put_number(u64::from(at), out);
}

/// Appends the line of an expression that is refused.
fn put_regex<S: Sink>(index: u32, fault: &RegexFault, line: &mut Writer<S>, out: &mut S)
    requires follows { Follows S.taken S.faults S.refused line.old out.old }
    ensures text { line.new.text ≡ line.old.text ++ spec.regex_text index fault.now }
    ensures begun { line.new.begun ≡ line.old.begun }
    ensures follows { Follows S.taken S.faults S.refused line.new out.new }
{
    match fault {
        RegexFault::At(at) => put_refused(index, " at ", *at, line, out),
        RegexFault::UnknownDescriptor(at) => put_refused(index, " descriptor ", *at, line, out),
        RegexFault::UnknownRight(at) => put_refused(index, " right ", *at, line, out),
        RegexFault::TooDeep => put("limit: nesting", line, out),
        RegexFault::NoMemory => put("memory", line, out),
    }
}

/// Appends what is wrong and where.
fn put_at<S: Sink>(reason: &str, path: Path, line: &mut Writer<S>, out: &mut S)
    requires follows { Follows S.taken S.faults S.refused line.old out.old }
    ensures text { line.new.text ≡ line.old.text ++ spec.at_path reason.now path }
    ensures begun { line.new.begun ≡ line.old.begun }
    ensures follows { Follows S.taken S.faults S.refused line.new out.new }
{
    put(reason, line, out);
    put_path(path, line, out);
}

/// Appends the line of a refusal, without its end, as `policy: missing limit[1].keep` or `limit: rules`.
pub fn put_fault<S: Sink>(fault: &PolicyFault, line: &mut Writer<S>, out: &mut S)
    requires follows { Follows S.taken S.faults S.refused line.old out.old }
    ensures text { line.new.text ≡ line.old.text ++ spec.fault_line fault.now }
    ensures begun { line.new.begun ≡ line.old.begun }
    ensures follows { Follows S.taken S.faults S.refused line.new out.new }
{
    match fault {
        PolicyFault::Toml => put("policy: toml", line, out),
        PolicyFault::Missing(path) => put_at("policy: missing ", *path, line, out),
        PolicyFault::Unknown(path) => put_at("policy: unknown ", *path, line, out),
        PolicyFault::Kind(path) => put_at("policy: kind ", *path, line, out),
        PolicyFault::Regex(index, fault) => put_regex(*index, fault, line, out),
        PolicyFault::Limit(quantity) => {
            put("limit: ", line, out);
            put(quantity.name(), line, out);
        }
        PolicyFault::Twice(path) => put_at("policy: twice ", *path, line, out),
        PolicyFault::NoMemory => put("memory", line, out),
    }
}
