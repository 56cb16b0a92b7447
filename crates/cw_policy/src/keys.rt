//! The tables of a policy, and their keys.

ghost use Rattle.std.specs.Prelude.{◌≡◌};
ghost use Rattle.cw_policy.specs.Keys as spec;

use crate::fault::Path;

/// The kinds of tables.
#[derive(Clone, Copy, Drop)]
pub enum Section {
    Root,
    Descriptor,
    Limit,
    At,
    Rule,
}

/// The keys of all tables.
#[derive(Clone, Copy, Drop)]
pub enum Key {
    Format,
    Refusable,
    Split,
    OnRefusal,
    Detached,
    Descriptors,
    Limits,
    Ats,
    Rules,
    Name,
    Rights,
    Of,
    Keep,
    Label,
    Must,
    Never,
    RuleName,
    Bad,
}

/// The keys of the root, by their numbers from 1.
const ROOT: [Key; 9] = [
    Key::Format,
    Key::Refusable,
    Key::Split,
    Key::OnRefusal,
    Key::Detached,
    Key::Descriptors,
    Key::Limits,
    Key::Ats,
    Key::Rules,
];

/// The keys of a `descriptor` table, by their numbers from 1.
const DESCRIPTOR: [Key; 2] = [Key::Name, Key::Rights];

/// The keys of a `limit` table, by their numbers from 1.
const LIMIT: [Key; 2] = [Key::Of, Key::Keep];

/// The keys of an `at` table, by their numbers from 1.
const AT: [Key; 3] = [Key::Label, Key::Must, Key::Never];

/// The keys of a `rule` table, by their numbers from 1.
const RULE: [Key; 2] = [Key::RuleName, Key::Bad];

/// The number of a kind of table, as a path holds it.
fn section_number(section: Section) -> u8
    ensures { result ≡ spec.section_number section }
{
    match section {
        Section::Root => 0,
        Section::Descriptor => 1,
        Section::Limit => 2,
        Section::At => 3,
        Section::Rule => 4,
    }
}

/// The keys of a kind of table, in their order.
pub(crate) fn keys_of(section: Section) -> &'static [Key]
    ensures { result.now ≡ spec.keys_of section }
{
    match section {
        Section::Root => &ROOT,
        Section::Descriptor => &DESCRIPTOR,
        Section::Limit => &LIMIT,
        Section::At => &AT,
        Section::Rule => &RULE,
    }
}

/// Whether a format knows the key: `detached` is known in format 2 alone.
pub(crate) fn is_known(format: u8, key: Key) -> bool
    ensures { result ≡ spec.is_known format key }
{
    match key {
        Key::Detached => format == 2,
        _ => true,
    }
}

/// A key's number in the list of its table's keys, from 1.
pub(crate) fn key_number(key: Key) -> u8
    ensures { result ≡ spec.key_number key }
{
    match key {
        Key::Format => 1,
        Key::Refusable => 2,
        Key::Split => 3,
        Key::OnRefusal => 4,
        Key::Detached => 5,
        Key::Descriptors => 6,
        Key::Limits => 7,
        Key::Ats => 8,
        Key::Rules => 9,
        Key::Name => 1,
        Key::Rights => 2,
        Key::Of => 1,
        Key::Keep => 2,
        Key::Label => 1,
        Key::Must => 2,
        Key::Never => 3,
        Key::RuleName => 1,
        Key::Bad => 2,
    }
}

/// A key's text.
pub(crate) fn key_text(key: Key) -> &'static str
    ensures { result.now ≡ spec.key_text key }
{
    match key {
        Key::Format => "format",
        Key::Refusable => "refusable",
        Key::Split => "split",
        Key::OnRefusal => "on_refusal",
        Key::Detached => "detached",
        Key::Descriptors => "descriptor",
        Key::Limits => "limit",
        Key::Ats => "at",
        Key::Rules => "rule",
        Key::Name => "name",
        Key::Rights => "rights",
        Key::Of => "descriptor",
        Key::Keep => "keep",
        Key::Label => "label",
        Key::Must => "must",
        Key::Never => "never",
        Key::RuleName => "name",
        Key::Bad => "bad",
    }
}

/// Whether a table must have the key.
pub(crate) fn is_required(key: Key) -> bool
    ensures { result ≡ spec.is_required key }
{
    match key {
        Key::Format => true,
        Key::Name => true,
        Key::Of => true,
        Key::Keep => true,
        Key::Label => true,
        Key::RuleName => true,
        Key::Bad => true,
        _ => false,
    }
}

/// A number as a path holds it.
pub(crate) fn narrow(number: usize) -> u32
    ensures { result ≡ spec.narrow number }
{
    if number < 4294967295 {
        number as u32
    } else {
        4294967295
    }
}

/// The path of a table (key 0), of a key's value (item 0), or of an item of it.
pub(crate) fn path(section: Section, index: usize, key: u8, item: usize) -> Path
    ensures { result ≡ spec.path section index key item }
{
    Path {
        array: section_number(section),
        index: narrow(index),
        key,
        item: narrow(item),
    }
}
