//! Whether a policy's tree has the form.

ghost use Rattle.std.specs.Prelude.{◌≡◌, ◌⊎◌, option_map};
ghost use Rattle.std.specs.List.{list_all};
ghost use Rattle.toml.specs.Data.{get, get_member};
ghost use Rattle.toml.specs.View.{view, items_view, array_view, table_view};
ghost use Rattle.cw_regex.specs.Grammar as grammar;
ghost use Rattle.cw_policy.specs.Form as spec;

use crate::fault::PolicyFault;
use crate::keys::{Key, Section, is_known, is_required, key_number, key_text, keys_of, path};
use cw_rights::{is_name, is_name_byte, is_name_start};
use toml::value::Array;
use toml::{Table, Value};

/// A byte that may stand in a rule's name: of a C name, or `-`.
fn is_rule_byte(byte: u8) -> bool
    ensures { result ≡ spec.is_rule_byte byte }
{
    is_name_byte(byte) || byte == 45
}

/// Whether all bytes may stand in a rule's name.
fn are_rule_bytes(bytes: &[u8]) -> bool
    ensures { result ≡ list_all spec.is_rule_byte bytes.now }
{
    bytes.iter().all(|byte| is_rule_byte(*byte))
}

/// Whether a text is a rule's name: a letter or `_`, and then letters, digits, `_` and `-`.
fn is_rule_name(text: &str) -> bool
    ensures { result ≡ spec.is_rule_name text.now }
{
    match text.as_bytes().split_first() {
        Some((first, rest)) => is_name_start(*first) && are_rule_bytes(rest),
        None => false,
    }
}

/// Whether a text is the number of a descriptor that is open at the start: `0`, `1` or `2`.
fn is_digit(text: &[u8]) -> bool
    ensures { result ≡ grammar.is_digit text.now }
{
    text.len() == 1 && (text[0] == 48 || text[0] == 49 || text[0] == 50)
}

/// Whether a text may name a descriptor: a C name, or `0`, `1` or `2`.
fn is_descriptor(text: &str) -> bool
    ensures { result ≡ grammar.is_descriptor text.now }
{
    is_name(text.as_bytes()) || is_digit(text.as_bytes())
}

/// Whether a text is a kind of primitive, as `refusable` lists them.
fn is_kind(text: &str) -> bool
    ensures { result ≡ spec.is_kind text.now }
{
    text == "limit" || text == "enter" || text == "split"
}

/// Whether a text is a value of `on_refusal`.
fn is_answer(text: &str) -> bool
    ensures { result ≡ spec.is_answer text.now }
{
    text == "go" || text == "stop"
}

/// Whether a value may name a function.
fn is_function(value: &Value) -> bool
    ensures { result ≡ spec.is_item Key.Split (view value.now) }
{
    match value {
        Value::String(text) => is_name(text.as_bytes()),
        _ => false,
    }
}

/// Whether a value has the form of an item of this key's array.
fn is_item(key: Key, value: &Value) -> bool
    ensures { result ≡ spec.is_item key (view value.now) }
{
    match key {
        Key::Refusable => match value {
            Value::String(text) => is_kind(text.as_str()),
            _ => false,
        },
        Key::Split => is_function(value),
        Key::Detached => is_function(value),
        Key::Descriptors => value.is_table(),
        Key::Limits => value.is_table(),
        Key::Ats => value.is_table(),
        Key::Rules => value.is_table(),
        Key::Rights => value.is_str(),
        Key::Keep => value.is_str(),
        Key::Must => value.is_str(),
        Key::Never => value.is_str(),
        _ => false,
    }
}

/// Whether a key's value stands alone; else it is an array of items.
fn is_single(key: Key) -> bool
    ensures { result ≡ spec.is_single key }
{
    match key {
        Key::Format => true,
        Key::OnRefusal => true,
        Key::Name => true,
        Key::Of => true,
        Key::Label => true,
        Key::RuleName => true,
        Key::Bad => true,
        _ => false,
    }
}

/// Whether a value has the form that its key says, where it stands alone.
fn is_value(key: Key, value: &Value) -> bool
    ensures { result ≡ spec.is_value key (view value.now) }
{
    match key {
        Key::Format => match value {
            Value::Integer(number) => *number == 1 || *number == 2,
            _ => false,
        },
        Key::OnRefusal => match value {
            Value::String(text) => is_answer(text.as_str()),
            _ => false,
        },
        Key::Name => match value {
            Value::String(text) => is_descriptor(text.as_str()),
            _ => false,
        },
        Key::Of => value.is_str(),
        Key::Label => match value {
            Value::String(text) => is_name(text.as_bytes()),
            _ => false,
        },
        Key::RuleName => match value {
            Value::String(text) => is_rule_name(text.as_str()),
            _ => false,
        },
        Key::Bad => value.is_str(),
        _ => false,
    }
}

/// The number of the first item of an array that has not its form, from 1.
fn wrong_item(key: Key, array: &Array) -> Option<usize>
    ensures { result ≡ spec.first_in (spec.wrong_item key) 1 (array_view array.now) }
{
    let mut number = 1;
    'items: for item in array {
        if !is_item(key, item) {
            return Some(number);
        }
        number += 1;
    }
    None
}

/// The same, and 0 where the value is no array.
fn wrong_array(key: Key, value: &Value) -> Option<usize>
    ensures { result ≡ spec.wrong_array key (view value.now) }
{
    match value {
        Value::Array(array) => wrong_item(key, array),
        _ => Some(0),
    }
}

/// What is wrong with a key's value: 0 for the value itself, else the number of its item, from 1; None where nothing is.
fn wrong(key: Key, value: &Value) -> Option<usize>
    ensures { result ≡ spec.wrong key (view value.now) }
{
    if is_single(key) {
        if is_value(key, value) { None } else { Some(0) }
    } else {
        wrong_array(key, value)
    }
}

/// The value at a key of a table.
pub fn member<'a>(table: &'a Table, key: &str) -> Option<&'a Value>
    ensures { option_map (λ x. view x.now) result ≡ get_member key.now (table_view table.now) }
{
    table.get(key)
}

/// The items of an array at a key, and none where there is no array.
pub fn items_at<'a>(value: Option<&'a Value>) -> &'a [Value]
    ensures { items_view result.now ≡ spec.items_at (option_map (λ x. view x.now) value.entry) }
{
    match value {
        Some(found) => match found {
            Value::Array(array) => array.as_slice(),
            _ => &[],
        },
        None => &[],
    }
}

/// The items of the array at a key of the root.
pub fn array_at<'a>(table: &'a Table, key: Key) -> &'a [Value]
    ensures { items_view result.now ≡ spec.array_at key (table_view table.now) }
{
    items_at(member(table, key_text(key)))
}

/// The format that a value says: 2 for the number 2, and 1 for anything else and for none.
fn format_in(value: Option<&Value>) -> u8
    ensures { result ≡ spec.format_in (option_map (λ x. view x.now) value.entry) }
{
    match value {
        Some(found) => match found {
            Value::Integer(number) => { if *number == 2 { 2 } else { 1 } }
            _ => 1,
        },
        None => 1,
    }
}

/// The format of a tree: 2 where its `format` is the integer 2, and else 1.
pub fn format_of(table: &Table) -> u8
    ensures format { result ≡ spec.format_of (table_view table.now) }
    ensures either { (result ≡ 1) ⊎ (result ≡ 2) }
{
    format_in(member(table, key_text(Key::Format)))
}

/// Whether a table lacks this key, though it must have it.
fn is_missing(key: Key, table: &Table) -> bool
    ensures { result ≡ spec.is_missing key (table_view table.now) }
{
    is_required(key) && member(table, key_text(key)).is_none()
}

/// The first of some keys that a table lacks.
fn missing_key(keys: &[Key], table: &Table) -> Option<Key>
    ensures { result ≡ spec.missing_key keys.now (table_view table.now) }
{
    'keys: for key in keys {
        if is_missing(*key, table) {
            return Some(*key);
        }
    }
    None
}

/// Whether a text is one of these keys, and one that the format knows.
fn is_listed(format: u8, keys: &[Key], text: &str) -> bool
    ensures { result ≡ spec.is_listed format keys.now text.now }
{
    'keys: for key in keys {
        if is_known(format, *key) && text == key_text(*key) {
            return true;
        }
    }
    false
}

/// Whether a table has no other keys than these.
fn has_only(format: u8, keys: &[Key], table: &Table) -> bool
    ensures { result ≡ spec.has_only format keys.now (table_view table.now) }
{
    'members: for (text, _value) in table.iter() {
        if !is_listed(format, keys, text.as_str()) {
            return false;
        }
    }
    true
}

/// What is wrong with a key's value, where the table has the key.
fn wrong_at(key: Key, value: Option<&Value>) -> Option<usize>
    ensures { result ≡ spec.wrong_at key (option_map (λ x. view x.now) value.entry) }
{
    match value {
        Some(found) => wrong(key, found),
        None => None,
    }
}

/// The first of some keys whose value is wrong, with what is wrong.
fn wrong_key(keys: &[Key], table: &Table) -> Option<(Key, usize)>
    ensures { result ≡ spec.wrong_key keys.now (table_view table.now) }
{
    'keys: for key in keys {
        match wrong_at(*key, member(table, key_text(*key))) {
            Some(item) => return Some((*key, item)),
            None => {}
        }
    }
    None
}

/// The first fault of one table.
#[tactic(auto, unfolding(crate::specs::Form::table_fault))]
fn table_fault(format: u8, section: Section, index: usize, table: &Table) -> Option<PolicyFault>
    ensures { result ≡ spec.table_fault format section index (table_view table.now) }
{
    let keys = keys_of(section);
    if let Some(key) = missing_key(keys, table) {
        return Some(PolicyFault::Missing(path(section, index, key_number(key), 0)));
    }
    if !has_only(format, keys, table) {
        return Some(PolicyFault::Unknown(path(section, index, 0, 0)));
    }
    match wrong_key(keys, table) {
        Some((key, item)) => Some(PolicyFault::Kind(path(section, index, key_number(key), item))),
        None => None,
    }
}

/// What is wrong with a table in an array of tables.
fn element_fault(format: u8, section: Section, index: usize, value: &Value) -> Option<PolicyFault>
    ensures { result ≡ spec.element_fault format section index (view value.now) }
{
    match value {
        Value::Table(table) => table_fault(format, section, index, table),
        _ => None,
    }
}

/// What is wrong first in an array of tables.
fn array_fault(format: u8, section: Section, items: &[Value]) -> Option<PolicyFault>
    ensures { result ≡ spec.array_fault format section (items_view items.now) }
{
    let mut index = 0;
    'items: for item in items {
        match element_fault(format, section, index, item) {
            Some(fault) => return Some(fault),
            None => {}
        }
        index += 1;
    }
    None
}

/// The first path where a tree hasn't the form of a policy.
#[tactic(auto, unfolding(crate::specs::Form::form_fault))]
pub fn form_fault(table: &Table) -> Option<PolicyFault>
    ensures { result ≡ spec.form_fault (table_view table.now) }
{
    let format = format_of(table);
    match table_fault(format, Section::Root, 0, table) {
        Some(fault) => return Some(fault),
        None => {}
    }
    match array_fault(
        format,
        Section::Descriptor,
        array_at(table, Key::Descriptors),
    ) {
        Some(fault) => return Some(fault),
        None => {}
    }
    match array_fault(format, Section::Limit, array_at(table, Key::Limits)) {
        Some(fault) => return Some(fault),
        None => {}
    }
    match array_fault(format, Section::At, array_at(table, Key::Ats)) {
        Some(fault) => return Some(fault),
        None => {}
    }
    array_fault(format, Section::Rule, array_at(table, Key::Rules))
}
