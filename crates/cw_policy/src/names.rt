//! Names that aren't known, names that stand twice, and too many descriptors.

ghost use Rattle.std.specs.Prelude.{◌≡◌, [], option_map, is_some};
ghost use Rattle.toml.specs.Data.{get};
ghost use Rattle.toml.specs.View.{view, items_view, table_view};
ghost use Rattle.cw_rights.specs.Names.{right_mask};
ghost use Rattle.cw_policy.specs.Form as form;
ghost use Rattle.cw_policy.specs.Names as spec;

use crate::fault::PolicyFault;
use crate::form::{array_at, form_fault, format_of, items_at, member};
use crate::keys::{Key, Section, key_number, path};
use cw_core::{Quantity, limits};
use cw_rights::right_named;
use toml::{Table, Value};

/// The value at a key of a table, and None where the value is no table.
pub fn field<'a>(value: &'a Value, key: &str) -> Option<&'a Value>
    ensures { option_map (λ x. view x.now) result ≡ get key.now (view value.now) }
{
    match value {
        Value::Table(table) => member(table, key),
        _ => None,
    }
}

/// The text of a string, and none where there is no string.
pub fn text_at<'a>(value: Option<&'a Value>) -> &'a str
    ensures { result.now ≡ form.text_at (option_map (λ x. view x.now) value.entry) }
{
    match value {
        Some(found) => match found {
            Value::String(text) => text.as_str(),
            _ => "",
        },
        None => "",
    }
}

/// The text of a string, or of the name of a table.
pub fn name_of(value: &Value) -> &str
    ensures { result.now ≡ spec.name_of (view value.now) }
{
    match value {
        Value::String(text) => text.as_str(),
        Value::Table(table) => text_at(member(table, "name")),
        _ => "",
    }
}

/// Whether one of the items has the name.
pub fn is_among(items: &[Value], name: &str) -> bool
    ensures { result ≡ spec.is_among (spec.names_of (items_view items.now)) name.now }
{
    'items: for item in items {
        if name == name_of(item) {
            return true;
        }
    }
    false
}

/// Whether this format knows a right by this name.
fn is_right(format: u8, name: &str) -> bool
    ensures { result ≡ is_some (right_mask format name.now) }
{
    right_named(name.as_bytes(), format).is_some()
}

/// The number of the first item that names no right, from 1.
fn unknown_right(format: u8, items: &[Value]) -> Option<usize>
    ensures { result ≡ form.first_in (spec.unknown_right format) 1 (items_view items.now) }
{
    let mut number = 1;
    'items: for item in items {
        if !is_right(format, name_of(item)) {
            return Some(number);
        }
        number += 1;
    }
    None
}

/// The fault of the item with this number, if there is one.
fn unknown_item(section: Section, index: usize, key: u8, item: Option<usize>) -> Option<PolicyFault>
    ensures { result ≡ spec.unknown_item section index key item }
{
    match item {
        Some(number) => Some(PolicyFault::Unknown(path(section, index, key, number))),
        None => None,
    }
}

/// What is not known first among the rights at a key.
fn rights_fault(
    format: u8,
    section: Section,
    index: usize,
    key: u8,
    value: Option<&Value>,
) -> Option<PolicyFault>
    ensures { result ≡ spec.rights_fault format section index key (option_map (λ x. view x.now) value.entry) }
{
    unknown_item(section, index, key, unknown_right(format, items_at(value)))
}

/// What is not known in the table of a descriptor.
fn descriptor_unknown(format: u8, index: usize, value: &Value) -> Option<PolicyFault>
    ensures { result ≡ spec.descriptor_unknown format index (view value.now) }
{
    rights_fault(
        format,
        Section::Descriptor,
        index,
        2,
        field(value, "rights"),
    )
}

/// What is not known first in the tables of descriptors.
fn descriptors_unknown(format: u8, items: &[Value]) -> Option<PolicyFault>
    ensures { result ≡ form.first_in (spec.descriptor_unknown format) 0 (items_view items.now) }
{
    let mut index = 0;
    'items: for item in items {
        match descriptor_unknown(format, index, item) {
            Some(fault) => return Some(fault),
            None => {}
        }
        index += 1;
    }
    None
}

/// What is not known in the table of a limit: its descriptor, or a right.
fn limit_unknown(
    format: u8,
    descriptors: &[Value],
    index: usize,
    value: &Value,
) -> Option<PolicyFault>
    ensures { result ≡ spec.limit_unknown format (spec.names_of (items_view descriptors.now)) index (view value.now) }
{
    if !is_among(descriptors, text_at(field(value, "descriptor"))) {
        return Some(PolicyFault::Unknown(path(Section::Limit, index, 1, 0)));
    }
    rights_fault(format, Section::Limit, index, 2, field(value, "keep"))
}

/// What is not known first in the tables of limits.
fn limits_unknown(format: u8, descriptors: &[Value], items: &[Value]) -> Option<PolicyFault>
    ensures { result ≡ form.first_in (spec.limit_unknown format (spec.names_of (items_view descriptors.now))) 0 (items_view items.now) }
{
    let mut index = 0;
    'items: for item in items {
        match limit_unknown(format, descriptors, index, item) {
            Some(fault) => return Some(fault),
            None => {}
        }
        index += 1;
    }
    None
}

/// What is not known first in a policy: in its descriptors, and then in its limits.
#[tactic(auto, unfolding(crate::specs::Names::unknown_fault))]
fn unknown_fault(table: &Table) -> Option<PolicyFault>
    ensures { result ≡ spec.unknown_fault (table_view table.now) }
{
    let format = format_of(table);
    let descriptors = array_at(table, Key::Descriptors);
    match descriptors_unknown(format, descriptors) {
        Some(fault) => Some(fault),
        None => limits_unknown(format, descriptors, array_at(table, Key::Limits)),
    }
}

/// The number of the first item whose name an item before it has.
fn repeated(items: &[Value]) -> Option<usize>
    ensures { result ≡ spec.repeated [] 0 (spec.names_of (items_view items.now)) }
{
    let mut index = 0;
    'items: for item in items {
        if is_among(&items[..index], name_of(item)) {
            return Some(index);
        }
        index += 1;
    }
    None
}

/// The fault of a table whose name stands twice.
fn twice_table(section: Section, index: Option<usize>) -> Option<PolicyFault>
    ensures { result ≡ spec.twice_table section index }
{
    match index {
        Some(number) => Some(PolicyFault::Twice(path(section, number, 1, 0))),
        None => None,
    }
}

/// The fault of an item that stands twice.
fn twice_item(key: Key, index: Option<usize>) -> Option<PolicyFault>
    ensures { result ≡ spec.twice_item key index }
{
    match index {
        Some(number) => Some(PolicyFault::Twice(path(
            Section::Root,
            0,
            key_number(key),
            number.saturating_add(1),
        ))),
        None => None,
    }
}

/// What stands twice first: descriptors, functions to split, functions to detach, rules.
#[tactic(auto, unfolding(crate::specs::Names::twice_fault))]
fn twice_fault(table: &Table) -> Option<PolicyFault>
    ensures { result ≡ spec.twice_fault (table_view table.now) }
{
    match twice_table(
        Section::Descriptor,
        repeated(array_at(table, Key::Descriptors)),
    ) {
        Some(fault) => return Some(fault),
        None => {}
    }
    match twice_item(Key::Split, repeated(array_at(table, Key::Split))) {
        Some(fault) => return Some(fault),
        None => {}
    }
    match twice_item(Key::Detached, repeated(array_at(table, Key::Detached))) {
        Some(fault) => return Some(fault),
        None => {}
    }
    twice_table(Section::Rule, repeated(array_at(table, Key::Rules)))
}

/// How many items there are.
pub fn count(items: &[Value]) -> usize
    ensures { result ≡ spec.count (items_view items.now) }
{
    items.len()
}

/// Whether there are too many descriptors.
fn count_fault(table: &Table) -> Option<PolicyFault>
    ensures { result ≡ spec.count_fault (table_view table.now) }
{
    if count(array_at(table, Key::Descriptors)) > limits::DESCRIPTORS {
        Some(PolicyFault::Limit(Quantity::Descriptors))
    } else {
        None
    }
}

/// The first fault of a tree before its tests and expressions are read.
#[tactic(auto, unfolding(crate::specs::Names::early_fault))]
pub fn early_fault(table: &Table) -> Option<PolicyFault>
    ensures { result ≡ spec.early_fault (table_view table.now) }
{
    match form_fault(table) {
        Some(fault) => return Some(fault),
        None => {}
    }
    match unknown_fault(table) {
        Some(fault) => return Some(fault),
        None => {}
    }
    match twice_fault(table) {
        Some(fault) => return Some(fault),
        None => {}
    }
    count_fault(table)
}
