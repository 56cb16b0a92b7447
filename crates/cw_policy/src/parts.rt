//! The parts of the policy that a tree of the form has, but for its rules.

ghost use Rattle.std.specs.Prelude.{◌≡◌, ◌≤◌, [], length, map, option_map, IfOk, OnOk};
ghost use Rattle.cw_core.specs.Quantities.{limit_of};
ghost use Rattle.toml.specs.View.{view, items_view, table_view};
ghost use Rattle.cw_rights.specs.Policies.{descriptor_of};
ghost use Rattle.cw_rights.specs.Names.{all_rights, right_mask};
ghost use Rattle.cw_regex.specs.Labels.{names_in};
ghost use Rattle.cw_regex.specs.Meaning as meaning;
ghost use Rattle.cw_policy.specs.Names as names;
ghost use Rattle.cw_policy.specs.Parts as spec;

use crate::form::{array_at, items_at, member};
use crate::keys::{Key, key_text};
use crate::names::{field, is_among, name_of, text_at};
use cw_core::{NoMemory, Quantity};
use cw_rights::{ALL_RIGHTS, Descriptor, Limit, Rights, right_named};
use indexmap::IndexSet;
use std::alloc::Global;
use toml::{Table, Value};

/// A set of rights with those of one name more.
fn with_rights(format: u8, rights: u16, name: &str) -> u16
    requires within { rights ≤ all_rights }
    ensures rights { result ≡ spec.with_rights rights (right_mask format name.now) }
    ensures within { result ≤ all_rights }
{
    match right_named(name.as_bytes(), format) {
        None => rights,
        Some(more) => rights | more.0,
    }
}

/// The set of the rights that some items name.
fn rights_of(format: u8, items: &[Value]) -> u16
    ensures rights { result ≡ spec.rights_of format 0 (items_view items.now) }
    ensures within { result ≤ all_rights }
{
    let mut rights = 0;
    'items: for item in items {
        rights = with_rights(format, rights, name_of(item));
    }
    rights
}

/// The set of rights at a key, all where the key isn't there.
fn rights_at(format: u8, value: Option<&Value>) -> Rights
    ensures rights { result ≡ spec.rights_at format (option_map (λ x. view x.now) value.entry) }
    ensures within { result.0 ≤ all_rights }
{
    match value {
        Some(_) => Rights(rights_of(format, items_at(value))),
        None => Rights(ALL_RIGHTS),
    }
}

/// The number of a descriptor that is open at the start, by its name.
fn digit_of(name: &str) -> Option<u8>
    ensures { result ≡ spec.digit_of name.now }
{
    match name {
        "0" => Some(0),
        "1" => Some(1),
        "2" => Some(2),
        _ => None,
    }
}

/// A copy of a text.
fn copied(alloc: Global, text: &str) -> Result<Vec<u8>, NoMemory>
    ensures bytes { IfOk result (λ copy. copy.items ≡ text.now) }
{
    let mut copy = Vec::new(alloc);
    copy.extend_from_slice(text.as_bytes())?;
    Ok(copy)
}

/// A descriptor from its table.
fn descriptor_in(alloc: Global, format: u8, value: &Value) -> Result<Descriptor, NoMemory>
    ensures descriptor { IfOk result (λ d. descriptor_of d ≡ spec.descriptor_in format (view value.now)) }
{
    let name = name_of(value);
    Ok(Descriptor {
        name: copied(alloc, name)?,
        number: digit_of(name),
        rights: rights_at(format, field(value, "rights")),
    })
}

/// The descriptors of a policy.
pub fn descriptors_in(
    alloc: Global,
    format: u8,
    items: &[Value],
) -> Result<Vec<Descriptor>, NoMemory>
    ensures descriptors { IfOk result (λ list. map descriptor_of list.items ≡ spec.descriptors_in format (items_view items.now)) }
{
    let mut list = Vec::new(alloc);
    'items: for item in items {
        list.push(descriptor_in(alloc, format, item)?)?;
    }
    Ok(list)
}

/// The number of the descriptor with this name, 0 where none has it.
fn descriptor_number(descriptors: &[Descriptor], name: &str) -> u8
    requires { length descriptors.now ≤ limit_of Quantity.Descriptors }
    ensures { result ≡ meaning.number_in (meaning.names_of descriptors.now) name.now }
{
    for (i, descriptor) in descriptors.iter().enumerate() {
        if name.as_bytes() == descriptor.name.as_slice() {
            return i as u8;
        }
    }
    0
}

/// A limit from its table.
fn limit_in(format: u8, descriptors: &[Descriptor], value: &Value) -> Limit
    requires { length descriptors.now ≤ limit_of Quantity.Descriptors }
    ensures { result ≡ spec.limit_in format (meaning.names_of descriptors.now) (view value.now) }
{
    Limit {
        descriptor: descriptor_number(descriptors, text_at(field(value, "descriptor"))),
        keep: Rights(rights_of(format, items_at(field(value, "keep")))),
    }
}

/// The limits of a policy.
pub fn limits_in(
    alloc: Global,
    format: u8,
    descriptors: &[Descriptor],
    items: &[Value],
) -> Result<Vec<Limit>, NoMemory>
    requires { length descriptors.now ≤ limit_of Quantity.Descriptors }
    ensures limits { IfOk result (λ list. list.items ≡ spec.limits_in format (meaning.names_of descriptors.now) (items_view items.now)) }
{
    let mut list = Vec::new(alloc);
    'items: for item in items {
        list.push(limit_in(format, descriptors, item))?;
    }
    Ok(list)
}

/// Whether the policy lets primitives of a kind be refused.
pub fn refuses(table: &Table, kind: &str) -> bool
    ensures { result ≡ spec.refuses kind.now (table_view table.now) }
{
    is_among(array_at(table, Key::Refusable), kind)
}

/// Whether the weaver may end the program after a refusal.
pub fn stops(table: &Table) -> bool
    ensures { result ≡ spec.stops (table_view table.now) }
{
    text_at(member(table, key_text(Key::OnRefusal))) == "stop"
}

/// The names of some items.
pub fn names_of(alloc: Global, items: &[Value]) -> Result<Vec<Vec<u8>>, NoMemory>
    ensures names { IfOk result (λ list. map (λ name. name.items) list.items ≡ names.names_of (items_view items.now)) }
{
    let mut list = Vec::new(alloc);
    'items: for item in items {
        list.push(copied(alloc, name_of(item))?)?;
    }
    Ok(list)
}

/// Numbers a label, where it has no number yet.
fn add_label(alloc: Global, labels: &mut IndexSet<Vec<u8>>, label: &str) -> Result<(), NoMemory>
    ensures added { OnOk result (names_in labels.new.keys ≡ meaning.with_name (names_in labels.old.keys) label.now) }
{
    if labels.contains(label.as_bytes()) {
        return Ok(());
    }
    labels.insert(copied(alloc, label)?)?;
    Ok(())
}

/// The labels of the tables `at`, in the order of first mention.
pub fn labels_of(alloc: Global, items: &[Value]) -> Result<IndexSet<Vec<u8>>, NoMemory>
    ensures labels { IfOk result (λ labels. names_in labels.keys ≡ spec.labels_from [] (items_view items.now)) }
{
    let mut labels = IndexSet::new(alloc);
    'items: for item in items {
        add_label(alloc, &mut labels, text_at(field(item, "label")))?;
    }
    Ok(labels)
}

/// The labels of a set, in their order.
pub fn listed(alloc: Global, labels: &IndexSet<Vec<u8>>) -> Result<Vec<Vec<u8>>, NoMemory>
    ensures labels { IfOk result (λ list. map (λ name. name.items) list.items ≡ names_in labels.now.keys) }
{
    let mut list = Vec::new(alloc);
    'labels: for label in labels.as_slice() {
        list.push(label.to_vec(alloc)?)?;
    }
    Ok(list)
}
