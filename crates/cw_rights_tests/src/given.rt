//! What several tests are given: letters by one byte each, and expressions and rules by their texts.
ghost use Rattle.std.specs.Prelude.{◌≡◌, ◌⊎◌};

use cw_regex::{RegexFault, read_regex};
use cw_rights::{Caps, Descriptor, Hold, Letter, Regex, Rights, Rule};
use indexmap::IndexSet;
use std::alloc::Global;
use std::process::Abort;

/// The letter of a byte, with these descriptors: `a`, `b` and `c` are the labels 0, 1 and 2 with ambient authority, and `B` is the label 1
/// without.
pub fn letter_of(byte: u8, holds: [Hold; 8]) -> Letter {
    let label = match byte {
        b'a' => 0,
        b'c' => 2,
        _ => 1,
    };
    let amb = byte != b'B';
    Letter {
        label,
        caps: Caps { amb, holds },
    }
}

fn descriptor_of(rt: &impl Abort, alloc: Global, name: &str, number: Option<u8>) -> Descriptor {
    Descriptor {
        name: Vec::from_slice(alloc, name.as_bytes()).expect(rt, "memory"),
        number,
        rights: Rights(0xfff),
    }
}

/// Two descriptors: one of this name and number, and the variable `log`.
pub fn descriptors_of(rt: &impl Abort, alloc: Global, name: &str, number: u8) -> [Descriptor; 2] {
    [
        descriptor_of(rt, alloc, name, Some(number)),
        descriptor_of(rt, alloc, "log", None),
    ]
}

/// What an expression is read as, over the descriptors `0` and `log`.
pub fn expression_of(
    rt: &impl Abort,
    alloc: Global,
    text: &str,
    labels: &mut IndexSet<Vec<u8>>,
    format: u8,
) -> Result<Regex, RegexFault>
    requires { (format ≡ 1) ⊎ (format ≡ 2) }
{
    assert!(rt; labels.len() <= 5_000 && text.len() <= 60_000);
    let descriptors = descriptors_of(rt, alloc, "0", 0);
    read_regex(alloc, text, &descriptors, labels, format)
}

/// The same, where the labels are numbered from 0.
pub fn lone_expression_of(
    rt: &impl Abort,
    alloc: Global,
    text: &str,
    format: u8,
) -> Result<Regex, RegexFault>
    requires { (format ≡ 1) ⊎ (format ≡ 2) }
{
    let mut labels = IndexSet::new(alloc);
    expression_of(rt, alloc, text, &mut labels, format)
}

/// The tree of an expression that is read, over the descriptors `0` and `log`.
pub fn tree_of(
    rt: &impl Abort,
    alloc: Global,
    text: &str,
    labels: &mut IndexSet<Vec<u8>>,
    format: u8,
) -> Regex
    requires { (format ≡ 1) ⊎ (format ≡ 2) }
{
    expression_of(rt, alloc, text, labels, format).expect(rt, text)
}

fn push_rule(rt: &impl Abort, alloc: Global, rules: &mut Vec<Rule>, bad: Regex) {
    let name = Vec::new(alloc);
    rules.push(Rule { name, bad }).expect(rt, "memory");
}

/// A rule of each of these expressions, whose labels are numbered together.
pub fn rules_of(rt: &impl Abort, alloc: Global, texts: &[&str]) -> Vec<Rule> {
    let mut labels = IndexSet::new(alloc);
    let mut rules = Vec::new(alloc);
    for text in texts {
        let bad = tree_of(rt, alloc, text, &mut labels, 1);
        push_rule(rt, alloc, &mut rules, bad);
    }
    rules
}
