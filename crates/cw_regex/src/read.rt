//! Tests and expressions, read from their texts.

ghost use Rattle.std.specs.Prelude.{◌≡◌, ◌+◌, ◌<◌, ◌≤◌, ◌^◌, List, ℕ, [], None, false, length, ◌⊎◌, OnOk, IfOk, IfErr};
ghost use Rattle.indexmap.specs.IndexSet.{index_set_len};
ghost use Rattle.cw_rights.specs.Trees.{tree_of, nesting};
ghost use Rattle.cw_rights.specs.Valid.{IsTreeWithin, IsTestWithin, IsDistinct};
ghost use Rattle.cw_regex.specs.Parts.{parts, placed};
ghost use Rattle.cw_regex.specs.Grammar.{Expression, TestForm, Spells, SpellsTest, IsExpression, IsTest, spelled};
ghost use Rattle.cw_regex.specs.Labels.{names_in, AreNames, Gains};
ghost use Rattle.cw_regex.specs.Meaning.{names_of, test_meaning, meaning, labels_of, with_names};
ghost use Rattle.cw_regex.specs.Faults.{first_unknown, place_of};
ghost use Rattle.cw_regex.specs.Causes.{IsTestFault, IsRegexFault, IsShallow, IsUnknown, fault_of};
ghost use Rattle.cw_regex.specs.declared.unknown.Unknown.{Unknown};

use crate::items::build;
use crate::label::add_labels;
use crate::scan::scan;
use crate::test::test;
use crate::unknown::{Unknown, first_unknown};
use cw_rights::{Descriptor, Regex, Test};
use indexmap::IndexSet;
use std::alloc::Global;
use thiserror::Error;

/// Why a text is refused. Offsets are of the bytes of the text, from 0.
#[derive(Debug, Drop, Error)]
pub enum RegexFault {
    /// The text isn't of the grammar: the least offset at which nothing goes on.
    #[error("at {0}")]
    At(u32),
    /// The descriptor that is named there isn't known.
    #[error("unknown descriptor at {0}")]
    UnknownDescriptor(u32),
    /// The right that is named there isn't known.
    #[error("unknown right at {0}")]
    UnknownRight(u32),
    /// Parentheses nest more than 64 deep.
    #[error("parentheses nest too deep")]
    TooDeep,
    #[error("no memory is left")]
    NoMemory,
}

/// The fault of a name that isn't known, with its offset in bytes.
fn unknown_fault(unknown: Unknown) -> RegexFault
    requires { place_of unknown < 2 ^ 32 }
    ensures { result ≡ fault_of unknown }
{
    match unknown {
        Unknown::Descriptor(at) => RegexFault::UnknownDescriptor(at as u32),
        Unknown::Right(at) => RegexFault::UnknownRight(at as u32),
    }
}

/// Whether all names of a test are known, else the first that isn't.
fn known(text: &[u8], descriptors: &[Descriptor], format: u8) -> Result<(), RegexFault>
    requires { length text.now ≤ 65535 }
    ensures ok { OnOk result (first_unknown format (names_of descriptors.now) false (placed 0 text.now) ≡ None) }
    ensures err { IfErr result (λ e. (u : Unknown) × IsUnknown format (names_of descriptors.now) text.now u × (e ≡ fault_of u)) }
{
    match first_unknown(text, descriptors, format) {
        None => Ok(()),
        Some(unknown) => Err(unknown_fault(unknown)),
    }
}

/// Reads a test of a policy: its wanted truth and the test.
///
/// A test is `[ "!" ] ( "amb" | descriptor ":" right )`, with blanks between its parts alone. It takes no memory.
/// `format` is the policy's; in format 2 two further names of rights are known.
pub fn read_test(
    text: &str,
    descriptors: &[Descriptor],
    format: u8,
) -> Result<(bool, Test), RegexFault>
    requires few { length descriptors.now ≤ 8 }
    requires short { length text.now ≤ 65535 }
    requires format { (format ≡ 1) ⊎ (format ≡ 2) }
    ensures is { OnOk result (IsTest text.now) }
    ensures known { OnOk result (first_unknown format (names_of descriptors.now) false (placed 0 text.now) ≡ None) }
    ensures means { IfOk result (λ r. (t : TestForm) → SpellsTest text.now t →
        r ≡ test_meaning format (names_of descriptors.now) t) }
    ensures within { IfOk result (λ r. IsTestWithin (length descriptors.now) r.1) }
    ensures fault { IfErr result (λ e. IsTestFault format (names_of descriptors.now) text.now e) }
{
    let text = text.as_bytes();
    match scan(text, true) {
        Err(at) => Err(RegexFault::At(at as u32)),
        Ok(_) => {
            known(text, descriptors, format)?;
            let (read, _) = test(text, 0, descriptors, format);
            Ok(read)
        }
    }
}

/// The same for an expression.
fn all_known(text: &[u8], descriptors: &[Descriptor], format: u8) -> Result<(), RegexFault>
    requires short { length text.now ≤ 65535 }
    requires is { IsExpression text.now }
    requires shallow { IsShallow text.now }
    ensures shallow { OnOk result (IsShallow text.now) }
    ensures known { OnOk result (first_unknown format (names_of descriptors.now) false (placed 0 text.now) ≡ None) }
    ensures fault { IfErr result (λ e. IsRegexFault format (names_of descriptors.now) text.now e) }
{
    match first_unknown(text, descriptors, format) {
        None => Ok(()),
        Some(unknown) => Err(unknown_fault(unknown)),
    }
}

/// Whether a text is an expression, not nested too deep, whose names are known; else its first fault.
fn sound(text: &[u8], descriptors: &[Descriptor], format: u8) -> Result<(), RegexFault>
    requires { length text.now ≤ 65535 }
    ensures is { OnOk result (IsExpression text.now) }
    ensures shallow { OnOk result (IsShallow text.now) }
    ensures known { OnOk result (first_unknown format (names_of descriptors.now) false (placed 0 text.now) ≡ None) }
    ensures fault { IfErr result (λ e. IsRegexFault format (names_of descriptors.now) text.now e) }
{
    match scan(text, false) {
        Err(at) => Err(RegexFault::At(at as u32)),
        Ok(most) => {
            if most > 64 {
                return Err(RegexFault::TooDeep);
            }
            all_known(text, descriptors, format)
        }
    }
}

/// Numbers the labels of an expression.
fn named(alloc: Global, text: &[u8], labels: &mut IndexSet<Vec<u8>>) -> Result<(), RegexFault>
    ensures labels { OnOk result ((e : Expression) → parts text.now ≡ spelled e [] →
        names_in labels.new.keys ≡ with_names (names_in labels.old.keys) (labels_of e [])) }
    ensures few { OnOk result (index_set_len labels.new ≤ index_set_len labels.old + length text.now) }
    ensures gains { Gains text.now (names_in labels.old.keys) (names_in labels.new.keys) }
    ensures fault { IfErr result (λ e. e ≡ RegexFault.NoMemory) }
{
    match add_labels(alloc, text, labels) {
        Ok(()) => Ok(()),
        Err(_) => Err(RegexFault::NoMemory),
    }
}

/// The tree of a text that is an expression.
fn built(
    alloc: Global,
    text: &[u8],
    descriptors: &[Descriptor],
    format: u8,
    labels: &IndexSet<Vec<u8>>,
) -> Result<Regex, RegexFault>
    requires few { length descriptors.now ≤ 8 }
    requires names { index_set_len labels.now ≤ 65535 }
    ensures means { IfOk result (λ r. (e : Expression) → parts text.now ≡ spelled e [] →
        tree_of r ≡ meaning format (names_in labels.now.keys) (names_of descriptors.now) e) }
    ensures fault { IfErr result (λ e. e ≡ RegexFault.NoMemory) }
{
    match build(alloc, text, labels, descriptors, format) {
        Ok(regex) => Ok(regex),
        Err(_) => Err(RegexFault::NoMemory),
    }
}

/// An expression from its text, whose labels are numbered on.
fn read_bytes(
    alloc: Global,
    text: &[u8],
    descriptors: &[Descriptor],
    labels: &mut IndexSet<Vec<u8>>,
    format: u8,
) -> Result<Regex, RegexFault>
    requires few { length descriptors.now ≤ 8 }
    requires names { index_set_len labels.old + length text.now ≤ 65535 }
    ensures is { OnOk result (IsExpression text.now) }
    ensures shallow { OnOk result (IsShallow text.now) }
    ensures known { OnOk result (first_unknown format (names_of descriptors.now) false (placed 0 text.now) ≡ None) }
    ensures labels { OnOk result ((e : Expression) → Spells text.now e →
        names_in labels.new.keys ≡ with_names (names_in labels.old.keys) (labels_of e [])) }
    ensures few { OnOk result (index_set_len labels.new ≤ index_set_len labels.old + length text.now) }
    ensures names { OnOk result (AreNames (names_in labels.old.keys) → AreNames (names_in labels.new.keys)) }
    ensures distinct { OnOk result (IsDistinct (names_in labels.old.keys) → IsDistinct (names_in labels.new.keys)) }
    ensures means { IfOk result (λ r. (e : Expression) → Spells text.now e →
        tree_of r ≡ meaning format (names_in labels.new.keys) (names_of descriptors.now) e) }
    ensures within { IfOk result (λ r. IsTreeWithin (length descriptors.now) (length labels.new.keys) (tree_of r)) }
    ensures nesting { IfOk result (λ r. nesting (tree_of r) ≤ 64) }
    ensures gains { Gains text.now (names_in labels.old.keys) (names_in labels.new.keys) }
    ensures fault { IfErr result (λ e. IsRegexFault format (names_of descriptors.now) text.now e) }
{
    sound(text, descriptors, format)?;
    named(alloc, text, labels)?;
    let regex = built(alloc, text, descriptors, format, labels)?;
    Ok(regex)
}

/// Reads an expression of a policy, with its labels: a label's number is its place in `labels`, and new ones go to their end.
///
/// After a refusal too the old labels stand in front of `labels` as they were, and those after them are labels of this text.
/// `format` is the policy's; in format 2 two further names of rights are known.
pub fn read_regex(
    alloc: Global,
    text: &str,
    descriptors: &[Descriptor],
    labels: &mut IndexSet<Vec<u8>>,
    format: u8,
) -> Result<Regex, RegexFault>
    requires few { length descriptors.now ≤ 8 }
    requires names { index_set_len labels.old + length text.now ≤ 65535 }
    requires format { (format ≡ 1) ⊎ (format ≡ 2) }
    ensures is { OnOk result (IsExpression text.now) }
    ensures shallow { OnOk result (IsShallow text.now) }
    ensures known { OnOk result (first_unknown format (names_of descriptors.now) false (placed 0 text.now) ≡ None) }
    ensures labels { OnOk result ((e : Expression) → Spells text.now e →
        names_in labels.new.keys ≡ with_names (names_in labels.old.keys) (labels_of e [])) }
    ensures few { OnOk result (index_set_len labels.new ≤ index_set_len labels.old + length text.now) }
    ensures names { OnOk result (AreNames (names_in labels.old.keys) → AreNames (names_in labels.new.keys)) }
    ensures distinct { OnOk result (IsDistinct (names_in labels.old.keys) → IsDistinct (names_in labels.new.keys)) }
    ensures means { IfOk result (λ r. (e : Expression) → Spells text.now e →
        tree_of r ≡ meaning format (names_in labels.new.keys) (names_of descriptors.now) e) }
    ensures within { IfOk result (λ r. IsTreeWithin (length descriptors.now) (length labels.new.keys) (tree_of r)) }
    ensures nesting { IfOk result (λ r. nesting (tree_of r) ≤ 64) }
    ensures gains { Gains text.now (names_in labels.old.keys) (names_in labels.new.keys) }
    ensures fault { IfErr result (λ e. IsRegexFault format (names_of descriptors.now) text.now e) }
{
    let regex = read_bytes(alloc, text.as_bytes(), descriptors, labels, format)?;
    Ok(regex)
}
