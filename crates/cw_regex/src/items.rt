//! The items of an expression, read from left to right.

ghost use Rattle.std.specs.Prelude.{◌≡◌, ◌≢◌, ◌<◌, ◌≤◌, [], ◌∷◌, List, length, drop, map, false, ◌↔◌, IsTrue, IfOk, OnOk};
ghost use Rattle.indexmap.specs.IndexSet.{index_set_len};
ghost use Rattle.cw_rights.specs.Trees.{tree_of, literal_of};
ghost use Rattle.cw_regex.specs.Parts.{Part, parts};
ghost use Rattle.cw_regex.specs.Grammar.{Expression, TestForm, spelled, spelled_tests};
ghost use Rattle.cw_regex.specs.Tokens.{begins_bracket};
ghost use Rattle.cw_regex.specs.Labels.{names_in};
ghost use Rattle.cw_regex.specs.Meaning.{names_of, number_in, meaning, test_meaning};
ghost use Rattle.cw_regex.specs.Items.{Item, spelled_item, spelled_items, put, levels_of, with_literal, finished};

use crate::build::{Building, finish, nothing, put_literal, put_sign};
use crate::test::tests_in_brackets;
use crate::text::{Sign, Token, token_at};
use cw_rights::{Descriptor, Lit, Regex};
use indexmap::IndexSet;
use std::alloc::{AllocError, Global};

/// The number of a label, 0 where it has none.
fn label_number(labels: &IndexSet<Vec<u8>>, identifier: &[u8]) -> u16
    requires { index_set_len labels.now ≤ 65535 }
    ensures { result ≡ number_in (names_in labels.now.keys) identifier.now }
{
    match labels.get_index_of(identifier) {
        None => 0,
        Some(number) => number as u16,
    }
}

/// A literal with the tests in brackets behind it, if there are some, and where the text goes on.
fn literal(
    alloc: Global,
    text: &[u8],
    at: usize,
    label: Option<u16>,
    descriptors: &[Descriptor],
    format: u8,
) -> Result<(Lit, usize), AllocError>
    requires inside { at ≤ length text.now }
    requires few { length descriptors.now ≤ 8 }
    ensures within { IfOk result (λ r. r.1 ≤ length text.now) }
    ensures on { IfOk result (λ r. at ≤ r.1) }
    ensures label { IfOk result (λ r. r.0.label ≡ label) }
    ensures read { IfOk result (λ r. (ts : List TestForm) (rest : List Part) →
        parts (drop at text.now) ≡ spelled_tests ts rest → begins_bracket rest ≡ false →
        r.0.tests.items ≡ map (test_meaning format (names_of descriptors.now)) ts) }
    ensures rest { IfOk result (λ r. (ts : List TestForm) (rest : List Part) →
        parts (drop at text.now) ≡ spelled_tests ts rest → begins_bracket rest ≡ false →
        parts (drop r.1 text.now) ≡ rest) }
{
    let (tests, to) = tests_in_brackets(alloc, text, at, descriptors, format)?;
    Ok((Lit { label, tests }, to))
}

/// The same, as a factor of what is built.
fn put_label(
    alloc: Global,
    text: &[u8],
    at: usize,
    label: Option<u16>,
    descriptors: &[Descriptor],
    format: u8,
    building: Building,
) -> Result<(Building, usize), AllocError>
    requires inside { at ≤ length text.now }
    requires few { length descriptors.now ≤ 8 }
    ensures within { IfOk result (λ r. r.1 ≤ length text.now) }
    ensures on { IfOk result (λ r. at ≤ r.1) }
    ensures read { IfOk result (λ r. (ts : List TestForm) (rest : List Part) →
        parts (drop at text.now) ≡ spelled_tests ts rest → begins_bracket rest ≡ false →
        levels_of r.0 ≡ with_literal (levels_of building)
        (record { label = label; tests = map (test_meaning format (names_of descriptors.now)) ts })) }
    ensures rest { IfOk result (λ r. (ts : List TestForm) (rest : List Part) →
        parts (drop at text.now) ≡ spelled_tests ts rest → begins_bracket rest ≡ false →
        parts (drop r.1 text.now) ≡ rest) }
{
    let (lit, to) = literal(alloc, text, at, label, descriptors, format)?;
    Ok((put_literal(building, lit)?, to))
}

/// Whether a sign is `.`.
fn is_dot(sign: Sign) -> bool
    ensures { IsTrue result ↔ (sign ≡ Sign.Dot) }
{
    matches!(sign, Sign::Dot)
}

/// Builds the next item in, and says where the text goes on.
fn step(
    alloc: Global,
    text: &[u8],
    at: usize,
    labels: &IndexSet<Vec<u8>>,
    descriptors: &[Descriptor],
    format: u8,
    building: Building,
) -> Result<(Building, usize), AllocError>
    requires inside { at ≤ length text.now }
    requires few { length descriptors.now ≤ 8 }
    requires names { index_set_len labels.now ≤ 65535 }
    ensures within { IfOk result (λ r. r.1 ≤ length text.now) }
    ensures on { IfOk result (λ r. parts (drop at text.now) ≢ [] → at < r.1) }
    ensures read { IfOk result (λ r. (i : Item) (rest : List Item) →
        parts (drop at text.now) ≡ spelled_item i (spelled_items rest) →
        levels_of r.0 ≡ put format (names_in labels.now.keys) (names_of descriptors.now) (levels_of building) i) }
    ensures rest { IfOk result (λ r. (i : Item) (rest : List Item) →
        parts (drop at text.now) ≡ spelled_item i (spelled_items rest) →
        parts (drop r.1 text.now) ≡ spelled_items rest) }
{
    match token_at(text, at) {
        Token::End => Ok((building, at)),
        Token::Identifier { from, to } => {
            let number = label_number(labels, &text[from..to]);
            let (next, end) = put_label(
                alloc,
                text,
                to,
                Some(number),
                descriptors,
                format,
                building,
            )?;
            Ok((next, end))
        }
        Token::Sign { sign, to } => {
            if is_dot(sign) {
                let (next, end) = put_label(alloc, text, to, None, descriptors, format, building)?;
                Ok((next, end))
            } else {
                Ok((put_sign(alloc, building, sign)?, to))
            }
        }
    }
}

/// Whether nothing but blanks is left.
fn at_end(text: &[u8], at: usize) -> bool
    requires { at ≤ length text.now }
    ensures { IsTrue result ↔ (parts (drop at text.now) ≡ []) }
{
    matches!(token_at(text, at), Token::End)
}

/// What was built.
fn done(building: Building) -> Result<Regex, AllocError>
    ensures { IfOk result (λ r. tree_of r ≡ finished (levels_of building).inner) }
{
    let Building { inner, .. } = building;
    finish(inner)
}

/// The tree of a text that is of the grammar.
pub fn build(
    alloc: Global,
    text: &[u8],
    labels: &IndexSet<Vec<u8>>,
    descriptors: &[Descriptor],
    format: u8,
) -> Result<Regex, AllocError>
    requires few { length descriptors.now ≤ 8 }
    requires names { index_set_len labels.now ≤ 65535 }
    ensures { IfOk result (λ r. (e : Expression) → parts text.now ≡ spelled e [] →
        tree_of r ≡ meaning format (names_in labels.now.keys) (names_of descriptors.now) e) }
{
    let mut building = nothing(alloc);
    let mut at = 0;
    for _ in 0..=text.len() {
        if at_end(text, at) {
            let tree = done(building)?;
            return Ok(tree);
        }
        let (next, to) = step(alloc, text, at, labels, descriptors, format, building)?;
        building = next;
        at = to;
    }
    done(building)
}
