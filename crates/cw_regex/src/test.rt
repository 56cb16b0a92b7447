//! The tests of literals.

ghost use Rattle.std.specs.Prelude.{◌≡◌, ◌<◌, ◌≤◌, [], ◌∷◌, List, true, false, length, drop, map, IsTrue, IfOk, IfSome, IfNone};
ghost use Rattle.cw_regex.specs.Parts.{Part, identifier, sign, parts};
ghost use Rattle.cw_regex.specs.Grammar.{Name, Subject, TestForm, spelled_subject, spelled_test, spelled_more, spelled_tests};
ghost use Rattle.cw_regex.specs.Meaning.{names_of, need_of, subject_meaning, test_meaning};
ghost use Rattle.cw_regex.specs.Tokens.{Settled, begins_bracket};

use crate::text::{Sign, Token, colon_next, token_at};
use crate::unknown::descriptor_number;
use cw_rights::{Descriptor, Rights, Test, right_named};
use std::alloc::{AllocError, Global};

/// The set of rights that an identifier names, empty where it names none.
fn right_or_none(name: &[u8], format: u8) -> Rights
    ensures { result ≡ need_of format name.now }
{
    match right_named(name, format) {
        Some(need) => need,
        None => Rights(0),
    }
}

/// The right that the next identifier names, and where the text goes on.
fn right_here(text: &[u8], at: usize, format: u8) -> (Rights, usize)
    requires { at ≤ length text.now }
    ensures within { result.1 ≤ length text.now }
    ensures on { at ≤ result.1 }
    ensures read { (r : Name) (rest : List Part) → parts (drop at text.now) ≡ identifier r.bytes ∷ rest →
        result.0 ≡ need_of format r.bytes }
    ensures rest { (r : Name) (rest : List Part) → parts (drop at text.now) ≡ identifier r.bytes ∷ rest →
        parts (drop result.1 text.now) ≡ rest }
{
    match token_at(text, at) {
        Token::Identifier { from, to } => (right_or_none(&text[from..to], format), to),
        _ => (Rights(0), at),
    }
}

/// The right behind a `:`, and where the text goes on.
fn right_after_colon(text: &[u8], at: usize, format: u8) -> (Rights, usize)
    requires { at ≤ length text.now }
    ensures within { result.1 ≤ length text.now }
    ensures on { at ≤ result.1 }
    ensures read { (r : Name) (rest : List Part) → parts (drop at text.now) ≡ sign Sign.Colon ∷ identifier r.bytes ∷ rest →
        result.0 ≡ need_of format r.bytes }
    ensures rest { (r : Name) (rest : List Part) → parts (drop at text.now) ≡ sign Sign.Colon ∷ identifier r.bytes ∷ rest →
        parts (drop result.1 text.now) ≡ rest }
{
    match token_at(text, at) {
        Token::Sign { to, .. } => right_here(text, to, format),
        _ => (Rights(0), at),
    }
}

/// What a test is about, `amb` or a descriptor with a right, and where the text goes on.
fn subject(text: &[u8], at: usize, descriptors: &[Descriptor], format: u8) -> (Test, usize)
    requires inside { at ≤ length text.now }
    requires few { length descriptors.now ≤ 8 }
    ensures within { result.1 ≤ length text.now }
    ensures on { at ≤ result.1 }
    ensures read { (s : Subject) (rest : List Part) → parts (drop at text.now) ≡ spelled_subject s rest →
        Settled s rest → result.0 ≡ subject_meaning format (names_of descriptors.now) s }
    ensures rest { (s : Subject) (rest : List Part) → parts (drop at text.now) ≡ spelled_subject s rest →
        Settled s rest → parts (drop result.1 text.now) ≡ rest }
{
    match token_at(text, at) {
        Token::Identifier { from, to } => {
            if colon_next(text, to) {
                let (need, end) = right_after_colon(text, to, format);
                let descriptor = descriptor_number(descriptors, &text[from..to]);
                (Test::Holds { descriptor, need }, end)
            } else {
                (Test::Amb, to)
            }
        }
        _ => (Test::Amb, at),
    }
}

/// Reads a test from a place on: its wanted truth and the test, and the place after it.
pub fn test(text: &[u8], at: usize, descriptors: &[Descriptor], format: u8) -> ((bool, Test), usize)
    requires inside { at ≤ length text.now }
    requires few { length descriptors.now ≤ 8 }
    ensures within { result.1 ≤ length text.now }
    ensures on { at ≤ result.1 }
    ensures read { (t : TestForm) (rest : List Part) → parts (drop at text.now) ≡ spelled_test t rest →
        Settled t.what rest → result.0 ≡ test_meaning format (names_of descriptors.now) t }
    ensures rest { (t : TestForm) (rest : List Part) → parts (drop at text.now) ≡ spelled_test t rest →
        Settled t.what rest → parts (drop result.1 text.now) ≡ rest }
{
    match token_at(text, at) {
        Token::Sign {
            sign: Sign::Bang,
            to,
        } => {
            let (read, end) = subject(text, to, descriptors, format);
            ((false, read), end)
        }
        _ => {
            let (read, end) = subject(text, at, descriptors, format);
            ((true, read), end)
        }
    }
}

/// Whether a `,` stands behind a test, and where the text goes on.
fn after_test(text: &[u8], at: usize) -> (bool, usize)
    requires { at ≤ length text.now }
    ensures within { result.1 ≤ length text.now }
    ensures on { at ≤ result.1 }
    ensures further { IsTrue result.0 → at < result.1 }
    ensures more { (t : TestForm) (ts : List TestForm) (rest : List Part) →
        parts (drop at text.now) ≡ spelled_more (t ∷ ts) rest → result.0 ≡ true }
    ensures next { (t : TestForm) (ts : List TestForm) (rest : List Part) →
        parts (drop at text.now) ≡ spelled_more (t ∷ ts) rest →
        parts (drop result.1 text.now) ≡ spelled_test t (spelled_more ts rest) }
    ensures last { (rest : List Part) → parts (drop at text.now) ≡ spelled_more [] rest → result.0 ≡ false }
    ensures rest { (rest : List Part) → parts (drop at text.now) ≡ spelled_more [] rest →
        parts (drop result.1 text.now) ≡ rest }
{
    match token_at(text, at) {
        Token::Sign {
            sign: Sign::Comma,
            to,
        } => (true, to),
        Token::Sign { to, .. } => (false, to),
        _ => (false, at),
    }
}

/// Where the text goes on behind `[`, if it stands there.
fn bracket_at(text: &[u8], at: usize) -> Option<usize>
    requires { at ≤ length text.now }
    ensures within { IfSome result (λ to. to ≤ length text.now) }
    ensures on { IfSome result (λ to. at ≤ to) }
    ensures some { IfSome result (λ to. parts (drop at text.now) ≡ sign Sign.BracketOpen ∷ parts (drop to text.now)) }
    ensures none { IfNone result (begins_bracket (parts (drop at text.now)) ≡ false) }
{
    match token_at(text, at) {
        Token::Sign {
            sign: Sign::BracketOpen,
            to,
        } => Some(to),
        _ => None,
    }
}

/// Tests with commas between them, and where the text goes on behind `]`.
fn tests(
    alloc: Global,
    text: &[u8],
    at: usize,
    descriptors: &[Descriptor],
    format: u8,
) -> Result<(Vec<(bool, Test)>, usize), AllocError>
    requires inside { at ≤ length text.now }
    requires few { length descriptors.now ≤ 8 }
    ensures within { IfOk result (λ r. r.1 ≤ length text.now) }
    ensures on { IfOk result (λ r. at ≤ r.1) }
    ensures read { IfOk result (λ r. (t : TestForm) (ts : List TestForm) (rest : List Part) →
        parts (drop at text.now) ≡ spelled_test t (spelled_more ts rest) →
        r.0.items ≡ map (test_meaning format (names_of descriptors.now)) (t ∷ ts)) }
    ensures rest { IfOk result (λ r. (t : TestForm) (ts : List TestForm) (rest : List Part) →
        parts (drop at text.now) ≡ spelled_test t (spelled_more ts rest) →
        parts (drop r.1 text.now) ≡ rest) }
{
    let mut read = Vec::new(alloc);
    let mut from = at;
    for _ in 0..=text.len() {
        let (one, end) = test(text, from, descriptors, format);
        read.push(one)?;
        let (more, to) = after_test(text, end);
        if !more {
            return Ok((read, to));
        }
        from = to;
    }
    Ok((read, from))
}

/// Reads the tests in brackets that may stand at a place, and the place after them.
pub fn tests_in_brackets(
    alloc: Global,
    text: &[u8],
    at: usize,
    descriptors: &[Descriptor],
    format: u8,
) -> Result<(Vec<(bool, Test)>, usize), AllocError>
    requires inside { at ≤ length text.now }
    requires few { length descriptors.now ≤ 8 }
    ensures within { IfOk result (λ r. r.1 ≤ length text.now) }
    ensures on { IfOk result (λ r. at ≤ r.1) }
    ensures read { IfOk result (λ r. (ts : List TestForm) (rest : List Part) →
        parts (drop at text.now) ≡ spelled_tests ts rest → begins_bracket rest ≡ false →
        r.0.items ≡ map (test_meaning format (names_of descriptors.now)) ts) }
    ensures rest { IfOk result (λ r. (ts : List TestForm) (rest : List Part) →
        parts (drop at text.now) ≡ spelled_tests ts rest → begins_bracket rest ≡ false →
        parts (drop r.1 text.now) ≡ rest) }
{
    match bracket_at(text, at) {
        None => Ok((Vec::new(alloc), at)),
        Some(to) => tests(alloc, text, to, descriptors, format),
    }
}
