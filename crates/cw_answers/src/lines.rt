//! The lines of answers, one kind after the other.

ghost use Rattle.std.specs.Prelude.{◌≡◌, ◌≢◌, ℕ, ℤ, List, IfSome, IfNone};
ghost use Rattle.cw_certs.specs.declared.moves.Move.{Move as MoveOf};
ghost use Rattle.cw_text.specs.Lines.{Reads};
ghost use Rattle.cw_text.specs.Moves.{move_name};
ghost use Rattle.cw_text_lines.specs.Lines.{StartsWith};
ghost use Rattle.cw_value.specs.Shown.{IsAnswer};
ghost use Rattle.cw_answers.specs.AnswerLines.{line_fields, FitsLine, FitsValue, Head, Name, Try, Call, End};

use crate::value::value_of;
use cw_certs::Move;
use cw_rights::is_name;
use cw_text::{Fields, next_line};

/// The text after its head.
pub(crate) fn after_head(text: &[u8]) -> Option<&[u8]>
    ensures some { IfSome result (λ rest. StartsWith FitsLine line_fields text.now Head rest.now) }
    ensures none { IfNone result ((more : List ℕ) → StartsWith FitsLine line_fields text.now Head more → ⊥) }
{
    let Some((line, rest)) = next_line(text) else {
        return None;
    };
    if line == b"capweave answers 1".as_slice() {
        Some(rest)
    } else {
        None
    }
}

/// The text after its end.
pub(crate) fn after_end(text: &[u8]) -> Option<&[u8]>
    ensures some { IfSome result (λ rest. StartsWith FitsLine line_fields text.now End rest.now) }
    ensures none { IfNone result ((more : List ℕ) → StartsWith FitsLine line_fields text.now End more → ⊥) }
{
    let Some((line, rest)) = next_line(text) else {
        return None;
    };
    if line == b"end".as_slice() {
        Some(rest)
    } else {
        None
    }
}

/// The name and the value that a text begins with, and the text after their line.
pub(crate) fn next_name(text: &[u8]) -> Option<(&[u8], i64, &[u8])>
    ensures some { IfSome result (λ (name, value, rest). StartsWith FitsLine line_fields text.now (Name name.now value) rest.now) }
    ensures none { IfNone result ((name : List ℕ) (value : ℤ) (more : List ℕ) → StartsWith FitsLine line_fields text.now (Name name value) more → ⊥) }
{
    let Some((line, rest)) = next_line(text) else {
        return None;
    };
    let mut fields = Fields::of(line, b' ');
    match take_name(&mut fields) {
        None => None,
        Some((name, value)) => Some((name, value, rest)),
    }
}

/// The answer to a try that a text begins with, and the text after its line.
pub(crate) fn next_try(text: &[u8]) -> Option<(Move, &[u8])>
    ensures some { IfSome result (λ (by, rest). StartsWith FitsLine line_fields text.now (Try by) rest.now) }
    ensures none { IfNone result ((by : MoveOf) (more : List ℕ) → StartsWith FitsLine line_fields text.now (Try by) more → ⊥) }
{
    let Some((line, rest)) = next_line(text) else {
        return None;
    };
    let mut fields = Fields::of(line, b' ');
    match take_try(&mut fields) {
        None => None,
        Some(by) => Some((by, rest)),
    }
}

/// What an external call gives that a text begins with, and the text after its line.
pub(crate) fn next_call(text: &[u8]) -> Option<(i64, &[u8])>
    ensures some { IfSome result (λ (value, rest). StartsWith FitsLine line_fields text.now (Call value) rest.now) }
    ensures none { IfNone result ((value : ℤ) (more : List ℕ) → StartsWith FitsLine line_fields text.now (Call value) more → ⊥) }
{
    let Some((line, rest)) = next_line(text) else {
        return None;
    };
    let mut fields = Fields::of(line, b' ');
    match take_call(&mut fields) {
        None => None,
        Some(value) => Some((value, rest)),
    }
}

/// `name NAME VALUE`: the name and its value.
fn take_name<'t>(fields: &mut Fields<'t>) -> Option<(&'t [u8], i64)>
    ensures some { IfSome result (λ (name, value). FitsLine (Name name.now value) × (line_fields (Name name.now value) ≡ fields.old)) }
    ensures none { IfNone result ((name : List ℕ) (value : ℤ) → FitsLine (Name name value) → line_fields (Name name value) ≢ fields.old) }
{
    let key = fields.take()?;
    let name = fields.take()?;
    let value = value_of(fields.take()?)?;
    if key == b"name".as_slice() && is_name(name) && fields.is_done() {
        Some((name, value))
    } else {
        None
    }
}

/// `try grant` or `try refuse`: the answer to a try.
fn take_try(fields: &mut Fields) -> Option<Move>
    ensures { Reads (λ (by : MoveOf). FitsLine (Try by)) (λ (by : MoveOf). line_fields (Try by)) fields.old result }
{
    let key = fields.take()?;
    let by = answer_of(fields.take()?)?;
    if key == b"try".as_slice() && fields.is_done() {
        Some(by)
    } else {
        None
    }
}

/// The answer to a try whose name a field is.
fn answer_of(field: &[u8]) -> Option<Move>
    ensures { Reads IsAnswer move_name field.now result }
{
    match field {
        b"grant" => Some(Move::Grant),
        b"refuse" => Some(Move::Refuse),
        _ => None,
    }
}

/// `call VALUE`: what an external call gives.
fn take_call(fields: &mut Fields) -> Option<i64>
    ensures { Reads (λ (value : ℤ). FitsLine (Call value)) (λ (value : ℤ). line_fields (Call value)) fields.old result }
{
    let key = fields.take()?;
    let value = value_of(fields.take()?)?;
    if key == b"call".as_slice() && fields.is_done() {
        Some(value)
    } else {
        None
    }
}
