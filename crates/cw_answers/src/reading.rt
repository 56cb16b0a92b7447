//! Answers read.

ghost use Rattle.std.specs.Prelude.{◌≡◌, ◌≤◌, ◌++◌, ◌∷◌, [], IsTrue, map, length, IfOk, IfErr};
ghost use Rattle.std.specs.List.{All};
ghost use Rattle.std.specs.List.Sorted.{IsStrictlySortedBy};
ghost use Rattle.cw_text_lines.specs.Lines.{whole_lines};
ghost use Rattle.cw_value.specs.Shown.{answers_of, AreInOrder};
ghost use Rattle.cw_answers.specs.declared.fault.AnswersFault.TheVariants.{NoMemory};
ghost use Rattle.cw_answers.specs.AnswerLines.{line_fields, FitsLine, Try, Call};
ghost use Rattle.cw_answers.specs.AnswersText.{name_line, Spells};
ghost use Rattle.cw_answers.specs.Faults.{IsCause};
ghost use Rattle.cw_answers.specs.Reading.{name_of, by_name, is_behind, last_of, NoName, NoTry, NoCall};

use crate::fault::AnswersFault;
use crate::lines::{after_end, after_head, next_call, next_name, next_try};
use cw_certs::Move;
use cw_core::limits::FILE_BYTES_IN_FORMAT_2;
use cw_value::Answers;
use std::alloc::Global;

/// The answers whose text this is: its head, a line for each name with its value, ascending strictly by name, each try and each call, and
/// `end`, each with its LF. Otherwise Line with the number of the first line that doesn't fit, from 1. A text has at most 33,554,432 bytes.
pub fn read_answers(alloc: Global, text: &[u8]) -> Result<Answers, AnswersFault>
    requires { length text.now ≤ FILE_BYTES_IN_FORMAT_2 }
    ensures ok { IfOk result (λ answers. Spells text.now (answers_of answers)) }
    ensures in_order { IfOk result (λ answers. AreInOrder (answers_of answers)) }
    ensures fault { IfErr result (λ fault. IsCause text.now fault) }
{
    let Some(first) = after_head(text) else {
        return Err(AnswersFault::Line(1));
    };
    let (names, second) = read_names(alloc, first)?;
    let (tries, third) = read_tries(alloc, second)?;
    let (calls, last) = read_calls(alloc, third)?;
    let lines = (names.len() + tries.len() + calls.len()) as u32;
    let Some(rest) = after_end(last) else {
        return Err(AnswersFault::Line(lines + 2));
    };
    if !rest.is_empty() {
        return Err(AnswersFault::Line(lines + 3));
    }
    Ok(Answers {
        names,
        tries,
        calls,
    })
}

/// The names that a text begins with, ascending strictly, and the text after them.
fn read_names(alloc: Global, text: &[u8]) -> Result<(Vec<(Vec<u8>, i64)>, &[u8]), AnswersFault>
    ensures text { IfOk result (λ (names, rest). text.now ≡ whole_lines line_fields (map name_line (map name_of names.items)) ++ rest.now) }
    ensures fits { IfOk result (λ (names, _). All FitsLine (map name_line (map name_of names.items))) }
    ensures ascend { IfOk result (λ (names, _). IsStrictlySortedBy by_name (map name_of names.items)) }
    ensures stops { IfOk result (λ (names, rest). NoName (map name_of names.items) rest.now) }
    ensures memory { IfErr result (λ fault. fault ≡ NoMemory) }
{
    let mut rest = text;
    let mut names = Vec::new(alloc);
    'names: loop {
        let Some((name, value, more)) = next_name(rest) else {
            return Ok((names, rest));
        };
        if !stands_behind(&names, name) {
            return Ok((names, rest));
        }
        names.push((name.to_vec(alloc)?, value))?;
        rest = more;
    }
}

/// Whether a name stands behind the last of some.
fn stands_behind(names: &[(Vec<u8>, i64)], name: &[u8]) -> bool
    ensures { result ≡ is_behind (last_of None (map name_of names.now)) name.now }
{
    match names.last() {
        None => true,
        Some((last, _)) => last.as_slice().cmp(name).is_lt(),
    }
}

/// The answers to tries that a text begins with, and the text after them.
fn read_tries(alloc: Global, text: &[u8]) -> Result<(Vec<Move>, &[u8]), AnswersFault>
    ensures text { IfOk result (λ (tries, rest). text.now ≡ whole_lines line_fields (map Try tries.items) ++ rest.now) }
    ensures fits { IfOk result (λ (tries, _). All FitsLine (map Try tries.items)) }
    ensures stops { IfOk result (λ (_, rest). NoTry rest.now) }
    ensures memory { IfErr result (λ fault. fault ≡ NoMemory) }
{
    let mut rest = text;
    let mut tries = Vec::new(alloc);
    'tries: loop {
        let Some((by, more)) = next_try(rest) else {
            return Ok((tries, rest));
        };
        tries.push(by)?;
        rest = more;
    }
}

/// What external calls give that a text begins with, and the text after it.
fn read_calls(alloc: Global, text: &[u8]) -> Result<(Vec<i64>, &[u8]), AnswersFault>
    ensures text { IfOk result (λ (calls, rest). text.now ≡ whole_lines line_fields (map Call calls.items) ++ rest.now) }
    ensures fits { IfOk result (λ (calls, _). All FitsLine (map Call calls.items)) }
    ensures stops { IfOk result (λ (_, rest). NoCall rest.now) }
    ensures memory { IfErr result (λ fault. fault ≡ NoMemory) }
{
    let mut rest = text;
    let mut calls = Vec::new(alloc);
    'calls: loop {
        let Some((value, more)) = next_call(rest) else {
            return Ok((calls, rest));
        };
        calls.push(value)?;
        rest = more;
    }
}
