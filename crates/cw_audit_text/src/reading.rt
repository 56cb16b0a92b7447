//! Audits read.

ghost use Rattle.std.specs.Prelude.{◌≡◌, ◌++◌, ◌+◌, ◌<◌, ◌≤◌, ◌^◌, ℕ, List, Option, Some, map, length, IfOk, IfErr, IfSome, IfNone};
ghost use Rattle.std.specs.List.{flat_map, All};
ghost use Rattle.cw_certs.specs.declared.moves.Move.{Move as MoveOf};
ghost use Rattle.cw_audit_table.specs.Tables.{AreFew, row_of, group_of, audit_of};
ghost use Rattle.cw_audit_text.specs.declared.text_line.TextLine.{TextLine as LineOf};
ghost use Rattle.cw_audit_text.specs.declared.text_line.TextLine.TheVariants.{Head, States, Go, In, At, End};
ghost use Rattle.cw_audit_text.specs.declared.fault.AuditTextFault.TheVariants.{NoMemory};
ghost use Rattle.cw_audit_text.specs.TextLines.{FitsLine};
ghost use Rattle.cw_audit_text.specs.AuditText.{row_line, group_lines, whole_lines, HasNoMoves, Spells};
ghost use Rattle.cw_audit_text.specs.Faults.{StartsWith, IsCause, verdict_of};
ghost use Rattle.cw_audit_text.specs.Reading.{NoMove, NoGroup, NoRow, StopsAt, StopsMoves};

use crate::fault::AuditTextFault;
use crate::text_line::{TextLine, read_line};
use cw_audit_table::{AuditTable, Group};
use cw_certs::Move;
use cw_core::limits::FILE_BYTES_IN_FORMAT_2;
use cw_core::{PosId, StateId};
use cw_text::next_line;
use std::alloc::Global;

/// The line that a text begins with, and the text after it.
fn next(text: &[u8]) -> Option<(TextLine, &[u8])>
    ensures some { IfSome result (λ (l, rest). StartsWith text.now l rest.now) }
    ensures none { IfNone result ((l : LineOf) (more : List ℕ) → StartsWith text.now l more → ⊥) }
{
    let Some((line, rest)) = next_line(text) else {
        return None;
    };
    match read_line(line) {
        None => None,
        Some(said) => Some((said, rest)),
    }
}

/// The text after its head.
fn after_head(text: &[u8]) -> Option<&[u8]>
    ensures some { IfSome result (λ rest. StartsWith text.now Head rest.now) }
    ensures none { IfNone result ((more : List ℕ) → StartsWith text.now Head more → ⊥) }
{
    let Some((line, rest)) = next(text) else {
        return None;
    };
    match line {
        TextLine::Head => Some(rest),
        _ => None,
    }
}

/// The number of states, and the text after it.
fn after_states(text: &[u8]) -> Option<(u16, &[u8])>
    ensures some { IfSome result (λ (states, rest). StartsWith text.now (States states) rest.now) }
    ensures none { IfNone result ((states : ℕ) (more : List ℕ) → StartsWith text.now (States states) more → ⊥) }
{
    let Some((line, rest)) = next(text) else {
        return None;
    };
    match line {
        TextLine::States(states) => Some((states, rest)),
        _ => None,
    }
}

/// The verdict, and the text after it.
fn after_verdict(text: &[u8]) -> Option<(Option<u32>, &[u8])>
    ensures some { IfSome result (λ (distance, rest). StartsWith text.now (verdict_of distance) rest.now) }
    ensures none { IfNone result ((distance : Option ℕ) (more : List ℕ) → StartsWith text.now (verdict_of distance) more → ⊥) }
{
    let Some((line, rest)) = next(text) else {
        return None;
    };
    match line {
        TextLine::Meets => Some((None, rest)),
        TextLine::Violates(distance) => Some((Some(distance), rest)),
        _ => None,
    }
}

/// The text after its end.
fn after_end(text: &[u8]) -> Option<&[u8]>
    ensures some { IfSome result (λ rest. StartsWith text.now End rest.now) }
    ensures none { IfNone result ((more : List ℕ) → StartsWith text.now End more → ⊥) }
{
    let Some((line, rest)) = next(text) else {
        return None;
    };
    match line {
        TextLine::End => Some(rest),
        _ => None,
    }
}

/// The move that a text begins with, and the text after it.
fn next_move(text: &[u8]) -> Option<(Move, &[u8])>
    ensures some { IfSome result (λ (by, rest). StartsWith text.now (Go by) rest.now) }
    ensures none { IfNone result (NoMove text.now) }
{
    let Some((line, rest)) = next(text) else {
        return None;
    };
    match line {
        TextLine::Go(by) => Some((by, rest)),
        _ => None,
    }
}

/// The row that a text begins with, and the text after it.
fn next_row(text: &[u8]) -> Option<((PosId, StateId, u32), &[u8])>
    ensures some { IfSome result (λ (row, rest). StartsWith text.now (row_line (row_of row)) rest.now) }
    ensures none { IfNone result (NoRow text.now) }
{
    let Some((line, rest)) = next(text) else {
        return None;
    };
    match line {
        TextLine::At(pos, state, inside) => Some(((PosId(pos), StateId(state), inside), rest)),
        _ => None,
    }
}

/// The group that a text begins with, without its rows, and the text after it.
fn next_group(text: &[u8]) -> Option<((u16, u16, u32), &[u8])>
    ensures some { IfSome result (λ (group, rest). StartsWith text.now (In group.0 group.1 group.2) rest.now) }
    ensures none { IfNone result (NoGroup text.now) }
{
    let Some((line, rest)) = next(text) else {
        return None;
    };
    match line {
        TextLine::In(function, entered, reach) => Some(((function, entered, reach), rest)),
        _ => None,
    }
}

/// The moves that a text begins with, and the text after them.
fn read_moves(alloc: Global, text: &[u8]) -> Result<(Vec<Move>, &[u8]), AuditTextFault>
    ensures text { IfOk result (λ (moves, rest). text.now ≡ whole_lines (map Go moves.items) ++ rest.now) }
    ensures fits { IfOk result (λ (moves, _). All FitsLine (map Go moves.items)) }
    ensures stops { IfOk result (λ (_, rest). NoMove rest.now) }
    ensures memory { IfErr result (λ fault. fault ≡ NoMemory) }
{
    let mut rest = text;
    let mut moves = Vec::new(alloc);
    'moves: loop {
        let Some((by, more)) = next_move(rest) else {
            return Ok((moves, rest));
        };
        moves.push(by)?;
        rest = more;
    }
}

/// The moves behind a verdict: none where it has no distance.
fn moves_behind(
    alloc: Global,
    distance: Option<u32>,
    text: &[u8],
) -> Result<(Vec<Move>, &[u8]), AuditTextFault>
    ensures text { IfOk result (λ (moves, rest). text.now ≡ whole_lines (map Go moves.items) ++ rest.now) }
    ensures fits { IfOk result (λ (moves, _). All FitsLine (map Go moves.items)) }
    ensures none { IfOk result (λ (moves, _). HasNoMoves distance moves.items) }
    ensures stops { IfOk result (λ (_, rest). StopsMoves distance rest.now) }
    ensures memory { IfErr result (λ fault. fault ≡ NoMemory) }
{
    match distance {
        None => Ok((Vec::new(alloc), text)),
        Some(_) => read_moves(alloc, text),
    }
}

/// The rows that a text begins with, and the text after them.
fn read_rows(
    alloc: Global,
    text: &[u8],
) -> Result<(Vec<(PosId, StateId, u32)>, &[u8]), AuditTextFault>
    ensures text { IfOk result (λ (rows, rest). text.now ≡ whole_lines (map row_line (map row_of rows.items)) ++ rest.now) }
    ensures fits { IfOk result (λ (rows, _). All FitsLine (map row_line (map row_of rows.items))) }
    ensures stops { IfOk result (λ (_, rest). NoRow rest.now) }
    ensures memory { IfErr result (λ fault. fault ≡ NoMemory) }
{
    let mut rest = text;
    let mut rows = Vec::new(alloc);
    'rows: loop {
        let Some((row, more)) = next_row(rest) else {
            return Ok((rows, rest));
        };
        rows.push(row)?;
        rest = more;
    }
}

/// The groups that a text begins with, and the text after them.
fn read_groups(alloc: Global, text: &[u8]) -> Result<(Vec<Group>, &[u8]), AuditTextFault>
    ensures text { IfOk result (λ (groups, rest). text.now ≡ whole_lines (flat_map group_lines (map group_of groups.items)) ++ rest.now) }
    ensures fits { IfOk result (λ (groups, _). All FitsLine (flat_map group_lines (map group_of groups.items))) }
    ensures group { IfOk result (λ (_, rest). NoGroup rest.now) }
    ensures stops { IfOk result (λ (groups, rest). StopsAt groups.items text.now rest.now) }
    ensures memory { IfErr result (λ fault. fault ≡ NoMemory) }
{
    let mut rest = text;
    let mut groups = Vec::new(alloc);
    'groups: loop {
        let Some(((function, entered, reach), after)) = next_group(rest) else {
            return Ok((groups, rest));
        };
        let (rows, more) = read_rows(alloc, after)?;
        groups.push(Group {
            function,
            entered: StateId(entered),
            reach,
            rows,
        })?;
        rest = more;
    }
}

/// How many lines groups and their rows have.
fn lines_in(groups: &[Group]) -> usize
    requires { length (flat_map group_lines (map group_of groups.now)) < 2 ^ 32 }
    ensures { result ≡ length (flat_map group_lines (map group_of groups.now)) }
{
    let mut lines: usize = 0;
    for group in groups {
        lines += 1 + group.rows.len();
    }
    lines
}

/// The audit whose text this is: its head, the number of states, the verdict with the moves behind a distance, a line for each group and its
/// rows, and `end`, each with its LF. Otherwise the first line at fault is answered. A text has at most 33,554,432 bytes.
pub fn read_audit(alloc: Global, text: &[u8]) -> Result<AuditTable, AuditTextFault>
    requires { length text.now ≤ FILE_BYTES_IN_FORMAT_2 }
    ensures spells { IfOk result (λ table. Spells text.now (audit_of table)) }
    ensures few { IfOk result (λ table. AreFew table.groups.items) }
    ensures fault { IfErr result (λ fault. IsCause text.now fault) }
{
    let Some(first) = after_head(text) else {
        return Err(AuditTextFault::Line(1));
    };
    let Some((states, second)) = after_states(first) else {
        return Err(AuditTextFault::Line(2));
    };
    let Some((distance, third)) = after_verdict(second) else {
        return Err(AuditTextFault::Line(3));
    };
    let (moves, fourth) = moves_behind(alloc, distance, third)?;
    let (groups, last) = read_groups(alloc, fourth)?;
    let lines = (moves.len() + lines_in(&groups)) as u32;
    let Some(rest) = after_end(last) else {
        return Err(AuditTextFault::Line(lines + 4));
    };
    if !rest.is_empty() {
        return Err(AuditTextFault::Line(lines + 5));
    }
    Ok(AuditTable {
        states,
        distance,
        moves,
        groups,
    })
}
