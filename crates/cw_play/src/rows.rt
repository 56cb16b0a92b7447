//! From row to row of a strategy.

ghost use Rattle.std.specs.Prelude.{◌≡◌, ◌<◌, reverse, map, Some, IsSome, vec_len, vec_capacity};
ghost use Rattle.cw_certs.specs.Strategies.{How, Out, back_of, how_of, row_of, strategy_of};
ghost use Rattle.cw_certs.specs.declared.moves.Move.TheVariants.{On};
ghost use Rattle.cw_echeck.specs.Checks.{backs_of};
ghost use Rattle.cw_play.specs.Rows.{backs_in, backs_at, move_in, after_in, entries_in};

use cw_certs::{EnvCert, EnvRow, How, Move};
use cw_core::StateId;

/// The move that is made at a row, where the weaver's next entry is this one; none where the play ends.
pub(crate) fn move_at(how: &How, entry: Option<Move>) -> Option<Move>
    ensures { result ≡ move_in (how_of how.now) entry }
{
    match how {
        How::Bad => None,
        How::Both { .. } => entry,
        How::Go { by, .. } => Some(*by),
        How::Out | How::Into { .. } => Some(Move::On),
    }
}

/// How many entries of the tape a row takes.
pub(crate) fn entries_at(how: &How) -> usize
    ensures { result ≡ entries_in (how_of how.now) }
{
    match how {
        How::Both { .. } => 1,
        How::Bad | How::Out | How::Go { .. } | How::Into { .. } => 0,
    }
}

/// The rows for the returns from a call, none where a row makes no call.
fn backs_of(how: &How) -> &[(StateId, u32)]
    ensures { backs_of result.now ≡ backs_in (how_of how.now) }
{
    match how {
        How::Into { backs, .. } => backs.as_slice(),
        _ => &[],
    }
}

/// The backs that the row with this number has.
fn backs_at(cert: &EnvCert, row: u32) -> &[(StateId, u32)]
    ensures { backs_of result.now ≡ backs_at (strategy_of cert.now) row }
{
    match cert.rows.get(row as usize) {
        Some(row) => backs_of(&row.how),
        None => &[],
    }
}

/// The row that these backs have for an exit state.
fn back_of(backs: &[(StateId, u32)], exit: StateId) -> Option<u32>
    ensures { result ≡ back_of (backs_of backs.now) exit.0 }
{
    for back in backs {
        if back.0.0 == exit.0 {
            return Some(back.1);
        }
    }
    None
}

/// The row to which the innermost open call returns from an exit state; the call is open no more.
fn returned_to(cert: &EnvCert, exit: StateId, calls: &mut Vec<u32>) -> u32
    requires next { IsSome (after_in (strategy_of cert.now) Out 0 exit.0 On (reverse calls.old.items)) }
    ensures next { after_in (strategy_of cert.now) Out 0 exit.0 On (reverse calls.old.items) ≡ Some (result, reverse calls.new.items) }
    ensures capacity { vec_capacity calls.new ≡ vec_capacity calls.old }
{
    let Some(caller) = calls.pop() else {
        unreachable!()
    };
    let Some(back) = back_of(backs_at(cert, caller), exit) else {
        unreachable!()
    };
    back
}

/// The row after a move that is made at the row with a number; `calls` has the rows of the calls that are open, the innermost last, and
/// there is room for one more.
pub(crate) fn next_row(cert: &EnvCert, row: &EnvRow, at: u32, by: Move, calls: &mut Vec<u32>) -> u32
    requires next { IsSome (after_in (strategy_of cert.now) (how_of row.now.how) at row.now.state.0 by (reverse calls.old.items)) }
    requires room { vec_len calls.old < vec_capacity calls.old }
    ensures next { after_in (strategy_of cert.now) (how_of row.now.how) at row.now.state.0 by (reverse calls.old.items)
        ≡ Some (result, reverse calls.new.items) }
    ensures capacity { vec_capacity calls.new ≡ vec_capacity calls.old }
{
    match &row.how {
        How::Both { skip, tried } => if by == Move::Try { *tried } else { *skip },
        How::Go { row: next, .. } => *next,
        How::Into { callee, .. } => {
            calls.push_reserved(at);
            *callee
        }
        How::Out => returned_to(cert, row.state, calls),
        How::Bad => unreachable!(),
    }
}
