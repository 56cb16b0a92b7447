//! Whether a board goes as a play has it. A play is a line of entries, one for each board but the last: the moves that the board has, a
//! point, and the move that is made, `s` skip, `t` try, `g` grant, `r` refuse, `o` on, `<` left, `>` right, `+` opened, `-` failed,
//! `x` stop. The board at its end has no moves.

ghost use Rattle.cw_rights.specs.Policies.{policy_of};
ghost use Rattle.cw_rights.specs.Valid.{IsValid};

use cw_boards::{Moves, board_move, board_moves, board_start};
use cw_certs::Move;
use cw_policy::read_policy;
use cw_rights::Policy;
use cw_source::read_source;
use cw_syntax::checked::Checked;
use std::alloc::Global;
use std::process::Abort;

/// A policy, a source and a play, each by its text.
pub type Row<'t> = (&'t str, &'t str, &'t str);

/// What stands behind a sign where there is the move; `?`, which is no sign, where the sign isn't there.
fn behind<'t>(text: &'t str, is_there: bool, sign: &str) -> &'t str {
    if is_there {
        text.strip_prefix(sign).unwrap_or("?")
    } else {
        text
    }
}

/// Whether these are the moves that a text has.
fn are_moves(moves: Moves, text: &str) -> bool {
    let rest = behind(text, moves.skip, "s");
    let rest = behind(rest, moves.tried, "t");
    let rest = behind(rest, moves.grant, "g");
    let rest = behind(rest, moves.refuse, "r");
    let rest = behind(rest, moves.on, "o");
    let rest = behind(rest, moves.left, "<");
    let rest = behind(rest, moves.right, ">");
    let rest = behind(rest, moves.opened, "+");
    let rest = behind(rest, moves.failed, "-");
    behind(rest, moves.stop, "x").is_empty()
}

/// The move of a sign.
fn move_of(sign: &str) -> Move {
    match sign {
        "s" => Move::Skip,
        "t" => Move::Try,
        "g" => Move::Grant,
        "r" => Move::Refuse,
        "<" => Move::Left,
        ">" => Move::Right,
        "+" => Move::Opened,
        "-" => Move::Failed,
        "x" => Move::Stop,
        _ => Move::On,
    }
}

/// Whether the boards of a program go so.
fn is_play(alloc: Global, checked: &Checked, policy: &Policy, play: &str) -> bool
    requires { IsValid (policy_of policy.now) }
{
    let mut board = match board_start(alloc, checked, policy) {
        Ok(board) => board,
        Err(_) => return false,
    };
    for entry in play.split_whitespace() {
        let (moves, sign) = entry.split_once(".").unwrap_or(("?", ""));
        if !are_moves(board_moves(checked, policy, &board), moves) {
            return false;
        }
        match board_move(alloc, checked, policy, board, move_of(sign)) {
            Ok(Some(next)) => board = next,
            _ => return false,
        }
    }
    are_moves(board_moves(checked, policy, &board), "")
}

/// Whether a source has this play.
fn has_play(alloc: Global, policy: &Policy, source: &str, play: &str) -> bool
    requires { IsValid (policy_of policy.now) }
{
    if source.len() > 262144 {
        return false;
    }
    match read_source(alloc, source.as_bytes()) {
        Ok(checked) => is_play(alloc, &checked, policy, play),
        Err(_) => false,
    }
}

/// The same, under a policy by its text.
fn is_played(alloc: Global, policy: &str, source: &str, play: &str) -> bool {
    match read_policy(alloc, policy.as_bytes()) {
        Ok(policy) => has_play(alloc, &policy, source, play),
        Err(_) => false,
    }
}

/// Asserts that each source has its play.
pub fn are_played(rt: &impl Abort, alloc: Global, rows: &[Row]) {
    for (policy, source, play) in rows {
        assert!(rt; is_played(alloc, policy, source, play), "{play}");
    }
}
