//! Plays by a tape.

ghost use Rattle.std.specs.Prelude.{◌≡◌, ℕ, ◌<◌, ◌^◌, List, true, None, Some, length, slice_get, All, IfOk, OnErr};
ghost use Rattle.cw_rights.specs.Policies.{policy_of};
ghost use Rattle.cw_rights.specs.Valid.{IsValid};
ghost use Rattle.cw_syntax.specs.Trees.{File};
ghost use Rattle.cw_syntax.specs.Plans.{plan_of};
ghost use Rattle.cw_syntax.specs.Runnable.{IsRunnable};
ghost use Rattle.cw_resolve.specs.Scenes.{names_of};
ghost use Rattle.cw_points.specs.Graphs.{IsGraph};
ghost use Rattle.cw_certs.specs.Strategies.{Bad, how_of, row_of, strategy_of};
ghost use Rattle.cw_model.specs.Boards.{problem_of};
ghost use Rattle.cw_game.specs.Games.{bad_in};
ghost use Rattle.cw_game.specs.Conditions.{IsGoodStrategy};
ghost use Rattle.cw_io.specs.Written.{Follows};
ghost use Rattle.cw_positions.specs.Opens.{AssignsNames};
ghost use Rattle.cw_states.specs.States.{AreLists, lists_of};
ghost use Rattle.cw_product.specs.Moves.{IsPosition, IsState, violated_at};
ghost use Rattle.cw_product.specs.Product.{game_of};
ghost use Rattle.cw_product.specs.Uses.{uses_of};
ghost use Rattle.cw_text.specs.Tapes.{IsIn};
ghost use Rattle.cw_trace.specs.Labels.{name_lists};
ghost use Rattle.cw_play.specs.Played.{IsPlayed};
ghost use Rattle.cw_play.specs.Rows.{move_in, EndsAt};

use crate::end::PlayEnd;
use crate::rows::{entries_at, move_at, next_row};
use crate::start::start_row;
use cw_certs::{EnvCert, EnvRow, How, Move};
use cw_core::NoMemory;
use cw_io::{Sink, Writer};
use cw_product::Game;
use cw_trace::{Names, put_step};
use std::alloc::Global;

/// The least rule that the word breaks with the letter of the label that stands at a bad row.
fn rule_at(game: &Game, row: &EnvRow) -> u8
    requires position { IsPosition (game_of game.now) row.now.pos.0 }
    requires state { IsState (game_of game.now) row.now.state.0 }
    requires bad { let g = game_of game.now in bad_in g row.now.state.0 (slice_get g.spots row.now.pos.0) ≡ true }
    ensures { violated_at (lists_of game.now.states) row.now.state.0 (slice_get (game_of game.now).spots row.now.pos.0) ≡ Some result }
{
    let Some(rule) = game.violated(row.pos, row.state) else {
        unreachable!()
    };
    rule
}

/// The entry of the tape with this number.
fn entry_at(tape: &[Move], number: usize) -> Option<Move>
    ensures { result ≡ slice_get tape.now number }
{
    tape.get(number).copied()
}

/// How a play ends at a row at which no move is made: it is bad, or the weaver's next entry is wanting.
fn end_at(game: &Game, row: &EnvRow, entry: Option<Move>) -> PlayEnd
    requires position { IsPosition (game_of game.now) row.now.pos.0 }
    requires state { IsState (game_of game.now) row.now.state.0 }
    requires ended { move_in (how_of row.now.how) entry ≡ None }
    requires bad { let g = game_of game.now in how_of row.now.how ≡ Bad → bad_in g row.now.state.0 (slice_get g.spots row.now.pos.0) ≡ true }
    ensures { EndsAt (game_of game.now) (lists_of game.now.states) (row_of row.now) entry result }
{
    match &row.how {
        How::Bad => PlayEnd::Violation(rule_at(game, row)),
        _ => PlayEnd::TapeSpent,
    }
}

/// The play of a good strategy in which the weaver makes the moves of a tape: how it ends, with its trace behind the text. Entries after a
/// violation aren't played. It goes over the pairs of the game, and keeps no word. The list of open calls, for which the number of rows is
/// room enough, is made before the first byte is put: where memory is wanting nothing was appended.
///
/// Public source: the visibly pushdown games of Löding, Madhusudan and Serre (2004).
pub fn play_env<S: Sink>(
    alloc: Global,
    names: &Names,
    game: &Game,
    cert: &EnvCert,
    tape: &[Move],
    writer: &mut Writer<S>,
    out: &mut S,
) -> Result<PlayEnd, NoMemory>
    requires valid { IsValid (policy_of game.now.states.policy) }
    requires lists { AreLists (uses_of (policy_of game.now.states.policy) game.now.graph.nodes.items) (lists_of game.now.states) }
    requires good { IsGoodStrategy (game_of game.now) (strategy_of cert.now) }
    requires rows { length cert.now.rows.items < 2 ^ 32 }
    requires tape { All (IsIn true) tape.now }
    requires follows { Follows S.taken S.faults S.refused writer.old out.old }
    ensures play { IfOk result (λ end. (source : List ℕ) (file : File) → let policy = policy_of game.now.states.policy in
        IsGraph (names_of policy) source file game.now.graph → IsRunnable (plan_of (names_of policy) source file) → AssignsNames source file
        → IsPlayed (name_lists names.now) (problem_of policy source file) (game_of game.now) (strategy_of cert.now) tape.now end writer.old.text writer.new.text) }
    ensures refused { OnErr result ((writer.new ≡ writer.old) × (out.new ≡ out.old)) }
    ensures begun { writer.new.begun ≡ writer.old.begun }
    ensures follows { Follows S.taken S.faults S.refused writer.new out.new }
{
    let mut calls = Vec::with_capacity(alloc, cert.rows.len())?;
    let mut at = start_row(game, cert);
    let mut taken = 0;
    'rows: loop {
        let row = &cert.rows[at as usize];
        let entry = entry_at(tape, taken);
        let Some(by) = move_at(&row.how, entry) else {
            return Ok(end_at(game, row, entry));
        };
        taken += entries_at(&row.how);
        at = next_row(cert, row, at, by, &mut calls);
        let reached = &cert.rows[at as usize];
        put_step(
            names,
            game,
            row.pos,
            by,
            (reached.pos, reached.state),
            writer,
            out,
        );
    }
}
