//! The woven run by a tape.

ghost use Rattle.std.specs.Prelude.{◌≡◌, ◌+◌, ◌∷◌, option_map, ◌<◌, ◌≤◌, ◌^◌, Some, None, length, vec_len, vec_capacity, IfOk, IfSome, OnErr};
ghost use Rattle.std.specs.List.{All};
ghost use Rattle.cw_rights.specs.Policies.{policy_of};
ghost use Rattle.cw_states.specs.States.{lists_of, caps_at};
ghost use Rattle.cw_product.specs.Product.{game_of};
ghost use Rattle.cw_rights.specs.Valid.{IsValid};
ghost use Rattle.cw_resolve.specs.Scenes.{names_of};
ghost use Rattle.cw_syntax.specs.Trees.{file_of};
ghost use Rattle.cw_syntax.specs.Plans.{plan_of};
ghost use Rattle.cw_syntax.specs.Runnable.{IsRunnable};
ghost use Rattle.cw_points.specs.Graphs.{IsGraph};
ghost use Rattle.cw_positions.specs.Opens.{AssignsNames};
ghost use Rattle.cw_states.specs.States.{AreLists};
ghost use Rattle.cw_product.specs.Uses.{uses_of};
ghost use Rattle.cw_model.specs.Boards.{problem_of};
ghost use Rattle.cw_game.specs.Conditions.{IsGoodTable};
ghost use Rattle.cw_io.specs.Written.{Follows};
ghost use Rattle.cw_trace.specs.Labels.{name_lists, names_of as trace_names_of};
ghost use Rattle.cw_run.specs.Woven.{end_of, Tells};
ghost use Rattle.cw_run.specs.Lines.{own_of};
ghost use Rattle.cw_run.specs.Walks.{here_of, wait_of, next_is, innermost, entered, enters, entries, is_on, IsHere, IsWait, IsNextIn, IsLanding, Arrives, LandsAt, Answered, landing_in, landing_of, waits_after, start_here, without_first, first_of};
ghost use Rattle.cw_game.specs.Games.{Game as GameOf};

use crate::owned::{put_own_move, put_own_reached, put_own_stop};
use crate::walk::{Here, Next, Wait, lead, rest};
use cw_certs::{Move, WeaverCert};
use cw_core::NoMemory;
use cw_io::{Sink, Writer};
use cw_product::Game;
use cw_syntax::checked::Checked;
use cw_trace::{Names, trace_names};
use std::alloc::Global;

/// How a run by a tape ends.
#[derive(Clone, Copy, Drop, Debug, PartialEq, Eq)]
pub enum RunEnd {
    /// All is over as the tape ends.
    Ended,
    /// The tape ends before that.
    TapeSpent,
    /// The entry with this number, from 0, is no move of the board there.
    BadMove(u32),
}

/// Whether an entry can enter a function.
fn is_on(by: Move) -> bool
    ensures { result ≡ is_on by }
{
    matches!(by, Move::On)
}

/// How many entries of a tape can enter a function.
fn entries(tape: &[Move]) -> usize
    ensures { result ≡ entries tape.now }
{
    tape.iter().filter(|by| is_on(**by)).count()
}

/// Goes on from where a move leads, over the visits at which the table tries nothing, to where the run rests; puts the line of
/// the label that is reached there, if it is one.
fn arrive<S: Sink>(
    game: &Game,
    table: &WeaverCert,
    names: &Names,
    process: Option<u32>,
    to: Here,
    writer: &mut Writer<S>,
    out: &mut S,
) -> Here
    requires here { IsHere (game_of game.now) (here_of to) }
    requires follows { Follows S.taken S.faults S.refused writer.old out.old }
    ensures arrives { Arrives (name_lists names.now) (game_of game.now) table.now (caps_at (lists_of game.now.states)) (own_of process) (here_of to) (here_of result) writer.old.text writer.new.text }
    ensures range { IsHere (game_of game.now) (here_of result) }
    ensures begun { writer.new.begun ≡ writer.old.begun }
    ensures follows { Follows S.taken S.faults S.refused writer.new out.new }
{
    let here = Here {
        pos: rest(game, table, to.pos, to.mem),
        state: to.state,
        mem: to.mem,
    };
    put_own_reached(
        process,
        names,
        game.policy(),
        game.caps(here.state),
        game.spot(here.pos),
        writer,
        out,
    );
    here
}

/// Where a run is.
#[derive(Clone, Copy, Drop)]
pub enum Landing {
    /// In a function.
    At(Here),
    /// All is over.
    Over,
}

/// Where a run is at its start, when the weaver has made its moves: a run, or the run of this process among others, as `land` tells them.
pub fn begin<S: Sink>(
    game: &Game,
    table: &WeaverCert,
    names: &Names,
    process: Option<u32>,
    writer: &mut Writer<S>,
    out: &mut S,
) -> Here
    requires follows { Follows S.taken S.faults S.refused writer.old out.old }
    ensures arrives { Arrives (name_lists names.now) (game_of game.now) table.now (caps_at (lists_of game.now.states)) (own_of process) (start_here (game_of game.now) table.now) (here_of result) writer.old.text writer.new.text }
    ensures range { IsHere (game_of game.now) (here_of result) }
    ensures begun { writer.new.begun ≡ writer.old.begun }
    ensures follows { Follows S.taken S.faults S.refused writer.new out.new }
{
    let (pos, state) = game.start();
    let start = Here {
        pos,
        state,
        mem: table.start(),
    };
    arrive(game, table, names, process, start, writer, out)
}

/// A call waits, for which there is room.
#[tactic(auto, using(crate::proofs::Waits::innermost_push))]
fn remember(waits: &mut Vec<Wait>, wait: Wait)
    requires room { vec_len waits.old < vec_capacity waits.old }
    ensures first { innermost waits.new.items ≡ wait_of wait ∷ innermost waits.old.items }
    ensures all { (g : GameOf) → All (λ w. IsWait g (wait_of w)) waits.old.items → IsWait g (wait_of wait) → All (λ w. IsWait g (wait_of w)) waits.new.items }
    ensures length { vec_len waits.new ≡ vec_len waits.old + 1 }
    ensures capacity { vec_capacity waits.new ≡ vec_capacity waits.old }
{
    waits.push_reserved(wait);
}

/// The innermost call waits no more.
#[tactic(auto, using(crate::proofs::Waits::popped))]
fn forget(waits: &mut Vec<Wait>)
    ensures rest { innermost waits.new.items ≡ without_first (innermost waits.old.items) }
    ensures all { (g : GameOf) → All (λ w. IsWait g (wait_of w)) waits.old.items → All (λ w. IsWait g (wait_of w)) waits.new.items }
    ensures length { vec_len waits.new ≤ vec_len waits.old }
    ensures capacity { vec_capacity waits.new ≡ vec_capacity waits.old }
{
    let _ = waits.pop();
}

/// Where a run is after a move, when the weaver has made its moves: it puts the line of a stop, and that of a label that is reached. A process
/// among others has its number and a blank before each line.
pub fn land<S: Sink>(
    game: &Game,
    table: &WeaverCert,
    names: &Names,
    process: Option<u32>,
    next: Next,
    writer: &mut Writer<S>,
    out: &mut S,
) -> Landing
    requires next { IsNextIn (game_of game.now) (next_is next) }
    requires follows { Follows S.taken S.faults S.refused writer.old out.old }
    ensures lands { LandsAt (name_lists names.now) (game_of game.now) table.now (caps_at (lists_of game.now.states)) (own_of process) (next_is next) (landing_of (next_is next)) (landing_in result) writer.old.text writer.new.text }
    ensures range { IsLanding (game_of game.now) (landing_in result) }
    ensures begun { writer.new.begun ≡ writer.old.begun }
    ensures follows { Follows S.taken S.faults S.refused writer.new out.new }
{
    match next {
        Next::To(to) | Next::Into(to, _) | Next::Back(to) | Next::Resumed(to) => {
            Landing::At(arrive(game, table, names, process, to, writer, out))
        }
        Next::Over => Landing::Over,
        Next::Stopped(seam) => {
            put_own_stop(process, seam, writer, out);
            Landing::Over
        }
    }
}

/// The calls that wait after a move, for which there is room.
fn follow(waits: &mut Vec<Wait>, next: Next)
    requires room { vec_len waits.old + entered (next_is next) ≤ vec_capacity waits.old }
    ensures waiting { innermost waits.new.items ≡ waits_after (next_is next) (innermost waits.old.items) }
    ensures all { (g : GameOf) → IsNextIn g (next_is next) → All (λ w. IsWait g (wait_of w)) waits.old.items → All (λ w. IsWait g (wait_of w)) waits.new.items }
    ensures length { vec_len waits.new ≤ vec_len waits.old + entered (next_is next) }
    ensures capacity { vec_capacity waits.new ≡ vec_capacity waits.old }
{
    match next {
        Next::Into(_, wait) => remember(waits, wait),
        Next::Back(_) => forget(waits),
        Next::To(_) | Next::Over | Next::Resumed(_) | Next::Stopped(_) => {}
    }
}

/// The innermost call that waits.
#[tactic(auto, using(crate::proofs::Waits::last_is))]
fn last_call(waits: &[Wait]) -> Option<Wait>
    ensures is { option_map wait_of result ≡ first_of (innermost waits.now) }
    ensures range { (g : GameOf) → All (λ w. IsWait g (wait_of w)) waits.now → IfSome result (λ w. IsWait g (wait_of w)) }
{
    waits.last().copied()
}

/// One entry of the tape: where the run is after it, or none where it is no move here.
fn answer<S: Sink>(
    game: &Game,
    table: &WeaverCert,
    names: &Names,
    here: Here,
    waits: &mut Vec<Wait>,
    by: Move,
    writer: &mut Writer<S>,
    out: &mut S,
) -> Option<Landing>
    requires here { IsHere (game_of game.now) (here_of here) }
    requires waits { All (λ w. IsWait (game_of game.now) (wait_of w)) waits.old.items }
    requires room { vec_len waits.old + enters by ≤ vec_capacity waits.old }
    requires follows { Follows S.taken S.faults S.refused writer.old out.old }
    ensures answered { Answered (name_lists names.now) (game_of game.now) table.now (caps_at (lists_of game.now.states)) (own_of None) (here_of here) by result (innermost waits.old.items) (innermost waits.new.items) writer.old.text writer.new.text }
    ensures range { IfSome result (λ landing. IsLanding (game_of game.now) (landing_in landing)) }
    ensures waits { All (λ w. IsWait (game_of game.now) (wait_of w)) waits.new.items }
    ensures length { vec_len waits.new ≤ vec_len waits.old + enters by }
    ensures capacity { vec_capacity waits.new ≡ vec_capacity waits.old }
    ensures begun { writer.new.begun ≡ writer.old.begun }
    ensures follows { Follows S.taken S.faults S.refused writer.new out.new }
{
    let spot = game.spot(here.pos);
    match lead(game, table, here, last_call(waits), spot, by) {
        None => None,
        Some(next) => {
            put_own_move(
                None,
                names,
                game.policy(),
                game.main(),
                spot,
                by,
                writer,
                out,
            );
            follow(waits, next);
            Some(land(game, table, names, None, next, writer, out))
        }
    }
}

/// The woven run of a program by a tape: the environment makes the moves of the tape, and the weaver all its moves up to the environment's next turn. Its trace
/// is appended.
///
/// `Ended` comes exactly where all is over as the tape ends, `TapeSpent` where the tape ends before that, and `BadMove` with the number of
/// the first entry that is no move of the board. The game is one that was made for the program's graph and the policy, and the table meets the conditions of tables.
/// What takes memory, the names and the list of calls that wait, is made before the first byte is put: where memory is wanting nothing was appended.
pub fn run_woven<S: Sink>(
    alloc: Global,
    checked: &Checked,
    game: &Game,
    table: &WeaverCert,
    tape: &[Move],
    writer: &mut Writer<S>,
    out: &mut S,
) -> Result<RunEnd, NoMemory>
    requires valid { IsValid (policy_of game.now.states.policy) }
    requires lists { AreLists (uses_of (policy_of game.now.states.policy) game.now.graph.nodes.items) (lists_of game.now.states) }
    requires drawn { IsGraph (names_of (policy_of game.now.states.policy)) checked.now.source.now (file_of checked.now.program) game.now.graph }
    requires runnable { IsRunnable (plan_of (names_of (policy_of game.now.states.policy)) checked.now.source.now (file_of checked.now.program)) }
    requires assigns { AssignsNames checked.now.source.now (file_of checked.now.program) }
    requires good { IsGoodTable (game_of game.now) table.now }
    requires short { length tape.now < 2 ^ 32 }
    requires follows { Follows S.taken S.faults S.refused writer.old out.old }
    ensures run { IfOk result (λ end. Tells
        (problem_of (policy_of game.now.states.policy) checked.now.source.now (file_of checked.now.program))
        (trace_names_of checked.now.source.now (file_of checked.now.program) (plan_of (names_of (policy_of game.now.states.policy)) checked.now.source.now (file_of checked.now.program)))
        table.now tape.now (end_of end) writer.old.text writer.new.text) }
    ensures refused { OnErr result ((writer.new ≡ writer.old) × (out.new ≡ out.old)) }
    ensures begun { writer.new.begun ≡ writer.old.begun }
    ensures follows { Follows S.taken S.faults S.refused writer.new out.new }
{
    let names = trace_names(alloc, checked, game.graph())?;
    let mut waits = Vec::with_capacity(alloc, entries(tape))?;
    let mut landing = Landing::At(begin(game, table, &names, None, writer, out));
    for i in 0..tape.len() {
        match landing {
            Landing::Over => return Ok(RunEnd::BadMove(i as u32)),
            Landing::At(here) => {
                match answer(game, table, &names, here, &mut waits, tape[i], writer, out) {
                    Some(next) => landing = next,
                    None => return Ok(RunEnd::BadMove(i as u32)),
                }
            }
        }
    }
    match landing {
        Landing::At(_) => Ok(RunEnd::TapeSpent),
        Landing::Over => Ok(RunEnd::Ended),
    }
}
