//! The conditions of a live row, beside what the game gives at its pair.

ghost use Rattle.std.specs.Prelude.{◌≡◌, ◌||◌, [], Some, None, cond, false, true, nat_eq, slice_get};
ghost use Rattle.cw_product.specs.Product.{game_of};
ghost use Rattle.cw_product.specs.Moves.{IsPosition, next_at};
ghost use Rattle.cw_certs.specs.declared.moves.Move.TheVariants as Move;
ghost use Rattle.cw_game.specs.Games.{bad_in, leads_in, resumed_in};
ghost use Rattle.cw_game.specs.Conditions.{first_failing, live_by, live_conditions, visits_on, takes, takes_on, takes_answers, answers_on, is_passing, moves_by, moves_on};
ghost use Rattle.cw_game.specs.Pairs.{has};
ghost use Rattle.cw_wcheck.specs.Working.{IsRowOf, MeanStates, asked_fault, branch_fault, exit_fault, lands_live, passing_fault, step_fault, visit_fault};

use crate::calls::call_fault;
use crate::memories::{is_live_near, is_promised, meaning, memory_after, takes, takes_on};
use crate::ways::{Ways, ways_at};
use cw_certs::{Move, TryRow, WeaverCert, try_at};
use cw_core::{MemId, PosId, SeamId, StateId, StateSet};
use cw_game::Spot;
use cw_product::Game;

/// A live row: its position and what stands there, its memory, and the state and the promise that the memory means, which is lent, as a
/// copy of it costs more than the rest of a row. Where it leads, the row behind it often stands: at this index of the list. At a call or a
/// label its rows mostly stand where the `ways` are.
#[derive(Drop)]
pub struct LiveRow<'a> {
    pub near: usize,
    pub ways: Ways,
    pub pos: PosId,
    pub spot: Spot,
    pub mem: MemId,
    pub state: StateId,
    pub promise: &'a StateSet,
}

/// Whether the pair to which a move leads, if it does, is live with the same memory.
fn lands_live(game: &Game, cert: &WeaverCert, row: &LiveRow, by: Move) -> bool
    requires row { IsRowOf (game_of game.now) row.now }
    ensures { result ≡ lands_live cert.now row.now.mem.0 (next_at (game_of game.now) row.now.pos.0 row.now.state.0 by) }
{
    match game.next(row.pos, row.state, by) {
        Some((pos, _)) => is_live_near(cert, row.near, pos, row.mem),
        None => true,
    }
}

/// The fourth condition: at a visit the position of the skip is live, or that of the try where there is a row of it.
fn visits_on(game: &Game, cert: &WeaverCert, row: &LiveRow) -> bool
    requires row { IsRowOf (game_of game.now) row.now }
    ensures { result ≡ visits_on cert.now row.now.pos.0 row.now.mem.0 (Some row.now.spot) }
{
    match row.spot {
        Spot::Visit(seam, stage, _) => match try_at(cert, SeamId(seam), stage, row.mem) {
            Some(_) => lands_live(game, cert, row, Move::Try),
            None => lands_live(game, cert, row, Move::Skip),
        },
        _ => true,
    }
}

/// Whether a grant of what is asked is taken by this memory.
fn takes_grant(game: &Game, cert: &WeaverCert, row: &LiveRow, mem: Option<MemId>) -> bool
    requires row { IsRowOf (game_of game.now) row.now }
    ensures { result ≡ takes cert.now row.now.promise.now mem (leads_in (game_of game.now) row.now.pos.0 row.now.state.0 []
        (Some row.now.spot) Move.Grant) }
{
    takes(
        cert,
        row.near,
        row.promise,
        mem,
        game.next(row.pos, row.state, Move::Grant),
    )
}

/// Whether a refusal of it is.
fn takes_refusal(game: &Game, cert: &WeaverCert, row: &LiveRow, mem: Option<MemId>) -> bool
    requires row { IsRowOf (game_of game.now) row.now }
    ensures { result ≡ takes cert.now row.now.promise.now mem (leads_in (game_of game.now) row.now.pos.0 row.now.state.0 []
        (Some row.now.spot) Move.Refuse) }
{
    takes(
        cert,
        row.near,
        row.promise,
        mem,
        game.next(row.pos, row.state, Move::Refuse),
    )
}

/// Whether going on after a refusal that a stop can answer is.
fn takes_resumed(game: &Game, cert: &WeaverCert, row: &LiveRow, mem: Option<MemId>) -> bool
    requires row { IsRowOf (game_of game.now) row.now }
    ensures { result ≡ takes_on cert.now row.now.promise.now mem
        (resumed_in (game_of game.now) row.now.pos.0 row.now.state.0 (Some row.now.spot)) }
{
    takes_on(
        cert,
        row.near,
        row.promise,
        mem,
        game.resumed(row.pos, row.state),
    )
}

/// Whether each answer to what is asked is taken by its memory of a row, and going on after a refusal that a stop can answer too.
fn takes_answers(game: &Game, cert: &WeaverCert, row: &LiveRow, found: &TryRow) -> bool
    requires row { IsRowOf (game_of game.now) row.now }
    ensures { result ≡ takes_answers (game_of game.now) cert.now row.now.pos.0 row.now.state.0 row.now.promise.now
        (Some row.now.spot) (Some found.now) }
{
    takes_grant(game, cert, row, found.granted)
        && takes_refusal(game, cert, row, found.refused)
        && takes_resumed(game, cert, row, found.refused)
}

/// The fifth condition: where something is asked there is a row, whose memories take the answers.
fn answers_on(game: &Game, cert: &WeaverCert, row: &LiveRow) -> bool
    requires row { IsRowOf (game_of game.now) row.now }
    ensures { result ≡ answers_on (game_of game.now) cert.now row.now.pos.0 row.now.state.0 row.now.mem.0 row.now.promise.now
        (Some row.now.spot) }
{
    match row.spot {
        Spot::Asked(seam, stage, _) => match try_at(cert, SeamId(seam), stage, row.mem) {
            Some(found) => takes_answers(game, cert, row, &found),
            None => false,
        },
        _ => true,
    }
}

/// Whether a move is taken by the memory after it.
fn moves_by(game: &Game, cert: &WeaverCert, row: &LiveRow, by: Move) -> bool
    requires row { IsRowOf (game_of game.now) row.now }
    requires good { bad_in (game_of game.now) row.now.state.0 (Some row.now.spot) ≡ false }
    requires passing { is_passing row.now.spot ≡ true }
    ensures { result ≡ moves_by (game_of game.now) cert.now row.now.pos.0 row.now.state.0 row.now.mem.0 row.now.promise.now row.now.spot by }
{
    let mem = memory_after(cert, row.ways, row.mem, row.spot, by);
    takes(
        cert,
        row.near,
        row.promise,
        mem,
        game.next(row.pos, row.state, by),
    )
}

/// The sixth condition: at any other position that is no call and no exit, each move is taken by the memory after it. Tried are those
/// that lead on there.
#[tactic(auto, using(cw_lemmas::proofs::Truths::and_true))]
fn moves_on(game: &Game, cert: &WeaverCert, row: &LiveRow) -> bool
    requires row { IsRowOf (game_of game.now) row.now }
    requires good { bad_in (game_of game.now) row.now.state.0 (Some row.now.spot) ≡ false }
    ensures { result ≡ moves_on (game_of game.now) cert.now row.now.pos.0 row.now.state.0 row.now.mem.0 row.now.promise.now
        (Some row.now.spot) }
{
    match row.spot {
        Spot::Step(_) => moves_by(game, cert, row, Move::On),
        Spot::Label(_, _, _) => moves_by(game, cert, row, Move::On),
        Spot::Close(_, _, _) => moves_by(game, cert, row, Move::On),
        Spot::Branch(_, _) => {
            moves_by(game, cert, row, Move::Left) && moves_by(game, cert, row, Move::Right)
        }
        Spot::Open(_, _, _) => {
            moves_by(game, cert, row, Move::Opened) && moves_by(game, cert, row, Move::Failed)
        }
        Spot::Visit(_, _, _) | Spot::Asked(_, _, _) => true,
        Spot::Call(_, _, _) | Spot::SplitCall(_, _, _) | Spot::Exit(_) => true,
    }
}

/// Whether a state in which a function ends is promised, if that isn't `main`.
fn is_kept(game: &Game, function: u32, state: StateId, promise: &StateSet) -> bool
    ensures { result ≡ (nat_eq function (game_of game.now).main || has promise.now state.0) }
{
    function == u32::from(game.main()) || is_promised(promise, state)
}

/// The condition that fails at a step, where most rows stand: a step keeps the memory and what it means, so the row behind it alone is asked for.
fn step_fault(cert: &WeaverCert, near: usize, next: PosId, mem: MemId) -> Option<u8>
    ensures { result ≡ step_fault cert.now next.0 mem.0 }
{
    if is_live_near(cert, near, next, mem) {
        None
    } else {
        Some(6)
    }
}

/// The same at a branch, which keeps them too: both rows behind it are asked for.
fn branch_fault(cert: &WeaverCert, near: usize, left: PosId, right: PosId, mem: MemId) -> Option<u8>
    ensures { result ≡ branch_fault cert.now left.0 right.0 mem.0 }
{
    if is_live_near(cert, near, left, mem) && is_live_near(cert, near, right, mem) {
        None
    } else {
        Some(6)
    }
}

/// The same at the end of a function, which has the ninth condition alone.
fn exit_fault(game: &Game, function: u32, state: StateId, promise: &StateSet) -> Option<u8>
    ensures { result ≡ exit_fault (game_of game.now) state.0 promise.now function }
{
    if is_kept(game, function, state, promise) {
        None
    } else {
        Some(9)
    }
}

/// The same at a visit, which has the fourth condition alone.
fn visit_fault(game: &Game, cert: &WeaverCert, row: &LiveRow) -> Option<u8>
    requires row { IsRowOf (game_of game.now) row.now }
    ensures { result ≡ visit_fault cert.now row.now.pos.0 row.now.mem.0 (Some row.now.spot) }
{
    if visits_on(game, cert, row) {
        None
    } else {
        Some(4)
    }
}

/// The same where something is asked, which has the fifth condition alone.
fn asked_fault(game: &Game, cert: &WeaverCert, row: &LiveRow) -> Option<u8>
    requires row { IsRowOf (game_of game.now) row.now }
    ensures { result ≡ asked_fault (game_of game.now) cert.now row.now.pos.0 row.now.state.0 row.now.mem.0 row.now.promise.now
        (Some row.now.spot) }
{
    if answers_on(game, cert, row) {
        None
    } else {
        Some(5)
    }
}

/// The same where each move leads on, which has the third condition and the sixth.
fn passing_fault(game: &Game, cert: &WeaverCert, row: &LiveRow) -> Option<u8>
    requires row { IsRowOf (game_of game.now) row.now }
    ensures { result ≡ passing_fault (game_of game.now) cert.now row.now.pos.0 row.now.state.0 row.now.mem.0 row.now.promise.now
        (Some row.now.spot) }
{
    if game.bad(row.pos, row.state) {
        return Some(3);
    }
    if !moves_on(game, cert, row) {
        return Some(6);
    }
    None
}

/// The number of the first condition from the third on that fails of a row, of those that there are of what stands there.
fn row_fault(game: &Game, cert: &WeaverCert, row: &LiveRow) -> Option<u8>
    requires row { IsRowOf (game_of game.now) row.now }
    requires mems { MeanStates (game_of game.now) cert.now }
    ensures { result ≡ first_failing (live_conditions (game_of game.now) cert.now row.now.pos.0 row.now.state.0
        row.now.mem.0 row.now.promise.now (slice_get (game_of game.now).spots row.now.pos.0)) }
{
    match row.spot {
        Spot::Visit(_, _, _) => visit_fault(game, cert, row),
        Spot::Asked(_, _, _) => asked_fault(game, cert, row),
        Spot::Step(_) | Spot::Branch(_, _) => passing_fault(game, cert, row),
        Spot::Label(_, _, _) => passing_fault(game, cert, row),
        Spot::Open(_, _, _) | Spot::Close(_, _, _) => passing_fault(game, cert, row),
        Spot::Call(_, _, _) => call_fault(game, cert, row),
        Spot::SplitCall(_, _, _) => call_fault(game, cert, row),
        Spot::Exit(function) => exit_fault(game, function, row.state, row.promise),
    }
}

/// The number of the first condition from the third on that fails of a position and a memory, before this index of the list of live
/// rows; None where the memory isn't there. At a call or a label the ways go on to its rows.
pub fn failing_condition(
    game: &Game,
    cert: &WeaverCert,
    near: usize,
    ways: &mut Ways,
    pos: PosId,
    mem: MemId,
) -> Option<u8>
    requires position { IsPosition (game_of game.now) pos.0 }
    requires mems { MeanStates (game_of game.now) cert.now }
    ensures { result ≡ first_failing (live_by (game_of game.now) cert.now pos.0 mem.0 (slice_get cert.now.mems mem.0)) }
{
    let (state, promise) = meaning(cert, mem)?;
    let spot = game.spot(pos);
    if let Spot::Step(next) = spot {
        return step_fault(cert, near, PosId(next), mem);
    }
    if let Spot::Branch(left, right) = spot {
        return branch_fault(cert, near, PosId(left), PosId(right), mem);
    }
    if let Spot::Exit(function) = spot {
        return exit_fault(game, function, *state, promise);
    }
    *ways = ways_at(cert, *ways, spot, mem);
    let row = LiveRow {
        near,
        ways: *ways,
        pos,
        spot,
        mem,
        state: *state,
        promise,
    };
    row_fault(game, cert, &row)
}
