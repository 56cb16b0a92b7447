//! The conditions of a live row at a call.

ghost use Rattle.std.specs.Prelude.{◌≡◌, ◌<◌, Some, option_map, slice_get};
ghost use Rattle.std.specs.List.{list_all};
ghost use Rattle.cw_product.specs.Product.{game_of};
ghost use Rattle.cw_game.specs.Games.{returned};
ghost use Rattle.cw_game.specs.Pairs.{call_in, kept_at};
ghost use Rattle.cw_game.specs.Conditions.{means_state, begins_by, promise_of, back_by, returns_by, all_return};
ghost use Rattle.cw_certs.specs.Tables.{into_at, back_at};
ghost use Rattle.cw_wcheck.specs.Working.{IsRowOf, MeanStates, call_fault, called_fault, called_of};

use crate::ends::ends_near;
use crate::memories::{is_live_near, leads, meaning};
use crate::rows::LiveRow;
use crate::ways::{back_near, into_near};
use cw_certs::{IntoRow, WeaverCert};
use cw_core::{MemId, PosId, SeamId, StateId, StateSet};
use cw_game::Spot;
use cw_product::{Game, Turn};

/// A call: its seam, the function that it calls, the position to which it returns, and whether it is split.
#[derive(Clone, Copy, Drop)]
pub struct CallAt {
    pub seam: SeamId,
    pub function: u16,
    pub back: PosId,
    pub split: bool,
}

/// The call at the position of a row.
fn call_at(game: &Game, row: &LiveRow) -> Option<CallAt>
    requires row { IsRowOf (game_of game.now) row.now }
    ensures { option_map called_of result ≡ call_in (Some row.now.spot) }
{
    let Turn::Call {
        callee,
        split,
        back,
    } = game.turn(row.pos)
    else {
        return None;
    };
    match row.spot {
        Spot::Call(seam, _, _) | Spot::SplitCall(seam, _, _) => Some(CallAt {
            seam: SeamId(seam),
            function: callee,
            back,
            split,
        }),
        _ => None,
    }
}

/// Where a function begins; for a number that no function has, the first position.
fn entry_of(game: &Game, function: u16) -> PosId
    ensures { result.0 ≡ (game_of game.now).entry function }
{
    if (function as usize) < game.graph().parts.len() {
        game.entry(function)
    } else {
        PosId(0)
    }
}

/// Where a function ends; for a number that no function has, the first position.
fn exit_of(game: &Game, function: u16) -> PosId
    ensures { result.0 ≡ (game_of game.now).exit function }
{
    if (function as usize) < game.graph().parts.len() {
        game.exit(function)
    } else {
        PosId(0)
    }
}

/// Whether a memory is there and means this state with some promise.
fn means_state(cert: &WeaverCert, mem: MemId, state: StateId) -> bool
    ensures { result ≡ means_state (slice_get cert.now.mems mem.0) state.0 }
{
    match meaning(cert, mem) {
        Some((meant, _)) => *meant == state,
        None => false,
    }
}

/// Whether the memory of a call's row means the state and is live where the function begins.
fn begins_by(game: &Game, cert: &WeaverCert, row: &LiveRow, call: CallAt, into: &IntoRow) -> bool
    ensures { result ≡ begins_by (game_of game.now) cert.now row.now.state.0 (called_of call) (Some into.now) }
{
    means_state(cert, into.callee, row.state)
        && is_live_near(cert, row.near, entry_of(game, call.function), into.callee)
}

/// The promise of the memory with which the called function begins.
fn promise_of<'a>(cert: &'a WeaverCert, into: &IntoRow) -> Option<&'a StateSet>
    ensures { option_map (λ promise. promise.now) result ≡ promise_of cert.now (Some into.now) }
{
    let (_, promise) = meaning(cert, into.callee)?;
    Some(promise)
}

/// Whether there is a row for the way back from an end of the function in this state, whose memory leads on.
fn goes_back(game: &Game, cert: &WeaverCert, row: &LiveRow, call: CallAt, exit: StateId) -> bool
    requires row { IsRowOf (game_of game.now) row.now }
    requires exit { exit.0 < (game_of game.now).states.count }
    ensures { result ≡ back_by cert.now (called_of call) (returned (game_of game.now).states (kept_at call.split
        row.now.state.0) exit.0) row.now.promise.now (back_at cert.now call.seam.0 call.split row.now.mem.0 exit.0) }
{
    match back_near(cert, row.ways.back, call.seam, call.split, row.mem, exit) {
        Some(back) => {
            let state = game.returned(row.state, exit, call.split);
            leads(cert, row.near, call.back, back.after, state, row.promise)
        }
        None => false,
    }
}

/// Whether a memory has its way back, if its promise is this one.
fn returns_by(
    game: &Game,
    cert: &WeaverCert,
    row: &LiveRow,
    call: CallAt,
    promise: &StateSet,
    mem: MemId,
) -> bool
    requires row { IsRowOf (game_of game.now) row.now }
    requires mems { MeanStates (game_of game.now) cert.now }
    ensures { result ≡ returns_by (game_of game.now) cert.now row.now.state.0 row.now.mem.0 row.now.promise.now (called_of call)
        promise.now (slice_get cert.now.mems mem.0) }
{
    match meaning(cert, mem) {
        Some((exit, promised)) => *promised != *promise || goes_back(game, cert, row, call, *exit),
        None => true,
    }
}

/// Whether each of these memories with a promise has its way back.
fn each_returns(
    game: &Game,
    cert: &WeaverCert,
    row: &LiveRow,
    call: CallAt,
    promise: &StateSet,
    live: &[(PosId, MemId)],
) -> bool
    requires row { IsRowOf (game_of game.now) row.now }
    requires mems { MeanStates (game_of game.now) cert.now }
    ensures { result ≡ list_all (λ r. returns_by (game_of game.now) cert.now row.now.state.0 row.now.mem.0 row.now.promise.now
        (called_of call) promise.now (slice_get cert.now.mems r.1.0)) live.now }
{
    live.iter().all(|row_there| returns_by(game, cert, row, call, promise, row_there.1))
}

/// Whether each memory with the promise of the call that is live at the end of the function has its way back.
fn all_return(game: &Game, cert: &WeaverCert, row: &LiveRow, call: CallAt, into: &IntoRow) -> bool
    requires row { IsRowOf (game_of game.now) row.now }
    requires mems { MeanStates (game_of game.now) cert.now }
    ensures { result ≡ all_return (game_of game.now) cert.now row.now.state.0 row.now.mem.0 row.now.promise.now (called_of call)
        (promise_of cert.now (Some into.now)) }
{
    match promise_of(cert, into) {
        Some(promise) => {
            let ends = ends_near(cert, row.near, exit_of(game, call.function));
            each_returns(game, cert, row, call, promise, ends)
        }
        None => true,
    }
}

/// The condition that fails of a row at a call with this row in the list of calls. The seventh: its memory means the state and is live
/// where the function begins. The eighth: each memory with its promise that is live at the end of the function has its way back.
fn called_fault(
    game: &Game,
    cert: &WeaverCert,
    row: &LiveRow,
    call: CallAt,
    into: &IntoRow,
) -> Option<u8>
    requires row { IsRowOf (game_of game.now) row.now }
    requires mems { MeanStates (game_of game.now) cert.now }
    ensures { result ≡ called_fault (game_of game.now) cert.now row.now.state.0 row.now.mem.0 row.now.promise.now (called_of call)
        (Some into.now) }
{
    if !begins_by(game, cert, row, call, into) {
        return Some(7);
    }
    if !all_return(game, cert, row, call, into) {
        return Some(8);
    }
    None
}

/// The same at a call, which is to have its row.
fn fault_of_call(game: &Game, cert: &WeaverCert, row: &LiveRow, call: CallAt) -> Option<u8>
    requires row { IsRowOf (game_of game.now) row.now }
    requires mems { MeanStates (game_of game.now) cert.now }
    ensures { result ≡ called_fault (game_of game.now) cert.now row.now.state.0 row.now.mem.0 row.now.promise.now (called_of call)
        (into_at cert.now call.seam.0 call.split row.now.mem.0) }
{
    match into_near(cert, row.ways.into, call.seam, call.split, row.mem) {
        Some(into) => called_fault(game, cert, row, call, &into),
        None => Some(7),
    }
}

/// The same at any position, where there may be no call.
pub fn call_fault(game: &Game, cert: &WeaverCert, row: &LiveRow) -> Option<u8>
    requires row { IsRowOf (game_of game.now) row.now }
    requires mems { MeanStates (game_of game.now) cert.now }
    ensures { result ≡ call_fault (game_of game.now) cert.now row.now.state.0 row.now.mem.0 row.now.promise.now
        (call_in (Some row.now.spot)) }
{
    match call_at(game, row) {
        Some(call) => fault_of_call(game, cert, row, call),
        None => None,
    }
}
