//! Where a run stands, and where each move leads: over the positions and states of the game, and the rows of the table.

ghost use Rattle.std.specs.Prelude.{◌≡◌, ◌<◌, [], ◌∷◌, ℕ, List, Some, length, option_map, option_and_then, option_to_list, slice_get, IfSome};
ghost use Rattle.cw_certs.specs.Tables.{Table, try_at, state_of};
ghost use Rattle.cw_model.specs.Runs.{mem_in, by_success};
ghost use Rattle.cw_product.specs.Moves.{IsPosition, IsState};
ghost use Rattle.cw_product.specs.Product.{game_of};
ghost use Rattle.cw_game.specs.Games.{Game as GameOf, resumed};
ghost use Rattle.cw_game.specs.Pairs.{call_in};
ghost use Rattle.cw_run.specs.Walks.{here_of, wait_of, next_is, called_of, mem_after, within, called, returning, ended, refusing, next_of, Rests, IsHere, IsWait, IsNextIn, asked_memory, asked, at_pos, stepped_to, branched_to, to_if};

use cw_certs::{
    Move, OpenRow, WeaverCert, after_close, after_label, back_at, into_at, open_at, try_at,
};
use cw_core::{MemId, PosId, SeamId, StateId};
use cw_game::Spot;
use cw_product::{Game, Turn};

/// Where the top frame stands: its position, the state, its memory.
#[derive(Clone, Copy, Drop)]
pub struct Here {
    pub pos: PosId,
    pub state: StateId,
    pub mem: MemId,
}

/// A call that waits for the end of the function: its seam and mode, the position to which it returns, and the state and the memory
/// at the call.
#[derive(Clone, Copy, Drop)]
pub struct Wait {
    pub seam: SeamId,
    pub split: bool,
    pub back: PosId,
    pub state: StateId,
    pub mem: MemId,
}

/// What a move leads to.
#[derive(Clone, Copy, Drop)]
pub enum Next {
    /// On in the same frame.
    To(Here),
    /// Into a function, whose call waits.
    Into(Here, Wait),
    /// Back to the caller.
    Back(Here),
    /// The end of the program.
    Over,
    /// On after a refusal that a stop could have answered.
    Resumed(Here),
    /// The stop after a refusal at this seam.
    Stopped(SeamId),
}

/// The memory of this number, where the table has it.
fn memory(table: &WeaverCert, mem: MemId) -> Option<MemId>
    ensures { option_map (λ m. m.0) result ≡ mem_in table.now mem }
{
    match table.mems().get(mem.0 as usize) {
        Some(_) => Some(mem),
        None => None,
    }
}

/// The state that a memory means.
fn state_of(table: &WeaverCert, mem: MemId) -> Option<StateId>
    ensures { option_map (λ q. q.0) result ≡ state_of table.now mem.0 }
{
    match table.mems().get(mem.0 as usize) {
        Some((state, _)) => Some(*state),
        None => None,
    }
}

/// The memory after an answer.
fn asked_memory(table: &WeaverCert, mem: MemId, seam: SeamId, stage: u8, by: Move) -> Option<MemId>
    ensures { option_map (λ m. m.0) result ≡ asked_memory table.now mem.0 seam.0 stage by }
{
    let row = try_at(table, seam, stage, mem)?;
    match by {
        Move::Grant => memory(table, row.granted?),
        Move::Refuse => memory(table, row.refused?),
        Move::Skip | Move::Try | Move::On | Move::Left => None,
        Move::Right | Move::Opened | Move::Failed | Move::Stop => None,
    }
}

/// The memory of an open's row, by whether a descriptor was given.
fn by_success(row: OpenRow, by: Move) -> MemId
    ensures { result ≡ by_success by row.opened row.failed }
{
    match by {
        Move::Opened => row.opened,
        _ => row.failed,
    }
}

/// The memory after a move within a function.
fn mem_after(table: &WeaverCert, mem: MemId, spot: Spot, by: Move) -> Option<MemId>
    ensures { option_map (λ m. m.0) result ≡ mem_after table.now mem.0 spot by }
{
    match spot {
        Spot::Asked(seam, stage, _) => asked_memory(table, mem, SeamId(seam), stage, by),
        Spot::Step(_) | Spot::Branch(_, _) => Some(mem),
        Spot::Label(seam, _, _) => memory(table, after_label(table, SeamId(seam), mem)?.after),
        Spot::Open(seam, _, _) => {
            let row = open_at(table, SeamId(seam), mem)?;
            memory(table, by_success(row, by))
        }
        Spot::Close(seam, _, _) => memory(table, after_close(table, SeamId(seam), mem)?.after),
        Spot::Visit(_, _, _) | Spot::Exit(_) => None,
        Spot::Call(_, _, _) | Spot::SplitCall(_, _, _) => None,
    }
}

/// Where a move leads within a function.
fn within(game: &Game, table: &WeaverCert, here: Here, spot: Spot, by: Move) -> Option<Here>
    requires here { IsHere (game_of game.now) (here_of here) }
    ensures is { option_map here_of result ≡ within (game_of game.now) table.now (here_of here) spot by }
    ensures range { IfSome result (λ to. IsHere (game_of game.now) (here_of to)) }
{
    let (pos, state) = game.next(here.pos, here.state, by)?;
    let mem = mem_after(table, here.mem, spot, by)?;
    Some(Here { pos, state, mem })
}

/// A call at a position: its seam, the function, the position to which it returns, and whether it is split.
#[derive(Clone, Copy, Drop)]
pub struct CallAt {
    pub seam: SeamId,
    pub function: u16,
    pub back: PosId,
    pub split: bool,
}

/// Where a call leads.
fn called(game: &Game, table: &WeaverCert, here: Here, call: CallAt, by: Move) -> Option<Next>
    requires here { IsHere (game_of game.now) (here_of here) }
    requires function { call.function < length game.now.graph.parts.items }
    requires back { IsPosition (game_of game.now) call.back.0 }
    ensures is { option_map next_is result ≡ called (game_of game.now) table.now (here_of here) call.seam.0 call.function call.back.0 call.split by }
    ensures range { IfSome result (λ next. IsNextIn (game_of game.now) (next_is next)) }
{
    if by != Move::On {
        return None;
    }
    let row = into_at(table, call.seam, call.split, here.mem)?;
    let mem = memory(table, row.callee)?;
    let begun = Here {
        pos: game.entry(call.function),
        state: here.state,
        mem,
    };
    let wait = Wait {
        seam: call.seam,
        split: call.split,
        back: call.back,
        state: here.state,
        mem: here.mem,
    };
    Some(Next::Into(begun, wait))
}

/// The function that is called at a position is there, and so is the position to which it returns.
fn fact_call_is_within(game: &Game, pos: PosId, spot: Spot, call: CallAt)
    requires spot { Some spot ≡ slice_get (game_of game.now).spots pos.0 }
    requires call { Some (called_of call) ≡ call_in (Some spot) }
    ensures function { call.function < length game.now.graph.parts.items }
    ensures back { IsPosition (game_of game.now) call.back.0 }
{
    game.fact_is_closed();
    let _ = (pos, spot, call);
}

/// The call at a position.
fn call_at(game: &Game, pos: PosId, spot: Spot) -> Option<CallAt>
    requires spot { Some spot ≡ slice_get (game_of game.now).spots pos.0 }
    ensures { option_map called_of result ≡ call_in (Some spot) }
{
    let Turn::Call {
        callee,
        split,
        back,
    } = game.turn(pos)
    else {
        return None;
    };
    match spot {
        Spot::Call(seam, _, _) | Spot::SplitCall(seam, _, _) => Some(CallAt {
            seam: SeamId(seam),
            function: callee,
            back,
            split,
        }),
        _ => None,
    }
}

/// Where the end of a function leads, by the call that waits for it.
fn returned(game: &Game, table: &WeaverCert, here: Here, wait: Wait) -> Option<Next>
    requires here { IsHere (game_of game.now) (here_of here) }
    requires wait { IsWait (game_of game.now) (wait_of wait) }
    ensures is { option_map next_is result ≡ returning (game_of game.now) table.now (here_of here) (Some (wait_of wait)) }
    ensures range { IfSome result (λ next. IsNextIn (game_of game.now) (next_is next)) }
{
    let exit = state_of(table, here.mem)?;
    let row = back_at(table, wait.seam, wait.split, wait.mem, exit)?;
    let mem = memory(table, row.after)?;
    Some(Next::Back(Here {
        pos: wait.back,
        state: game.returned(wait.state, here.state, wait.split),
        mem,
    }))
}

/// Where the end of a function leads: back to the innermost call that waits, or to the end of the program.
fn ended(game: &Game, table: &WeaverCert, here: Here, call: Option<Wait>, by: Move) -> Option<Next>
    requires here { IsHere (game_of game.now) (here_of here) }
    requires call { IfSome call (λ w. IsWait (game_of game.now) (wait_of w)) }
    ensures is { option_map next_is result ≡ ended (game_of game.now) table.now (here_of here) (option_to_list (option_map wait_of call)) by }
    ensures range { IfSome result (λ next. IsNextIn (game_of game.now) (next_is next)) }
{
    if by != Move::On {
        return None;
    }
    match call {
        None => Some(Next::Over),
        Some(wait) => returned(game, table, here, wait),
    }
}

/// Where a refusal leads that a stop can answer.
fn refused(
    table: &WeaverCert,
    mem: MemId,
    seam: SeamId,
    stage: u8,
    pair: (PosId, StateId),
) -> Option<Next>
    ensures { option_map next_is result ≡ refusing table.now seam.0 (pair.0.0, pair.1.0) (try_at table.now seam.0 stage mem.0) }
{
    let row = try_at(table, seam, stage, mem)?;
    match row.refused {
        None => Some(Next::Stopped(seam)),
        Some(kept) => {
            let mem = memory(table, kept)?;
            Some(Next::Resumed(Here {
                pos: pair.0,
                state: pair.1,
                mem,
            }))
        }
    }
}

/// Where an answer leads.
fn asked(
    game: &Game,
    table: &WeaverCert,
    here: Here,
    spot: Spot,
    seam: SeamId,
    stage: u8,
    by: Move,
) -> Option<Next>
    requires here { IsHere (game_of game.now) (here_of here) }
    ensures is { option_map next_is result ≡ asked (game_of game.now) table.now (here_of here) spot seam.0 stage by (resumed (game_of game.now) here.pos.0 here.state.0) }
    ensures range { IfSome result (λ next. IsNextIn (game_of game.now) (next_is next)) }
{
    match game.resumed(here.pos, here.state) {
        Some(pair) if by == Move::Refuse => refused(table, here.mem, seam, stage, pair),
        _ => Some(Next::To(within(game, table, here, spot, by)?)),
    }
}

/// The same landing at another position.
#[inline(always)]
fn landing_at(here: Here, pos: u32) -> Here
    ensures { here_of result ≡ at_pos pos (here_of here) }
{
    Here {
        pos: PosId(pos),
        state: here.state,
        mem: here.mem,
    }
}

/// Where a move leads that stays in its frame.
#[inline(always)]
fn to_if(to: Option<Here>) -> Option<Next>
    ensures is { option_map next_is result ≡ to_if (option_map here_of to) }
    ensures range { (g : GameOf) → IfSome to (λ h. IsHere g (here_of h)) → IfSome result (λ next. IsNextIn g (next_is next)) }
{
    match to {
        None => None,
        Some(here) => Some(Next::To(here)),
    }
}

/// The landing behind a step.
#[inline(always)]
fn behind_step(here: Here, next: u32, by: Move) -> Option<Here>
    ensures is { option_map here_of result ≡ stepped_to next (here_of here) by }
    ensures range { (g : GameOf) → IsHere g (here_of here) → IsPosition g next → IfSome result (λ to. IsHere g (here_of to)) }
{
    match by {
        Move::On => Some(landing_at(here, next)),
        Move::Skip | Move::Try | Move::Grant | Move::Refuse | Move::Left => None,
        Move::Right | Move::Opened | Move::Failed | Move::Stop => None,
    }
}

/// The landing behind a condition.
#[inline(always)]
fn behind_branch(here: Here, left: u32, right: u32, by: Move) -> Option<Here>
    ensures is { option_map here_of result ≡ branched_to left right (here_of here) by }
    ensures range { (g : GameOf) → IsHere g (here_of here) → IsPosition g left → IsPosition g right → IfSome result (λ to. IsHere g (here_of to)) }
{
    match by {
        Move::Left => Some(landing_at(here, left)),
        Move::Right => Some(landing_at(here, right)),
        Move::Skip | Move::Try | Move::Grant | Move::Refuse => None,
        Move::On | Move::Opened | Move::Failed | Move::Stop => None,
    }
}

/// Where a step leads: neither the state nor the memory changes.
#[inline(always)]
fn stepped(game: &Game, here: Here, next: u32, by: Move) -> Option<Next>
    requires here { IsHere (game_of game.now) (here_of here) }
    requires spot { Some (Spot.Step next) ≡ slice_get (game_of game.now).spots here.pos.0 }
    ensures is { (table : Table) → option_map next_is result ≡ next_of (game_of game.now) table (here_of here) [] (Spot.Step next) by }
    ensures range { IfSome result (λ next. IsNextIn (game_of game.now) (next_is next)) }
{
    game.fact_is_closed();
    to_if(behind_step(here, next, by))
}

/// Where a condition leads: neither the state nor the memory changes.
#[inline(always)]
fn branched(game: &Game, here: Here, left: u32, right: u32, by: Move) -> Option<Next>
    requires here { IsHere (game_of game.now) (here_of here) }
    requires spot { Some (Spot.Branch left right) ≡ slice_get (game_of game.now).spots here.pos.0 }
    ensures is { (table : Table) → option_map next_is result ≡ next_of (game_of game.now) table (here_of here) [] (Spot.Branch left right) by }
    ensures range { IfSome result (λ next. IsNextIn (game_of game.now) (next_is next)) }
{
    game.fact_is_closed();
    to_if(behind_branch(here, left, right, by))
}

/// Where a move of the environment leads, over the innermost call that waits; nowhere where the game has no such move, or the table no row for it.
#[inline(always)]
pub fn lead(
    game: &Game,
    table: &WeaverCert,
    here: Here,
    call: Option<Wait>,
    spot: Spot,
    by: Move,
) -> Option<Next>
    requires here { IsHere (game_of game.now) (here_of here) }
    requires call { IfSome call (λ w. IsWait (game_of game.now) (wait_of w)) }
    requires spot { Some spot ≡ slice_get (game_of game.now).spots here.pos.0 }
    ensures is { option_map next_is result ≡ next_of (game_of game.now) table.now (here_of here) (option_to_list (option_map wait_of call)) spot by }
    ensures range { IfSome result (λ next. IsNextIn (game_of game.now) (next_is next)) }
{
    match spot {
        Spot::Step(next) => stepped(game, here, next, by),
        Spot::Branch(left, right) => branched(game, here, left, right, by),
        Spot::Call(_, _, _) | Spot::SplitCall(_, _, _) => {
            let called_here = call_at(game, here.pos, spot)?;
            fact_call_is_within(game, here.pos, spot, called_here);
            called(game, table, here, called_here, by)
        }
        Spot::Exit(_) => ended(game, table, here, call, by),
        Spot::Asked(seam, stage, _) => { asked(game, table, here, spot, SeamId(seam), stage, by) }
        _ => Some(Next::To(within(game, table, here, spot, by)?)),
    }
}

/// The position at which the weaver comes to rest by its own moves.
#[cycle(rest)]
pub(crate) fn rest(game: &Game, table: &WeaverCert, pos: PosId, mem: MemId) -> PosId
    requires position { IsPosition (game_of game.now) pos.0 }
    ensures rests { Rests (game_of game.now) table.now mem.0 pos.0 result.0 }
    ensures range { IsPosition (game_of game.now) result.0 }
{
    let _ = game.positions();
    game.fact_is_closed();
    match game.spot(pos) {
        Spot::Visit(seam, stage, _) => {
            if try_at(table, SeamId(seam), stage, mem).is_some() {
                PosId(pos.0 + 1)
            } else {
                rest(game, table, PosId(pos.0 + 2), mem)
            }
        }
        _ => pos,
    }
}
