//! The calls of a link are asked for, whose callee is lost.

ghost use Rattle.std.specs.Prelude.{◌≡◌, ◌⊎◌, ◌<◌, ◌≤◌, suc, true, false, Some, length, slice_get, slice_index, OnOk, IfSome, IfNone};
ghost use Rattle.cw_game.specs.Pairs.{Called, call_in, is_call_in};
ghost use Rattle.cw_product.specs.Product.{game_of};
ghost use Rattle.cw_product.specs.Moves.{IsPosition, IsState};
ghost use Rattle.cw_product.specs.Routed.{AreRouted};
ghost use Rattle.cw_solve.specs.Tables.{HasCell};
ghost use Rattle.cw_linked.specs.Calls.{AreCallers, AsksCaller, AsksCallers};
ghost use Rattle.cw_linked.specs.Founds.{class_of, AreRight, AllCalled};
ghost use Rattle.cw_linked.specs.Queues.{found_of, AreFlagged, AreLong, AreHigh};
ghost use Rattle.cw_linked.specs.Steps.{CallsThere};
ghost use Rattle.cw_linked.specs.Works.{known_of, IsKnown, heights_of, cell_of};

use crate::work::{Cell, Work, ask_cell, cell_at};
use cw_core::{NoMemory, PosId, StateId};
use cw_links::Link;
use cw_product::{Game, Turn};
use cw_solve::table::{Tabled, slot};

/// The state that stands for those that are alike at the call at a position; none where no call is.
pub(crate) fn class_at(game: &Game, pos: PosId, state: StateId) -> Option<StateId>
    requires position { IsPosition (game_of game.now) pos.0 }
    requires state { IsState (game_of game.now) state.0 }
    ensures some { IfSome result (λ k. (call : Called) × (call_in (slice_get (game_of game.now).spots pos.0) ≡ Some call)
        × (class_of (game_of game.now) call.split state.0 ≡ k.0)) }
    ensures none { IfNone result ((call : Called) → call_in (slice_get (game_of game.now).spots pos.0) ≡ Some call → ⊥) }
    ensures within { IfSome result (λ k. IsState (game_of game.now) k.0) }
{
    match game.turn(pos) {
        Turn::Call { split, .. } => Some(game.returned(state, StateId(0), split)),
        Turn::Exit { .. } => None,
        Turn::Weaver | Turn::Environment => None,
    }
}

/// Whether a call stands at a position.
pub(crate) fn is_call(game: &Game, pos: PosId) -> bool
    requires { IsPosition (game_of game.now) pos.0 }
    ensures { result ≡ is_call_in (slice_get (game_of game.now).spots pos.0) }
{
    match game.turn(pos) {
        Turn::Call { .. } => true,
        Turn::Exit { .. } => false,
        Turn::Weaver | Turn::Environment => false,
    }
}

/// Whether two states are the same.
pub(crate) fn is_same(a: StateId, b: StateId) -> bool
    ensures is { result ≡ true → a.0 ≡ b.0 }
    ensures not { result ≡ false → a.0 ≡ b.0 → ⊥ }
{
    a.0 == b.0
}

/// The greater of a link's number of moves and a height.
fn greater(moves: u32, height: u32) -> u32
    ensures one { (moves ≡ result) ⊎ (height ≡ result) }
    ensures moves { moves ≤ result }
    ensures high { height ≤ result }
{
    if moves < height { height } else { moves }
}

/// Whether a list has the links that go to a context.
fn is_list_of(list: u32, at: &Tabled) -> bool
    ensures is { result ≡ true → list ≡ suc at.now.number }
    ensures not { result ≡ false → list ≡ suc at.now.number → ⊥ }
{
    if list == 0 {
        false
    } else {
        list as usize - 1 == at.number()
    }
}

/// Asks for the call of a link with so many moves that goes to the context of this cell of an entry, if the state of the cell is of its
/// class.
#[inline(always)]
fn ask_linked(
    game: &Game,
    work: &mut Work,
    at: &Tabled,
    pos: PosId,
    state: StateId,
    height: u32,
    link: usize,
    moves: u32,
) -> Result<(), NoMemory>
    requires routed { AreRouted (game_of game.now) (length game.now.graph.parts.items) }
    requires known { IsKnown (game_of game.now) (known_of work.old) }
    requires cell { HasCell (game_of game.now) work.old.blocks at.now pos.0 state.0 }
    requires entry { pos.0 ≡ (game_of game.now).entry at.now.context.function }
    requires taken { heights_of (game_of game.now) (known_of work.old) at.now.number pos.0 state.0 ≡ height }
    requires some { 0 < height }
    requires within { link < length work.old.store.heights }
    requires goes { slice_index work.old.store.to link ≡ suc at.now.number }
    requires moves { slice_index work.old.store.waves link ≡ moves }
    requires long { AreLong work.old }
    requires high { AreHigh work.old }
    requires right { AreRight (game_of game.now) work.old.blocks.contexts.items (found_of (game_of game.now) work.old) }
    ensures { OnOk result (AsksCaller (game_of game.now) work.old work.new link (cell_of at.now pos state)) }
{
    // Where calls go down a chain, a context is added right behind that of its caller.
    let near = at.number().saturating_sub(1);
    let caller = cell_at(game, work, near, link);
    match class_at(game, caller.pos, state) {
        None => Ok(()),
        Some(class) => {
            if is_same(class, caller.state) {
                let index = slot(game, &work.blocks, &caller.at, caller.pos, state);
                let most = greater(moves, height);
                let within = most + 1;
                ask_cell(work, index, within)?;
                Ok(())
            } else {
                Ok(())
            }
        }
    }
}

/// Asks for the call of a link, if the link goes to the context of this cell of an entry, and the state of the cell is of its class.
#[inline(always)]
pub(crate) fn ask_call(
    game: &Game,
    work: &mut Work,
    at: &Tabled,
    pos: PosId,
    state: StateId,
    height: u32,
    link: usize,
) -> Result<(), NoMemory>
    requires routed { AreRouted (game_of game.now) (length game.now.graph.parts.items) }
    requires known { IsKnown (game_of game.now) (known_of work.old) }
    requires cell { HasCell (game_of game.now) work.old.blocks at.now pos.0 state.0 }
    requires entry { pos.0 ≡ (game_of game.now).entry at.now.context.function }
    requires taken { heights_of (game_of game.now) (known_of work.old) at.now.number pos.0 state.0 ≡ height }
    requires some { 0 < height }
    requires within { link < length work.old.store.heights }
    requires long { AreLong work.old }
    requires high { AreHigh work.old }
    requires right { AreRight (game_of game.now) work.old.blocks.contexts.items (found_of (game_of game.now) work.old) }
    ensures { OnOk result (AsksCaller (game_of game.now) work.old work.new link (cell_of at.now pos state)) }
{
    if is_list_of(work.store.to(link), at) {
        let moves = work.store.wave(link);
        ask_linked(game, work, at, pos, state, height, link, moves)?;
        Ok(())
    } else {
        Ok(())
    }
}

/// The same, of a link of which it is known what is kept of it.
#[inline(always)]
fn ask_caller(
    game: &Game,
    work: &mut Work,
    cell: &Cell,
    height: u32,
    link: Link,
) -> Result<(), NoMemory>
    requires routed { AreRouted (game_of game.now) (length game.now.graph.parts.items) }
    requires known { IsKnown (game_of game.now) (known_of work.old) }
    requires cell { HasCell (game_of game.now) work.old.blocks cell.now.at cell.now.pos.0 cell.now.state.0 }
    requires entry { cell.now.pos.0 ≡ (game_of game.now).entry cell.now.at.context.function }
    requires taken { heights_of (game_of game.now) (known_of work.old) cell.now.at.number cell.now.pos.0 cell.now.state.0 ≡ height }
    requires some { 0 < height }
    requires within { link.index < length work.old.store.heights }
    requires list { link.list ≡ slice_index work.old.store.to link.index }
    requires moves { link.moves ≡ slice_index work.old.store.waves link.index }
    requires long { AreLong work.old }
    requires high { AreHigh work.old }
    requires right { AreRight (game_of game.now) work.old.blocks.contexts.items (found_of (game_of game.now) work.old) }
    ensures { OnOk result (AsksCaller (game_of game.now) work.old work.new link.index (cell_of cell.now.at cell.now.pos cell.now.state)) }
{
    if is_list_of(link.list, &cell.at) {
        ask_linked(
            game, work, &cell.at, cell.pos, cell.state, height, link.index, link.moves,
        )?;
        Ok(())
    } else {
        Ok(())
    }
}

/// Asks for the calls whose link goes to the context of a cell of an entry.
#[inline(never)]
pub(crate) fn ask_callers(
    game: &Game,
    work: &mut Work,
    cell: &Cell,
    height: u32,
) -> Result<(), NoMemory>
    requires routed { AreRouted (game_of game.now) (length game.now.graph.parts.items) }
    requires known { IsKnown (game_of game.now) (known_of work.old) }
    requires cell { HasCell (game_of game.now) work.old.blocks cell.now.at cell.now.pos.0 cell.now.state.0 }
    requires entry { cell.now.pos.0 ≡ (game_of game.now).entry cell.now.at.context.function }
    requires taken { heights_of (game_of game.now) (known_of work.old) cell.now.at.number cell.now.pos.0 cell.now.state.0 ≡ height }
    requires some { 0 < height }
    requires callers { AreCallers work.old }
    requires flagged { AreFlagged (game_of game.now) work.old }
    requires long { AreLong work.old }
    requires high { AreHigh work.old }
    requires right { AreRight (game_of game.now) work.old.blocks.contexts.items (found_of (game_of game.now) work.old) }
    requires called { AllCalled (game_of game.now) work.old.blocks.contexts.items (found_of (game_of game.now) work.old)
        (CallsThere (game_of game.now) (found_of (game_of game.now) work.old) cell.now.at.number cell.now.pos.0 cell.now.state.0) }
    ensures { OnOk result (AsksCallers (game_of game.now) work.old work.new) }
{
    let mut next = work.store.first(cell.at.number() as u32 + 1);
    'walk: while let Some(link) = next {
        let told = work.store.linked(link);
        ask_caller(game, work, cell, height, told)?;
        next = work.store.next(link);
    }
    Ok(())
}
