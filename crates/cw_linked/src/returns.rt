//! The links of calls are asked for, which return to a pair that is taken.

ghost use Rattle.std.specs.Prelude.{◌≡◌, ◌<◌, true, false, length, OnOk};
ghost use Rattle.cw_product.specs.Product.{game_of};
ghost use Rattle.cw_product.specs.Moves.{IsPosition};
ghost use Rattle.cw_product.specs.Routed.{AreRouted, IsOf};
ghost use Rattle.cw_solve.specs.Tables.{HasCell};
ghost use Rattle.cw_linked.specs.Blocks.{IsBlock};
ghost use Rattle.cw_linked.specs.Founds.{AreRight, AllStanding};
ghost use Rattle.cw_linked.specs.Queues.{found_of, AreFlagged, AreLong, AreHigh};
ghost use Rattle.cw_linked.specs.Returns.{AreReturns, AreFew, IsPromised, Returns, AsksReturn, AsksReturns};
ghost use Rattle.cw_linked.specs.Steps.{ReturnsThere};
ghost use Rattle.cw_linked.specs.Works.{known_of, IsKnown, heights_of, cell_of};

use crate::block::{Block, index_in, is_in};
use crate::calls::class_at;
use crate::work::{Cell, Work, ask_link};
use cw_core::{NoMemory, PosId, StateId};
use cw_links::Rows;
use cw_product::{Game, Turn};
use cw_solve::table::Tabled;

/// Whether the link at an index goes to a context whose promise has the state.
fn is_promised(work: &Work, link: usize, state: StateId) -> bool
    requires long { AreLong work.now }
    requires within { link < length work.now.store.heights }
    requires few { AreFew work.now }
    requires state { state.0 < 1024 }
    ensures is { result ≡ true → IsPromised work.now link state.0 }
    ensures not { result ≡ false → IsPromised work.now link state.0 → ⊥ }
{
    let to = work.store.to(link) as usize;
    if to == 0 {
        false
    } else {
        work.blocks.contexts[to - 1].promise.contains(state)
    }
}

/// Whether a call stands at a position, which returns to another.
fn returns_to(game: &Game, pos: PosId, to: PosId) -> bool
    requires position { IsPosition (game_of game.now) pos.0 }
    ensures is { result ≡ true → Returns (game_of game.now) pos.0 to.0 }
    ensures not { result ≡ false → Returns (game_of game.now) pos.0 to.0 → ⊥ }
{
    match game.turn(pos) {
        Turn::Call { back, .. } => back.0 == to.0,
        Turn::Exit { .. } => false,
        Turn::Weaver | Turn::Environment => false,
    }
}

/// Asks for the link of a call that returns to the cell, which has this height, and from whose state it returns there.
fn ask_own(
    game: &Game,
    work: &mut Work,
    at: &Tabled,
    block: &Block,
    back: PosId,
    state: StateId,
    height: u32,
    pos: PosId,
) -> Result<(), NoMemory>
    requires routed { AreRouted (game_of game.now) (length game.now.graph.parts.items) }
    requires known { IsKnown (game_of game.now) (known_of work.old) }
    requires cell { HasCell (game_of game.now) work.old.blocks at.now back.0 state.0 }
    requires block { IsBlock (game_of game.now) work.old.blocks at.now block.now }
    requires taken { heights_of (game_of game.now) (known_of work.old) at.now.number back.0 state.0 ≡ height }
    requires some { 0 < height }
    requires position { IsPosition (game_of game.now) pos.0 }
    requires of { IsOf (game_of game.now) at.now.context.function pos.0 }
    requires returns { Returns (game_of game.now) pos.0 back.0 }
    requires few { AreFew work.old }
    requires flagged { AreFlagged (game_of game.now) work.old }
    requires long { AreLong work.old }
    requires high { AreHigh work.old }
    requires right { AreRight (game_of game.now) work.old.blocks.contexts.items (found_of (game_of game.now) work.old) }
    ensures { OnOk result (AsksReturn (game_of game.now) work.old work.new (cell_of at.now back state) pos.0) }
{
    match class_at(game, pos, state) {
        None => Ok(()),
        Some(class) => {
            let link = index_in(game, &work.blocks, at, block, pos, class);
            if is_promised(work, link, state) {
                ask_link(work, link, 2 * height + 1)?;
                Ok(())
            } else {
                Ok(())
            }
        }
    }
}

/// Asks for the link at a position that returns to the cell, which has this height.
#[inline(never)]
pub(crate) fn ask_return(
    game: &Game,
    work: &mut Work,
    at: &Tabled,
    block: &Block,
    back: PosId,
    state: StateId,
    height: u32,
    pos: PosId,
) -> Result<(), NoMemory>
    requires routed { AreRouted (game_of game.now) (length game.now.graph.parts.items) }
    requires known { IsKnown (game_of game.now) (known_of work.old) }
    requires cell { HasCell (game_of game.now) work.old.blocks at.now back.0 state.0 }
    requires block { IsBlock (game_of game.now) work.old.blocks at.now block.now }
    requires taken { heights_of (game_of game.now) (known_of work.old) at.now.number back.0 state.0 ≡ height }
    requires some { 0 < height }
    requires position { IsPosition (game_of game.now) pos.0 }
    requires few { AreFew work.old }
    requires flagged { AreFlagged (game_of game.now) work.old }
    requires long { AreLong work.old }
    requires high { AreHigh work.old }
    requires right { AreRight (game_of game.now) work.old.blocks.contexts.items (found_of (game_of game.now) work.old) }
    ensures { OnOk result (AsksReturn (game_of game.now) work.old work.new (cell_of at.now back state) pos.0) }
{
    if !is_in(game, &work.blocks, at, block, pos) {
        return Ok(());
    }
    if !returns_to(game, pos, back) {
        return Ok(());
    }
    ask_own(game, work, at, block, back, state, height, pos)?;
    Ok(())
}

/// Asks for the links that return to a cell.
#[inline(always)]
pub(crate) fn ask_returns(
    game: &Game,
    returns: &Rows<PosId>,
    work: &mut Work,
    cell: &Cell,
    block: &Block,
    height: u32,
) -> Result<(), NoMemory>
    requires routed { AreRouted (game_of game.now) (length game.now.graph.parts.items) }
    requires returns { AreReturns (game_of game.now) returns.now }
    requires known { IsKnown (game_of game.now) (known_of work.old) }
    requires cell { HasCell (game_of game.now) work.old.blocks cell.now.at cell.now.pos.0 cell.now.state.0 }
    requires block { IsBlock (game_of game.now) work.old.blocks cell.now.at block.now }
    requires taken { heights_of (game_of game.now) (known_of work.old) cell.now.at.number cell.now.pos.0 cell.now.state.0 ≡ height }
    requires some { 0 < height }
    requires few { AreFew work.old }
    requires flagged { AreFlagged (game_of game.now) work.old }
    requires long { AreLong work.old }
    requires high { AreHigh work.old }
    requires right { AreRight (game_of game.now) work.old.blocks.contexts.items (found_of (game_of game.now) work.old) }
    requires standing { AllStanding (game_of game.now) work.old.blocks.contexts.items (found_of (game_of game.now) work.old)
        (ReturnsThere (game_of game.now) work.old.blocks.contexts.items (found_of (game_of game.now) work.old) cell.now.at.number cell.now.pos.0 cell.now.state.0) }
    ensures { OnOk result (AsksReturns (game_of game.now) work.old work.new) }
{
    let row = returns.row(cell.pos.0);
    for pos in row {
        ask_return(
            game, work, &cell.at, block, cell.pos, cell.state, height, *pos,
        )?;
    }
    Ok(())
}
