//! What waits for a cell that is taken is asked for.

ghost use Rattle.std.specs.Prelude.{◌≡◌, ◌<◌, false, min, length, slice_index_or, OnOk};
ghost use Rattle.cw_product.specs.Product.{game_of};
ghost use Rattle.cw_product.specs.Routed.{AreRouted};
ghost use Rattle.cw_solve.specs.Tables.{HasCell};
ghost use Rattle.cw_linked.specs.Blocks.{IsBlock};
ghost use Rattle.cw_linked.specs.Calls.{AreCallers, AsksCallers};
ghost use Rattle.cw_linked.specs.Founds.{AreRight, AllCalled};
ghost use Rattle.cw_linked.specs.Plain.{ArePlain};
ghost use Rattle.cw_linked.specs.Popped.{IsTaken, Finishes};
ghost use Rattle.cw_linked.specs.Queues.{found_of, AreFlagged, AreLong, AreHigh};
ghost use Rattle.cw_linked.specs.Returns.{AreReturns};
ghost use Rattle.cw_linked.specs.Steps.{CallsThere};
ghost use Rattle.cw_linked.specs.Waiting.{AreWaits};
ghost use Rattle.cw_linked.specs.Works.{known_of, IsKnown, heights_of};

use crate::block::Block;
use crate::calls::ask_callers;
use crate::edges::Edges;
use crate::returns::ask_returns;
use crate::waiting::{ask_changes, ask_sources};
use crate::work::{Cell, Work};
use cw_core::{NoMemory, PosId};
use cw_product::Game;
use cw_solve::table::Tabled;

/// Asks for the calls whose link goes to the context of the cell, if it is one of the context's entry.
#[inline(always)]
fn ask_entry(
    game: &Game,
    work: &mut Work,
    cell: &Cell,
    block: &Block,
    height: u32,
) -> Result<(), NoMemory>
    requires routed { AreRouted (game_of game.now) (length game.now.graph.parts.items) }
    requires known { IsKnown (game_of game.now) (known_of work.old) }
    requires cell { HasCell (game_of game.now) work.old.blocks cell.now.at cell.now.pos.0 cell.now.state.0 }
    requires block { IsBlock (game_of game.now) work.old.blocks cell.now.at block.now }
    requires taken { heights_of (game_of game.now) (known_of work.old) cell.now.at.number cell.now.pos.0 cell.now.state.0 ≡ height }
    requires some { 0 < height }
    requires callers { AreCallers work.old }
    requires flagged { AreFlagged (game_of game.now) work.old }
    requires long { AreLong work.old }
    requires high { AreHigh work.old }
    requires right { AreRight (game_of game.now) work.old.blocks.contexts.items (found_of (game_of game.now) work.old) }
    requires called { AllCalled (game_of game.now) work.old.blocks.contexts.items (found_of (game_of game.now) work.old)
        (CallsThere (game_of game.now) (found_of (game_of game.now) work.old) cell.now.at.number cell.now.pos.0 cell.now.state.0) }
    ensures { OnOk result (AsksCallers (game_of game.now) work.old work.new) }
{
    if cell.pos.0 == block.first {
        ask_callers(game, work, cell, height)
    } else {
        Ok(())
    }
}

/// A law: numbers of functions are below 2^16.
#[inline(always)]
fn fact_functions_are_few(at: &Tabled)
    ensures { at.now.context.function < 65536 }
{
    let _ = at.function();
}

/// Whether nothing waits for a position but what leads there in the same state.
#[inline(always)]
fn is_plain(edges: &Edges, pos: PosId) -> bool
    requires { pos.0 < length edges.now.plain.items }
    ensures { result ≡ slice_index_or edges.now.plain.items pos.0 false }
{
    edges.plain[pos.0 as usize]
}

/// Asks for what waits for a cell that has its height now: for most positions no more than what leads there in the same state.
pub(crate) fn finish(
    game: &Game,
    edges: &Edges,
    work: &mut Work,
    cell: &Cell,
    block: &Block,
    height: u32,
) -> Result<(), NoMemory>
    requires routed { AreRouted (game_of game.now) (length game.now.graph.parts.items) }
    requires waits { AreWaits (game_of game.now) edges.now.waits }
    requires returns { AreReturns (game_of game.now) edges.now.returns }
    requires plain { ArePlain (game_of game.now) (min (length game.now.graph.parts.items) 65536) (length (game_of game.now).spots) edges.now.plain.items }
    requires taken { IsTaken (game_of game.now) work.old cell.now height }
    requires block { IsBlock (game_of game.now) work.old.blocks cell.now.at block.now }
    ensures { OnOk result (Finishes (game_of game.now) work.old work.new work.old.store.to) }
{
    fact_functions_are_few(&cell.at);
    ask_sources(game, &edges.waits.sources, work, cell, block, height)?;
    if is_plain(edges, cell.pos) {
        return Ok(());
    }
    ask_changes(game, &edges.waits.changes, work, cell, block, height)?;
    ask_entry(game, work, cell, block, height)?;
    ask_returns(game, &edges.returns, work, cell, block, height)?;
    Ok(())
}
