//! Pairs that wait for a cell are asked for.

ghost use Rattle.std.specs.Prelude.{◌≡◌, ◌<◌, ◌*◌, true, length, OnOk};
ghost use Rattle.cw_links.specs.Flags.{is_flagged, number};
ghost use Rattle.cw_product.specs.Product.{game_of};
ghost use Rattle.cw_product.specs.Moves.{IsState};
ghost use Rattle.cw_product.specs.Routed.{AreRouted};
ghost use Rattle.cw_solve.specs.Tables.{HasCell};
ghost use Rattle.cw_linked.specs.Blocks.{IsBlock};
ghost use Rattle.cw_linked.specs.Founds.{AreRight, AllClosed};
ghost use Rattle.cw_linked.specs.Queues.{found_of, AreLong, AreHigh, AsksPair, AsksWaiting};
ghost use Rattle.cw_linked.specs.Steps.{WaitsFor};
ghost use Rattle.cw_linked.specs.Works.{known_of, IsKnown, heights_of};
ghost use Rattle.cw_linked.specs.Waiting.{pair_of, list_of, IsSoleTo, IsStepTo, IsVisit, AreSources, AreChanges, ChangesFor, AsksSources};

use crate::block::{Block, is_in};
use crate::edges::{Changes, Pair, Source};
use crate::implied::{ask_before, ask_change};
use crate::work::{Cell, Work};
use cw_core::{NoMemory, PosId, StateId};
use cw_links::{RankedFlags, Rows};
use cw_product::Game;

/// The number of the list of a pair whose position is flagged.
#[inline(always)]
pub(crate) fn list_of(game: &Game, flags: &RankedFlags, pos: PosId, state: StateId) -> u32
    requires routed { AreRouted (game_of game.now) (length game.now.graph.parts.items) }
    requires long { length flags.now ≡ length (game_of game.now).spots }
    requires flagged { is_flagged flags.now pos.0 ≡ true }
    requires state { IsState (game_of game.now) state.0 }
    ensures is { result ≡ list_of (game_of game.now) flags.now pos.0 state.0 }
    ensures within { result < number flags.now * (game_of game.now).states.count }
{
    flags.rank(pos.0 as usize) * u32::from(game.states()) + u32::from(state.0)
}

/// Asks for a pair from which a move leads to the cell, which has this height now, where it is one of the cell's function.
fn ask_pair(
    game: &Game,
    work: &mut Work,
    cell: &Cell,
    block: &Block,
    pair: Pair,
    height: u32,
) -> Result<(), NoMemory>
    requires routed { AreRouted (game_of game.now) (length game.now.graph.parts.items) }
    requires known { IsKnown (game_of game.now) (known_of work.old) }
    requires cell { HasCell (game_of game.now) work.old.blocks cell.now.at cell.now.pos.0 cell.now.state.0 }
    requires block { IsBlock (game_of game.now) work.old.blocks cell.now.at block.now }
    requires state { IsState (game_of game.now) pair.state.0 }
    requires sole { IsSoleTo (game_of game.now) pair cell.now.pos.0 cell.now.state.0 }
    requires long { AreLong work.old }
    requires high { AreHigh work.old }
    requires right { AreRight (game_of game.now) work.old.blocks.contexts.items (found_of (game_of game.now) work.old) }
    requires taken { heights_of (game_of game.now) (known_of work.old) cell.now.at.number cell.now.pos.0 cell.now.state.0 ≡ height }
    requires some { 0 < height }
    ensures { OnOk result (AsksPair (game_of game.now) work.old work.new cell.now pair) }
{
    if is_in(game, &work.blocks, &cell.at, block, pair.pos) {
        ask_change(
            game, work, &cell.at, block, pair, cell.pos, cell.state, height,
        )?;
        Ok(())
    } else {
        Ok(())
    }
}

/// The same as `ask_pair`, of the pair of a source in the state of the cell.
#[inline(always)]
fn ask_source(
    game: &Game,
    work: &mut Work,
    cell: &Cell,
    block: &Block,
    source: Source,
    height: u32,
) -> Result<(), NoMemory>
    requires routed { AreRouted (game_of game.now) (length game.now.graph.parts.items) }
    requires known { IsKnown (game_of game.now) (known_of work.old) }
    requires cell { HasCell (game_of game.now) work.old.blocks cell.now.at cell.now.pos.0 cell.now.state.0 }
    requires block { IsBlock (game_of game.now) work.old.blocks cell.now.at block.now }
    requires step { IsStepTo (game_of game.now) source cell.now.pos.0 }
    requires visit { IsVisit (game_of game.now) source }
    requires long { AreLong work.old }
    requires high { AreHigh work.old }
    requires right { AreRight (game_of game.now) work.old.blocks.contexts.items (found_of (game_of game.now) work.old) }
    requires taken { heights_of (game_of game.now) (known_of work.old) cell.now.at.number cell.now.pos.0 cell.now.state.0 ≡ height }
    requires some { 0 < height }
    ensures { OnOk result (AsksPair (game_of game.now) work.old work.new cell.now (pair_of (game_of game.now) source.pos.0 cell.now.state.0)) }
{
    if is_in(game, &work.blocks, &cell.at, block, source.pos) {
        ask_before(
            game, work, &cell.at, block, source, cell.state, cell.pos, height,
        )?;
        Ok(())
    } else {
        Ok(())
    }
}

/// Asks for the pairs of the same context that lead to a cell, which has this height now, and keep its state.
pub(crate) fn ask_sources(
    game: &Game,
    sources: &Rows<Source>,
    work: &mut Work,
    cell: &Cell,
    block: &Block,
    height: u32,
) -> Result<(), NoMemory>
    requires routed { AreRouted (game_of game.now) (length game.now.graph.parts.items) }
    requires sources { AreSources (game_of game.now) sources.now }
    requires known { IsKnown (game_of game.now) (known_of work.old) }
    requires cell { HasCell (game_of game.now) work.old.blocks cell.now.at cell.now.pos.0 cell.now.state.0 }
    requires block { IsBlock (game_of game.now) work.old.blocks cell.now.at block.now }
    requires long { AreLong work.old }
    requires high { AreHigh work.old }
    requires right { AreRight (game_of game.now) work.old.blocks.contexts.items (found_of (game_of game.now) work.old) }
    requires taken { heights_of (game_of game.now) (known_of work.old) cell.now.at.number cell.now.pos.0 cell.now.state.0 ≡ height }
    requires some { 0 < height }
    requires closed { AllClosed (game_of game.now) work.old.blocks.contexts.items (found_of (game_of game.now) work.old)
        (WaitsFor (game_of game.now) cell.now.at.number cell.now.pos.0 cell.now.state.0) }
    ensures { OnOk result (AsksSources (game_of game.now) work.old work.new cell.now) }
{
    let row = sources.row(cell.pos.0);
    for source in row {
        ask_source(game, work, cell, block, *source, height)?;
    }
    Ok(())
}

/// Asks for the pairs of the same context that lead to a cell, which has this height now, and may change the state.
#[inline(always)]
pub(crate) fn ask_changes(
    game: &Game,
    changes: &Changes,
    work: &mut Work,
    cell: &Cell,
    block: &Block,
    height: u32,
) -> Result<(), NoMemory>
    requires routed { AreRouted (game_of game.now) (length game.now.graph.parts.items) }
    requires changes { AreChanges (game_of game.now) changes.now }
    requires known { IsKnown (game_of game.now) (known_of work.old) }
    requires cell { HasCell (game_of game.now) work.old.blocks cell.now.at cell.now.pos.0 cell.now.state.0 }
    requires block { IsBlock (game_of game.now) work.old.blocks cell.now.at block.now }
    requires long { AreLong work.old }
    requires high { AreHigh work.old }
    requires right { AreRight (game_of game.now) work.old.blocks.contexts.items (found_of (game_of game.now) work.old) }
    requires taken { heights_of (game_of game.now) (known_of work.old) cell.now.at.number cell.now.pos.0 cell.now.state.0 ≡ height }
    requires some { 0 < height }
    requires closed { AllClosed (game_of game.now) work.old.blocks.contexts.items (found_of (game_of game.now) work.old)
        (ChangesFor (game_of game.now) cell.now.at.number cell.now.pos.0 cell.now.state.0) }
    ensures { OnOk result (AsksWaiting (game_of game.now) work.old work.new) }
{
    if !changes.flags.is_flagged(cell.pos.0 as usize) {
        return Ok(());
    }
    let list = list_of(game, &changes.flags, cell.pos, cell.state);
    let mut next = changes.pairs.first(list);
    'walk: while let Some(edge) = next {
        ask_pair(game, work, cell, block, *changes.pairs.get(edge), height)?;
        next = changes.pairs.next(edge);
    }
    Ok(())
}
