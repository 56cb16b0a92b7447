//! Cells are asked for where the heights that are taken tell that they are lost.

ghost use Rattle.std.specs.Prelude.{◌≡◌, ℕ, ◌+◌, ◌<◌, ◌≤◌, true, false, length, slice_get, OnOk};
ghost use Rattle.cw_game.specs.Games.{weavers_in};
ghost use Rattle.cw_game.specs.Pairs.{is_call_in};
ghost use Rattle.cw_product.specs.Product.{game_of};
ghost use Rattle.cw_product.specs.Routed.{AreRouted};
ghost use Rattle.cw_solve.specs.Tables.{HasCell};
ghost use Rattle.cw_linked.specs.Added.{HasNoHeights};
ghost use Rattle.cw_linked.specs.Blocks.{IsBlock};
ghost use Rattle.cw_linked.specs.Founds.{AreRight};
ghost use Rattle.cw_linked.specs.Queues.{found_of, AreLong, AreHigh, AsksImplied};
ghost use Rattle.cw_linked.specs.Steps.{IsBound};
ghost use Rattle.cw_linked.specs.Waiting.{IsSoleTo, IsStepTo, IsVisit};
ghost use Rattle.cw_linked.specs.Works.{known_of, IsKnown, heights_of, AreUpTo};

use crate::block::{Block, index_in};
use crate::bounds::{bound, first_bound, height_in, visit_bound};
use crate::edges::{Pair, Source};
use crate::work::{Work, ask_cell};
use cw_core::{NoMemory, PosId, StateId};
use cw_product::Game;
use cw_solve::table::Tabled;

/// Asks for a cell, where the taken heights tell that it is lost within so many moves; 0 where they don't, and at a call.
#[inline(always)]
fn ask_within(
    game: &Game,
    work: &mut Work,
    at: &Tabled,
    block: &Block,
    pos: PosId,
    state: StateId,
    within: u32,
) -> Result<(), NoMemory>
    requires routed { AreRouted (game_of game.now) (length game.now.graph.parts.items) }
    requires known { IsKnown (game_of game.now) (known_of work.old) }
    requires cell { HasCell (game_of game.now) work.old.blocks at.now pos.0 state.0 }
    requires block { IsBlock (game_of game.now) work.old.blocks at.now block.now }
    requires implied { is_call_in (slice_get (game_of game.now).spots pos.0) ≡ false
        → IsBound (game_of game.now) (heights_of (game_of game.now) (known_of work.old)) at.now.number pos.0 state.0 at.now.context.promise within }
    requires call { is_call_in (slice_get (game_of game.now).spots pos.0) ≡ true → within ≡ 0 }
    requires most { (most : ℕ) → AreUpTo work.old.store.heights most → within ≤ most + 1 }
    requires long { AreLong work.old }
    requires high { AreHigh work.old }
    requires right { AreRight (game_of game.now) work.old.blocks.contexts.items (found_of (game_of game.now) work.old) }
    ensures { OnOk result (AsksImplied (game_of game.now) work.old work.new at.now pos.0 state.0) }
{
    if within == 0 {
        return Ok(());
    }
    let index = index_in(game, &work.blocks, at, block, pos, state);
    ask_cell(work, index, within)?;
    Ok(())
}

/// Asks for a cell that is no call, which may have no height yet, where the taken heights tell that it is lost.
#[inline(always)]
fn ask_bound(
    game: &Game,
    work: &mut Work,
    at: &Tabled,
    block: &Block,
    pos: PosId,
    state: StateId,
) -> Result<(), NoMemory>
    requires routed { AreRouted (game_of game.now) (length game.now.graph.parts.items) }
    requires known { IsKnown (game_of game.now) (known_of work.old) }
    requires cell { HasCell (game_of game.now) work.old.blocks at.now pos.0 state.0 }
    requires block { IsBlock (game_of game.now) work.old.blocks at.now block.now }
    requires long { AreLong work.old }
    requires high { AreHigh work.old }
    requires right { AreRight (game_of game.now) work.old.blocks.contexts.items (found_of (game_of game.now) work.old) }
    ensures { OnOk result (AsksImplied (game_of game.now) work.old work.new at.now pos.0 state.0) }
{
    let within = bound(game, work, at, block, pos, state);
    ask_within(game, work, at, block, pos, state, within)
}

/// Asks for a cell that is no call, where the taken heights tell that it is lost. One that has its height needn't be looked at.
#[inline(never)]
pub(crate) fn ask_implied(
    game: &Game,
    work: &mut Work,
    at: &Tabled,
    block: &Block,
    pos: PosId,
    state: StateId,
) -> Result<(), NoMemory>
    requires routed { AreRouted (game_of game.now) (length game.now.graph.parts.items) }
    requires known { IsKnown (game_of game.now) (known_of work.old) }
    requires cell { HasCell (game_of game.now) work.old.blocks at.now pos.0 state.0 }
    requires block { IsBlock (game_of game.now) work.old.blocks at.now block.now }
    requires long { AreLong work.old }
    requires high { AreHigh work.old }
    requires right { AreRight (game_of game.now) work.old.blocks.contexts.items (found_of (game_of game.now) work.old) }
    ensures { OnOk result (AsksImplied (game_of game.now) work.old work.new at.now pos.0 state.0) }
{
    let height = height_in(game, work, at, block, pos, state);
    if height == 0 {
        return ask_bound(game, work, at, block, pos, state);
    }
    Ok(())
}

/// The same as `ask_implied`, where no cell of the context has a height.
#[inline(always)]
pub(crate) fn ask_first(
    game: &Game,
    work: &mut Work,
    at: &Tabled,
    block: &Block,
    pos: PosId,
    state: StateId,
) -> Result<(), NoMemory>
    requires routed { AreRouted (game_of game.now) (length game.now.graph.parts.items) }
    requires known { IsKnown (game_of game.now) (known_of work.old) }
    requires cell { HasCell (game_of game.now) work.old.blocks at.now pos.0 state.0 }
    requires fresh { HasNoHeights (game_of game.now) (known_of work.old) at.now }
    requires block { IsBlock (game_of game.now) work.old.blocks at.now block.now }
    requires long { AreLong work.old }
    requires high { AreHigh work.old }
    requires right { AreRight (game_of game.now) work.old.blocks.contexts.items (found_of (game_of game.now) work.old) }
    ensures { OnOk result (AsksImplied (game_of game.now) work.old work.new at.now pos.0 state.0) }
{
    let within = first_bound(game, work, at, pos, state);
    ask_within(game, work, at, block, pos, state, within)
}

/// Asks for the cell of a visit, where the taken heights tell that it is lost.
#[inline(always)]
fn ask_visit(
    game: &Game,
    work: &mut Work,
    at: &Tabled,
    block: &Block,
    pos: PosId,
    state: StateId,
) -> Result<(), NoMemory>
    requires routed { AreRouted (game_of game.now) (length game.now.graph.parts.items) }
    requires known { IsKnown (game_of game.now) (known_of work.old) }
    requires cell { HasCell (game_of game.now) work.old.blocks at.now pos.0 state.0 }
    requires block { IsBlock (game_of game.now) work.old.blocks at.now block.now }
    requires visit { weavers_in (slice_get (game_of game.now).spots pos.0) ≡ true }
    requires long { AreLong work.old }
    requires high { AreHigh work.old }
    requires right { AreRight (game_of game.now) work.old.blocks.contexts.items (found_of (game_of game.now) work.old) }
    ensures { OnOk result (AsksImplied (game_of game.now) work.old work.new at.now pos.0 state.0) }
{
    let within = visit_bound(game, work, at, block, pos, state);
    ask_within(game, work, at, block, pos, state, within)
}

/// The same as `ask_implied`, of a cell from which a move leads to one that has this height now. Where that is a step, the height alone
/// tells the bound; and a visit isn't looked up.
#[inline(always)]
pub(crate) fn ask_before(
    game: &Game,
    work: &mut Work,
    at: &Tabled,
    block: &Block,
    source: Source,
    state: StateId,
    to: PosId,
    height: u32,
) -> Result<(), NoMemory>
    requires routed { AreRouted (game_of game.now) (length game.now.graph.parts.items) }
    requires known { IsKnown (game_of game.now) (known_of work.old) }
    requires cell { HasCell (game_of game.now) work.old.blocks at.now source.pos.0 state.0 }
    requires step { IsStepTo (game_of game.now) source to.0 }
    requires visit { IsVisit (game_of game.now) source }
    requires block { IsBlock (game_of game.now) work.old.blocks at.now block.now }
    requires long { AreLong work.old }
    requires high { AreHigh work.old }
    requires right { AreRight (game_of game.now) work.old.blocks.contexts.items (found_of (game_of game.now) work.old) }
    requires taken { heights_of (game_of game.now) (known_of work.old) at.now.number to.0 state.0 ≡ height }
    requires some { 0 < height }
    ensures { OnOk result (AsksImplied (game_of game.now) work.old work.new at.now source.pos.0 state.0) }
{
    let _ = to;
    if source.step {
        let moves = height + 1;
        let index = index_in(game, &work.blocks, at, block, source.pos, state);
        ask_cell(work, index, moves)?;
        return Ok(());
    }
    if source.visit {
        return ask_visit(game, work, at, block, source.pos, state);
    }
    ask_implied(game, work, at, block, source.pos, state)
}

/// The same as `ask_implied`, of a pair from which a move leads to one that has this height now. Where no other move leads anywhere, the
/// height alone tells the bound.
pub(crate) fn ask_change(
    game: &Game,
    work: &mut Work,
    at: &Tabled,
    block: &Block,
    pair: Pair,
    to: PosId,
    then: StateId,
    height: u32,
) -> Result<(), NoMemory>
    requires routed { AreRouted (game_of game.now) (length game.now.graph.parts.items) }
    requires known { IsKnown (game_of game.now) (known_of work.old) }
    requires cell { HasCell (game_of game.now) work.old.blocks at.now pair.pos.0 pair.state.0 }
    requires sole { IsSoleTo (game_of game.now) pair to.0 then.0 }
    requires block { IsBlock (game_of game.now) work.old.blocks at.now block.now }
    requires long { AreLong work.old }
    requires high { AreHigh work.old }
    requires right { AreRight (game_of game.now) work.old.blocks.contexts.items (found_of (game_of game.now) work.old) }
    requires taken { heights_of (game_of game.now) (known_of work.old) at.now.number to.0 then.0 ≡ height }
    requires some { 0 < height }
    ensures { OnOk result (AsksImplied (game_of game.now) work.old work.new at.now pair.pos.0 pair.state.0) }
{
    let _ = to;
    let _ = then;
    if pair.sole {
        let moves = height + 1;
        return ask_within(game, work, at, block, pair.pos, pair.state, moves);
    }
    ask_implied(game, work, at, block, pair.pos, pair.state)
}
