//! Where the cells of a context stand.

ghost use Rattle.std.specs.Prelude.{◌≡◌, ◌<◌, ◌↔◌, IsTrue, length};
ghost use Rattle.cw_product.specs.Product.{game_of};
ghost use Rattle.cw_product.specs.Routed.{AreRouted, IsOf};
ghost use Rattle.cw_solve.specs.Contexts.{cells_of};
ghost use Rattle.cw_solve.specs.Rounds.{slot};
ghost use Rattle.cw_solve.specs.Tables.{AreBlocks, IsTabled, HasCell};
ghost use Rattle.cw_linked.specs.Blocks.{IsBlock};
ghost use Rattle.cw_linked.specs.Runs.{AreRuns};

use crate::divisor::Divisor;
use cw_core::{PosId, StateId};
use cw_product::Game;
use cw_solve::table::{Blocks, Tabled, positions};

/// Where the cells of a context stand: the index of the first one, the first position of its function, and how many positions
/// it has. To ask the game for these takes as long as all else that finds the index of a cell, so it is asked once for all
/// cells that are looked at together.
#[derive(Drop)]
pub(crate) struct Block {
    pub base: u32,
    pub first: u32,
    pub many: u32,
}

/// The block of a context.
pub(crate) fn block_of(game: &Game, blocks: &Blocks, at: &Tabled) -> Block
    requires routed { AreRouted (game_of game.now) (length game.now.graph.parts.items) }
    requires blocks { AreBlocks (game_of game.now) blocks.now }
    requires tabled { IsTabled blocks.now at.now }
    ensures { IsBlock (game_of game.now) blocks.now at.now result }
{
    let function = at.function();
    Block {
        base: blocks.bases[at.number()],
        first: game.entry(function).0,
        many: positions(game, function),
    }
}

/// The block of a context, where the numbers of positions of functions are known.
#[inline(always)]
pub(crate) fn block_by(game: &Game, runs: &[Divisor], blocks: &Blocks, at: &Tabled) -> Block
    requires routed { AreRouted (game_of game.now) (length game.now.graph.parts.items) }
    requires runs { AreRuns (game_of game.now) (length game.now.graph.parts.items) runs.now }
    requires blocks { AreBlocks (game_of game.now) blocks.now }
    requires tabled { IsTabled blocks.now at.now }
    ensures { IsBlock (game_of game.now) blocks.now at.now result }
{
    let function = at.function();
    let run = &runs[function as usize];
    Block {
        base: blocks.bases[at.number()],
        first: game.entry(function).0,
        many: run.by(),
    }
}

/// Whether a position is one of the context's function.
#[inline(always)]
pub(crate) fn is_in(game: &Game, blocks: &Blocks, at: &Tabled, block: &Block, pos: PosId) -> bool
    requires block { IsBlock (game_of game.now) blocks.now at.now block.now }
    ensures { IsTrue result ↔ IsOf (game_of game.now) at.now.context.function pos.0 }
{
    let _ = game;
    let _ = blocks;
    let _ = at;
    if pos.0 < block.first {
        return false;
    }
    pos.0 - block.first < block.many
}

/// The index of a cell.
#[inline(always)]
pub(crate) fn index_in(
    game: &Game,
    blocks: &Blocks,
    at: &Tabled,
    block: &Block,
    pos: PosId,
    state: StateId,
) -> usize
    requires routed { AreRouted (game_of game.now) (length game.now.graph.parts.items) }
    requires blocks { AreBlocks (game_of game.now) blocks.now }
    requires cell { HasCell (game_of game.now) blocks.now at.now pos.0 state.0 }
    requires block { IsBlock (game_of game.now) blocks.now at.now block.now }
    ensures is { result ≡ slot (game_of game.now) blocks.now.contexts.items at.now.number at.now.context.function pos.0 state.0 }
    ensures within { result < cells_of (game_of game.now) blocks.now.contexts.items }
{
    let _ = game;
    let _ = blocks;
    let _ = at;
    let run = state.0 as usize * block.many as usize;
    block.base as usize + (run + (pos.0 - block.first) as usize)
}
