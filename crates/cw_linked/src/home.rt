//! The context whose cells are near: where they stand is kept from cell to cell.

ghost use Rattle.std.specs.Prelude.{◌≡◌, ◌<◌, ◌≤◌, length, IsTrue};
ghost use Rattle.cw_product.specs.Product.{game_of};
ghost use Rattle.cw_product.specs.Routed.{AreRouted};
ghost use Rattle.cw_solve.specs.Contexts.{cells_of};
ghost use Rattle.cw_solve.specs.Tables.{AreBlocks};
ghost use Rattle.cw_linked.specs.Blocks.{IsBlock};
ghost use Rattle.cw_linked.specs.Homes.{IsHome, IsHomeOf};
ghost use Rattle.cw_linked.specs.Queues.{IsCellAt};
ghost use Rattle.cw_linked.specs.Runs.{AreRuns};
ghost use Rattle.cw_linked.specs.Works.{known_of, IsKnown};

use crate::block::{Block, block_by};
use crate::divisor::Divisor;
use crate::work::{Cell, Work, owner_near};
use cw_core::{PosId, StateId};
use cw_product::Game;
use cw_solve::table::{Blocks, numbered};

/// Where the cells of a context stand: the cell that was looked at last, the block of its context, where the block ends, and what
/// divides its rows. It ends at 0 where no context is known; the cell's is then one to look at first. The number of the context that was
/// near before tells which one to look at first where another one comes next.
#[derive(Drop)]
pub(crate) struct Home {
    pub cell: Cell,
    pub block: Block,
    pub past: u32,
    pub run: Divisor,
    pub earlier: usize,
}

/// No context is near yet. That of `main` is looked at first.
pub(crate) fn no_home(game: &Game, blocks: &Blocks) -> Home
    requires routed { AreRouted (game_of game.now) (length game.now.graph.parts.items) }
    requires blocks { AreBlocks (game_of game.now) blocks.now }
    ensures { result.past ≡ 0 }
{
    let at = numbered(game, blocks, 0);
    Home {
        cell: Cell {
            at,
            pos: PosId(0),
            state: StateId(0),
        },
        block: Block {
            base: 0,
            first: 0,
            many: 0,
        },
        past: 0,
        run: Divisor::of(1),
        earlier: 0,
    }
}

/// The number of a context to look at first, where the one near doesn't have an index. Cells of one height are mostly taken context by
/// context, up or down by the same step, so the next one is as far from the one near as that is from the one before.
#[inline(always)]
fn likely(home: &Home) -> usize {
    let near = home.cell.at.number();
    if home.past == 0 {
        return near;
    }
    near.wrapping_add(near).wrapping_sub(home.earlier)
}

/// Whether an index is among those of the context's cells.
#[inline(always)]
fn is_home(home: &Home, index: usize) -> bool
    ensures { IsTrue result → (home.now.block.base ≤ index) × (index < home.now.past) }
{
    if index < home.block.base as usize {
        return false;
    }
    index < home.past as usize
}

/// Where the cells of the context stand that has an index. A context is looked at first, and another one was near before.
#[inline(always)]
fn home_of(
    game: &Game,
    runs: &[Divisor],
    blocks: &Blocks,
    first: usize,
    earlier: usize,
    index: usize,
) -> Home
    requires routed { AreRouted (game_of game.now) (length game.now.graph.parts.items) }
    requires runs { AreRuns (game_of game.now) (length game.now.graph.parts.items) runs.now }
    requires blocks { AreBlocks (game_of game.now) blocks.now }
    requires within { index < cells_of (game_of game.now) blocks.now.contexts.items }
    ensures home { IsHomeOf (game_of game.now) blocks.now.contexts.items result }
    ensures from { result.block.base ≤ index }
    ensures before { index < result.past }
{
    let at = numbered(game, blocks, owner_near(game, blocks, first, index));
    let block = block_by(game, runs, blocks, &at);
    let run = &runs[at.function() as usize];
    let past = block.base + block.many * game.states() as u32;
    Home {
        cell: Cell {
            at,
            pos: PosId(0),
            state: StateId(0),
        },
        block,
        past,
        run: run.again(),
        earlier,
    }
}

/// Has the context near that has an index, where it isn't near yet.
#[inline(never)]
fn change_home(game: &Game, runs: &[Divisor], blocks: &Blocks, home: &mut Home, index: usize)
    requires routed { AreRouted (game_of game.now) (length game.now.graph.parts.items) }
    requires runs { AreRuns (game_of game.now) (length game.now.graph.parts.items) runs.now }
    requires blocks { AreBlocks (game_of game.now) blocks.now }
    requires within { index < cells_of (game_of game.now) blocks.now.contexts.items }
    ensures home { IsHomeOf (game_of game.now) blocks.now.contexts.items home.new }
    ensures from { home.new.block.base ≤ index }
    ensures before { index < home.new.past }
{
    let first = likely(home);
    let earlier = home.cell.at.number();
    *home = home_of(game, runs, blocks, first, earlier, index);
}

/// Has the context near that has an index.
#[inline(always)]
pub(crate) fn approach(
    game: &Game,
    runs: &[Divisor],
    blocks: &Blocks,
    home: &mut Home,
    index: usize,
)
    requires routed { AreRouted (game_of game.now) (length game.now.graph.parts.items) }
    requires runs { AreRuns (game_of game.now) (length game.now.graph.parts.items) runs.now }
    requires blocks { AreBlocks (game_of game.now) blocks.now }
    requires within { index < cells_of (game_of game.now) blocks.now.contexts.items }
    requires home { IsHome (game_of game.now) blocks.now.contexts.items home.old }
    ensures home { IsHomeOf (game_of game.now) blocks.now.contexts.items home.new }
    ensures from { home.new.block.base ≤ index }
    ensures before { index < home.new.past }
{
    if is_home(home, index) {
        return;
    }
    change_home(game, runs, blocks, home, index);
}

/// Looks at the cell at an index of the context that is near, which stays as it is.
#[inline(always)]
pub(crate) fn look_at(game: &Game, work: &Work, home: &mut Home, index: usize)
    requires routed { AreRouted (game_of game.now) (length game.now.graph.parts.items) }
    requires known { IsKnown (game_of game.now) (known_of work.now) }
    requires within { index < length work.now.store.heights }
    requires home { IsHomeOf (game_of game.now) work.now.blocks.contexts.items home.old }
    requires from { home.old.block.base ≤ index }
    requires before { index < home.old.past }
    ensures home { IsHomeOf (game_of game.now) work.now.blocks.contexts.items home.new }
    ensures cell { IsCellAt (game_of game.now) work.now index home.new.cell }
    ensures block { IsBlock (game_of game.now) work.now.blocks home.new.cell.at home.new.block }
{
    let _ = game;
    let _ = work;
    let row = index as u32 - home.block.base;
    let state = home.run.quotient(row);
    let pos = home.block.first + (row - state * home.run.by());
    let state = state as u16;
    home.cell.pos = PosId(pos);
    home.cell.state = StateId(state);
}
