//! What the solver has found so far, and what waits.

ghost use Rattle.std.specs.Prelude.{◌≡◌, ◌*◌, ◌<◌, ◌≤◌, true, length, IsTrue, OnOk};
ghost use Rattle.cw_links.specs.Flags.{is_flagged};
ghost use Rattle.cw_product.specs.Product.{game_of};
ghost use Rattle.cw_product.specs.Routed.{AreRouted};
ghost use Rattle.cw_solve.specs.Contexts.{cells_of};
ghost use Rattle.cw_solve.specs.Rounds.{positions};
ghost use Rattle.cw_solve.specs.Tables.{AreBlocks, IsTabled};
ghost use Rattle.cw_linked.specs.Queues.{AreLong, AsksForCell, AsksForLink, IsOwner, IsCellAt};
ghost use Rattle.cw_linked.specs.Runs.{AreRuns};
ghost use Rattle.cw_linked.specs.Works.{known_of, IsKnown};

use crate::divisor::Divisor;
use cw_core::{NoMemory, PosId, StateId};
use cw_links::Store;
use cw_product::Game;
use cw_solve::table::{Blocks, Tabled, numbered, positions};

/// The contexts that are there; and by each cell's index the height that is taken, 0 where none is, and the key under which the cell
/// waits, 0 where it doesn't. A link, a call of a context with a class of states, has the index of its call and the state that
/// stands for the class. It has the number of the context to which it goes plus 1, 0 where it isn't tied; the number of moves
/// for which it promises; and its key. A cell of height n waits under 2 * n, a link whose promise shrinks for n moves
/// under 2 * n + 1.
#[derive(Drop)]
pub(crate) struct Work {
    pub blocks: Blocks,
    /// How many cells have a height.
    pub written: u32,
    /// The list i + 1 has the links that go to the context i.
    pub store: Store,
}

/// A cell: a context with its number, a position and a state.
#[derive(Drop)]
pub(crate) struct Cell {
    pub at: Tabled,
    pub pos: PosId,
    pub state: StateId,
}

/// The number of the context that has an index among those of its cells: the last one that begins at or before it.
fn owner(game: &Game, blocks: &Blocks, index: usize) -> usize
    requires blocks { AreBlocks (game_of game.now) blocks.now }
    requires within { index < cells_of (game_of game.now) blocks.now.contexts.items }
    ensures { IsOwner (game_of game.now) blocks.now.contexts.items result index }
{
    let index = index as u32;
    blocks.bases.partition_point(|base| *base <= index) - 1
}

/// Whether a context has an index among those of its cells.
fn has_index(game: &Game, blocks: &Blocks, number: usize, index: usize) -> bool
    requires blocks { AreBlocks (game_of game.now) blocks.now }
    requires within { index < cells_of (game_of game.now) blocks.now.contexts.items }
    ensures { IsTrue result → IsOwner (game_of game.now) blocks.now.contexts.items number index }
{
    let index = index as u32;
    match blocks.bases.get(number) {
        None => false,
        Some(base) => {
            *base <= index
                && match blocks.bases.get(number + 1) {
                    None => true,
                    Some(next) => index < *next,
                }
        }
    }
}

/// The same as `owner`. A context is looked at first, as mostly the one whose cell was taken before has this one too; and then the one
/// behind it, as contexts are added one behind the other.
pub(crate) fn owner_near(game: &Game, blocks: &Blocks, near: usize, index: usize) -> usize
    requires blocks { AreBlocks (game_of game.now) blocks.now }
    requires within { index < cells_of (game_of game.now) blocks.now.contexts.items }
    ensures { IsOwner (game_of game.now) blocks.now.contexts.items result index }
{
    if has_index(game, blocks, near, index) {
        return near;
    }
    let next = near.wrapping_add(1);
    if has_index(game, blocks, next, index) {
        next
    } else {
        owner(game, blocks, index)
    }
}

/// The cell at an index of a context's cells, whose function has so many positions.
fn cell_in(game: &Game, work: &Work, index: usize, at: Tabled, run: &Divisor) -> Cell
    requires routed { AreRouted (game_of game.now) (length game.now.graph.parts.items) }
    requires known { IsKnown (game_of game.now) (known_of work.now) }
    requires within { index < length work.now.store.heights }
    requires there { IsTabled work.now.blocks at }
    requires owner { IsOwner (game_of game.now) work.now.blocks.contexts.items at.number index }
    requires run { run.now ≡ positions (game_of game.now) at.context.function }
    ensures { IsCellAt (game_of game.now) work.now index result }
{
    let row = index as u32 - work.blocks.bases[at.number()];
    let entry = game.entry(at.function()).0;
    let state = run.quotient(row);
    Cell {
        at,
        pos: PosId(entry + (row - state * run.by())),
        state: StateId(state as u16),
    }
}

/// The cell at an index, where maybe a context is known that has it.
pub(crate) fn cell_at(game: &Game, work: &Work, near: usize, index: usize) -> Cell
    requires routed { AreRouted (game_of game.now) (length game.now.graph.parts.items) }
    requires known { IsKnown (game_of game.now) (known_of work.now) }
    requires within { index < length work.now.store.heights }
    ensures { IsCellAt (game_of game.now) work.now index result }
{
    let at = numbered(
        game,
        &work.blocks,
        owner_near(game, &work.blocks, near, index),
    );
    let run = Divisor::of(positions(game, at.function()));
    cell_in(game, work, index, at, &run)
}

/// The cell at an index, where the numbers of positions of functions are known, and maybe a context that has it.
#[inline(never)]
pub(crate) fn cell_by(game: &Game, runs: &[Divisor], work: &Work, near: usize, index: usize) -> Cell
    requires routed { AreRouted (game_of game.now) (length game.now.graph.parts.items) }
    requires runs { AreRuns (game_of game.now) (length game.now.graph.parts.items) runs.now }
    requires known { IsKnown (game_of game.now) (known_of work.now) }
    requires within { index < length work.now.store.heights }
    ensures { IsCellAt (game_of game.now) work.now index result }
{
    let at = numbered(
        game,
        &work.blocks,
        owner_near(game, &work.blocks, near, index),
    );
    let run = &runs[at.function() as usize];
    cell_in(game, work, index, at, run)
}

/// Has the cell wait for a height, unless it has one or waits for a lower one.
#[inline(always)]
pub(crate) fn ask_cell(work: &mut Work, index: usize, height: u32) -> Result<(), NoMemory>
    requires long { AreLong work.old }
    requires within { index < length work.old.store.heights }
    requires some { 0 < height }
    requires few { height ≤ 2147483647 }
    ensures { OnOk result (AsksForCell work.old work.new index (2 * height)) }
{
    work.store.ask_cell(index, height)?;
    Ok(())
}

/// Has the link wait under a key, unless it waits under a lower one.
#[inline(always)]
pub(crate) fn ask_link(work: &mut Work, index: usize, key: u32) -> Result<(), NoMemory>
    requires flagged { is_flagged work.old.store.flags index ≡ true }
    requires some { 0 < key }
    ensures { OnOk result (AsksForLink work.old work.new index key) }
{
    work.store.ask_link(index, key)?;
    Ok(())
}
