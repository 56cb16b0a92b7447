//! The solver.

ghost use Rattle.std.specs.Prelude.{◌≡◌, ◌<◌, ◌≤◌, ◌++◌, ◌∷◌, [], min, length, slice_index, OnOk, IfOk, IfErr};
ghost use Rattle.cw_product.specs.Product.{game_of};
ghost use Rattle.cw_game.specs.Pairs.{all_states};
ghost use Rattle.cw_solve.specs.Contexts.{cells_of, context, AreTheNeeded};
ghost use Rattle.cw_product.specs.Made.{IsMade};
ghost use Rattle.cw_product.specs.Routed.{AreRouted};
ghost use Rattle.cw_solve.specs.Solved.{IsCause};
ghost use Rattle.cw_solve.specs.Tables.{IsTable, IsDone};
ghost use Rattle.cw_linked.specs.Homes.{IsHome};
ghost use Rattle.cw_linked.specs.Links.{TakesLink};
ghost use Rattle.cw_linked.specs.Listed.{HasListed};
ghost use Rattle.cw_linked.specs.Plain.{ArePlain};
ghost use Rattle.cw_linked.specs.Popped.{IsWork, IsTakenAt, Finishes};
ghost use Rattle.cw_linked.specs.Returns.{AreReturns};
ghost use Rattle.cw_linked.specs.Runs.{AreRuns};
ghost use Rattle.cw_linked.specs.Solving.{IsBlankWork, Ends};
ghost use Rattle.cw_linked.specs.Spans.{AreSpanned};
ghost use Rattle.cw_linked.specs.Tied.{IsFreedAt};
ghost use Rattle.cw_linked.specs.Waiting.{AreWaits};
ghost use Rattle.cw_linked.specs.Works.{known_of, IsKnown};

use crate::added::add;
use crate::cells::finish;
use crate::edges::Edges;
use crate::home::{Home, approach, look_at, no_home};
use crate::links::{Stepped, take_link};
use crate::popped::{Popped, pop};
use crate::spans::{Spans, make_spans};
use crate::work::{Work, cell_by};
use cw_core::NoMemory;
use cw_core::limits::CELLS;
use cw_links::Store;
use cw_product::Game;
use cw_solve::table::{Blocks, Table, main_context};
use cw_solve::{Context, Indices, SolveFault, Solved};
use std::alloc::{AllocError, Global};

/// Asks for what waits for the cell at an index, which has this height now. Its context is near from then on, and maybe it was
/// before.
#[inline(always)]
fn finish_at(
    game: &Game,
    edges: &Edges,
    work: &mut Work,
    home: &mut Home,
    index: usize,
    height: u32,
) -> Result<(), NoMemory>
    requires routed { AreRouted (game_of game.now) (length game.now.graph.parts.items) }
    requires waits { AreWaits (game_of game.now) edges.now.waits }
    requires returns { AreReturns (game_of game.now) edges.now.returns }
    requires plain { ArePlain (game_of game.now) (min (length game.now.graph.parts.items) 65536) (length (game_of game.now).spots) edges.now.plain.items }
    requires runs { AreRuns (game_of game.now) (length game.now.graph.parts.items) edges.now.runs.items }
    requires known { IsKnown (game_of game.now) (known_of work.old) }
    requires within { index < length work.old.store.heights }
    requires taken { IsTakenAt (game_of game.now) work.old index height }
    requires home { IsHome (game_of game.now) work.old.blocks.contexts.items home.old }
    ensures finishes { OnOk result (Finishes (game_of game.now) work.old work.new work.old.store.to) }
    ensures home { IsHome (game_of game.now) work.old.blocks.contexts.items home.new }
{
    approach(game, &edges.runs, &work.blocks, home, index);
    look_at(game, work, home, index);
    finish(game, edges, work, &home.cell, &home.block, height)?;
    Ok(())
}

/// Takes the link at an index, for so many moves. Its context is the first to be looked at then, but where its cells stand is asked
/// anew. The indices have each context that is added, and the one to which the link is to go is wanted then.
#[inline(always)]
fn tie_at(
    alloc: Global,
    game: &Game,
    edges: &Edges,
    spans: &[Spans],
    work: &mut Work,
    indices: &mut Indices,
    home: &mut Home,
    index: usize,
    moves: u32,
    wanted: &mut Context,
) -> Result<Stepped, NoMemory>
    requires routed { AreRouted (game_of game.now) (length game.now.graph.parts.items) }
    requires runs { AreRuns (game_of game.now) (length game.now.graph.parts.items) edges.now.runs.items }
    requires spans { AreSpanned (game_of game.now) spans.now }
    requires known { IsKnown (game_of game.now) (known_of work.old) }
    requires within { index < length work.old.store.heights }
    requires freed { IsFreedAt (game_of game.now) work.old index moves }
    requires some { 0 < slice_index work.old.store.to index → 0 < moves }
    requires listed { HasListed indices.old work.old.blocks.contexts.items }
    ensures takes { IfOk result (λ stepped. TakesLink (game_of game.now) work.old work.new stepped wanted.new) }
    ensures listed { OnOk result (HasListed indices.new work.new.blocks.contexts.items) }
    ensures home { home.new.past ≡ 0 }
{
    let link = cell_by(game, &edges.runs, work, home.cell.at.number(), index);
    home.past = 0;
    let stepped = take_link(
        alloc, game, spans, work, indices, index, &link, moves, wanted,
    )?;
    home.cell = link;
    Ok(stepped)
}

/// Takes what waits, the least key first, until nothing waits; a context that is needed, where there is no room for it.
#[inline(never)]
fn steps(
    alloc: Global,
    game: &Game,
    edges: &Edges,
    spans: &[Spans],
    work: &mut Work,
    indices: &mut Indices,
) -> Result<Option<Context>, NoMemory>
    requires routed { AreRouted (game_of game.now) (length game.now.graph.parts.items) }
    requires waits { AreWaits (game_of game.now) edges.now.waits }
    requires returns { AreReturns (game_of game.now) edges.now.returns }
    requires plain { ArePlain (game_of game.now) (min (length game.now.graph.parts.items) 65536) (length (game_of game.now).spots) edges.now.plain.items }
    requires runs { AreRuns (game_of game.now) (length game.now.graph.parts.items) edges.now.runs.items }
    requires spans { AreSpanned (game_of game.now) spans.now }
    requires work { IsWork (game_of game.now) work.old }
    requires listed { HasListed indices.old work.old.blocks.contexts.items }
    ensures { IfOk result (λ more. Ends (game_of game.now) (known_of work.new) more) }
{
    let mut home = no_home(game, &work.blocks);
    let mut wanted = main_context(game);
    'steps: loop {
        match pop(work) {
            Popped::Nothing => return Ok(None),
            Popped::Cell(index, height) => {
                finish_at(game, edges, work, &mut home, index, height)?;
            }
            Popped::Link(index, moves) => {
                match tie_at(
                    alloc,
                    game,
                    edges,
                    spans,
                    work,
                    indices,
                    &mut home,
                    index,
                    moves,
                    &mut wanted,
                )? {
                    Stepped::More => {}
                    Stepped::TooMany => return Ok(Some(wanted)),
                }
            }
        }
    }
}

/// For how many contexts there is memory at first. What isn't used of it costs nothing, and a vector that grows is copied with all its
/// promises.
const ROOM: usize = 2048;

/// Nothing is found yet.
fn blank(alloc: Global) -> Result<Work, NoMemory>
    ensures { IfOk result IsBlankWork }
{
    Ok(Work {
        blocks: Blocks {
            contexts: Vec::with_capacity(alloc, ROOM)?,
            bases: Vec::with_capacity(alloc, ROOM)?,
        },
        written: 0,
        store: Store::make(alloc)?,
    })
}

/// `main` with all states alone, and what is known of it.
fn begun(alloc: Global, game: &Game, spans: &[Spans]) -> Result<Work, NoMemory>
    requires routed { AreRouted (game_of game.now) (length game.now.graph.parts.items) }
    requires spans { AreSpanned (game_of game.now) spans.now }
    ensures work { IfOk result (λ work. IsWork (game_of game.now) work) }
    ensures alone { IfOk result (λ work. work.blocks.contexts.items ≡ context (game_of game.now).main (all_states (game_of game.now)) ∷ []) }
{
    let mut work = blank(alloc)?;
    add(alloc, game, spans, &mut work, &main_context(game))?;
    Ok(work)
}

/// What is found in the end; or a context that is needed, where there is no room for it.
fn solve_work(
    alloc: Global,
    game: &Game,
    indices: &mut Indices,
) -> Result<(Work, Option<Context>), NoMemory>
    requires routed { AreRouted (game_of game.now) (length game.now.graph.parts.items) }
    requires listed { HasListed indices.old [] }
    ensures { IfOk result (λ end. Ends (game_of game.now) (known_of end.0) end.1) }
{
    let edges = Edges::make(alloc, game)?;
    let spans = make_spans(alloc, game)?;
    let mut work = begun(alloc, game, &spans)?;
    indices.push(game.main())?;
    let more = steps(alloc, game, &edges, &spans, &mut work, indices)?;
    Ok((work, more))
}

/// The contexts that are there and one more.
fn longer(blocks: Blocks, context: Context) -> Result<Vec<Context>, AllocError>
    ensures { IfOk result (λ v. v.items ≡ blocks.contexts.items ++ context ∷ []) }
{
    let mut contexts = blocks.contexts;
    contexts.push(context)?;
    Ok(contexts)
}

/// The table of what is known.
fn table_of(work: Work) -> Table
    ensures blocks { result.blocks ≡ work.blocks }
    ensures heights { result.heights.items ≡ work.store.heights }
    ensures written { result.written ≡ work.written }
{
    Table {
        blocks: work.blocks,
        heights: work.store.into_heights(),
        written: work.written,
    }
}

/// The table of a game.
fn solve_table(alloc: Global, game: &Game, indices: &mut Indices) -> Result<Table, SolveFault>
    requires routed { AreRouted (game_of game.now) (length game.now.graph.parts.items) }
    requires listed { HasListed indices.old [] }
    ensures table { IfOk result (λ t. IsTable (game_of game.now) t) }
    ensures done { IfOk result (λ t. IsDone (game_of game.now) t) }
    ensures cause { IfErr result (λ fault. IsCause (game_of game.now) fault) }
{
    let Ok((work, more)) = solve_work(alloc, game, indices) else {
        return Err(SolveFault::NoMemory);
    };
    match more {
        None => Ok(table_of(work)),
        Some(context) => Err(SolveFault::TooManyCells(longer(work.blocks, context)?)),
    }
}

/// Solves a game: its needed contexts and the heights of their pairs.
///
/// The contexts are the least set that has `main` with all states and, for each context and each call at a position of
/// its function, what the call promises for each state and each number of moves. TooManyCells comes exactly where their
/// cells, a pair of a position of its function and a state each, are more than 4,194,304; it has some of them, no two
/// the same, whose cells alone are more.
///
/// What is known to be lost waits under its height, and is taken by its height, each pair once; what waits for it is asked
/// for then. A call's promise shrinks after all pairs of a height are taken.
pub fn solve<'g>(alloc: Global, game: &'g Game<'g>) -> Result<Solved<'g>, SolveFault>
    requires made { IsMade game.now }
    ensures game { IfOk result (λ s. s.game ≡ game.now) }
    ensures contexts { IfOk result (λ s. AreTheNeeded (game_of game.now) s.contexts) }
    ensures few { IfOk result (λ s. cells_of (game_of game.now) s.contexts ≤ CELLS) }
    ensures cause { IfErr result (λ fault. IsCause (game_of game.now) fault) }
{
    let mut indices = Indices::make(alloc);
    let table = solve_table(alloc, game, &mut indices)?;
    Ok(Solved::of(game, table, indices))
}
