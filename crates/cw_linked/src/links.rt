//! A link that waits no more is taken.

ghost use Rattle.std.specs.Prelude.{◌<◌, ◌++◌, ◌∷◌, [], length, slice_index, IfOk, OnOk};
ghost use Rattle.cw_product.specs.Product.{game_of};
ghost use Rattle.cw_solve.specs.Contexts.{IsNeeded};
ghost use Rattle.cw_product.specs.Routed.{AreRouted};
ghost use Rattle.cw_solve.specs.Tables.{AreTabled};
ghost use Rattle.cw_linked.specs.Added.{IsOpen, AddsContext};
ghost use Rattle.cw_linked.specs.Links.{NumbersContext, TakesLink};
ghost use Rattle.cw_linked.specs.Listed.{HasListed};
ghost use Rattle.cw_linked.specs.Spans.{AreSpanned};
ghost use Rattle.cw_linked.specs.Tied.{IsFirm, IsFreed};

use crate::added::add;
use crate::spans::Spans;
use crate::ties::{promise_of, tie_link};
use crate::work::{Cell, Work};
use cw_core::NoMemory;
use cw_core::limits::CELLS;
use cw_product::{Game, Turn};
use cw_solve::table::{numbered, size};
use cw_solve::{Context, Indices};
use std::alloc::Global;

/// What comes of a link that is taken.
#[derive(Drop)]
pub(crate) enum Stepped {
    More,
    /// The context is needed to which the link is to go, and its cells are too many.
    TooMany,
}

/// Adds a context, to the lists of the indices too.
fn add_indexed(
    alloc: Global,
    game: &Game,
    spans: &[Spans],
    work: &mut Work,
    indices: &mut Indices,
    context: &Context,
) -> Result<(), NoMemory>
    requires routed { AreRouted (game_of game.now) (length game.now.graph.parts.items) }
    requires spans { AreSpanned (game_of game.now) spans.now }
    requires kept { IsOpen (game_of game.now) work.old }
    requires contexts { AreTabled (game_of game.now) (work.old.blocks.contexts.items ++ context.now ∷ []) }
    requires listed { HasListed indices.old work.old.blocks.contexts.items }
    ensures adds { OnOk result (AddsContext (game_of game.now) work.old work.new context.now) }
    ensures listed { OnOk result (HasListed indices.new work.new.blocks.contexts.items) }
{
    let function = context.function;
    add(alloc, game, spans, work, context)?;
    indices.push(function)?;
    Ok(())
}

/// The number of a context, which is added if it isn't there; none where its cells are too many. The indices have all contexts, so it is
/// looked for among those of its function alone.
fn number_of(
    alloc: Global,
    game: &Game,
    spans: &[Spans],
    work: &mut Work,
    indices: &mut Indices,
    context: &Context,
) -> Result<Option<usize>, NoMemory>
    requires routed { AreRouted (game_of game.now) (length game.now.graph.parts.items) }
    requires spans { AreSpanned (game_of game.now) spans.now }
    requires firm { IsFirm (game_of game.now) work.old }
    requires needed { IsNeeded (game_of game.now) context.now }
    requires listed { HasListed indices.old work.old.blocks.contexts.items }
    ensures number { IfOk result (λ number. NumbersContext (game_of game.now) work.old work.new context.now number) }
    ensures listed { OnOk result (HasListed indices.new work.new.blocks.contexts.items) }
{
    match indices.find(&work.blocks.contexts, context.function, &context.promise) {
        Some(number) => Ok(Some(number as usize)),
        None => {
            let number = work.blocks.contexts.len();
            if work.store.indices() as u32 + size(game, context.function) > CELLS as u32 {
                return Ok(None);
            }
            add_indexed(alloc, game, spans, work, indices, context)?;
            Ok(Some(number))
        }
    }
}

/// Takes the link at an index, for so many moves. The spans are those of the functions. The indices have each context that is added.
/// The one to which the link is to go is wanted then.
#[inline(never)]
pub(crate) fn take_link(
    alloc: Global,
    game: &Game,
    spans: &[Spans],
    work: &mut Work,
    indices: &mut Indices,
    index: usize,
    link: &Cell,
    moves: u32,
    wanted: &mut Context,
) -> Result<Stepped, NoMemory>
    requires routed { AreRouted (game_of game.now) (length game.now.graph.parts.items) }
    requires spans { AreSpanned (game_of game.now) spans.now }
    requires freed { IsFreed (game_of game.now) work.old link.now index moves }
    requires some { 0 < slice_index work.old.store.to index → 0 < moves }
    requires listed { HasListed indices.old work.old.blocks.contexts.items }
    ensures takes { IfOk result (λ stepped. TakesLink (game_of game.now) work.old work.new stepped wanted.new) }
    ensures listed { OnOk result (HasListed indices.new work.new.blocks.contexts.items) }
{
    let Turn::Call {
        callee,
        split,
        back,
    } = game.turn(link.pos)
    else {
        unreachable!()
    };
    wanted.function = callee;
    promise_of(game, work, link, back, split, moves, &mut wanted.promise);
    let Some(number) = number_of(alloc, game, spans, work, indices, wanted)? else {
        return Ok(Stepped::TooMany);
    };
    let to = numbered(game, &work.blocks, number);
    tie_link(game, work, index, link, back, moves, &to)?;
    Ok(Stepped::More)
}
