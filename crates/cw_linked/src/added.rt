//! A context is added: its cells and its links are asked for.

ghost use Rattle.std.specs.Prelude.{◌∷◌, ◌++◌, [], length, OnOk};
ghost use Rattle.cw_product.specs.Product.{game_of};
ghost use Rattle.cw_product.specs.Routed.{AreRouted, IsOf};
ghost use Rattle.cw_solve.specs.Contexts.{size};
ghost use Rattle.cw_solve.specs.Tables.{IsTabled, HasCell, AreTabled};
ghost use Rattle.cw_linked.specs.Added.{ThePair, AllOf, Each, FreesLinks, Pushes, IsOpen, AddsContext};
ghost use Rattle.cw_linked.specs.Queues.{AreFlagged, AreLong};
ghost use Rattle.cw_linked.specs.Spans.{IsSpanned, AreSpanned};
ghost use Rattle.cw_linked.specs.Works.{known_of, IsKnown};

use crate::asked::ask_all;
use crate::calls::{class_at, is_same};
use crate::room::{is_split, push, push_indices};
use crate::spans::{Spans, spans_at};
use crate::work::{Work, ask_link};
use cw_core::{NoMemory, PosId, StateId};
use cw_product::Game;
use cw_solve::Context;
use cw_solve::table::{Tabled, numbered, slot};
use std::alloc::Global;

/// Has the link of a cell wait to be tied, if the cell is that of one.
fn free_link(
    game: &Game,
    work: &mut Work,
    at: &Tabled,
    pos: PosId,
    state: StateId,
) -> Result<(), NoMemory>
    requires routed { AreRouted (game_of game.now) (length game.now.graph.parts.items) }
    requires known { IsKnown (game_of game.now) (known_of work.old) }
    requires cell { HasCell (game_of game.now) work.old.blocks at.now pos.0 state.0 }
    requires long { AreLong work.old }
    requires flagged { AreFlagged (game_of game.now) work.old }
    ensures { OnOk result (FreesLinks (game_of game.now) work.old work.new at.now.number at.now.context (ThePair pos.0 state.0)) }
{
    match class_at(game, pos, state) {
        None => Ok(()),
        Some(class) => {
            if is_same(class, state) {
                let index = slot(game, &work.blocks, at, pos, state);
                ask_link(work, index, 1)?;
                Ok(())
            } else {
                Ok(())
            }
        }
    }
}

/// Has the links at a position wait to be tied.
fn free_links(game: &Game, work: &mut Work, at: &Tabled, pos: PosId) -> Result<(), NoMemory>
    requires routed { AreRouted (game_of game.now) (length game.now.graph.parts.items) }
    requires known { IsKnown (game_of game.now) (known_of work.old) }
    requires tabled { IsTabled work.old.blocks at.now }
    requires of { IsOf (game_of game.now) at.now.context.function pos.0 }
    requires long { AreLong work.old }
    requires flagged { AreFlagged (game_of game.now) work.old }
    ensures { OnOk result (FreesLinks (game_of game.now) work.old work.new at.now.number at.now.context (AllOf pos.0)) }
{
    // All states are alike at a call that isn't split, so its one link stands at the first one.
    if !is_split(game, pos) {
        free_link(game, work, at, pos, StateId(0))?;
        return Ok(());
    }
    for x in 0..game.states() {
        free_link(game, work, at, pos, StateId(x))?;
    }
    Ok(())
}

/// Has the links of a context wait to be tied, whose function has these spans.
fn free_all(game: &Game, spans: &Spans, work: &mut Work, at: &Tabled) -> Result<(), NoMemory>
    requires routed { AreRouted (game_of game.now) (length game.now.graph.parts.items) }
    requires known { IsKnown (game_of game.now) (known_of work.old) }
    requires tabled { IsTabled work.old.blocks at.now }
    requires spans { IsSpanned (game_of game.now) at.now.context.function spans.now }
    requires long { AreLong work.old }
    requires flagged { AreFlagged (game_of game.now) work.old }
    ensures { OnOk result (FreesLinks (game_of game.now) work.old work.new at.now.number at.now.context Each) }
{
    for p in spans.calls.first..spans.calls.end {
        free_links(game, work, at, PosId(p))?;
    }
    Ok(())
}

/// Adds a context, whose function has these spans, and its indices, of which nothing waits.
fn enlarge(
    alloc: Global,
    game: &Game,
    spans: &Spans,
    work: &mut Work,
    context: &Context,
) -> Result<(), NoMemory>
    requires routed { AreRouted (game_of game.now) (length game.now.graph.parts.items) }
    requires spans { IsSpanned (game_of game.now) context.now.function spans.now }
    requires kept { IsOpen (game_of game.now) work.old }
    requires contexts { AreTabled (game_of game.now) (work.old.blocks.contexts.items ++ context.now ∷ []) }
    ensures { OnOk result (Pushes (game_of game.now) work.old work.new context.now (size (game_of game.now) context.now.function)) }
{
    let lists = work.blocks.contexts.len() as u32 + 2;
    let base = work.store.indices() as u32;
    work.store.reach(alloc, lists)?;
    push_indices(game, spans, &mut work.store, context.function)?;
    push(&mut work.blocks, *context, base)?;
    Ok(())
}

/// Adds a context, and asks for its cells and its links. The spans are those of the functions.
pub(crate) fn add(
    alloc: Global,
    game: &Game,
    spans: &[Spans],
    work: &mut Work,
    context: &Context,
) -> Result<(), NoMemory>
    requires routed { AreRouted (game_of game.now) (length game.now.graph.parts.items) }
    requires spans { AreSpanned (game_of game.now) spans.now }
    requires kept { IsOpen (game_of game.now) work.old }
    requires contexts { AreTabled (game_of game.now) (work.old.blocks.contexts.items ++ context.now ∷ []) }
    ensures { OnOk result (AddsContext (game_of game.now) work.old work.new context.now) }
{
    let own = spans_at(game, spans, context.function);
    let number = work.blocks.contexts.len();
    enlarge(alloc, game, &own, work, context)?;
    let at = numbered(game, &work.blocks, number);
    free_all(game, &own, work, &at)?;
    ask_all(game, &own, work, &at)?;
    Ok(())
}
