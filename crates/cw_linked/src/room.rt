//! One more context: its cells and its links.

ghost use Rattle.std.specs.Prelude.{◌≡◌, ℕ, ◌≤◌, ◌+◌, true, false, Some, length, slice_get, OnOk, IfOk};
ghost use Rattle.cw_game.specs.Pairs.{Called, call_in, is_call_in};
ghost use Rattle.cw_product.specs.Product.{game_of};
ghost use Rattle.cw_product.specs.Moves.{IsPosition, IsState};
ghost use Rattle.cw_solve.specs.Contexts.{size};
ghost use Rattle.cw_solve.specs.Rounds.{positions};
ghost use Rattle.cw_product.specs.Routed.{IsThere, AreRouted, IsOf};
ghost use Rattle.cw_linked.specs.Added.{PushesIndices, PushesNext, PushesContext, FlagsState, FlagsLinks};
ghost use Rattle.cw_linked.specs.Founds.{class_of};
ghost use Rattle.cw_linked.specs.Spans.{IsSpan, IsSpanned};

use crate::calls::class_at;
use crate::spans::{Span, Spans};
use cw_core::limits::CELLS;
use cw_core::{NoMemory, PosId, StateId};
use cw_game::Spot;
use cw_links::Store;
use cw_product::Game;
use cw_solve::Context;
use cw_solve::table::{Blocks, positions, size};

/// Whether a link stands at a position and a state: a call, and the state that stands for those that are alike there.
fn is_link(game: &Game, pos: PosId, state: StateId) -> bool
    requires position { IsPosition (game_of game.now) pos.0 }
    requires state { IsState (game_of game.now) state.0 }
    ensures { (call : Called) → call_in (slice_get (game_of game.now).spots pos.0) ≡ Some call → class_of (game_of game.now) call.split state.0 ≡ state.0
        → result ≡ true }
{
    match class_at(game, pos, state) {
        None => false,
        Some(class) => class.0 == state.0,
    }
}

/// Adds the link of a position, where one stands there, behind so many indices before it that are none. How many indices are still
/// to be added then.
fn push_next(
    game: &Game,
    store: &mut Store,
    pos: PosId,
    state: StateId,
    plain: u32,
) -> Result<u32, NoMemory>
    requires position { IsPosition (game_of game.now) pos.0 }
    requires state { IsState (game_of game.now) state.0 }
    requires few { length store.old.flags + (plain + 1) ≤ CELLS }
    ensures { IfOk result (λ more. PushesNext (game_of game.now) store.old store.new pos.0 state.0 plain more) }
{
    if is_link(game, pos, state) {
        store.push_plain(plain)?;
        store.push(true)?;
        Ok(0)
    } else {
        Ok(plain + 1)
    }
}

/// Adds the indices of a function's positions in one state, and then so many indices that are none of links; of all of them nothing
/// waits. Only the positions of the span of its calls are looked at.
fn push_state(
    game: &Game,
    spans: &Spans,
    store: &mut Store,
    function: u16,
    state: StateId,
    rest: u32,
) -> Result<(), NoMemory>
    requires routed { AreRouted (game_of game.now) (length game.now.graph.parts.items) }
    requires there { IsThere (game_of game.now) (length game.now.graph.parts.items) function }
    requires spans { IsSpanned (game_of game.now) function spans.now }
    requires state { IsState (game_of game.now) state.0 }
    requires few { length store.old.flags + (positions (game_of game.now) function + rest) ≤ CELLS }
    ensures indices { OnOk result (PushesIndices store.old store.new (positions (game_of game.now) function + rest)) }
    ensures flagged { OnOk result (FlagsState (game_of game.now) store.old.flags store.new.flags function state.0 (positions (game_of game.now) function)) }
{
    let mut plain = spans.calls.first - game.entry(function).0;
    for p in spans.calls.first..spans.calls.end {
        plain = push_next(game, store, PosId(p), state, plain)?;
    }
    let behind = game.exit(function).0 + 1 - spans.calls.end;
    store.push_plain(plain + behind + rest)?;
    Ok(())
}

/// Whether a call in a process of its own stands at a position.
pub(crate) fn is_split(game: &Game, pos: PosId) -> bool
    requires { IsPosition (game_of game.now) pos.0 }
    ensures { result ≡ false → (call : Called) → call_in (slice_get (game_of game.now).spots pos.0) ≡ Some call → call.split ≡ false }
{
    match game.spot(pos) {
        Spot::SplitCall(_, _, _) => true,
        _ => false,
    }
}

/// Whether one stands in the span of a function's calls.
pub(crate) fn has_splits(game: &Game, function: u16, calls: &Span) -> bool
    requires routed { AreRouted (game_of game.now) (length game.now.graph.parts.items) }
    requires there { IsThere (game_of game.now) (length game.now.graph.parts.items) function }
    requires calls { IsSpan (game_of game.now) function (λ p. is_call_in (slice_get (game_of game.now).spots p)) calls.now ((game_of game.now).exit function + 1) }
    ensures { result ≡ false → (p : ℕ) (call : Called) → IsOf (game_of game.now) function p → call_in (slice_get (game_of game.now).spots p) ≡ Some call → call.split ≡ false }
{
    let _ = function;
    for p in calls.first..calls.end {
        if is_split(game, PosId(p)) {
            return true;
        }
    }
    false
}

/// Adds the indices of a function without calls, of which nothing waits and none is a link.
fn push_plain(game: &Game, store: &mut Store, function: u16) -> Result<(), NoMemory>
    requires routed { AreRouted (game_of game.now) (length game.now.graph.parts.items) }
    requires there { IsThere (game_of game.now) (length game.now.graph.parts.items) function }
    requires few { length store.old.flags + size (game_of game.now) function ≤ CELLS }
    requires plain { (p : ℕ) → IsOf (game_of game.now) function p → is_call_in (slice_get (game_of game.now).spots p) ≡ false }
    ensures indices { OnOk result (PushesIndices store.old store.new (size (game_of game.now) function)) }
    ensures flagged { OnOk result (FlagsLinks (game_of game.now) store.old.flags store.new.flags function (size (game_of game.now) function)) }
{
    let many = size(game, function);
    store.push_plain(many)?;
    Ok(())
}

/// Adds the indices of a function state by state, of which nothing waits.
fn push_states(game: &Game, spans: &Spans, store: &mut Store, function: u16) -> Result<(), NoMemory>
    requires routed { AreRouted (game_of game.now) (length game.now.graph.parts.items) }
    requires there { IsThere (game_of game.now) (length game.now.graph.parts.items) function }
    requires spans { IsSpanned (game_of game.now) function spans.now }
    requires few { length store.old.flags + size (game_of game.now) function ≤ CELLS }
    ensures indices { OnOk result (PushesIndices store.old store.new (size (game_of game.now) function)) }
    ensures flagged { OnOk result (FlagsLinks (game_of game.now) store.old.flags store.new.flags function (size (game_of game.now) function)) }
{
    for x in 0..game.states() {
        push_state(game, spans, store, function, StateId(x), 0)?;
    }
    Ok(())
}

/// Adds the indices of a function of which no call is split, and of which nothing waits. All states are alike at its calls, so its
/// links stand at the first one.
fn push_first(game: &Game, spans: &Spans, store: &mut Store, function: u16) -> Result<(), NoMemory>
    requires routed { AreRouted (game_of game.now) (length game.now.graph.parts.items) }
    requires there { IsThere (game_of game.now) (length game.now.graph.parts.items) function }
    requires spans { IsSpanned (game_of game.now) function spans.now }
    requires few { length store.old.flags + size (game_of game.now) function ≤ CELLS }
    requires whole { spans.now.split ≡ false }
    ensures indices { OnOk result (PushesIndices store.old store.new (size (game_of game.now) function)) }
    ensures flagged { OnOk result (FlagsLinks (game_of game.now) store.old.flags store.new.flags function (size (game_of game.now) function)) }
{
    let rest = size(game, function) - positions(game, function);
    push_state(game, spans, store, function, StateId(0), rest)?;
    Ok(())
}

/// Adds the indices of a function with calls, of which nothing waits.
fn push_called(game: &Game, spans: &Spans, store: &mut Store, function: u16) -> Result<(), NoMemory>
    requires routed { AreRouted (game_of game.now) (length game.now.graph.parts.items) }
    requires there { IsThere (game_of game.now) (length game.now.graph.parts.items) function }
    requires spans { IsSpanned (game_of game.now) function spans.now }
    requires few { length store.old.flags + size (game_of game.now) function ≤ CELLS }
    ensures indices { OnOk result (PushesIndices store.old store.new (size (game_of game.now) function)) }
    ensures flagged { OnOk result (FlagsLinks (game_of game.now) store.old.flags store.new.flags function (size (game_of game.now) function)) }
{
    if spans.split {
        return push_states(game, spans, store, function);
    }
    push_first(game, spans, store, function)
}

/// Adds the indices of a function, which has these spans, of which nothing waits.
pub(crate) fn push_indices(
    game: &Game,
    spans: &Spans,
    store: &mut Store,
    function: u16,
) -> Result<(), NoMemory>
    requires routed { AreRouted (game_of game.now) (length game.now.graph.parts.items) }
    requires there { IsThere (game_of game.now) (length game.now.graph.parts.items) function }
    requires spans { IsSpanned (game_of game.now) function spans.now }
    requires few { length store.old.flags + size (game_of game.now) function ≤ CELLS }
    ensures indices { OnOk result (PushesIndices store.old store.new (size (game_of game.now) function)) }
    ensures flagged { OnOk result (FlagsLinks (game_of game.now) store.old.flags store.new.flags function (size (game_of game.now) function)) }
{
    if spans.calls.first < spans.calls.end {
        return push_called(game, spans, store, function);
    }
    push_plain(game, store, function)
}

/// Adds a context whose cells begin at this index.
pub(crate) fn push(blocks: &mut Blocks, context: Context, base: u32) -> Result<(), NoMemory>
    ensures { OnOk result (PushesContext blocks.old blocks.new context base) }
{
    blocks.bases.push(base)?;
    blocks.contexts.push(context)?;
    Ok(())
}
