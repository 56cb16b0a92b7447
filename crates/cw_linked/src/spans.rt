//! Where calls and labels stand in a function, the same in all its contexts.

ghost use Rattle.std.specs.Prelude.{◌+◌, ◌<◌, ◌≤◌, true, length, slice_get, IfOk};
ghost use Rattle.cw_game.specs.Pairs.{is_call_in};
ghost use Rattle.cw_product.specs.Product.{game_of};
ghost use Rattle.cw_product.specs.Moves.{IsPosition};
ghost use Rattle.cw_product.specs.Routed.{IsThere, AreRouted};
ghost use Rattle.cw_linked.specs.Added.{loss_begins_in};
ghost use Rattle.cw_linked.specs.Spans.{Reaches, IsSpan, IsSpanned, AreSpanned};

use crate::asked::loss_begins;
use crate::calls::is_call;
use crate::room::has_splits;
use cw_core::{NoMemory, PosId};
use cw_product::Game;
use std::alloc::Global;

/// The positions from one on to before another one; none where these are the same.
#[derive(Clone, Copy, Drop)]
pub(crate) struct Span {
    pub first: u32,
    pub end: u32,
}

/// Of a function the least span that has the positions of its calls, whether one of these is split, and the least span that has those
/// of its labels. What is added of a context are its links and the cells at labels and at the end, which are few of all that it has.
#[derive(Clone, Copy, Drop)]
pub(crate) struct Spans {
    pub calls: Span,
    pub split: bool,
    pub labels: Span,
}

/// A span with one more position, which is behind all that it has.
fn longer(span: Span, pos: u32) -> Span
    requires order { span.first ≤ span.end }
    requires behind { span.end ≤ pos }
    requires few { pos < 4294967295 }
    ensures { Reaches span result pos true }
{
    if span.first < span.end {
        Span {
            first: span.first,
            end: pos + 1,
        }
    } else {
        Span {
            first: pos,
            end: pos + 1,
        }
    }
}

/// A span up to a position, with that position too if a call stands there.
fn with_call(game: &Game, span: Span, pos: PosId) -> Span
    requires routed { AreRouted (game_of game.now) (length game.now.graph.parts.items) }
    requires position { IsPosition (game_of game.now) pos.0 }
    requires order { span.first ≤ span.end }
    requires behind { span.end ≤ pos.0 }
    ensures { Reaches span result pos.0 (is_call_in (slice_get (game_of game.now).spots pos.0)) }
{
    if is_call(game, pos) {
        longer(span, pos.0)
    } else {
        span
    }
}

/// A span up to a position, with that position too if what is lost can begin there.
fn with_loss(game: &Game, span: Span, pos: PosId) -> Span
    requires routed { AreRouted (game_of game.now) (length game.now.graph.parts.items) }
    requires position { IsPosition (game_of game.now) pos.0 }
    requires order { span.first ≤ span.end }
    requires behind { span.end ≤ pos.0 }
    ensures { Reaches span result pos.0 (loss_begins_in (slice_get (game_of game.now).spots pos.0)) }
{
    if loss_begins(game, pos) {
        longer(span, pos.0)
    } else {
        span
    }
}

/// The span of a function's calls.
fn calls_of(game: &Game, function: u16) -> Span
    requires routed { AreRouted (game_of game.now) (length game.now.graph.parts.items) }
    requires there { IsThere (game_of game.now) (length game.now.graph.parts.items) function }
    ensures { IsSpan (game_of game.now) function (λ p. is_call_in (slice_get (game_of game.now).spots p)) result ((game_of game.now).exit function + 1) }
{
    let first = game.entry(function).0;
    let mut span = Span { first, end: first };
    for p in first..game.exit(function).0 + 1 {
        span = with_call(game, span, PosId(p));
    }
    span
}

/// The span of the positions before a function's end at which what is lost can begin.
fn labels_of(game: &Game, function: u16) -> Span
    requires routed { AreRouted (game_of game.now) (length game.now.graph.parts.items) }
    requires there { IsThere (game_of game.now) (length game.now.graph.parts.items) function }
    ensures { IsSpan (game_of game.now) function (λ p. loss_begins_in (slice_get (game_of game.now).spots p)) result ((game_of game.now).exit function) }
{
    let first = game.entry(function).0;
    let mut span = Span { first, end: first };
    for p in first..game.exit(function).0 {
        span = with_loss(game, span, PosId(p));
    }
    span
}

/// The spans of a function.
#[inline(never)]
fn spans_of(game: &Game, function: u16) -> Spans
    requires routed { AreRouted (game_of game.now) (length game.now.graph.parts.items) }
    requires there { function < length game.now.graph.parts.items }
    ensures { IsSpanned (game_of game.now) function result }
{
    game.fact_is_closed();
    let calls = calls_of(game, function);
    Spans {
        calls,
        split: has_splits(game, function, &calls),
        labels: labels_of(game, function),
    }
}

/// The spans of a function, which are made where they aren't there.
#[inline(always)]
pub(crate) fn spans_at(game: &Game, spans: &[Spans], function: u16) -> Spans
    requires routed { AreRouted (game_of game.now) (length game.now.graph.parts.items) }
    requires spans { AreSpanned (game_of game.now) spans.now }
    requires there { IsThere (game_of game.now) (length game.now.graph.parts.items) function }
    ensures { IsSpanned (game_of game.now) function result }
{
    match spans.get(function as usize) {
        None => spans_of(game, function),
        Some(spans) => *spans,
    }
}

/// For each function its spans.
pub(crate) fn make_spans(alloc: Global, game: &Game) -> Result<Vec<Spans>, NoMemory>
    requires routed { AreRouted (game_of game.now) (length game.now.graph.parts.items) }
    ensures { IfOk result (λ spans. AreSpanned (game_of game.now) spans.items) }
{
    let mut spans = Vec::new(alloc);
    for f in 0..game.graph().parts.len().min(65536) {
        spans.push(spans_of(game, f as u16))?;
    }
    Ok(spans)
}
