//! What the heights that are taken tell of a cell.

ghost use Rattle.std.specs.Prelude.{◌≡◌, ◌⊎◌, ℕ, suc, false, true, ◌+◌, ◌≤◌, ◌&&◌, ◌||◌, nat_eq, Some, length, slice_get};
ghost use Rattle.cw_game.specs.Games.{weavers_in};
ghost use Rattle.cw_game.specs.Pairs.{has, is_call_in};
ghost use Rattle.cw_product.specs.Product.{game_of};
ghost use Rattle.cw_product.specs.Moves.{IsState, next_at};
ghost use Rattle.cw_solve.specs.Asking.{holds_after, holds_by_moves};
ghost use Rattle.cw_product.specs.Routed.{AreRouted};
ghost use Rattle.cw_solve.specs.Rounds.{holds_by};
ghost use Rattle.cw_solve.specs.Tables.{IsTabled, HasCell};
ghost use Rattle.cw_linked.specs.Added.{HasNoHeights};
ghost use Rattle.cw_linked.specs.Blocks.{IsBlock};
ghost use Rattle.cw_linked.specs.Founds.{implied};
ghost use Rattle.cw_linked.specs.Queues.{AreLong};
ghost use Rattle.cw_linked.specs.Steps.{IsBound};
ghost use Rattle.cw_linked.specs.Works.{known_of, IsKnown, heights_of, AreUpTo};

use crate::block::{Block, index_in};
use crate::work::Work;
use cw_certs::Move;
use cw_core::limits::{CELLS, PRODUCT_STATES_IN_FORMAT_2};
use cw_core::{PosId, StateId};
use cw_game::Spot;
use cw_product::Game;
use cw_solve::table::{Blocks, Tabled};

/// The height that is taken of a cell, 0 where none is.
#[inline(always)]
pub(crate) fn height_in(
    game: &Game,
    work: &Work,
    at: &Tabled,
    block: &Block,
    pos: PosId,
    state: StateId,
) -> u32
    requires routed { AreRouted (game_of game.now) (length game.now.graph.parts.items) }
    requires known { IsKnown (game_of game.now) (known_of work.now) }
    requires long { AreLong work.now }
    requires cell { HasCell (game_of game.now) work.now.blocks at.now pos.0 state.0 }
    requires block { IsBlock (game_of game.now) work.now.blocks at.now block.now }
    ensures is { result ≡ heights_of (game_of game.now) (known_of work.now) at.now.number pos.0 state.0 }
    ensures most { (most : ℕ) → AreUpTo work.now.store.heights most → result ≤ most }
{
    let index = index_in(game, &work.blocks, at, block, pos, state);
    work.store.height(index)
}

/// The height of the pair to which a move leads that keeps the state, where it is known to which position.
#[inline(always)]
fn height_to(
    game: &Game,
    work: &Work,
    at: &Tabled,
    block: &Block,
    pos: PosId,
    state: StateId,
    by: Move,
    to: u32,
) -> u32
    requires routed { AreRouted (game_of game.now) (length game.now.graph.parts.items) }
    requires known { IsKnown (game_of game.now) (known_of work.now) }
    requires long { AreLong work.now }
    requires cell { HasCell (game_of game.now) work.now.blocks at.now pos.0 state.0 }
    requires block { IsBlock (game_of game.now) work.now.blocks at.now block.now }
    requires leads { next_at (game_of game.now) pos.0 state.0 by ≡ Some (to, state.0) }
    requires high { AreUpTo work.now.store.heights CELLS }
    ensures tells { (n : ℕ) → holds_by n result ≡ holds_after (implied (heights_of (game_of game.now) (known_of work.now)) at.now.number n)
        (has at.now.context.promise) (next_at (game_of game.now) pos.0 state.0 by) }
    ensures high { result ≤ CELLS }
    ensures most { (most : ℕ) → AreUpTo work.now.store.heights most → result ≤ most }
{
    let _ = pos;
    let _ = by;
    height_in(game, work, at, block, PosId(to), state)
}

/// The height of the pair to which a move leads, 0 where none is taken or the move isn't there.
#[inline(never)]
fn height_after(
    game: &Game,
    work: &Work,
    at: &Tabled,
    block: &Block,
    pos: PosId,
    state: StateId,
    by: Move,
) -> u32
    requires routed { AreRouted (game_of game.now) (length game.now.graph.parts.items) }
    requires known { IsKnown (game_of game.now) (known_of work.now) }
    requires long { AreLong work.now }
    requires cell { HasCell (game_of game.now) work.now.blocks at.now pos.0 state.0 }
    requires block { IsBlock (game_of game.now) work.now.blocks at.now block.now }
    requires high { AreUpTo work.now.store.heights CELLS }
    ensures tells { (n : ℕ) → holds_by n result ≡ holds_after (implied (heights_of (game_of game.now) (known_of work.now)) at.now.number n)
        (has at.now.context.promise) (next_at (game_of game.now) pos.0 state.0 by) }
    ensures high { result ≤ CELLS }
    ensures most { (most : ℕ) → AreUpTo work.now.store.heights most → result ≤ most }
{
    match game.next(pos, state, by) {
        None => 0,
        Some((pos, state)) => height_in(game, work, at, block, pos, state),
    }
}

/// One more than a height, 0 where there is none.
fn one_more(height: u32) -> u32
    requires high { height ≤ CELLS }
    ensures tells { (n : ℕ) → holds_by (suc n) result ≡ holds_by n height }
    ensures high { result ≤ height + 1 }
{
    if height == 0 { 0 } else { height + 1 }
}

/// One more than the greater of two heights, 0 where one of them isn't there.
fn both(a: u32, b: u32) -> u32
    requires high { (a ≤ CELLS) × (b ≤ CELLS) }
    ensures tells { (n : ℕ) → holds_by (suc n) result ≡ (holds_by n a || holds_by n b) }
    ensures high { (result ≤ a + 1) ⊎ (result ≤ b + 1) }
{
    if a.min(b) == 0 { 0 } else { a.max(b) + 1 }
}

/// One more than the lesser of two heights, or than the one that is there.
fn either(a: u32, b: u32) -> u32
    requires high { (a ≤ CELLS) × (b ≤ CELLS) }
    ensures tells { (n : ℕ) → holds_by (suc n) result ≡ (holds_by n a && holds_by n b) }
    ensures high { (result ≤ a + 1) ⊎ (result ≤ b + 1) }
{
    if a == 0 {
        one_more(b)
    } else if b == 0 {
        a + 1
    } else {
        a.min(b) + 1
    }
}

/// One more than the height of the pair to which a step leads.
#[inline(always)]
fn step_bound(
    game: &Game,
    work: &Work,
    at: &Tabled,
    block: &Block,
    pos: PosId,
    state: StateId,
    next: u32,
) -> u32
    requires routed { AreRouted (game_of game.now) (length game.now.graph.parts.items) }
    requires known { IsKnown (game_of game.now) (known_of work.now) }
    requires long { AreLong work.now }
    requires cell { HasCell (game_of game.now) work.now.blocks at.now pos.0 state.0 }
    requires block { IsBlock (game_of game.now) work.now.blocks at.now block.now }
    requires step { slice_get (game_of game.now).spots pos.0 ≡ Some (Spot.Step next) }
    requires high { AreUpTo work.now.store.heights CELLS }
    ensures tells { (n : ℕ) → holds_by (suc n) result ≡ holds_by_moves (game_of game.now)
        (implied (heights_of (game_of game.now) (known_of work.now)) at.now.number n) pos.0 state.0 (has at.now.context.promise) (slice_get (game_of game.now).spots pos.0) }
    ensures high { (most : ℕ) → AreUpTo work.now.store.heights most → result ≤ most + 1 }
{
    one_more(height_to(game, work, at, block, pos, state, Move::On, next))
}

/// One more than the greater of the heights of the pairs to which a visit leads.
#[inline(always)]
pub(crate) fn visit_bound(
    game: &Game,
    work: &Work,
    at: &Tabled,
    block: &Block,
    pos: PosId,
    state: StateId,
) -> u32
    requires routed { AreRouted (game_of game.now) (length game.now.graph.parts.items) }
    requires known { IsKnown (game_of game.now) (known_of work.now) }
    requires long { AreLong work.now }
    requires cell { HasCell (game_of game.now) work.now.blocks at.now pos.0 state.0 }
    requires block { IsBlock (game_of game.now) work.now.blocks at.now block.now }
    requires visit { weavers_in (slice_get (game_of game.now).spots pos.0) ≡ true }
    requires high { AreUpTo work.now.store.heights CELLS }
    ensures tells { (n : ℕ) → holds_by (suc n) result ≡ holds_by_moves (game_of game.now)
        (implied (heights_of (game_of game.now) (known_of work.now)) at.now.number n) pos.0 state.0 (has at.now.context.promise) (slice_get (game_of game.now).spots pos.0) }
    ensures high { (most : ℕ) → AreUpTo work.now.store.heights most → result ≤ most + 1 }
{
    let skip = height_to(game, work, at, block, pos, state, Move::Skip, pos.0 + 2);
    let tried = height_to(game, work, at, block, pos, state, Move::Try, pos.0 + 1);
    both(skip, tried)
}

/// One more than the lesser of the heights of the pairs to which a condition leads.
#[inline(always)]
fn branch_bound(
    game: &Game,
    work: &Work,
    at: &Tabled,
    block: &Block,
    pos: PosId,
    state: StateId,
    left: u32,
    right: u32,
) -> u32
    requires routed { AreRouted (game_of game.now) (length game.now.graph.parts.items) }
    requires known { IsKnown (game_of game.now) (known_of work.now) }
    requires long { AreLong work.now }
    requires cell { HasCell (game_of game.now) work.now.blocks at.now pos.0 state.0 }
    requires block { IsBlock (game_of game.now) work.now.blocks at.now block.now }
    requires branch { slice_get (game_of game.now).spots pos.0 ≡ Some (Spot.Branch left right) }
    requires high { AreUpTo work.now.store.heights CELLS }
    ensures tells { (n : ℕ) → holds_by (suc n) result ≡ holds_by_moves (game_of game.now)
        (implied (heights_of (game_of game.now) (known_of work.now)) at.now.number n) pos.0 state.0 (has at.now.context.promise) (slice_get (game_of game.now).spots pos.0) }
    ensures high { (most : ℕ) → AreUpTo work.now.store.heights most → result ≤ most + 1 }
{
    let first = height_to(game, work, at, block, pos, state, Move::Left, left);
    let second = height_to(game, work, at, block, pos, state, Move::Right, right);
    either(first, second)
}

/// The number of moves within which the taken heights tell that a pair that is no call and no exit, and isn't bad, is lost;
/// 0 where they don't.
#[inline(always)]
fn moves_bound(
    game: &Game,
    work: &Work,
    at: &Tabled,
    block: &Block,
    pos: PosId,
    state: StateId,
    spot: Spot,
) -> u32
    requires routed { AreRouted (game_of game.now) (length game.now.graph.parts.items) }
    requires known { IsKnown (game_of game.now) (known_of work.now) }
    requires long { AreLong work.now }
    requires cell { HasCell (game_of game.now) work.now.blocks at.now pos.0 state.0 }
    requires block { IsBlock (game_of game.now) work.now.blocks at.now block.now }
    requires spot { Some spot ≡ slice_get (game_of game.now).spots pos.0 }
    requires high { AreUpTo work.now.store.heights CELLS }
    ensures tells { (n : ℕ) → holds_by (suc n) result ≡ holds_by_moves (game_of game.now)
        (implied (heights_of (game_of game.now) (known_of work.now)) at.now.number n) pos.0 state.0 (has at.now.context.promise) (slice_get (game_of game.now).spots pos.0) }
    ensures high { (most : ℕ) → AreUpTo work.now.store.heights most → result ≤ most + 1 }
{
    let after = |by: Move| height_after(game, work, at, block, pos, state, by);
    match spot {
        Spot::Visit(_, _, _) => visit_bound(game, work, at, block, pos, state),
        Spot::Step(next) => step_bound(game, work, at, block, pos, state, next),
        Spot::Branch(left, right) => {
            branch_bound(game, work, at, block, pos, state, left, right)
        }
        Spot::Asked(_, _, _) => either(after(Move::Grant), after(Move::Refuse)),
        Spot::Open(_, _, _) => either(after(Move::Opened), after(Move::Failed)),
        _ => one_more(after(Move::On)),
    }
}

/// The number of moves within which the end of a function is lost: 1 where it isn't the end of `main` and the context doesn't
/// promise the state, else 0.
#[inline(always)]
fn exit_bound(game: &Game, blocks: &Blocks, at: &Tabled, function: u32, state: StateId) -> u32
    requires tabled { IsTabled blocks.now at.now }
    requires state { IsState (game_of game.now) state.0 }
    requires few { (game_of game.now).states.count ≤ PRODUCT_STATES_IN_FORMAT_2 }
    ensures tells { (n : ℕ) → holds_by (suc n) result ≡ (nat_eq function (game_of game.now).main || has at.now.context.promise state.0) }
    ensures most { result ≤ 1 }
{
    if function == u32::from(game.main()) || blocks.contexts[at.number()].promise.contains(state) {
        0
    } else {
        1
    }
}

/// The number of moves within which the taken heights tell that a pair that is no call is lost; 0 where they don't, and at
/// a call.
#[inline(always)]
pub(crate) fn bound(
    game: &Game,
    work: &Work,
    at: &Tabled,
    block: &Block,
    pos: PosId,
    state: StateId,
) -> u32
    requires routed { AreRouted (game_of game.now) (length game.now.graph.parts.items) }
    requires known { IsKnown (game_of game.now) (known_of work.now) }
    requires long { AreLong work.now }
    requires cell { HasCell (game_of game.now) work.now.blocks at.now pos.0 state.0 }
    requires block { IsBlock (game_of game.now) work.now.blocks at.now block.now }
    requires high { AreUpTo work.now.store.heights CELLS }
    ensures implied { is_call_in (slice_get (game_of game.now).spots pos.0) ≡ false
        → IsBound (game_of game.now) (heights_of (game_of game.now) (known_of work.now)) at.now.number pos.0 state.0 at.now.context.promise result }
    ensures call { is_call_in (slice_get (game_of game.now).spots pos.0) ≡ true → result ≡ 0 }
    ensures high { (most : ℕ) → AreUpTo work.now.store.heights most → result ≤ most + 1 }
{
    let spot = game.spot(pos);
    match spot {
        Spot::Call(_, _, _) | Spot::SplitCall(_, _, _) => 0,
        Spot::Exit(function) => exit_bound(game, &work.blocks, at, function, state),
        Spot::Label(_, _, _) => {
            if game.bad(pos, state) {
                1
            } else {
                moves_bound(game, work, at, block, pos, state, spot)
            }
        }
        _ => moves_bound(game, work, at, block, pos, state, spot),
    }
}

/// The same as `bound`, where no cell of the context has a height: what is lost begins at an exit and at a label that is bad.
#[inline(always)]
pub(crate) fn first_bound(game: &Game, work: &Work, at: &Tabled, pos: PosId, state: StateId) -> u32
    requires routed { AreRouted (game_of game.now) (length game.now.graph.parts.items) }
    requires known { IsKnown (game_of game.now) (known_of work.now) }
    requires cell { HasCell (game_of game.now) work.now.blocks at.now pos.0 state.0 }
    requires fresh { HasNoHeights (game_of game.now) (known_of work.now) at.now }
    ensures implied { is_call_in (slice_get (game_of game.now).spots pos.0) ≡ false
        → IsBound (game_of game.now) (heights_of (game_of game.now) (known_of work.now)) at.now.number pos.0 state.0 at.now.context.promise result }
    ensures call { is_call_in (slice_get (game_of game.now).spots pos.0) ≡ true → result ≡ 0 }
    ensures most { result ≤ 1 }
{
    let spot = game.spot(pos);
    match spot {
        Spot::Exit(function) => exit_bound(game, &work.blocks, at, function, state),
        Spot::Label(_, _, _) => { if game.bad(pos, state) { 1 } else { 0 } }
        _ => 0,
    }
}
