//! The calls that wait, the innermost first.

ghost use Rattle.std.specs.Prelude.{◌≡◌, Some, map, option_map, slice_get, IfOk, IfSome};
ghost use Rattle.std.specs.List.{All};
ghost use Rattle.cw_game.specs.Games.{Game as GameOf};
ghost use Rattle.cw_product.specs.Product.{game_of};
ghost use Rattle.cw_run.specs.Walks.{IsHere, IsNextIn, IsWait, first_of, here_of, next_is, next_of, wait_of, waits_after};

use cw_certs::{Move, WeaverCert};
use cw_core::NoMemory;
use cw_game::Spot;
use cw_product::Game;
use cw_run::{Here, Next, Wait, lead};
use std::collections::VecDeque;

/// The innermost call that waits.
fn innermost(waits: &VecDeque<Wait>) -> Option<Wait>
    ensures is { option_map wait_of result ≡ first_of (map wait_of waits.now.items) }
    ensures range { (g : GameOf) → All (λ w. IsWait g (wait_of w)) waits.now.items → IfSome result (λ w. IsWait g (wait_of w)) }
{
    match waits.front() {
        None => None,
        Some(wait) => Some(*wait),
    }
}

/// Where a move leads, over the calls that wait: neither a step nor a condition asks for them.
#[inline(always)]
#[tactic(auto, using(cw_run::proofs::Waits::first_leads))]
pub(crate) fn lead_over(
    game: &Game,
    table: &WeaverCert,
    here: Here,
    waits: &VecDeque<Wait>,
    spot: Spot,
    by: Move,
) -> Option<Next>
    requires here { IsHere (game_of game.now) (here_of here) }
    requires waits { All (λ w. IsWait (game_of game.now) (wait_of w)) waits.now.items }
    requires spot { Some spot ≡ slice_get (game_of game.now).spots here.pos.0 }
    ensures is { option_map next_is result ≡ next_of (game_of game.now) table.now (here_of here) (map wait_of waits.now.items) spot by }
    ensures range { IfSome result (λ next. IsNextIn (game_of game.now) (next_is next)) }
{
    match spot {
        Spot::Step(_) => lead(game, table, here, None, spot, by),
        Spot::Branch(_, _) => lead(game, table, here, None, spot, by),
        _ => lead(game, table, here, innermost(waits), spot, by),
    }
}

/// The calls that wait after a move. The one error is want of memory.
#[inline(always)]
pub(crate) fn follow(waits: &mut VecDeque<Wait>, next: Next) -> Result<(), NoMemory>
    ensures waiting { IfOk result (λ _. map wait_of waits.new.items ≡ waits_after (next_is next) (map wait_of waits.old.items)) }
    ensures all { (g : GameOf) → IsNextIn g (next_is next) → All (λ w. IsWait g (wait_of w)) waits.old.items → All (λ w. IsWait g (wait_of w)) waits.new.items }
{
    match next {
        Next::Into(_, wait) => waits.push_front(wait)?,
        Next::Back(_) => {
            let _ = waits.pop_front();
        }
        Next::To(_) | Next::Over | Next::Resumed(_) | Next::Stopped(_) => {}
    }
    Ok(())
}
