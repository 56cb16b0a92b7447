//! A game as numbers: what stands at each pair of a position and a state.

ghost use Rattle.cw_product.specs.Product.{game_of};
ghost use Rattle.cw_product.specs.Moves.{IsPosition, IsState};

use cw_certs::Move;
use cw_core::{PosId, StateId};
use cw_product::{Game, Turn};
use std::alloc::{AllocError, Global};

/// What stands at a pair. The number of a pair is its position times the number of states, and its state; a move that isn't there leads to none.
#[derive(Clone, Copy)]
pub enum Pair {
    /// The program has ended.
    Ended,
    /// The label makes the word bad.
    Bad,
    /// The function ends in this state.
    Exit(usize),
    /// The weaver moves.
    Either(Option<usize>, Option<usize>),
    /// The environment moves.
    Both(Option<usize>, Option<usize>),
    /// A function is called in this state; the row of states after the return, and the first pair of the position at which the caller goes on.
    Call(u16, usize, usize, usize),
}

/// The number of a pair.
fn number(game: &Game, pos: PosId, state: StateId) -> usize {
    (pos.0 as usize)
        .saturating_mul(game.states() as usize)
        .saturating_add(state.0 as usize)
}

/// The number of the pair to which a move leads.
fn led(game: &Game, pos: PosId, state: StateId, by: Move) -> Option<usize>
    requires position { IsPosition (game_of game.now) pos.0 }
    requires state { IsState (game_of game.now) state.0 }
{
    match game.next(pos, state, by) {
        None => None,
        Some((pos, state)) => Some(number(game, pos, state)),
    }
}

/// What stands at a pair.
fn standing(game: &Game, pos: PosId, state: StateId) -> Pair
    requires position { IsPosition (game_of game.now) pos.0 }
    requires state { IsState (game_of game.now) state.0 }
{
    if game.bad(pos, state) {
        return Pair::Bad;
    }
    let (first, second) = game.moves(pos);
    let one = led(game, pos, state, first);
    let other = led(game, pos, state, second.unwrap_or(first));
    match game.turn(pos) {
        Turn::Weaver => Pair::Either(one, other),
        Turn::Environment => Pair::Both(one, other),
        Turn::Call {
            callee,
            split,
            back,
        } => {
            let called = state.0 as usize;
            let row = if split { called.saturating_add(1) } else { 0 };
            Pair::Call(callee, called, row, number(game, back, StateId(0)))
        }
        Turn::Exit { main } => {
            if main {
                Pair::Ended
            } else {
                Pair::Exit(state.0 as usize)
            }
        }
    }
}

/// What stands at each pair.
pub fn pairs_of(alloc: Global, game: &Game) -> Result<Vec<Pair>, AllocError> {
    let mut pairs = Vec::new(alloc);
    for p in 0..game.positions() {
        for q in 0..game.states() {
            pairs.push(standing(game, PosId(p), StateId(q)))?;
        }
    }
    Ok(pairs)
}

/// The states after a return from each state: a row for plain calls, and one for a split call in each state.
pub fn returns_of(alloc: Global, game: &Game) -> Result<Vec<usize>, AllocError> {
    let mut returns = Vec::new(alloc);
    for x in 0..game.states() {
        returns.push(game.returned(StateId(x), StateId(x), false).0 as usize)?;
    }
    for call in 0..game.states() {
        for x in 0..game.states() {
            returns.push(game.returned(StateId(call), StateId(x), true).0 as usize)?;
        }
    }
    Ok(returns)
}

/// The first pair of each function, and the first behind its last.
pub fn parts_of(alloc: Global, game: &Game) -> Result<Vec<(usize, usize)>, AllocError> {
    let mut parts = Vec::new(alloc);
    for function in 0..512u16 {
        if (function as usize) < game.graph().parts.len() {
            parts.push((
                number(game, game.entry(function), StateId(0)),
                number(game, game.exit(function), StateId(game.states())),
            ))?;
        }
    }
    Ok(parts)
}
