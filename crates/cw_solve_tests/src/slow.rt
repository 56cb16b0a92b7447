//! Holding, heights and needed contexts by a slow body, straight from the definition: for each number of moves a table of what holds
//! under every promise there can be.

use crate::drawn::Pair;
use std::alloc::{AllocError, Global};

/// A game as numbers: the pairs, the states after returns and the functions of `drawn`. A promise is a set of states by its bits, below `promises`.
#[derive(Clone, Copy)]
pub struct Drawn<'t> {
    pub states: usize,
    pub promises: usize,
    pub main: u16,
    pub pairs: &'t [Pair],
    pub returns: &'t [usize],
    pub parts: &'t [(usize, usize)],
}

/// How many sets of so many states there are.
pub fn promises_of(states: u16) -> usize {
    let mut promises: usize = 1;
    for _ in 0..states {
        promises = promises.saturating_mul(2);
    }
    promises
}

/// Whether a pair holds for so many moves under a promise, by the tables: a table for each number of moves, with the pairs one after the other and each
/// under every promise. None past the last table.
fn in_table(
    game: &Drawn,
    tables: &[bool],
    moves: usize,
    pair: usize,
    promise: usize,
) -> Option<bool> {
    let row = moves.saturating_mul(game.pairs.len()).saturating_add(pair);
    let cell = row.saturating_mul(game.promises).saturating_add(promise);
    tables.get(cell).copied()
}

/// Whether the pair to which a move leads holds, or the move isn't there.
fn after(game: &Drawn, tables: &[bool], moves: usize, pair: Option<usize>, promise: usize) -> bool {
    match pair {
        None => true,
        Some(pair) => in_table(game, tables, moves, pair, promise) == Some(true),
    }
}

/// What a call promises: the states at the callee's end from which the return holds.
fn promised(
    game: &Drawn,
    tables: &[bool],
    moves: usize,
    row: usize,
    back: usize,
    promise: usize,
) -> usize {
    let mut set: usize = 0;
    let mut bit: usize = 1;
    for x in 0..game.states {
        let at = row.saturating_mul(game.states).saturating_add(x);
        if let Some(then) = game.returns.get(at) {
            if after(
                game,
                tables,
                moves,
                Some(back.saturating_add(*then)),
                promise,
            ) {
                set |= bit;
            }
        }
        bit = bit.saturating_mul(2);
    }
    set
}

/// Whether a pair holds for one move more than so many.
fn holds_after(game: &Drawn, tables: &[bool], moves: usize, pair: Pair, promise: usize) -> bool {
    match pair {
        Pair::Ended => true,
        Pair::Bad => false,
        Pair::Exit(state) => state < 64 && (promise >> state) & 1 == 1,
        Pair::Either(one, other) => {
            after(game, tables, moves, one, promise) || after(game, tables, moves, other, promise)
        }
        Pair::Both(one, other) => {
            after(game, tables, moves, one, promise) && after(game, tables, moves, other, promise)
        }
        Pair::Call(function, state, row, back) => {
            let set = promised(game, tables, moves, row, back, promise);
            match game.parts.get(function as usize) {
                None => false,
                Some((first, _)) => {
                    after(game, tables, moves, Some(first.saturating_add(state)), set)
                }
            }
        }
    }
}

/// The tables for 0, 1, 2 and so many moves, one behind the other, until one is as the last: then all that follow are. There are none where 400 aren't
/// enough.
pub fn tables(alloc: Global, game: &Drawn) -> Result<Vec<bool>, AllocError> {
    let mut tables = Vec::new(alloc);
    for _ in 0..game.pairs.len().saturating_mul(game.promises) {
        tables.push(true)?;
    }
    for moves in 0..400 {
        let mut is_same = true;
        for (number, pair) in game.pairs.iter().enumerate() {
            for promise in 0..game.promises {
                let holds = holds_after(game, &tables, moves, *pair, promise);
                is_same = is_same && in_table(game, &tables, moves, number, promise) == Some(holds);
                tables.push(holds)?;
            }
        }
        if is_same {
            return Ok(tables);
        }
    }
    Ok(Vec::new(alloc))
}

/// The least number of moves for which a pair doesn't hold.
pub fn height(game: &Drawn, tables: &[bool], pos: u32, state: u16, promise: usize) -> Option<u32> {
    let pair = (pos as usize)
        .saturating_mul(game.states)
        .saturating_add(state as usize);
    for moves in 0..401u32 {
        if in_table(game, tables, moves as usize, pair, promise) == Some(false) {
            return Some(moves);
        }
    }
    None
}

/// Adds what a call at a pair promises, for each number of moves.
fn add_call(
    game: &Drawn,
    tables: &[bool],
    pair: usize,
    promise: usize,
    needed: &mut Vec<(u16, usize)>,
) -> Result<(), AllocError> {
    if let Some(Pair::Call(function, _, row, back)) = game.pairs.get(pair) {
        for moves in 0..401 {
            if in_table(game, tables, moves, 0, 0).is_some() {
                let context = (
                    *function,
                    promised(game, tables, moves, *row, *back, promise),
                );
                if !needed.contains(&context) {
                    needed.push(context)?;
                }
            }
        }
    }
    Ok(())
}

/// The needed contexts: `main` with all states, and what the calls of each of them ask for.
pub fn needed_contexts(
    alloc: Global,
    game: &Drawn,
    tables: &[bool],
) -> Result<Vec<(u16, usize)>, AllocError> {
    let mut needed = Vec::new(alloc);
    needed.push((game.main, game.promises.saturating_sub(1)))?;
    for i in 0..4096 {
        if let Some((function, promise)) = needed.get(i).copied() {
            if let Some((first, end)) = game.parts.get(function as usize) {
                for pair in *first..*end {
                    add_call(game, tables, pair, promise, &mut needed)?;
                }
            }
        }
    }
    Ok(needed)
}
