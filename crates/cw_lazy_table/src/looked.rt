//! A solved game in which contexts are found by position and promise.

ghost use Rattle.std.specs.Prelude.{◌≡◌, IfOk};

use cw_core::{PosId, StateId, StateSet};
use cw_product::Game;
use cw_solve::{Context, Solved};
use std::alloc::{AllocError, Global};
use std::marker::Model;

/// More numbers than these are not kept: 4 MB.
const MOST: usize = 1_048_576;

/// A solved game, for each position the function that has it, and for each function and each promise that the game needs the number of the
/// context that may have both. Nothing rests on these numbers but how long a look-up takes. A contract sees the solved game.
#[derive(Drop)]
pub(crate) struct Looked<'g> {
    solved: &'g Solved<'g>,
    functions: Vec<u16>,
    numbers: Vec<u32>,
    promises: usize,
}

impl<'g> Model for Looked<'g> {
    ghost use Rattle.std.specs.Coded.{codes};
    ghost use Rattle.cw_rights.specs.contracts.words.Regex as e;
    ghost use Rattle.cw_solve.specs.Solved.{Held};

    ghost Value = { Held };

    ghost coded = { Prim.hlevel (codes, e.the_row.coded) };

    ghost view = { λ s. s.solved.now };
}

/// The index of a promise.
fn index_of(promises: &[StateSet], promise: &StateSet) -> usize {
    match promises.binary_search(promise) {
        Ok(index) => index,
        Err(_) => promises.len(),
    }
}

/// Notes a function at each of its positions.
fn note_function(game: &Game, functions: &mut Vec<u16>, function: u16) {
    if (function as usize) < game.graph().parts.len() {
        for pos in game.entry(function).0..=game.exit(function).0 {
            if let Some(there) = functions.get_mut(pos as usize) {
                *there = function;
            }
        }
    }
}

/// The function of each position.
fn functions_of(alloc: Global, game: &Game) -> Result<Vec<u16>, AllocError> {
    let mut functions = vec![in alloc; 0_u16; game.positions() as usize]?;
    for function in 0..u16::MAX {
        if (function as usize) >= game.graph().parts.len() {
            return Ok(functions);
        }
        note_function(game, &mut functions, function);
    }
    Ok(functions)
}

/// Where the number of a function's context is noted, among so many promises by the index of its own.
#[inline(always)]
fn place(function: u16, promises: usize, promise: usize) -> usize {
    (function as usize)
        .wrapping_mul(promises)
        .wrapping_add(promise)
}

/// The number of the context that may have a function and a promise, by their place. A promise is searched where it comes for the first time.
fn numbers_of(
    alloc: Global,
    game: &Game,
    solved: &Solved,
    promises: &[StateSet],
    orders: &[usize],
) -> Result<Vec<u32>, AllocError> {
    let count = game.graph().parts.len().saturating_mul(promises.len());
    let mut numbers = vec![in alloc; 0_u32; if count <= MOST { count } else { 0 }]?;
    let mut indices = Vec::new(alloc);
    for number in 0..solved.contexts() {
        let context = solved.context(number);
        let order = orders.get(number as usize).copied().unwrap_or(0);
        if order >= indices.len() {
            indices.push(index_of(promises, &context.promise))?;
        }
        let index = indices.get(order).copied().unwrap_or(0);
        let at = place(context.function, promises.len(), index);
        if let Some(there) = numbers.get_mut(at) {
            *there = number;
        }
    }
    Ok(numbers)
}

/// Looks up the contexts of a solved game by these promises. The orders tell in which order the promises of the contexts come for the first time.
pub(crate) fn look_up<'g>(
    alloc: Global,
    game: &Game,
    solved: &'g Solved<'g>,
    promises: &[StateSet],
    orders: &[usize],
) -> Result<Looked<'g>, AllocError>
    ensures { IfOk result (λ s. s ≡ solved.now) }
{
    let functions = functions_of(alloc, game)?;
    let numbers = numbers_of(alloc, game, solved, promises, orders)?;
    Ok(Looked {
        solved,
        functions,
        numbers,
        promises: promises.len(),
    })
}

impl<'g> Looked<'g> {
    ghost use Rattle.std.specs.Prelude.{◌≡◌, ◌<◌, length, slice_get, Some};
    ghost use Rattle.cw_product.specs.Product.{game_of};
    ghost use Rattle.cw_solve.specs.Numbering.{IsUnder, IsNumberOf};
    ghost use Rattle.cw_solve.specs.Solved.{IsNumbered, IsHeightIn};

    /// The number that was noted for the function of a position and the index of a promise.
    #[inline(always)]
    fn noted(&self, pos: PosId, promise: usize) -> u32 {
        match self.functions.get(pos.0 as usize) {
            None => 0,
            Some(function) => match self.numbers.get(place(*function, self.promises, promise)) {
                None => 0,
                Some(number) => *number,
            },
        }
    }

    /// How many contexts there are.
    pub(crate) fn contexts(&self) -> u32
        ensures { result ≡ length self.now.contexts }
    {
        self.solved.contexts()
    }

    /// A context, by its number.
    pub(crate) fn context(&self, number: u32) -> &Context
        requires { number < length self.now.contexts }
        ensures { Some result.now ≡ slice_get self.now.contexts number }
    {
        self.solved.context(number)
    }

    /// The number of a context that has a position and this promise, which has this index, where some needed context has both.
    #[inline(always)]
    pub(crate) fn number_of(&self, pos: PosId, index: usize, promise: &StateSet) -> u32
        requires under { IsUnder (game_of self.now.game) pos.0 promise.now }
        ensures { IsNumberOf (game_of self.now.game) self.now.contexts result promise.now pos.0 }
    {
        let near = self.noted(pos, index);
        if self.solved.has_position(near, pos, promise) {
            near
        } else {
            self.solved.number_of(pos, promise)
        }
    }

    /// The height of a pair under a context's promise, None where it holds for every number of moves.
    #[inline(always)]
    pub(crate) fn height(&self, number: u32, pos: PosId, state: StateId) -> Option<u32>
        requires cell { IsNumbered self.now number pos.0 state.0 }
        ensures { IsHeightIn self.now number pos.0 state.0 result }
    {
        self.solved.height(number, pos, state)
    }
}
