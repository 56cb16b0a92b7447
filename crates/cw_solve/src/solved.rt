//! The needed contexts of a game and its heights.

ghost use Rattle.std.specs.Prelude.{◌≡◌, ◌<◌, ◌≤◌, length, slice_get, IfOk, IfErr};
ghost use Rattle.cw_product.specs.Product.{game_of};
ghost use Rattle.cw_solve.specs.Contexts.{cells_of, AreTheNeeded};
ghost use Rattle.cw_product.specs.Made.{IsMade};
ghost use Rattle.cw_solve.specs.Solved.{IsCause};

use crate::contexts::Context;
use crate::fault::SolveFault;
use crate::indices::Indices;
use crate::table::{Table, fact_fit, height_in, numbered, slot};
use crate::tries::solve_table;
use cw_core::limits::CELLS;
use cw_core::{PosId, StateId, StateSet};
use cw_product::Game;
use std::alloc::Global;
use std::marker::Model;

/// The needed contexts of a game, each once, `main` with all states first, and the height of each cell.
#[derive(Drop)]
pub struct Solved<'g> {
    game: &'g Game<'g>,
    table: Table,
    indices: Indices,
}

impl<'g> Model for Solved<'g> {
    ghost use Rattle.std.specs.Coded.{codes};
    ghost use Rattle.cw_rights.specs.contracts.words.Regex as e;
    ghost use Rattle.cw_solve.specs.Solved.{Held, IsKept};

    ghost Value = { Held };

    ghost coded = { Prim.hlevel (codes, e.the_row.coded) };

    ghost view = { λ s. record { game = s.game.now; contexts = s.table.blocks.contexts.items } };

    ghost invariant = { λ s. IsKept s.game.now s.table };
}

/// Solves a game: its needed contexts and the heights of their pairs.
///
/// The contexts are the least set that has `main` with all states and, for each context and each call at a position of
/// its function, what the call promises for each state and each number of moves. TooManyCells comes exactly where their
/// cells, a pair of a position of its function and a state each, are more than 4,194,304; it has some of them, no two
/// the same, whose cells alone are more.
///
/// Rounds over all tabled contexts: round n + 1 writes the height of each pair that doesn't hold for n + 1 moves. Where
/// a context is missing all heights are forgotten, and the rounds begin anew with it.
pub fn solve<'g>(alloc: Global, game: &'g Game<'g>) -> Result<Solved<'g>, SolveFault>
    requires made { IsMade game.now }
    ensures game { IfOk result (λ s. s.game ≡ game.now) }
    ensures contexts { IfOk result (λ s. AreTheNeeded (game_of game.now) s.contexts) }
    ensures few { IfOk result (λ s. cells_of (game_of game.now) s.contexts ≤ CELLS) }
    ensures cause { IfErr result (λ fault. IsCause (game_of game.now) fault) }
{
    let table = solve_table(alloc, game)?;
    Ok(Solved::of(game, table, Indices::make(alloc)))
}

impl<'g> Solved<'g> {
    ghost use Rattle.std.specs.Prelude.{◌≡◌, ◌<◌, ◌≤◌, ℕ, Option, Some, length, slice_get, Contains, IfSome, IfNone};
    ghost use Rattle.cw_product.specs.Product.{game_of};
    ghost use Rattle.cw_product.specs.Routed.{AreRouted, IsOf};
    ghost use Rattle.cw_solve.specs.Contexts.{context, cells_of, HeightIs, IsNeeded, AreTheNeeded};
    ghost use Rattle.cw_solve.specs.Rounds.{slot};
    ghost use Rattle.cw_solve.specs.Solved.{IsKept, IsNumbered, IsHeightIn};

    /// The solved game of a table that is done, for solvers. Its contexts are looked for among the indices first.
    pub fn of(game: &'g Game<'g>, table: Table, indices: Indices) -> Solved<'g>
        requires kept { IsKept game.now table }
        ensures game { result.game ≡ game.now }
        ensures contexts { result.contexts ≡ table.blocks.contexts.items }
    {
        Solved {
            game,
            table,
            indices,
        }
    }

    /// What the value keeps.
    pub(crate) fn fact_is_kept(&self)
        ensures routed { AreRouted (game_of self.now.game) (length self.now.game.graph.parts.items) }
        ensures needed { AreTheNeeded (game_of self.now.game) self.now.contexts }
        ensures few { cells_of (game_of self.now.game) self.now.contexts ≤ CELLS }
    {
        let _ = &self.table;
    }

    /// A law: the contexts are all that the game needs, each once, and `main` with all states is the first.
    pub fn fact_contexts_are_needed(&self)
        ensures { AreTheNeeded (game_of self.now.game) self.now.contexts }
    {
        self.fact_is_kept();
    }

    /// A law: under each promise that the game needs, each pair of a position of its function and a state has a height, or holds for every number of
    /// moves.
    pub fn fact_is_known(&self)
        ensures known { (f p q e : ℕ)
            → IsNeeded (game_of self.now.game) (context f e)
            → IsOf (game_of self.now.game) f p
            → q < (game_of self.now.game).states.count
            → (h : Option ℕ) × HeightIs (game_of self.now.game) p q e h }
    {
        let _ = &self.table;
    }

    /// The game.
    pub fn game(&self) -> &'g Game<'g>
        ensures { result.now ≡ self.now.game }
    {
        self.game
    }

    /// How many contexts there are.
    pub fn contexts(&self) -> u32
        ensures { result ≡ length self.now.contexts }
    {
        self.table.blocks.contexts.len() as u32
    }

    /// A context, by its number.
    pub fn context(&self, number: u32) -> &Context
        requires { number < length self.now.contexts }
        ensures { Some result.now ≡ slice_get self.now.contexts number }
    {
        &self.table.blocks.contexts[number as usize]
    }

    /// The number of a context; none where the game doesn't need it.
    pub fn find(&self, function: u16, promise: &StateSet) -> Option<u32>
        ensures found { IfSome result (λ i. slice_get self.now.contexts i ≡ Some (context function promise.now)) }
        ensures none { IfNone result (Contains self.now.contexts (context function promise.now) → ⊥) }
    {
        match self
            .indices
            .index_of(&self.table.blocks.contexts, function, promise)
        {
            Some(number) => Some(number as u32),
            None => None,
        }
    }

    /// The number of the one context that may be of a function and have this promise.
    pub(crate) fn number_near(&self, function: u16, promise: &StateSet) -> u32 {
        match self
            .indices
            .find(&self.table.blocks.contexts, function, promise)
        {
            None => 0,
            Some(number) => number,
        }
    }

    /// How many cells the contexts have: a pair of a position of its function and a state each.
    pub fn cells(&self) -> u32
        ensures { result ≡ cells_of (game_of self.now.game) self.now.contexts }
    {
        self.table.heights.len() as u32
    }

    /// The height of a pair under a context's promise: the least number of moves for which it doesn't hold. None where it
    /// holds for every number.
    pub fn height(&self, number: u32, pos: PosId, state: StateId) -> Option<u32>
        requires cell { IsNumbered self.now number pos.0 state.0 }
        ensures { IsHeightIn self.now number pos.0 state.0 result }
    {
        let at = numbered(self.game, &self.table.blocks, number as usize);
        height_in(self.table.heights[slot(self.game, &self.table.blocks, &at, pos, state)])
    }
}

impl<'g> Solved<'g> {
    ghost use Rattle.cw_product.specs.Product.{game_of};
    ghost use Rattle.cw_solve.specs.Low.{HeightsAreLow};

    /// A law: each pair of a position of a function and a state has its height, or none, under each promise that the
    /// game needs, and heights are below 2^32.
    pub fn fact_heights_are_low(&self)
        ensures { HeightsAreLow (game_of self.now.game) }
    {
        fact_fit(&self.table.heights);
    }
}
