//! Tries to solve a game, each with one context more.

ghost use Rattle.std.specs.Prelude.{◌≡◌, ◌<◌, ◌++◌, ◌∷◌, [], length, IfOk, IfErr};
ghost use Rattle.cw_product.specs.Product.{game_of};
ghost use Rattle.cw_solve.specs.Contexts.{context};
ghost use Rattle.cw_product.specs.Routed.{AreRouted};
ghost use Rattle.cw_solve.specs.Tables.{IsTable, IsDone, AreTabled};
ghost use Rattle.cw_solve.specs.Trying.{IsTried};
ghost use Rattle.cw_solve.specs.Solved.{IsCause};

use crate::contexts::Context;
use crate::fault::SolveFault;
use crate::rounds::{fresh, rounds};
use crate::table::{Blocks, Table, main_context, size};
use cw_core::limits::CELLS;
use cw_product::Game;
use std::alloc::{AllocError, Global};

/// A table whose heights are done, or longer contexts.
#[derive(Drop)]
pub(crate) enum Tried {
    Done(Table),
    More(Vec<Context>),
    TooMany(Vec<Context>),
}

/// The contexts that are there and one more.
fn longer(blocks: Blocks, context: Context) -> Result<Vec<Context>, AllocError>
    ensures { IfOk result (λ v. v.items ≡ blocks.contexts.items ++ context ∷ []) }
{
    let mut contexts = blocks.contexts;
    contexts.push(context)?;
    Ok(contexts)
}

/// Rounds over these contexts, with nothing written at first.
fn attempt(alloc: Global, game: &Game, contexts: Vec<Context>) -> Result<Tried, AllocError>
    requires routed { AreRouted (game_of game.now) (length game.now.graph.parts.items) }
    requires contexts { AreTabled (game_of game.now) contexts.items }
    ensures { IfOk result (λ tried. IsTried (game_of game.now) contexts.items tried) }
{
    let mut table = fresh(alloc, game, contexts)?;
    match rounds(game, &mut table) {
        None => Ok(Tried::Done(table)),
        Some(context) => {
            let cells = table.heights.len() as u32 + size(game, context.function);
            let contexts = longer(table.blocks, context)?;
            if cells <= CELLS as u32 {
                Ok(Tried::More(contexts))
            } else {
                Ok(Tried::TooMany(contexts))
            }
        }
    }
}

/// The table of a game.
pub(crate) fn solve_table(alloc: Global, game: &Game) -> Result<Table, SolveFault>
    requires routed { AreRouted (game_of game.now) (length game.now.graph.parts.items) }
    ensures table { IfOk result (λ t. IsTable (game_of game.now) t) }
    ensures done { IfOk result (λ t. IsDone (game_of game.now) t) }
    ensures cause { IfErr result (λ fault. IsCause (game_of game.now) fault) }
{
    let mut contexts = Vec::new(alloc);
    contexts.push(main_context(game))?;
    'tries: loop {
        match attempt(alloc, game, contexts)? {
            Tried::Done(table) => return Ok(table),
            Tried::More(longer) => contexts = longer,
            Tried::TooMany(longer) => return Err(SolveFault::TooManyCells(longer)),
        }
    }
}
