//! Rounds over all tabled contexts.

ghost use Rattle.std.specs.Prelude.{◌≡◌, ◌+◌, ◌<◌, length, IfNone, IfSome, IfOk};
ghost use Rattle.cw_product.specs.Product.{game_of};
ghost use Rattle.cw_product.specs.Routed.{AreRouted};
ghost use Rattle.cw_solve.specs.Tables.{IsTable, IsAtRound, IsMissing, IsDone, AreTabled};

use crate::contexts::Context;
use crate::look::look_all;
use crate::table::{Blocks, Table, size};
use cw_product::Game;
use std::alloc::{AllocError, Global};

/// Rounds until one changes nothing and asks for nothing new; some, where a context is missing.
pub(crate) fn rounds(game: &Game, table: &mut Table) -> Option<Context>
    requires routed { AreRouted (game_of game.now) (length game.now.graph.parts.items) }
    requires table { IsTable (game_of game.now) table.old }
    requires start { IsAtRound (game_of game.now) table.old 0 }
    ensures table { IsTable (game_of game.now) table.new }
    ensures blocks { table.new.blocks ≡ table.old.blocks }
    ensures done { IfNone result (IsDone (game_of game.now) table.new) }
    ensures missing { IfSome result (λ c. IsMissing (game_of game.now) table.new.blocks c) }
{
    let mut n = 0;
    'rounds: loop {
        let written = table.written;
        if let Some(context) = look_all(game, table, n) {
            return Some(context);
        }
        if table.written == written {
            return None;
        }
        n += 1;
    }
}

/// A table of these contexts in which nothing is written.
pub(crate) fn fresh(alloc: Global, game: &Game, contexts: Vec<Context>) -> Result<Table, AllocError>
    requires routed { AreRouted (game_of game.now) (length game.now.graph.parts.items) }
    requires contexts { AreTabled (game_of game.now) contexts.items }
    ensures same { IfOk result (λ t. t.blocks.contexts.items ≡ contexts.items) }
    ensures table { IfOk result (λ t. IsTable (game_of game.now) t) }
    ensures start { IfOk result (λ t. IsAtRound (game_of game.now) t 0) }
{
    let mut bases = Vec::new(alloc);
    let mut cells: u32 = 0;
    for context in &contexts {
        bases.push(cells)?;
        cells += size(game, context.function);
    }
    let heights = vec![in alloc; 0; cells as usize]?;
    Ok(Table {
        blocks: Blocks { contexts, bases },
        heights,
        written: 0,
    })
}
