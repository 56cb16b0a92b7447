//! Where functions ended.

ghost use Rattle.std.specs.Prelude.{IfOk, OnOk};
ghost use Rattle.cw_product.specs.Product.{game_of};
ghost use Rattle.cw_audit_visits.specs.Searching.{AreEnds, IsEndPut, IsFairGame, IsKept, functions_of};

use crate::under_way::Search;
use cw_audit_store::Lists;
use cw_core::NoMemory;
use cw_product::Game;
use std::alloc::Global;

// The row with the number is put among those of its entrance, where its function ends there.
fn put_end(game: &Game, search: &Search, ends: &mut Lists, number: usize) -> Result<(), NoMemory>
    requires fair { IsFairGame game.now }
    requires kept { IsKept (game_of game.now) (functions_of game.now) search.now }
    ensures { OnOk result (IsEndPut game.now search.now number ends.old ends.new) }
{
    let Some((row_key, _row)) = search.store.numbered(number) else {
        return Ok(());
    };
    if row_key.pos == game.exit(row_key.entrance.function) {
        ends.put(row_key.entrance, number)?;
    }
    Ok(())
}

/// Of each entrance the rows at the end of its function, by their numbers. The one error is want of memory.
pub(crate) fn ends_of(alloc: Global, game: &Game, search: &Search) -> Result<Lists, NoMemory>
    requires fair { IsFairGame game.now }
    requires kept { IsKept (game_of game.now) (functions_of game.now) search.now }
    ensures { IfOk result (λ ends. AreEnds game.now search.now ends) }
{
    let mut ends = Lists::make(alloc);
    for number in 0..search.store.count() {
        put_end(game, search, &mut ends, number)?;
    }
    Ok(ends)
}
