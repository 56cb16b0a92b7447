//! Whether a search is settled.

ghost use Rattle.std.specs.Prelude.{◌≡◌, ℕ, true, false, not, IfOk, OnOk};
ghost use Rattle.cw_product.specs.Product.{game_of};
ghost use Rattle.cw_audit_search.specs.Settled.{IsSettled};
ghost use Rattle.cw_audit_visits.specs.Searching.{AreBegun, AreEnds, AreEndsOf, AreSettledAt, AreSettledBelow, IsBegunAt, IsCallOf, IsFairGame, IsGoneOn, IsKept, IsNumberSettled, IsReturnNoted, IsThere, IsVisited, Tells, found_of, functions_of};

use crate::ends::ends_of;
use crate::enter::call;
use crate::group_numbers::{group_of, short};
use crate::met::{Calling, Met, call_at, is_within, meet};
use crate::propose::propose;
use crate::returns::return_from;
use crate::steps::steps;
use crate::under_way::Search;
use cw_audit_store::{Entrance, Lists, Row, RowKey, Way};
use cw_audit_table::cut;
use cw_core::NoMemory;
use cw_product::Game;
use std::alloc::Global;

// The entry of the group with the number is proposed.
fn begin_again(game: &Game, search: &mut Search, number: usize) -> Result<bool, NoMemory>
    requires fair { IsFairGame game.now }
    requires kept { IsKept (game_of game.now) (functions_of game.now) search.old }
    ensures tells { IfOk result (λ changed. Tells search.old search.new changed) }
    ensures begun { IfOk result (λ changed. changed ≡ false → IsBegunAt game.now search.old number) }
    ensures goes_on { OnOk result (IsGoneOn game.now search.old search.new) }
{
    let Some((entrance, entered)) = search.store.numbered_group(number) else {
        return Ok(false);
    };
    let entry = RowKey {
        entrance,
        pos: game.entry(entrance.function),
        state: entrance.state,
    };
    propose(
        game,
        search,
        entered.reach,
        entry,
        Row {
            inside: 0,
            way: Way::Begun,
            group: short(number),
        },
    )
}

// The entry of each group is proposed, until one changes something.
fn begin_all(game: &Game, search: &mut Search) -> Result<bool, NoMemory>
    requires fair { IsFairGame game.now }
    requires kept { IsKept (game_of game.now) (functions_of game.now) search.old }
    ensures tells { IfOk result (λ changed. Tells search.old search.new changed) }
    ensures begun { IfOk result (λ changed. changed ≡ false → AreBegun game.now search.old) }
    ensures goes_on { OnOk result (IsGoneOn game.now search.old search.new) }
{
    let count = search.store.group_count();
    for number in 0..count {
        if begin_again(game, search, number)? {
            return Ok(true);
        }
    }
    Ok(false)
}

// A call's row goes on behind each return from a row with one of the numbers, until one changes something.
fn return_each(
    game: &Game,
    search: &mut Search,
    numbers: &[usize],
    call: Calling,
) -> Result<bool, NoMemory>
    requires ends { AreEndsOf game.now search.old call numbers.now }
    requires there { IsThere search.old call.met }
    requires call { IsCallOf game.now call.met.row_key call.callee call.back.0 }
    requires fair { IsFairGame game.now }
    requires kept { IsKept (game_of game.now) (functions_of game.now) search.old }
    ensures tells { IfOk result (λ changed. Tells search.old search.new changed) }
    ensures noted { IfOk result (λ changed. changed ≡ false → (y : ℕ) → IsReturnNoted game.now search.old call.met.row_key call.callee call.back.0 y) }
    ensures goes_on { OnOk result (IsGoneOn game.now search.old search.new) }
{
    for row_key in 0..numbers.len() {
        if return_from(game, search, call, numbers[row_key])? {
            return Ok(true);
        }
    }
    Ok(false)
}

// All that a call's row leads to is proposed, until something changes.
fn visit_call(
    game: &Game,
    search: &mut Search,
    ends: &Lists,
    calling: Calling,
) -> Result<bool, NoMemory>
    requires begun { AreBegun game.now search.old }
    requires ends { AreEnds game.now search.old ends.now }
    requires there { IsThere search.old calling.met }
    requires call { IsCallOf game.now calling.met.row_key calling.callee calling.back.0 }
    requires fair { IsFairGame game.now }
    requires kept { IsKept (game_of game.now) (functions_of game.now) search.old }
    ensures tells { IfOk result (λ changed. Tells search.old search.new changed) }
    ensures visited { IfOk result (λ changed. changed ≡ false → IsVisited game.now search.old calling.met.row_key) }
    ensures goes_on { OnOk result (IsGoneOn game.now search.old search.new) }
{
    let entrance = Entrance {
        function: calling.callee,
        state: calling.met.row_key.state,
    };
    let numbers = ends.list(entrance);
    let group = group_of(search, numbers);
    if call(game, search, calling, group)? {
        return Ok(true);
    }
    return_each(game, search, numbers, calling)
}

// All that a row leads to is proposed, until something changes. An end leads to nothing but by the calls.
fn visit_row(game: &Game, search: &mut Search, ends: &Lists, met: Met) -> Result<bool, NoMemory>
    requires begun { AreBegun game.now search.old }
    requires ends { AreEnds game.now search.old ends.now }
    requires there { IsThere search.old met }
    requires fair { IsFairGame game.now }
    requires kept { IsKept (game_of game.now) (functions_of game.now) search.old }
    ensures tells { IfOk result (λ changed. Tells search.old search.new changed) }
    ensures visited { IfOk result (λ changed. changed ≡ false → IsVisited game.now search.old met.row_key) }
    ensures goes_on { OnOk result (IsGoneOn game.now search.old search.new) }
{
    if is_within(game, met.row_key) {
        return steps(game, search, met);
    }
    let Some((callee, back)) = call_at(game, met.row_key) else {
        return Ok(false);
    };
    visit_call(game, search, ends, Calling { met, callee, back })
}

// The row with the number is visited where it is below the bound, its number of moves and the reach of its group together.
fn visit_below(
    game: &Game,
    search: &mut Search,
    ends: &Lists,
    number: usize,
    bound: u32,
) -> Result<bool, NoMemory>
    requires begun { AreBegun game.now search.old }
    requires ends { AreEnds game.now search.old ends.now }
    requires fair { IsFairGame game.now }
    requires kept { IsKept (game_of game.now) (functions_of game.now) search.old }
    ensures tells { IfOk result (λ changed. Tells search.old search.new changed) }
    ensures settled { IfOk result (λ changed. changed ≡ false → IsNumberSettled game.now search.old bound number) }
    ensures goes_on { OnOk result (IsGoneOn game.now search.old search.new) }
{
    let Some(met) = meet(search, number) else {
        return Ok(false);
    };
    if cut(u64::from(met.reach) + u64::from(met.row.inside)) >= bound {
        return Ok(false);
    }
    visit_row(game, search, ends, met)
}

// As many rows, from the first, are visited that are below the bound, until something changes.
fn visit_each(
    game: &Game,
    search: &mut Search,
    ends: &Lists,
    count: usize,
    bound: u32,
) -> Result<bool, NoMemory>
    requires begun { AreBegun game.now search.old }
    requires ends { AreEnds game.now search.old ends.now }
    requires fair { IsFairGame game.now }
    requires kept { IsKept (game_of game.now) (functions_of game.now) search.old }
    ensures tells { IfOk result (λ changed. Tells search.old search.new changed) }
    ensures settled { IfOk result (λ changed. changed ≡ false → AreSettledAt game.now search.old bound count) }
    ensures goes_on { OnOk result (IsGoneOn game.now search.old search.new) }
{
    for number in 0..count {
        if visit_below(game, search, ends, number, bound)? {
            return Ok(true);
        }
    }
    Ok(false)
}

// All rows below the bound are visited, until something changes.
fn visit_all(game: &Game, search: &mut Search, ends: &Lists, bound: u32) -> Result<bool, NoMemory>
    requires begun { AreBegun game.now search.old }
    requires ends { AreEnds game.now search.old ends.now }
    requires fair { IsFairGame game.now }
    requires kept { IsKept (game_of game.now) (functions_of game.now) search.old }
    ensures tells { IfOk result (λ changed. Tells search.old search.new changed) }
    ensures settled { IfOk result (λ changed. changed ≡ false → AreSettledBelow game.now search.old bound) }
    ensures goes_on { OnOk result (IsGoneOn game.now search.old search.new) }
{
    let count = search.store.count();
    visit_each(game, search, ends, count, bound)
}

/// All rows below the bound are visited once more, until something changes. The answer is whether nothing did: then the search is
/// settled there. The one error is want of memory.
pub fn settle(alloc: Global, game: &Game, search: &mut Search, bound: u32) -> Result<bool, NoMemory>
    requires fair { IsFairGame game.now }
    requires kept { IsKept (game_of game.now) (functions_of game.now) search.old }
    ensures tells { IfOk result (λ settled. Tells search.old search.new (not settled)) }
    ensures settled { IfOk result (λ settled. settled ≡ true → IsSettled (game_of game.now) (found_of search.old.store) bound) }
    ensures goes_on { OnOk result (IsGoneOn game.now search.old search.new) }
{
    if begin_all(game, search)? {
        return Ok(false);
    }
    let ends = ends_of(alloc, game, search)?;
    let changed = visit_all(game, search, &ends, bound)?;
    Ok(!changed)
}
