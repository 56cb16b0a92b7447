//! The first condition: numbers in range, groups and rows in order.

ghost use Rattle.std.specs.Prelude.{◌≡◌, ◌<◌, ◌^◌, ◌&&◌, ℕ, Some, None, map, option_map, length};
ghost use Rattle.std.specs.List.{enumerate_from};
ghost use Rattle.cw_game.specs.Conditions.{first_failing};
ghost use Rattle.cw_product.specs.Product.{game_of};
ghost use Rattle.cw_audit_table.specs.Tables.{AreFew, row_of, group_of};
ghost use Rattle.cw_audit_table.specs.Conditions.{fault_at, is_after, is_group, is_pair, is_free, key_of, pair_of, pairs, ranges};

use cw_audit_table::Group;
use cw_core::{PosId, StateId};
use cw_game::Spot;
use cw_product::Game;

/// Whether a position is one at which a row may stand: nothing is visited or asked there, and no split call stands there.
fn is_free(spot: Spot) -> bool
    ensures { result ≡ is_free (Some spot) }
{
    match spot {
        Spot::Visit(_, _, _) | Spot::Asked(_, _, _) | Spot::SplitCall(_, _, _) => false,
        Spot::Step(_) | Spot::Branch(_, _) | Spot::Label(_, _, _) | Spot::Open(_, _, _) => true,
        Spot::Close(_, _, _) | Spot::Call(_, _, _) | Spot::Exit(_) => true,
    }
}

// Whether a row's numbers are in range, and its position is a free one of the function.
fn is_pair(game: &Game, function: u16, row: (PosId, StateId, u32)) -> bool
    requires { function < length game.now.graph.parts.items }
    ensures { result ≡ is_pair (game_of game.now) function (row_of row) }
{
    row.0.0 < game.positions()
        && row.1.0 < game.states()
        && game.entry(function).0 <= row.0.0
        && row.0.0 <= game.exit(function).0
        && is_free(game.spot(row.0))
}

// Whether a pair of numbers comes after the one before it.
fn is_after(last: Option<(u32, u16)>, next: (u32, u16)) -> bool
    ensures { result ≡ is_after last next }
{
    match last {
        None => true,
        Some(last) => last.0 < next.0 || (last.0 == next.0 && last.1 < next.1),
    }
}

// Whether a row is in range, and after the pair before it.
fn is_next_pair(
    game: &Game,
    function: u16,
    last: Option<(u32, u16)>,
    row: (PosId, StateId, u32),
) -> bool
    requires { function < length game.now.graph.parts.items }
    ensures { result ≡ (is_pair (game_of game.now) function (row_of row) && is_after last (pair_of (row_of row))) }
{
    is_pair(game, function, row) && is_after(last, (row.0.0, row.1.0))
}

// The first row of a group that isn't in range, or not after the one before it.
fn first_bad_pair(game: &Game, function: u16, rows: &[(PosId, StateId, u32)]) -> Option<u32>
    requires function { function < length game.now.graph.parts.items }
    requires few { length rows.now < 2 ^ 32 }
    ensures { (i : ℕ) → option_map (λ n. fault_at i n 1) result
        ≡ first_failing (pairs (game_of game.now) function i None (enumerate_from 0 (map row_of rows.now))) }
{
    let mut last = None;
    for (number, row) in rows.iter().enumerate() {
        if !is_next_pair(game, function, last, *row) {
            return Some(number as u32);
        }
        last = Some((row.0.0, row.1.0));
    }
    None
}

// Whether a group's numbers are in range.
fn is_group(game: &Game, group: &Group) -> bool
    ensures { result ≡ is_group (game_of game.now) (length game.now.graph.parts.items) (group_of group.now) }
{
    (group.function as usize) < game.graph().parts.len() && group.entered.0 < game.states()
}

// Whether a group's numbers are in range, and after those of the one before it.
fn is_next_group(game: &Game, last: Option<(u32, u16)>, group: &Group) -> bool
    ensures { result ≡ (is_group (game_of game.now) (length game.now.graph.parts.items) (group_of group.now) && is_after last (key_of (group_of group.now))) }
{
    is_group(game, group) && is_after(last, (group.function as u32, group.entered.0))
}

/// The first group, with its row, that isn't in range, or not after the one before it.
pub(crate) fn first_bad_range(game: &Game, groups: &[Group]) -> Option<(u32, u32)>
    requires { AreFew groups.now }
    ensures { option_map (λ at. fault_at at.0 at.1 1) result
        ≡ first_failing (ranges (game_of game.now) (length game.now.graph.parts.items) None (enumerate_from 0 (map group_of groups.now))) }
{
    let mut last = None;
    for (number, group) in groups.iter().enumerate() {
        if !is_next_group(game, last, group) {
            return Some((number as u32, 0));
        }
        if let Some(row) = first_bad_pair(game, group.function, &group.rows) {
            return Some((number as u32, row));
        }
        last = Some((group.function as u32, group.entered.0));
    }
    None
}
