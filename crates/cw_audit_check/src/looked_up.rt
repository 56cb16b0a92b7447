//! Groups and rows by what they are asked for.

ghost use Rattle.std.specs.Prelude.{◌≡◌, ◌<◌, ◌^◌, ◌&&◌, map, option_map, length, find, nat_eq};
ghost use Rattle.std.specs.List.Sorted.{IsStrictlySortedBy};
ghost use Rattle.cw_product.specs.Moves.{IsPosition};
ghost use Rattle.cw_product.specs.Product.{game_of};
ghost use Rattle.cw_audit_table.specs.Tables.{row_of, group_of, group_at, inside_at};
ghost use Rattle.cw_audit_table.specs.Conditions.{is_before, has_within, is_zero};
ghost use Rattle.cw_audit_check.specs.Checks.{row_cmp, group_cmp};

use cw_audit_table::{Group, cut, skipped};
use cw_core::{PosId, StateId};
use cw_product::Game;

/// Whether a sum is below the distance, where there is one.
pub(crate) fn is_before(distance: Option<u32>, n: u64) -> bool
    ensures { result ≡ is_before distance n }
{
    match distance {
        None => true,
        Some(distance) => cut(n) < distance,
    }
}

/// The number of a group's row at a pair.
fn inside_at(rows: &[(PosId, StateId, u32)], pos: PosId, state: StateId) -> Option<u32>
    requires { IsStrictlySortedBy row_cmp rows.now }
    ensures { result ≡ inside_at (map row_of rows.now) pos.0 state.0 }
{
    match rows.binary_search_by_key(&(pos, state), |row| (row.0, row.1)) {
        Ok(pair) => Some(rows[pair].2),
        Err(_) => None,
    }
}

/// Whether the pair behind the skips has a row, which is at most n.
pub(crate) fn has_within(
    game: &Game,
    rows: &[(PosId, StateId, u32)],
    n: u64,
    pos: PosId,
    state: StateId,
) -> bool
    requires position { IsPosition (game_of game.now) pos.0 }
    requires ascend { IsStrictlySortedBy row_cmp rows.now }
    ensures { result ≡ has_within (game_of game.now) (map row_of rows.now) n pos.0 state.0 }
{
    match inside_at(rows, skipped(game, pos), state) {
        None => false,
        Some(inside) => inside <= cut(n),
    }
}

/// Whether the pair has a row, which is 0.
pub(crate) fn has_zero(rows: &[(PosId, StateId, u32)], pos: PosId, state: StateId) -> bool
    requires { IsStrictlySortedBy row_cmp rows.now }
    ensures { result ≡ is_zero (inside_at (map row_of rows.now) pos.0 state.0) }
{
    match inside_at(rows, pos, state) {
        None => false,
        Some(inside) => inside == 0,
    }
}

/// The group of a function with the state in which it is entered.
pub(crate) fn group_at(groups: &[Group], function: u16, entered: StateId) -> Option<&Group>
    requires { IsStrictlySortedBy group_cmp groups.now }
    ensures { option_map (λ grp. group_of grp.now) result ≡ group_at (map group_of groups.now) function entered.0 }
{
    match groups.binary_search_by_key(
        &(function, entered),
        |group| (group.function, group.entered),
    ) {
        Ok(pair) => Some(&groups[pair]),
        Err(_) => None,
    }
}
