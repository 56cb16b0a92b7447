//! The conditions of one row.

ghost use Rattle.std.specs.Prelude.{◌≡◌, ◌+◌, ◌<◌, ◌^◌, ◌&&◌, Some, true, false, map, length, slice_get, option_map, IfSome};
ghost use Rattle.std.specs.List.{list_all};
ghost use Rattle.std.specs.List.Sorted.{IsStrictlySortedBy};
ghost use Rattle.cw_game.specs.Games.{bad_in};
ghost use Rattle.cw_game.specs.Conditions.{first_failing};
ghost use Rattle.cw_product.specs.Moves.{IsPosition, IsState, numbers, next_at};
ghost use Rattle.cw_product.specs.MovesAt.{first_move, second_move};
ghost use Rattle.cw_product.specs.Product.{game_of};
ghost use Rattle.cw_audit_table.specs.Tables.{row_of, group_of, audit_of, group_at};
ghost use Rattle.cw_audit_table.specs.Conditions.{is_pair, is_inner, moves_on, comes_back, enters, row_conditions};
ghost use Rattle.cw_audit_check.specs.Checks.{IsInRange, AreInRange, row_cmp, takes_pair, takes_if, unless, calls_by};

use crate::looked_up::{group_at, has_within, is_before};
use cw_audit_table::{AuditTable, Group, cut};
use cw_certs::Move;
use cw_core::{PosId, StateId};
use cw_product::{Game, Turn};

/// A row of a group: its position, its state, and how many moves it is from the group's entry.
type Row = (PosId, StateId, u32);

// The condition, where the test fails.
fn unless(condition: u8, holds: bool) -> Option<u8>
    ensures { result ≡ unless condition holds }
{
    if holds { None } else { Some(condition) }
}

// Whether a pair that is given has a row, which is at most n.
fn takes(game: &Game, rows: &[Row], n: u64, pair: Option<(PosId, StateId)>) -> bool
    requires position { IfSome pair (λ r. IsPosition (game_of game.now) r.0.0) }
    requires ascend { IsStrictlySortedBy row_cmp rows.now }
    ensures { result ≡ takes_pair (game_of game.now) (map row_of rows.now) n (numbers pair) }
{
    match pair {
        None => true,
        Some((pos, state)) => has_within(game, rows, n, pos, state),
    }
}

// Whether the pair after a move that is given has its row.
fn takes_move(game: &Game, rows: &[Row], row: Row, by: Option<Move>) -> bool
    requires position { IsPosition (game_of game.now) row.0.0 }
    requires state { IsState (game_of game.now) row.1.0 }
    requires ascend { IsStrictlySortedBy row_cmp rows.now }
    ensures { result ≡ takes_if (game_of game.now) (map row_of rows.now) (row_of row) by }
{
    match by {
        None => true,
        Some(by) => takes(
            game,
            rows,
            u64::from(row.2) + 1,
            game.next(row.0, row.1, by),
        ),
    }
}

// Whether the pairs after both moves have their rows.
fn takes_both(game: &Game, rows: &[Row], row: Row) -> bool
    requires position { IsPosition (game_of game.now) row.0.0 }
    requires state { IsState (game_of game.now) row.1.0 }
    requires ascend { IsStrictlySortedBy row_cmp rows.now }
    ensures { let g = game_of game.now in let spot = slice_get g.spots row.0.0 in let rs = map row_of rows.now in
        result ≡ (takes_if g rs (row_of row) (Some (first_move spot)) && takes_if g rs (row_of row) (second_move spot)) }
{
    let (first, second) = game.moves(row.0);
    takes_move(game, rows, row, Some(first)) && takes_move(game, rows, row, second)
}

// The fourth condition, of a row within a function that isn't bad.
fn moves_on(game: &Game, distance: Option<u32>, group: &Group, row: Row) -> bool
    requires position { IsPosition (game_of game.now) row.0.0 }
    requires state { IsState (game_of game.now) row.1.0 }
    requires inner { is_inner (slice_get (game_of game.now).spots row.0.0) ≡ true }
    requires good { bad_in (game_of game.now) row.1.0 (slice_get (game_of game.now).spots row.0.0) ≡ false }
    requires ascend { IsStrictlySortedBy row_cmp group.now.rows.items }
    ensures { result ≡ moves_on (game_of game.now) distance (group_of group.now) (row_of row) (slice_get (game_of game.now).spots row.0.0) }
{
    let sum = u64::from(group.reach) + u64::from(row.2) + 1;
    !is_before(distance, sum) || takes_both(game, &group.rows, row)
}

// Whether the pair after the return from an exit row has its row.
fn comes_back(
    game: &Game,
    distance: Option<u32>,
    group: &Group,
    row: Row,
    callee: u16,
    back: PosId,
    last: Row,
) -> bool
    requires callee { callee < length game.now.graph.parts.items }
    requires back { IsPosition (game_of game.now) back.0 }
    requires ascend { IsStrictlySortedBy row_cmp group.now.rows.items }
    ensures { result ≡ comes_back (game_of game.now) distance (group_of group.now) (row_of row) callee back.0 (row_of last) }
{
    let sum = u64::from(group.reach) + u64::from(row.2) + u64::from(last.2) + 2;
    last.0.0 != game.exit(callee).0
        || !is_before(distance, sum)
        || has_within(
            game,
            &group.rows,
            u64::from(row.2) + u64::from(last.2) + 2,
            back,
            last.1,
        )
}

// Whether that is so of each of these rows of the callee.
fn all_come_back(
    game: &Game,
    distance: Option<u32>,
    group: &Group,
    row: Row,
    callee: u16,
    back: PosId,
    rows: &[Row],
) -> bool
    requires callee { callee < length game.now.graph.parts.items }
    requires back { IsPosition (game_of game.now) back.0 }
    requires ascend { IsStrictlySortedBy row_cmp group.now.rows.items }
    ensures { result ≡ list_all (comes_back (game_of game.now) distance (group_of group.now) (row_of row) callee back.0) (map row_of rows.now) }
{
    for last in rows {
        if !comes_back(game, distance, group, row, callee, back, *last) {
            return false;
        }
    }
    true
}

// Whether the callee's group is there, early enough, and the rows after its returns are.
fn enters(
    game: &Game,
    table: &AuditTable,
    group: &Group,
    row: Row,
    sum: u64,
    callee: u16,
    back: PosId,
) -> bool
    requires sum { sum ≡ group.now.reach + row.2 + 1 }
    requires callee { callee < length game.now.graph.parts.items }
    requires back { IsPosition (game_of game.now) back.0 }
    requires ascend { IsStrictlySortedBy row_cmp group.now.rows.items }
    requires range { AreInRange (game_of game.now) (length game.now.graph.parts.items) table.now.groups.items }
    ensures { let t = audit_of table.now in
        result ≡ enters (game_of game.now) t.distance (group_of group.now) (row_of row) callee back.0 (group_at t.groups callee row.1.0) }
{
    match group_at(&table.groups, callee, row.1) {
        None => false,
        Some(entered) => {
            entered.reach <= cut(sum)
                && all_come_back(
                    game,
                    table.distance,
                    group,
                    row,
                    callee,
                    back,
                    &entered.rows,
                )
        }
    }
}

// The fifth condition, of a row at a call.
fn calls_on(
    game: &Game,
    table: &AuditTable,
    group: &Group,
    row: Row,
    callee: u16,
    back: PosId,
) -> bool
    requires callee { callee < length game.now.graph.parts.items }
    requires back { IsPosition (game_of game.now) back.0 }
    requires ascend { IsStrictlySortedBy row_cmp group.now.rows.items }
    requires range { AreInRange (game_of game.now) (length game.now.graph.parts.items) table.now.groups.items }
    ensures { result ≡ calls_by (game_of game.now) (audit_of table.now) (group_of group.now) (row_of row) callee back.0 }
{
    let sum = u64::from(group.reach) + u64::from(row.2) + 1;
    !is_before(table.distance, sum) || enters(game, table, group, row, sum, callee, back)
}

/// The first condition that fails of a row.
pub(crate) fn row_fault(game: &Game, table: &AuditTable, group: &Group, row: Row) -> Option<u8>
    requires pair { is_pair (game_of game.now) group.now.function (row_of row) ≡ true }
    requires ascend { IsStrictlySortedBy row_cmp group.now.rows.items }
    requires range { AreInRange (game_of game.now) (length game.now.graph.parts.items) table.now.groups.items }
    ensures { let g = game_of game.now in
        result ≡ first_failing (row_conditions g (audit_of table.now) (group_of group.now) (row_of row) (slice_get g.spots row.0.0)) }
{
    game.fact_is_closed();
    if game.bad(row.0, row.1) {
        return Some(3);
    }
    match game.turn(row.0) {
        Turn::Environment => unless(4, moves_on(game, table.distance, group, row)),
        Turn::Call { callee, back, .. } => {
            unless(5, calls_on(game, table, group, row, callee, back))
        }
        Turn::Exit { .. } => None,
        Turn::Weaver => None,
    }
}
