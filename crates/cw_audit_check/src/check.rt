//! The check of an audit's table.

ghost use Rattle.std.specs.Prelude.{◌≡◌, ◌<◌, ◌^◌, ℕ, Some, map, option_map, length, is_some, IfOk, IfErr};
ghost use Rattle.std.specs.List.{enumerate_from};
ghost use Rattle.cw_game.specs.Conditions.{first_failing};
ghost use Rattle.cw_product.specs.Product.{game_of};
ghost use Rattle.cw_audit_table.specs.Tables.{AreFew, row_of, group_of, audit_of, group_at};
ghost use Rattle.cw_audit_table.specs.Conditions.{fault_at, begins, row_faults, group_faults, audit_fault, IsGoodAudit};
ghost use Rattle.cw_audit_check.specs.Checks.{Bounds, IsInRange, AreInRange, fault_of, group_conditions};

use crate::looked_up::{group_at, has_zero};
use crate::ranges::first_bad_range;
use crate::rows::row_fault;
use cw_audit_table::{AuditTable, Group, skipped};
use cw_product::Game;

/// A group, and a row of it, that fails a condition, by their numbers. A wrong number of states is told of group 0, row 0, what a
/// group fails itself of its row 0, and that `main`'s group is missing of the number of groups.
#[derive(Clone, Copy, Drop, Debug, PartialEq, Eq)]
pub struct BadGroup {
    pub group: u32,
    pub row: u32,
    pub condition: u8,
}

// Whether `main`'s group begins at 0, and a group has the row behind its entry's skips, with 0.
fn begins(game: &Game, group: &Group) -> bool
    requires { IsInRange (game_of game.now) (length game.now.graph.parts.items) group.now }
    ensures { result ≡ begins (game_of game.now) (group_of group.now) }
{
    let (_, start) = game.start();
    let entry = skipped(game, game.entry(group.function));
    let begun = has_zero(&group.rows, entry, group.entered);
    (!(group.function == game.main() && group.entered.0 == start.0) || group.reach == 0) && begun
}

// The first row of a group that fails a condition.
fn first_bad_row(game: &Game, table: &AuditTable, group: &Group) -> Option<(u32, u8)>
    requires group { IsInRange (game_of game.now) (length game.now.graph.parts.items) group.now }
    requires few { length group.now.rows.items < 2 ^ 32 }
    requires range { AreInRange (game_of game.now) (length game.now.graph.parts.items) table.now.groups.items }
    ensures { (i : ℕ) → option_map (λ at. fault_at i at.0 at.1) result
        ≡ first_failing (row_faults (game_of game.now) (audit_of table.now) i (group_of group.now) (enumerate_from 0 (map row_of group.now.rows.items))) }
{
    for (number, row) in group.rows.iter().enumerate() {
        if let Some(condition) = row_fault(game, table, group, *row) {
            return Some((number as u32, condition));
        }
    }
    None
}

// What fails first of a group.
fn group_fault(game: &Game, table: &AuditTable, group: &Group) -> Option<(u32, u8)>
    requires group { IsInRange (game_of game.now) (length game.now.graph.parts.items) group.now }
    requires few { length group.now.rows.items < 2 ^ 32 }
    requires range { AreInRange (game_of game.now) (length game.now.graph.parts.items) table.now.groups.items }
    ensures { (i : ℕ) → option_map (λ at. fault_at i at.0 at.1) result ≡ first_failing (group_conditions (game_of game.now) (audit_of table.now) i (group_of group.now)) }
{
    if !begins(game, group) {
        return Some((0, 2));
    }
    first_bad_row(game, table, group)
}

// The first group that fails a condition.
fn first_bad_group(game: &Game, table: &AuditTable) -> Option<BadGroup>
    requires few { AreFew table.now.groups.items }
    requires range { AreInRange (game_of game.now) (length game.now.graph.parts.items) table.now.groups.items }
    ensures { let t = audit_of table.now in
        option_map fault_of result ≡ first_failing (group_faults (game_of game.now) t (enumerate_from 0 t.groups)) }
{
    for (number, group) in table.groups.iter().enumerate() {
        if let Some((row, condition)) = group_fault(game, table, group) {
            return Some(BadGroup {
                group: number as u32,
                row,
                condition,
            });
        }
    }
    None
}

// Whether `main`'s group is there.
fn has_main(game: &Game, table: &AuditTable) -> bool
    requires { AreInRange (game_of game.now) (length game.now.graph.parts.items) table.now.groups.items }
    ensures { let g = game_of game.now in result ≡ is_some (group_at (audit_of table.now).groups g.main g.states.start) }
{
    let (_, start) = game.start();
    group_at(&table.groups, game.main(), start).is_some()
}

/// Whether an audit's table meets the conditions of a game; else the first group and row that fail one, and the first that they
/// fail. It takes no memory.
///
/// Where it does, no play of a program of the game in which the weaver always skips violates by fewer moves than the table's
/// distance, and none at all where the table has no distance.
///
/// Public source: the summaries of Löding, Madhusudan and Serre, *Visibly Pushdown Games* (2004); here of least numbers of moves.
pub fn check_audit(game: &Game, table: &AuditTable) -> Result<(), BadGroup>
    requires { AreFew table.now.groups.items }
    ensures good { IfOk result (λ _. IsGoodAudit (game_of game.now) (length game.now.graph.parts.items) (audit_of table.now)) }
    ensures fault { IfErr result (λ bad. audit_fault (game_of game.now) (length game.now.graph.parts.items) (audit_of table.now) ≡ Some (fault_of bad)) }
    ensures holds { IfOk result (λ _. Bounds (game_of game.now) (audit_of table.now)) }
{
    game.fact_is_closed();
    if table.states != game.states() {
        return Err(BadGroup {
            group: 0,
            row: 0,
            condition: 1,
        });
    }
    if let Some((group, row)) = first_bad_range(game, &table.groups) {
        return Err(BadGroup {
            group,
            row,
            condition: 1,
        });
    }
    if let Some(bad) = first_bad_group(game, table) {
        return Err(bad);
    }
    if !has_main(game, table) {
        return Err(BadGroup {
            group: table.groups.len() as u32,
            row: 0,
            condition: 2,
        });
    }
    Ok(())
}
