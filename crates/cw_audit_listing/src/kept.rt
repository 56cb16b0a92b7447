//! The row keys below a bound.

ghost use Rattle.std.specs.Prelude.{◌≡◌, Some, IfOk};
ghost use Rattle.std.specs.List.{filter};
ghost use Rattle.indexmap.specs.IndexMap.{keys};
ghost use Rattle.cw_audit_store.specs.Stores.{group_at};
ghost use Rattle.cw_audit_listing.specs.Lists.{is_below, is_below_by, AreAllBelow, AreOrdered};

use cw_audit_store::{Row, RowKey, Store};
use cw_audit_table::cut;
use cw_core::NoMemory;
use std::alloc::Global;

// Whether a row's entrance has a group, and their sum, cut, is below the bound.
fn is_below(store: &Store, row_key: RowKey, row: Row, bound: u32) -> bool
    ensures { result ≡ is_below_by bound (group_at store.now row_key.entrance) (Some row) }
{
    match store.group_by(row.group, row_key.entrance) {
        Some(group) => cut(u64::from(group.reach) + u64::from(row.inside)) < bound,
        None => false,
    }
}

// The row keys of the rows that are below the bound, in the order in which these were found.
fn kept(alloc: Global, store: &Store, bound: u32) -> Result<Vec<RowKey>, NoMemory>
    ensures { IfOk result (λ v. v.items ≡ filter (is_below store.now bound) (keys store.now.rows)) }
{
    let mut below = Vec::new(alloc);
    for number in 0..store.count() {
        let Some((row_key, row)) = store.numbered(number) else {
            return Ok(below);
        };
        if is_below(store, row_key, row, bound) {
            below.push(row_key)?;
        }
    }
    Ok(below)
}

/// The row keys of a store whose rows are below a bound, with their group's reach and cut, in the order in which these were found. The
/// one error is want of memory.
pub fn below(alloc: Global, store: &Store, bound: u32) -> Result<Vec<RowKey>, NoMemory>
    ensures { IfOk result (λ v. AreAllBelow store.now bound v.items) }
{
    // No two keys are the same.
    let _ = store.rows.len();
    kept(alloc, store, bound)
}

/// The row keys ascending by function, entered state, position and state. The one error is want of memory.
pub fn ordered(row_keys: Vec<RowKey>) -> Result<Vec<RowKey>, NoMemory>
    ensures { IfOk result (λ v. AreOrdered row_keys.items v.items) }
{
    let mut ordered = row_keys;
    ordered.sort()?;
    Ok(ordered)
}
