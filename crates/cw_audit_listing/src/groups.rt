//! Rows and groups of row keys in order.

ghost use Rattle.std.specs.Prelude.{◌≡◌, Option, ℕ, map, IfOk, IfSome, IfNone};
ghost use Rattle.cw_audit_table.specs.Tables.{group_of};
ghost use Rattle.cw_audit_store.specs.Finding.{found_of};
ghost use Rattle.cw_audit_search.specs.Grouped.{Ascend, AreBelow};
ghost use Rattle.cw_audit_search.specs.Listing.{AreListed};
ghost use Rattle.cw_audit_listing.specs.Lists.{plain, AreKnown, AreRead, Ends, IsNext};

use cw_audit_store::{Entrance, RowKey, Store};
use cw_audit_table::Group;
use cw_core::{NoMemory, PosId, StateId};
use std::alloc::Global;

// The row of the first row key, where that is one of the entrance, and the row keys behind it.
fn next_row<'a>(
    store: &Store,
    entrance: Entrance,
    row_keys: &'a [RowKey],
) -> Option<((PosId, StateId, u32), &'a [RowKey])>
    requires { AreKnown store.now row_keys.now }
    ensures some { IfSome result (λ (row, rest). IsNext store.now entrance row_keys.now rest.now row) }
    ensures none { IfNone result (Ends entrance row_keys.now) }
{
    let (row_key, rest) = row_keys.split_first()?;
    if row_key.entrance != entrance {
        return None;
    }
    let row = store.row(*row_key)?;
    Some(((row_key.pos, row_key.state, row.inside), rest))
}

// The rows of the entrance with which the row keys begin, and the row keys behind them.
fn rows_of<'a>(
    alloc: Global,
    store: &Store,
    entrance: Entrance,
    row_keys: &'a [RowKey],
) -> Result<(Vec<(PosId, StateId, u32)>, &'a [RowKey]), NoMemory>
    requires { AreKnown store.now row_keys.now }
    ensures read { IfOk result (λ (rows, rest). AreRead store.now entrance row_keys.now rest.now rows.items) }
    ensures ends { IfOk result (λ (_, rest). Ends entrance rest.now) }
{
    let mut rest = row_keys;
    let mut rows = Vec::new(alloc);
    'rows: loop {
        let Some((row, more)) = next_row(store, entrance, rest) else {
            return Ok((rows, rest));
        };
        rows.push(row)?;
        rest = more;
    }
}

/// The groups of the row keys, which ascend by function, entered state, position and state, each with its row and its group in the
/// store: a group for each entrance with its reach, and in it the rows with their numbers, in the same order.
///
/// Where the row keys are those of the rows below a distance, the groups list them. The one error is want of memory.
pub fn list(alloc: Global, store: &Store, row_keys: &[RowKey]) -> Result<Vec<Group>, NoMemory>
    requires known { AreKnown store.now row_keys.now }
    requires ascend { Ascend (map plain row_keys.now) }
    ensures listed { IfOk result (λ v. (D : Option ℕ) → AreBelow (found_of store.now) D (map plain row_keys.now) → AreListed (found_of store.now) D (map group_of v.items)) }
{
    let mut rest = row_keys;
    let mut groups = Vec::new(alloc);
    'groups: loop {
        let Some(first) = rest.first() else {
            return Ok(groups);
        };
        let entrance = first.entrance;
        let Some(entered) = store.group(entrance) else {
            return Ok(groups);
        };
        let (rows, more) = rows_of(alloc, store, entrance, rest)?;
        groups.push(Group {
            function: entrance.function,
            entered: entrance.state,
            reach: entered.reach,
            rows,
        })?;
        rest = more;
    }
}
