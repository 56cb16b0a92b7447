//! The different items of some, ascending.

ghost use Rattle.std.specs.Prelude.{◌≡◌, Contains, IfOk, true};
ghost use Rattle.std.specs.FinMap.{IsAntisymmetric};
ghost use Rattle.std.specs.List.Sorted.{IsStrictlySortedBy};
ghost use Rattle.cw_fixpoint.specs.Closures.{Exactly};

use crate::sees::in_order;
use std::alloc::{AllocError, Global};
use std::cmp::Ordering;
use std::collections::BTreeSet;

/// Whether each item is below the next.
fn rise<T: Ord>(items: &[T]) -> bool
    ensures { result ≡ true → IsStrictlySortedBy T.cmp items.now }
{
    for i in 1..items.len() {
        match items[i - 1].cmp(&items[i]) {
            Ordering::Less => {}
            _ => return false,
        }
    }
    true
}

/// The different items of some, ascending. The one error is want of memory.
pub fn ordered<T: Ord + Copy + Drop>(alloc: Global, items: &[T]) -> Result<Vec<T>, AllocError>
    requires exact { IsAntisymmetric T.cmp }
    ensures { IfOk result (λ v. Exactly T.cmp (Contains items.now) v.items) }
{
    let mut set = BTreeSet::new(alloc);
    for item in items {
        set.insert(*item)?;
    }
    let found = in_order(alloc, set)?;
    Ok(found)
}

/// The same of items that mostly are so already: where each is below the next, they are handed back as they stand.
pub fn ascending<T: Ord + Copy + Drop>(alloc: Global, items: Vec<T>) -> Result<Vec<T>, AllocError>
    requires exact { IsAntisymmetric T.cmp }
    ensures { IfOk result (λ v. Exactly T.cmp (Contains items.items) v.items) }
{
    if rise(&items) {
        return Ok(items);
    }
    let found = ordered(alloc, &items)?;
    Ok(found)
}
