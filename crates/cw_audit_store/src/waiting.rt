//! Numbers that wait under keys.

ghost use Rattle.std.specs.Prelude.{◌≡◌, [], ◌∷◌, OnOk, OnErr, IfSome, IfNone, IsPermutation};
ghost use Rattle.cw_audit_store.specs.Nearest.{IsFirst};

use cw_core::NoMemory;
use std::alloc::Global;
use std::cmp::Reverse;
use std::collections::BinaryHeap;
use std::marker::Model;

/// Numbers that wait, each under a key. The least key is taken first, and of one key the least number.
///
/// Contracts see the keys with their numbers as a list, in an order of which nothing is promised.
#[derive(Drop)]
pub struct Waiting {
    rows: BinaryHeap<Reverse<(u32, usize)>>,
}

impl Model for Waiting {
    ghost use Rattle.std.specs.Prelude.{ℕ, List, map};
    ghost use Rattle.std.specs.BinaryHeap.{IsHeap, heap_items};
    ghost use Rattle.cw_audit_store.specs.Nearest.{nearest_cmp, keyed};

    ghost Value = { List (ℕ × ℕ) };

    ghost view = { λ w. map keyed (heap_items w.rows) };

    ghost invariant = { λ w. IsHeap nearest_cmp (heap_items w.rows) };
}

impl Waiting {
    /// Nothing waits.
    pub fn make(alloc: Global) -> Waiting
        ensures { result ≡ [] }
    {
        Waiting {
            rows: BinaryHeap::new(alloc),
        }
    }

    /// The number waits under the key, beside all that waited. The one error is want of memory, which changes nothing.
    pub fn put(&mut self, key: u32, number: usize) -> Result<(), NoMemory>
        ensures put { OnOk result (IsPermutation ((key, number) ∷ self.old) self.new) }
        ensures refused { OnErr result (self.new ≡ self.old) }
    {
        self.rows.push(Reverse((key, number)))?;
        Ok(())
    }

    /// The first number by key, with its key. It waits no more, and all else does. None exactly where nothing waits.
    pub fn take(&mut self) -> Option<(u32, usize)>
        ensures taken { IfSome result (λ next. IsPermutation self.old (next ∷ self.new)) }
        ensures first { IfSome result (λ next. IsFirst next self.new) }
        ensures none { IfNone result (self.old ≡ []) }
        ensures left { IfNone result (self.new ≡ self.old) }
    {
        let Some(first) = self.rows.pop() else {
            return None;
        };
        Some(first.0)
    }
}
