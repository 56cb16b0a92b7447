//! What a search visits next.

ghost use Rattle.std.specs.Prelude.{◌≡◌, ℕ, ◌+◌, [], ◌∷◌, length, OnOk, IfSome, IfNone, IsPermutation};
ghost use Rattle.cw_audit_store.specs.Listed.{numbers_of};
ghost use Rattle.cw_audit_store.specs.Nearest.{IsFirst};

use crate::group_lists::GroupLists;
use crate::waiting::Waiting;
use cw_core::NoMemory;
use std::alloc::Global;

/// The rows that wait to be visited, by their numbers, the nearest first; and the rows that were visited at calls, by the groups to
/// which they lead, and at ends, by their own groups.
#[derive(Drop)]
pub struct Frontier {
    pub rows: Waiting,
    pub calls: GroupLists,
    pub ends: GroupLists,
}

impl Frontier {
    /// Nothing waits, and nothing was visited.
    pub fn make(alloc: Global) -> Frontier
        ensures rows { result.rows ≡ [] }
        ensures calls { (q : ℕ) → numbers_of result.calls q ≡ [] }
        ensures ends { (q : ℕ) → numbers_of result.ends q ≡ [] }
    {
        Frontier {
            rows: Waiting::make(alloc),
            calls: GroupLists::make(alloc),
            ends: GroupLists::make(alloc),
        }
    }

    /// The row waits under the key, beside all that waited. The one error is want of memory.
    pub fn put(&mut self, key: u32, row: usize) -> Result<(), NoMemory>
        ensures put { OnOk result (IsPermutation ((key, row) ∷ self.old.rows) self.new.rows) }
        ensures more { OnOk result (length self.new.rows ≡ length self.old.rows + 1) }
        ensures calls { self.new.calls ≡ self.old.calls }
        ensures ends { self.new.ends ≡ self.old.ends }
    {
        self.rows.put(key, row)?;
        Ok(())
    }

    /// The first row by key, with its key. It waits no more, and all else does. None exactly where nothing waits.
    pub fn take(&mut self) -> Option<(u32, usize)>
        ensures taken { IfSome result (λ next. IsPermutation self.old.rows (next ∷ self.new.rows)) }
        ensures first { IfSome result (λ next. IsFirst next self.new.rows) }
        ensures fewer { IfSome result (λ _. length self.new.rows + 1 ≡ length self.old.rows) }
        ensures none { IfNone result (self.old.rows ≡ []) }
        ensures left { IfNone result (length self.new.rows ≡ length self.old.rows) }
        ensures calls { self.new.calls ≡ self.old.calls }
        ensures ends { self.new.ends ≡ self.old.ends }
    {
        self.rows.take()
    }
}
