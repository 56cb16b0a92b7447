//! Numbers of rows, in lists by the numbers of groups.

ghost use Rattle.std.specs.Prelude.{◌≡◌, ℕ, ◌++◌, [], ◌∷◌, false, nat_eq, slice_get, OnOk};
ghost use Rattle.cw_audit_store.specs.Listed.{numbers_of};

use cw_core::NoMemory;
use std::alloc::Global;

/// Numbers of rows, a list for each group, by the group's number.
#[derive(Drop)]
pub struct GroupLists {
    lists: Vec<Vec<usize>>,
    alloc: Global,
}

impl GroupLists {
    /// Each list is empty.
    pub fn make(alloc: Global) -> GroupLists
        ensures { (q : ℕ) → numbers_of result q ≡ [] }
    {
        GroupLists {
            lists: Vec::new(alloc),
            alloc,
        }
    }

    /// The number stands at the end of the group's list. The one error is want of memory.
    pub fn put(&mut self, group: u32, number: usize) -> Result<(), NoMemory>
        ensures here { OnOk result (numbers_of self.new group ≡ numbers_of self.old group ++ number ∷ []) }
        ensures others { OnOk result ((q : ℕ) → nat_eq group q ≡ false → numbers_of self.new q ≡ numbers_of self.old q) }
    {
        let group = group as usize;
        while self.lists.len() <= group {
            self.lists.push(Vec::new(self.alloc))?;
        }
        self.lists[group].push(number)?;
        Ok(())
    }

    /// A number of the group's list, by its index there.
    pub fn get(&self, group: u32, row_key: usize) -> Option<usize>
        ensures { result ≡ slice_get (numbers_of self.now group) row_key }
    {
        self.lists.get(group as usize)?.get(row_key).copied()
    }
}
