//! Numbers of rows, in lists by entrances.

ghost use Rattle.std.specs.Prelude.{◌≡◌, ◌++◌, [], ◌∷◌, false, OnOk};
ghost use Rattle.cw_audit_store.specs.Stores.{entrance_eq};
ghost use Rattle.cw_audit_store.specs.Listed.{list_of};

use crate::row_key::Entrance;
use cw_core::NoMemory;
use indexmap::IndexMap;
use std::alloc::Global;

/// Numbers of rows, a list for each entrance.
#[derive(Drop)]
pub struct Lists {
    pub lists: IndexMap<Entrance, Vec<usize>>,
    alloc: Global,
}

impl Lists {
    /// Each list is empty.
    pub fn make(alloc: Global) -> Lists
        ensures { (q : Entrance) → list_of result q ≡ [] }
    {
        Lists {
            lists: IndexMap::new(alloc),
            alloc,
        }
    }

    /// The number stands at the end of the entrance's list. The one error is want of memory.
    pub fn put(&mut self, entrance: Entrance, number: usize) -> Result<(), NoMemory>
        ensures here { OnOk result (list_of self.new entrance ≡ list_of self.old entrance ++ number ∷ []) }
        ensures others { OnOk result ((q : Entrance) → entrance_eq entrance q ≡ false → list_of self.new q ≡ list_of self.old q) }
    {
        match self.lists.get_mut(&entrance) {
            Some(numbers) => numbers.push(number)?,
            None => {
                let mut numbers = Vec::new(self.alloc);
                numbers.push(number)?;
                self.lists.insert(entrance, numbers)?;
            }
        }
        Ok(())
    }

    /// The entrance's list, in the order in which it was put.
    pub fn list(&self, entrance: Entrance) -> &[usize]
        ensures { result.now ≡ list_of self.now entrance }
    {
        match self.lists.get(&entrance) {
            Some(numbers) => numbers,
            None => &[],
        }
    }
}
