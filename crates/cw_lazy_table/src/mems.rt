//! Memories in order, looked up by their state and promise.

ghost use Rattle.std.specs.Prelude.{◌≡◌, IfOk};

use crate::near::Places;
use cw_core::StateId;
use std::alloc::{AllocError, Global};
use std::marker::Model;

/// Memories in order, and where each may stand. A contract sees the memories.
#[derive(Drop)]
pub(crate) struct Mems<'m> {
    list: &'m [(StateId, usize)],
    places: Places,
}

impl<'m> Model for Mems<'m> {
    ghost use Rattle.cw_lazy_table.specs.Rowing.{Memories};

    ghost Value = { Memories };

    ghost view = { λ m. m.list.now };
}

/// These memories, of so many states and promises.
pub(crate) fn mems_of<'m>(
    alloc: Global,
    list: &'m [(StateId, usize)],
    states: usize,
    promises: usize,
) -> Result<Mems<'m>, AllocError>
    ensures { IfOk result (λ m. m ≡ list.now) }
{
    let mut places = Places::make(alloc, states, promises)?;
    let mut number: usize = 0;
    for mem in list {
        places.tell(mem.0.0, mem.1, number);
        number = number.saturating_add(1);
    }
    Ok(Mems { list, places })
}

impl<'m> Mems<'m> {
    ghost use Rattle.std.specs.Prelude.{◌≡◌};

    /// The memories.
    #[inline(always)]
    pub(crate) fn list(&self) -> &'m [(StateId, usize)]
        ensures { result.now ≡ self.now }
    {
        self.list
    }

    /// Where a memory may stand.
    #[inline(always)]
    pub(crate) fn guess(&self, state: StateId, promise: usize) -> usize {
        self.places.guess(state.0, promise)
    }
}
