//! Elements that wait under keys, a vector for each of the least keys.

ghost use Rattle.std.specs.Prelude.{◌≡◌, ℕ, ◌<◌, ◌↔◌, [], IsNone, IfOk, OnOk, OnErr, IfSome, IfNone, true, false};
ghost use Rattle.cw_links.specs.Lists.{list_at};
ghost use Rattle.cw_links.specs.Queues.{AreNone, HasLower, Puts, Takes};

use crate::Queue;
use crate::low::Low;
use cw_core::NoMemory;
use std::alloc::Global;
use std::marker::Model;

/// Elements that wait under keys, of which none is 0: the same as a `Queue`, but that what waits under the first keys stands in a vector for
/// each key, where an element is put and taken in few steps. The small heights of late contexts come again with each of them.
#[derive(Drop)]
pub(crate) struct Later {
    low: Low,
    queue: Queue,
}

impl Model for Later {
    ghost use Rattle.std.specs.Prelude.{ℕ, List, length};
    ghost use Rattle.cw_links.specs.Low.{AreBehind, joined};

    ghost Value = { List (List ℕ) };

    ghost view = { λ l. joined l.low l.queue };

    ghost invariant = { λ l. AreBehind (length l.low) l.queue };
}

impl Later {
    /// Nothing waits. The one error is want of memory.
    pub(crate) fn make(alloc: Global) -> Result<Later, NoMemory>
        ensures { IfOk result AreNone }
    {
        let low = Low::make(alloc)?;
        Ok(Later {
            low,
            queue: Queue::make(alloc)?,
        })
    }

    /// Has the element wait under the key, in front of what waits there. The one error is want of memory, which changes nothing.
    pub(crate) fn put(&mut self, element: u32, key: u32) -> Result<(), NoMemory>
        requires { 0 < key }
        ensures put { OnOk result (Puts self.old self.new element key) }
        ensures refused { OnErr result (self.new ≡ self.old) }
    {
        if (key as usize) < self.low.keys() {
            self.low.put(element, key)?;
            return Ok(());
        }
        self.queue.put(element, key)?;
        Ok(())
    }

    /// Whether nothing waits under a lower key than this one.
    pub(crate) fn is_clear_below(&mut self, key: u32) -> bool
        ensures clear { result ≡ true → (k : ℕ) → k < key → list_at self.old k ≡ [] }
        ensures some { result ≡ false → HasLower self.old key }
        ensures same { self.new ≡ self.old }
    {
        if !self.low.is_clear_below(key) {
            return false;
        }
        self.queue.is_clear_below(key)
    }

    /// Takes the first element under the least key, and answers it and that key; None exactly where nothing waits.
    pub(crate) fn take(&mut self) -> Option<(u32, u32)>
        ensures none { IsNone result ↔ AreNone self.old }
        ensures taken { IfSome result (λ taken. Takes self.old self.new taken.0 taken.1) }
        ensures left { IfNone result (self.new ≡ self.old) }
    {
        match self.low.take() {
            None => self.queue.take(),
            Some((element, key)) => Some((element, key)),
        }
    }
}
