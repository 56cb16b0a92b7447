//! What expressions read and change.

ghost use Rattle.std.specs.Prelude.{◌≡◌, OnOk};
ghost use Rattle.cw_value.specs.Expressions.{cell_at, stored};
ghost use Rattle.cw_eval.specs.Shown.{memory_of, target_in};

use crate::store::{Spot, Store};
use cw_core::NoMemory;
use cw_value::Made;

/// What expressions read and change: the values of the names of a frame and of the file, the answers to external calls that are
/// left, and the calls that were made.
#[derive(Drop)]
pub struct Memory<'c> {
    pub own: Store,
    pub shared: Store,
    pub calls: &'c [i64],
    pub made: Vec<Made>,
}

/// Where an assignment writes, if there is something that can be changed.
#[derive(Clone, Copy, Drop, Debug, PartialEq, Eq)]
pub enum Target {
    Own(Spot),
    Shared(Spot),
    Nothing,
}

impl<'c> Memory<'c> {
    /// What stands at a target.
    #[inline(always)]
    pub fn cell_at(&self, target: Target) -> Option<i64>
        ensures cell { result ≡ cell_at (memory_of self.now) (target_in target) }
    {
        match target {
            Target::Own(spot) => self.own.get(spot),
            Target::Shared(spot) => self.shared.get(spot),
            Target::Nothing => None,
        }
    }

    /// Writes a value at a target. The one error is want of memory.
    #[inline(always)]
    pub fn store(&mut self, target: Target, value: i64) -> Result<(), NoMemory>
        ensures stored { OnOk result (memory_of self.new ≡ stored (memory_of self.old) (target_in target) value) }
    {
        match target {
            Target::Own(spot) => self.own.set(spot, Some(value)),
            Target::Shared(spot) => self.shared.set(spot, Some(value)),
            Target::Nothing => Ok(()),
        }
    }
}
