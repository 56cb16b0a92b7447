//! A list of flags that keeps the rank of each index that is flagged.
ghost use Rattle.std.specs.Prelude.{◌≡◌, ◌<◌, ◌∷◌, ◌++◌, [], true, length, IfOk, OnOk};
ghost use Rattle.cw_links.specs.Flags.{is_flagged, number, rank};

use cw_core::NoMemory;
use std::alloc::Global;
use std::marker::Model;

/// A list of flags that grows at its end, with how many flagged indices come before each flagged one.
///
/// Contracts see the list of its flags, as of `Flags`. It takes four bytes for an index, and a rank is read where `Flags` counts it; no
/// clause says either.
#[derive(Drop)]
pub struct RankedFlags {
    /// One more than its rank for an index that is flagged, 0 for any other.
    ranks: Vec<u32>,
    flagged: u32,
}

impl Model for RankedFlags {
    ghost use Rattle.std.specs.Prelude.{List, Bool};
    ghost use Rattle.cw_links.specs.Ranked.{flags_of, AreRanked};

    ghost Value = { List Bool };

    ghost view = { λ r. flags_of r.ranks.items };

    ghost invariant = { λ r. AreRanked r.ranks.items r.flagged };
}

impl RankedFlags {
    /// The empty list, with the memory of so many indices. The one error is want of memory.
    pub fn make(alloc: Global, room: usize) -> Result<RankedFlags, NoMemory>
        ensures { IfOk result (λ ranks. ranks ≡ []) }
    {
        Ok(RankedFlags {
            ranks: Vec::with_capacity(alloc, room)?,
            flagged: 0,
        })
    }

    /// Adds an index at the end, flagged or not. The one error is want of memory.
    #[inline(always)]
    pub fn push(&mut self, flag: bool) -> Result<(), NoMemory>
        requires few { length self.old < 4294967295 }
        ensures pushed { OnOk result (self.new ≡ self.old ++ flag ∷ []) }
    {
        if flag {
            self.ranks.push(self.flagged + 1)?;
            self.flagged += 1;
        } else {
            self.ranks.push(0)?;
        }
        Ok(())
    }

    /// How many indices are flagged.
    #[inline(always)]
    pub fn flagged(&self) -> u32
        ensures { result ≡ number self.now }
    {
        self.flagged
    }

    /// Whether the index is flagged.
    #[inline(always)]
    pub fn is_flagged(&self, index: usize) -> bool
        requires { index < length self.now }
        ensures { result ≡ is_flagged self.now index }
    {
        self.ranks[index] != 0
    }

    /// How many of the indices before a flagged one are flagged.
    #[inline(always)]
    pub fn rank(&self, index: usize) -> u32
        requires { is_flagged self.now index ≡ true }
        ensures { result ≡ rank self.now index }
    {
        self.ranks[index] - 1
    }
}
