//! A list of flags with the index of each one that is flagged.
ghost use Rattle.std.specs.Prelude.{◌≡◌, ◌+◌, ◌<◌, ◌≤◌, true, false, [], ◌∷◌, ◌++◌, length, replicate, OnOk, OnErr};
ghost use Rattle.cw_links.specs.Flags.{is_flagged, number, rank};

use crate::Flags;
use cw_core::NoMemory;
use std::alloc::Global;
use std::marker::Model;

/// A list of flags that grows at its end, with the indices that are flagged, in their order.
///
/// Contracts see the list of its flags.
#[derive(Drop)]
pub(crate) struct Marks {
    flags: Flags,
    indices: Vec<u32>,
}

impl Model for Marks {
    ghost use Rattle.std.specs.Prelude.{List, Bool};
    ghost use Rattle.cw_links.specs.Marked.{AreMarked};

    ghost Value = { List Bool };

    ghost view = { λ m. m.flags };

    ghost invariant = { λ m. AreMarked m.flags m.indices.items };
}

impl Marks {
    /// The empty list.
    pub(crate) fn make(alloc: Global) -> Marks
        ensures empty { result ≡ [] }
    {
        Marks {
            flags: Flags::make(alloc),
            indices: Vec::new(alloc),
        }
    }

    /// Adds an index at the end, which is flagged. The one error is want of memory, which changes nothing.
    pub(crate) fn push(&mut self) -> Result<(), NoMemory>
        requires few { length self.old < 4294967295 }
        ensures pushed { OnOk result (self.new ≡ self.old ++ true ∷ []) }
        ensures refused { OnErr result (self.new ≡ self.old) }
    {
        self.indices.reserve(1)?;
        let index = self.flags.len() as u32;
        self.flags.push(true)?;
        // There is room, so the push is not refused.
        let _ = self.indices.push(index);
        Ok(())
    }

    /// Adds so many indices at the end, of which none is flagged. The one error is want of memory, which changes nothing.
    #[inline(always)]
    pub(crate) fn push_plain(&mut self, many: u32) -> Result<(), NoMemory>
        requires few { length self.old + many ≤ 4294967295 }
        ensures pushed { OnOk result (self.new ≡ self.old ++ replicate many false) }
        ensures refused { OnErr result (self.new ≡ self.old) }
    {
        self.flags.push_plain(many)?;
        Ok(())
    }

    /// How many indices there are.
    #[inline(always)]
    pub(crate) fn len(&self) -> usize
        ensures value { result ≡ length self.now }
        ensures few { result ≤ 4294967295 }
    {
        self.flags.len()
    }

    /// Whether the index is flagged.
    #[inline(always)]
    pub(crate) fn is_flagged(&self, index: usize) -> bool
        requires { index < length self.now }
        ensures { result ≡ is_flagged self.now index }
    {
        self.flags.is_flagged(index)
    }

    /// How many of the indices before this one are flagged.
    #[inline(always)]
    pub(crate) fn rank(&self, index: usize) -> u32
        requires { index ≤ length self.now }
        ensures { result ≡ rank self.now index }
    {
        self.flags.rank(index)
    }

    /// The flagged index that has so many flagged indices before it.
    #[inline(always)]
    pub(crate) fn index(&self, before: u32) -> usize
        requires { before < number self.now }
        ensures flagged { is_flagged self.now result ≡ true }
        ensures before { rank self.now result ≡ before }
    {
        self.indices[before as usize] as usize
    }
}
