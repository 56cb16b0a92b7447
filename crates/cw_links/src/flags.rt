//! A list of flags that grows at its end.
ghost use Rattle.std.specs.Prelude.{◌≡◌, ◌+◌, ◌%◌, ◌<◌, ◌≤◌, ◌==◌, true, if◌then◌else◌, [], ◌∷◌, ◌++◌, length, replicate, false, OnOk, OnErr};
ghost use Rattle.cw_links.specs.Flags.{is_flagged, number, rank};

use cw_core::NoMemory;
use std::alloc::Global;
use std::marker::Model;

/// How many flags a limb has.
const BITS: usize = 64;

/// A list of flags that grows at its end, with how many of its first indices are flagged.
///
/// Contracts see the list of its flags. It takes a bit for an index and four bytes for each 64 indices, and
/// `rank` is meant to take a constant number of steps; no clause says either.
#[derive(Drop)]
pub struct Flags {
    /// The flag of an index is bit index % 64 of limb index / 64.
    limbs: Vec<u64>,
    /// How many indices before each limb are flagged.
    before: Vec<u32>,
    count: usize,
    flagged: u32,
}

impl Model for Flags {
    ghost use Rattle.std.specs.Prelude.{List, Bool};
    ghost use Rattle.cw_links.specs.Limbs.{flags_of, AreKept};

    ghost Value = { List Bool };

    ghost view = { λ m. flags_of m.limbs.items m.count };

    ghost invariant = { λ m. AreKept m.limbs.items m.before.items m.count m.flagged };
}

impl Flags {
    /// The empty list.
    pub fn make(alloc: Global) -> Flags
        ensures empty { result ≡ [] }
    {
        Flags {
            limbs: Vec::new(alloc),
            before: Vec::new(alloc),
            count: 0,
            flagged: 0,
        }
    }

    /// Adds an index at the end, flagged or not. The one error is want of memory, which changes nothing.
    pub fn push(&mut self, flag: bool) -> Result<(), NoMemory>
        requires few { length self.old < 4294967295 }
        ensures pushed { OnOk result (self.new ≡ self.old ++ flag ∷ []) }
        ensures refused { OnErr result (self.new ≡ self.old) }
    {
        begin_limb(&mut self.limbs, &mut self.before, self.count, self.flagged)?;
        self.limbs[self.count / BITS] |= u64::from(flag) << (self.count % BITS);
        self.flagged += u32::from(flag);
        self.count += 1;
        Ok(())
    }

    /// Adds so many indices at the end, of which none is flagged. The one error is want of memory, which changes nothing.
    pub fn push_plain(&mut self, many: u32) -> Result<(), NoMemory>
        requires few { length self.old + many ≤ 4294967295 }
        ensures pushed { OnOk result (self.new ≡ self.old ++ replicate many false) }
        ensures refused { OnErr result (self.new ≡ self.old) }
    {
        let count = self.count + many as usize;
        let missing = count.div_ceil(BITS) - self.limbs.len();
        begin_limbs(&mut self.limbs, &mut self.before, missing, self.flagged)?;
        self.count = count;
        Ok(())
    }

    /// How many indices there are.
    pub fn len(&self) -> usize
        ensures value { result ≡ length self.now }
        ensures few { result ≤ 4294967295 }
    {
        self.count
    }

    /// Whether there are no indices.
    pub fn is_empty(&self) -> bool
        ensures { result ≡ (length self.now == 0) }
    {
        self.count == 0
    }

    /// How many indices are flagged.
    pub fn flagged(&self) -> u32
        ensures { result ≡ number self.now }
    {
        self.flagged
    }

    /// Whether the index is flagged.
    pub fn is_flagged(&self, index: usize) -> bool
        requires { index < length self.now }
        ensures { result ≡ is_flagged self.now index }
    {
        (self.limbs[index / BITS] >> (index % BITS)) & 1 == 1
    }

    /// How many of the indices before this one are flagged. Of all indices where it is the number of indices.
    pub fn rank(&self, index: usize) -> u32
        requires { index ≤ length self.now }
        ensures { result ≡ rank self.now index }
    {
        if index == self.count {
            return self.flagged;
        }
        let below = (1 << (index % BITS)) - 1;
        self.before[index / BITS] + (self.limbs[index / BITS] & below).count_ones()
    }

    /// The flagged index that has so many flagged indices before it. It halves the list at each step.
    pub fn index(&self, before: u32) -> usize
        requires { before < number self.now }
        ensures flagged { is_flagged self.now result ≡ true }
        ensures before { rank self.now result ≡ before }
    {
        let mut index = 0;
        let mut end = self.len();
        while end - index > 1 {
            let middle = index + (end - index) / 2;
            if self.rank(middle) <= before {
                index = middle;
            } else {
                end = middle;
            }
        }
        index
    }
}

/// Adds so many limbs without flags, mostly none.
#[inline(always)]
fn begin_limbs(
    limbs: &mut Vec<u64>,
    before: &mut Vec<u32>,
    more: usize,
    flagged: u32,
) -> Result<(), NoMemory>
    requires same { length limbs.old.items ≡ length before.old.items }
    requires few { length limbs.old.items + more ≤ 4294967295 }
    ensures limbs { OnOk result (limbs.new.items ≡ limbs.old.items ++ replicate more 0) }
    ensures before { OnOk result (before.new.items ≡ before.old.items ++ replicate more flagged) }
    ensures refused_limbs { OnErr result (limbs.new.items ≡ limbs.old.items) }
    ensures refused_before { OnErr result (before.new.items ≡ before.old.items) }
{
    if more == 0 {
        return Ok(());
    }
    limbs.reserve(more)?;
    before.reserve(more)?;
    let end = limbs.len() + more;
    // There is room now, so neither is refused.
    let _ = limbs.resize(end, 0);
    let _ = before.resize(end, flagged);
    Ok(())
}

/// Adds a limb without flags where so many indices end with a limb.
fn begin_limb(
    limbs: &mut Vec<u64>,
    before: &mut Vec<u32>,
    count: usize,
    flagged: u32,
) -> Result<(), NoMemory>
    requires same { length limbs.old.items ≡ length before.old.items }
    requires few { length limbs.old.items < 4294967295 }
    ensures limbs { OnOk result (limbs.new.items ≡ (if count % 64 == 0 then limbs.old.items ++ 0 ∷ [] else limbs.old.items)) }
    ensures before { OnOk result (before.new.items ≡ (if count % 64 == 0 then before.old.items ++ flagged ∷ [] else before.old.items)) }
    ensures refused_limbs { OnErr result (limbs.new.items ≡ limbs.old.items) }
    ensures refused_before { OnErr result (before.new.items ≡ before.old.items) }
{
    if count % BITS == 0 {
        begin_limbs(limbs, before, 1, flagged)?;
    }
    Ok(())
}
