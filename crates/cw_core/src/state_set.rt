//! Sets of states.

ghost use Rattle.std.specs.Prelude.{◌≡◌, ℕ, ◌+◌, ◌-◌, ◌*◌, ◌/◌, ◌%◌, ◌^◌, ◌<◌, ◌≤◌, ◌↔◌, ◌==◌, ◌||◌, ◌&&◌, false, not, nat_lt, min, map, bit_and, slice_index, IsTrue};
ghost use Rattle.cw_core.specs.Digits.{lowest_digits};
ghost use Rattle.cw_core.specs.Numerals.{hexadecimal_digits};
ghost use Rattle.cw_core.specs.StateSet.{has, IsSubset, IsBelow, sum_of_powers};
ghost use Rattle.std.specs.Char.{digit_char};
ghost use Rattle.std.proofs.Common.{rules};
ghost use Rattle.std.specs.Cmp.{partial_order_from_own_ties};
ghost use Rattle.std.specs.Cmp.Rules.{comparing, hashing};
ghost use Rattle.std.specs.Hash as fed;
ghost use Rattle.std.specs.Ordering.{nat_cmp, as_partial_cmp};

use crate::ids::StateId;
use std::cmp::Ordering;
use std::hash::{Hash, Hasher};
use std::marker::Model;

/// A set of numbers below 1,024. A contract sees it as a number, the sum of 2 to the power s over its
/// members s. Sets are compared as these numbers.
#[derive(Clone, Copy, Debug)]
pub struct StateSet {
    /// The members 64 * i to 64 * i + 63 are the bits of limb i.
    limbs: [u64; 16],
}

impl Model for StateSet {
    ghost use Rattle.std.specs.Prelude.{ℕ};
    ghost use Rattle.cw_core.specs.Limbs.{number_of, limbs_of, AreSixteenLimbs, limbs_of-number_of};

    ghost Value = { ℕ };

    ghost view = { λ s. number_of s.limbs };

    ghost invariant = { λ s. AreSixteenLimbs s.limbs };

    ghost inverse = { λ n. record { limbs = limbs_of 16 n } };

    ghost inverse_ok = { λ s h i. record { limbs = limbs_of-number_of 16 s.limbs h.0 h.1 i } };
}

impl PartialEq for StateSet {
    ghost eq = { λ a b. a == b };

    ghost laws = { Prim.search (comparing, rules) };

    fn eq(&self, other: &StateSet) -> bool {
        self.limbs == other.limbs
    }
}

impl Eq for StateSet {
    ghost laws = { Prim.search (comparing, rules) };
}

impl Hash for StateSet {
    ghost use Rattle.cw_core.specs.Limbs.{limbs_of};

    ghost hash_input = { λ a. fed.slice fed.u64 (limbs_of 16 a) };

    ghost respects_eq = { Prim.search (hashing, rules) };

    fn hash<H: Hasher>(&self, state: &mut H) {
        self.limbs.hash(state);
    }
}

impl Ord for StateSet {
    ghost cmp = { nat_cmp };

    ghost total = { Prim.search (comparing, rules) };

    ghost matches_partial_cmp = { Prim.search (comparing, rules) };

    ghost matches_eq = { Prim.search (comparing, rules) };

    fn cmp(&self, other: &StateSet) -> Ordering {
        for i in (0..16).rev() {
            if self.limbs[i] != other.limbs[i] {
                return self.limbs[i].cmp(&other.limbs[i]);
            }
        }
        Ordering::Equal
    }
}

impl PartialOrd for StateSet {
    ghost partial_cmp = { as_partial_cmp nat_cmp };

    ghost laws = { partial_order_from_own_ties (Prim.search (comparing, rules)) (Prim.search (comparing, rules)) };

    fn partial_cmp(&self, other: &StateSet) -> Option<Ordering> {
        Some(self.cmp(other))
    }
}

impl StateSet {
    /// The empty set.
    pub fn empty() -> StateSet
        ensures zero { result ≡ 0 }
        ensures members { (i : ℕ) → has result i ≡ false }
    {
        StateSet { limbs: [0; 16] }
    }

    /// The set of the numbers whose bits are 1: s where bit s is.
    #[tactic(auto, unfolding(crate::specs::Limbs::number_of))]
    pub fn from_bits(bits: u64) -> StateSet
        ensures { result ≡ bits }
    {
        StateSet {
            limbs: [bits, 0, 0, 0, 0, 0, 0, 0, 0, 0, 0, 0, 0, 0, 0, 0],
        }
    }

    /// Whether the set has a number.
    pub fn contains(&self, s: StateId) -> bool
        requires in_range { s.0 < 1024 }
        ensures member { result ≡ has self.now s.0 }
    {
        let limb = self.limbs[(s.0 / 64) as usize];
        (limb >> (s.0 % 64)) & 1 == 1
    }

    /// Adds a number; every other number stays in or out.
    pub fn insert(&mut self, s: StateId)
        requires in_range { s.0 < 1024 }
        ensures members { (i : ℕ) → has self.new i ≡ (i == s.0 || has self.old i) }
    {
        let at = (s.0 / 64) as usize;
        self.limbs[at] |= 1 << (s.0 % 64);
    }

    /// Takes a number out; every other number stays in or out.
    pub fn remove(&mut self, s: StateId)
        requires in_range { s.0 < 1024 }
        ensures members { (i : ℕ) → has self.new i ≡ (not (i == s.0) && has self.old i) }
    {
        let at = (s.0 / 64) as usize;
        self.limbs[at] &= !(1 << (s.0 % 64));
    }

    /// Whether the other set has every number of this one.
    pub fn is_subset(&self, other: &StateSet) -> bool
        ensures subset { IsTrue result ↔ IsSubset self.now other.now }
    {
        are_within(&self.limbs, &other.limbs)
    }

    /// The numbers below n that aren't in the set.
    pub fn complement_in(&self, n: u16) -> StateSet
        requires in_range { n ≤ 1024 }
        ensures members { (i : ℕ) → has result i ≡ (nat_lt i n && not (has self.now i)) }
    {
        // A policy has few states as a rule, so the limbs from n on aren't looked at.
        let count = (usize::from(n) + 63) / 64;
        let mut limbs = [0; 16];
        for i in 0..count {
            limbs[i] = !self.limbs[i] & ones_below(n.saturating_sub(64 * i as u16));
        }
        StateSet { limbs }
    }

    /// The four bits from bit 4 times an index on.
    pub(crate) fn nibble(&self, index: usize) -> u8
        requires in_range { index < 256 }
        ensures value { result ≡ self.now / 2 ^ (4 * index) % 2 ^ 4 }
        ensures small { result < 16 }
    {
        ((self.limbs[index / 16] >> (4 * (index % 16))) & 15) as u8
    }

    /// The eight bits from bit 8 times an index on.
    pub(crate) fn byte(&self, index: usize) -> u8
        requires in_range { index < 128 }
        ensures value { result ≡ self.now / 2 ^ (8 * index) % 2 ^ 8 }
    {
        ((self.limbs[index / 8] >> (8 * (index % 8))) & 255) as u8
    }

    /// The 64 bits from bit 64 times an index on.
    pub(crate) fn limb(&self, index: usize) -> u64
        requires in_range { index < 16 }
        ensures value { result ≡ self.now / 2 ^ (64 * index) % 2 ^ 64 }
    {
        self.limbs[index]
    }

    /// How many binary digits the set's number has: one more than the greatest member, and none for the empty set.
    pub(crate) fn bit_count(&self) -> usize
        ensures within { result ≤ 1024 }
        ensures above { self.now < 2 ^ result }
        ensures first { 0 < result → 2 ^ (result - 1) ≤ self.now }
    {
        for i in (0..16).rev() {
            let limb = self.limbs[i];
            if limb != 0 {
                return 64 * i + 64 - limb.leading_zeros() as usize;
            }
        }
        0
    }

    /// How many hexadecimal digits the set's number has, and one for the empty set.
    pub(crate) fn digit_count(&self) -> usize
        ensures within { result ≤ 256 }
        ensures digits { hexadecimal_digits self.now ≡ map digit_char (lowest_digits result self.now) }
    {
        let bits = self.bit_count();
        if bits == 0 {
            return 1;
        }
        (bits + 3) / 4
    }

    /// Puts four bits from bit 4 times an index on, above all that the set has.
    pub(crate) fn add_nibble(&mut self, index: usize, digit: u8)
        requires in_range { index < 256 }
        requires digit { digit < 16 }
        requires above { self.old < 2 ^ (4 * index) }
        ensures sum { self.new ≡ self.old + digit * 2 ^ (4 * index) }
    {
        self.limbs[index / 16] |= u64::from(digit) << (4 * (index % 16));
    }

    /// A law: the members are below 1,024.
    pub fn fact_members_are_below_1024(&self)
        ensures below { IsBelow 1024 self.now }
    {
        let _ = &self.limbs;
    }

    /// A law: the number that a contract sees is the sum of 2 to the power s over the members s.
    pub fn fact_number_is_sum(&self)
        ensures sum { self.now ≡ sum_of_powers 1024 self.now }
    {
        self.fact_members_are_below_1024();
    }

    /// A law: sets with the same members are the same number, and the other way round.
    pub fn fact_same_members(&self, other: &StateSet)
        ensures same { ((s : ℕ) → has self.now s ≡ has other.now s) ↔ (self.now ≡ other.now) }
    {}
}

/// Whether every bit of the limbs a is one of the limbs b.
fn are_within(a: &[u64; 16], b: &[u64; 16]) -> bool
    ensures yes { IsTrue result → (k : ℕ) → k < 16
        → bit_and (slice_index a.now k) (slice_index b.now k) ≡ slice_index a.now k }
    ensures all { ((k : ℕ) → k < 16
        → bit_and (slice_index a.now k) (slice_index b.now k) ≡ slice_index a.now k)
        → IsTrue result }
{
    for i in 0..16 {
        if a[i] & b[i] != a[i] {
            return false;
        }
    }
    true
}

/// The limb whose ones are the bits below this one: all 64 from bit 64 on.
fn ones_below(bit: u16) -> u64
    ensures ones { result ≡ 2 ^ min bit 64 - 1 }
{
    if bit < 64 { (1 << bit) - 1 } else { u64::MAX }
}
