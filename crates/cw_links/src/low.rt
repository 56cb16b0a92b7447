//! Elements that wait under the least keys, a vector for each key.

ghost use Rattle.std.specs.Prelude.{◌≡◌, ℕ, ◌<◌, ◌≤◌, ◌↔◌, [], length, IsNone, IfOk, OnOk, OnErr, IfSome, IfNone, true, false};
ghost use Rattle.cw_links.specs.Lists.{list_at};
ghost use Rattle.cw_links.specs.Low.{stacks_in};
ghost use Rattle.cw_links.specs.Queues.{AreNone, HasLower, Puts, Takes};

use cw_core::NoMemory;
use std::alloc::Global;
use std::marker::Model;

/// How many keys have a vector each.
const KEYS: usize = 8;

/// Elements that wait under the first keys, of which none waits under 0.
///
/// Contracts see the list of the stacks, one for each of these keys from 0 on: the elements that wait under that key, the last one
/// that was put first. No key below the floor has an element.
#[derive(Drop)]
pub(crate) struct Low {
    stacks: Vec<Vec<u32>>,
    floor: usize,
}

impl Model for Low {
    ghost use Rattle.std.specs.Prelude.{ℕ, List};
    ghost use Rattle.cw_links.specs.Low.{AreLow, stacks_in};

    ghost Value = { List (List ℕ) };

    ghost view = { λ l. stacks_in l.stacks.items };

    ghost invariant = { λ l. AreLow (stacks_in l.stacks.items) l.floor };
}

impl Low {
    /// Nothing waits. The one error is want of memory.
    pub(crate) fn make(alloc: Global) -> Result<Low, NoMemory>
        ensures { IfOk result AreNone }
    {
        Ok(Low {
            stacks: make_stacks(alloc)?,
            floor: KEYS,
        })
    }

    /// How many keys have a vector.
    #[inline(always)]
    pub(crate) fn keys(&self) -> usize
        ensures { result ≡ length self.now }
    {
        self.stacks.len()
    }

    /// Has the element wait under the key, in front of what waits there. The one error is want of memory, which changes nothing.
    #[inline(always)]
    pub(crate) fn put(&mut self, element: u32, key: u32) -> Result<(), NoMemory>
        requires some { 0 < key }
        requires within { key < length self.old }
        ensures put { OnOk result (Puts self.old self.new element key) }
        ensures keys { length self.new ≡ length self.old }
        ensures refused { OnErr result (self.new ≡ self.old) }
    {
        self.stacks[key as usize].push(element)?;
        self.floor = self.floor.min(key as usize);
        Ok(())
    }

    /// Whether nothing waits under a lower key than this one.
    pub(crate) fn is_clear_below(&mut self, key: u32) -> bool
        ensures clear { result ≡ true → (k : ℕ) → k < key → list_at self.old k ≡ [] }
        ensures some { result ≡ false → HasLower self.old key }
        ensures same { self.new ≡ self.old }
    {
        let least = lowest(&self.stacks, self.floor);
        self.floor = least;
        least >= self.stacks.len() || key as usize <= least
    }

    /// Takes the first element under the least key, with that key; None exactly where nothing waits.
    #[inline(always)]
    pub(crate) fn take(&mut self) -> Option<(u32, u32)>
        ensures none { IsNone result ↔ AreNone self.old }
        ensures taken { IfSome result (λ taken. Takes self.old self.new taken.0 taken.1) }
        ensures within { IfSome result (λ taken. taken.1 < length self.old) }
        ensures keys { length self.new ≡ length self.old }
        ensures left { IfNone result (self.new ≡ self.old) }
    {
        let key = lowest(&self.stacks, self.floor);
        self.floor = key;
        if key >= self.stacks.len() {
            return None;
        }
        match self.stacks[key].pop() {
            None => None,
            Some(element) => Some((element, key as u32)),
        }
    }
}

/// A vector without elements for each key.
fn make_stacks(alloc: Global) -> Result<Vec<Vec<u32>>, NoMemory>
    ensures many { IfOk result (λ stacks. length stacks.items ≡ KEYS) }
    ensures none { IfOk result (λ stacks. AreNone (stacks_in stacks.items)) }
{
    let mut stacks = Vec::with_capacity(alloc, KEYS)?;
    while stacks.len() < KEYS {
        stacks.push(Vec::new(alloc))?;
    }
    Ok(stacks)
}

/// The first key, from the floor on, under which something waits; one that has no vector where nothing does.
#[inline(always)]
fn lowest(stacks: &[Vec<u32>], floor: usize) -> usize
    ensures from { floor ≤ result }
    ensures clear { (key : ℕ) → floor ≤ key → key < result → list_at (stacks_in stacks.now) key ≡ [] }
    ensures some { result < length stacks.now → list_at (stacks_in stacks.now) result ≡ [] → ⊥ }
{
    let mut key = floor;
    while key < stacks.len() && stacks[key].is_empty() {
        key += 1;
    }
    key
}
