//! Elements that wait under keys, the least key first.
ghost use Rattle.std.specs.Prelude.{◌≡◌, ℕ, ◌+◌, ◌<◌, ◌↔◌, [], length, IsNone, IfOk, OnOk, OnErr, IfSome, IfNone, true, false};
ghost use Rattle.std.specs.List.{concat};
ghost use Rattle.cw_links.specs.Lists.{list_at, without};
ghost use Rattle.cw_links.specs.Queues.{AreNone, HasLower, Puts, Takes, stacks_of};
ghost use Rattle.cw_links.specs.Rows.{has};

use crate::links::{Links, are_clear, lowest};
use cw_core::NoMemory;
use std::alloc::Global;
use std::marker::Model;

/// The list of the entries that are spare. The list of any other number has the entries of that key.
const SPARE: u32 = 0;

/// Elements that wait under keys, of which none is 0. An element may wait more than once.
///
/// Contracts see the list of the stacks, one for each key from 0 on: the elements that wait under that key, the last one that
/// was put first. What waits has an entry each, in the list of its key, and an entry that is taken is spare from then on. So
/// the memory is sixteen bytes for each entry of the most that waited at one time, and four for each key up to the greatest.
/// No key below the floor has an entry; so `put` is meant to take a constant number of steps, but for a growth, and `take` too,
/// but for the keys that it passes; no clause says that.
#[derive(Drop)]
pub struct Queue {
    links: Links,
    elements: Vec<u32>,
    floor: usize,
}

impl Model for Queue {
    ghost use Rattle.std.specs.Prelude.{ℕ, List};
    ghost use Rattle.cw_links.specs.Queues.{IsQueue, stacks_of};

    ghost Value = { List (List ℕ) };

    ghost view = { λ q. stacks_of q.elements.items q.links.lists };

    ghost invariant = { λ q. IsQueue q.links.lists q.links.cells q.elements.items q.floor };
}

impl Queue {
    /// Nothing waits. The one error is want of memory.
    pub fn make(alloc: Global) -> Result<Queue, NoMemory>
        ensures { IfOk result AreNone }
    {
        let links = Links::make(alloc, 1, 0)?;
        Ok(Queue {
            links,
            elements: Vec::new(alloc),
            floor: 1,
        })
    }

    /// Has the element wait under the key, in front of what waits there. The one error is want of memory, as which counts that
    /// 4,294,967,295 wait already; it changes nothing.
    pub fn put(&mut self, element: u32, key: u32) -> Result<(), NoMemory>
        requires { 0 < key }
        ensures put { OnOk result (Puts self.old self.new element key) }
        ensures refused { OnErr result (self.new ≡ self.old) }
    {
        let entry = spare_entry(&mut self.links, &mut self.elements)?;
        self.links.reach(key as usize + 1)?;
        self.elements[entry as usize] = element;
        self.links.move_to(entry, key);
        self.floor = self.floor.min(key as usize);
        Ok(())
    }

    /// Whether nothing waits under a lower key than this one.
    pub fn is_clear_below(&mut self, key: u32) -> bool
        ensures clear { result ≡ true → (k : ℕ) → k < key → list_at self.old k ≡ [] }
        ensures some { result ≡ false → HasLower self.old key }
        ensures same { self.new ≡ self.old }
    {
        if !are_clear(&self.links, self.floor, key as usize) {
            return false;
        }
        self.floor = self.floor.max(key as usize);
        true
    }

    /// Takes the first element under the least key, and answers it and that key; None exactly where nothing waits.
    pub fn take(&mut self) -> Option<(u32, u32)>
        ensures none { IsNone result ↔ AreNone self.old }
        ensures taken { IfSome result (λ taken. Takes self.old self.new taken.0 taken.1) }
        ensures left { IfNone result (self.new ≡ self.old) }
    {
        match lowest(&self.links, self.floor) {
            Some((entry, key)) => {
                self.floor = key as usize;
                self.links.move_to(entry, SPARE);
                Some((self.elements[entry as usize], key))
            }
            None => {
                self.floor = self.links.lists();
                None
            }
        }
    }
}

/// A spare entry, which is made where there is none. It stands in a list, as each of the others does.
fn spare_entry(links: &mut Links, elements: &mut Vec<u32>) -> Result<u32, NoMemory>
    requires known { links.old.cells ≡ length elements.old.items }
    requires filled { length (concat links.old.lists) ≡ links.old.cells }
    requires some { 0 < length links.old.lists }
    ensures within { IfOk result (λ entry. entry < links.new.cells) }
    ensures unkeyed { IfOk result (λ entry. (key : ℕ) → 0 < key → has (list_at links.new.lists key) entry ≡ false) }
    ensures others { IfOk result (λ entry. length (concat (without links.new.lists entry)) + 1 ≡ links.new.cells) }
    ensures reused { 0 < length (list_at links.old.lists 0) → links.new.cells ≡ links.old.cells }
    ensures known { links.new.cells ≡ length elements.new.items }
    ensures filled { length (concat links.new.lists) ≡ links.new.cells }
    ensures lists { length links.new.lists ≡ length links.old.lists }
    ensures kept { stacks_of elements.new.items links.new.lists ≡ stacks_of elements.old.items links.old.lists }
{
    if let Some(entry) = links.first(SPARE) {
        return Ok(entry);
    }
    if elements.len() >= u32::MAX as usize {
        return Err(NoMemory);
    }
    links.reserve(1)?;
    elements.reserve(1)?;
    // There is room now, so the push is not refused.
    let entry = elements.len() as u32;
    let _ = elements.push(0);
    links.add_cell();
    links.put_front(entry, SPARE);
    Ok(entry)
}
