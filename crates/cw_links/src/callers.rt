//! Where links go, and the lists of those that go there.

ghost use Rattle.std.specs.Prelude.{◌≡◌, ℕ, List, ◌+◌, ◌<◌, ◌≤◌, [], ◌∷◌, ◌++◌, None, length, slice_get, slice_index, slice_set, Contains, OnOk, IfOk, IfSome};
ghost use Rattle.cw_links.specs.Lists.{list_at, with_front, AreApart};

use crate::Chains;
use cw_core::NoMemory;
use cw_core::limits::CELLS;
use std::alloc::Global;
use std::marker::Model;

/// Links by number, each with the number of the list in which it stands, at first 0.
///
/// Contracts see these numbers (`to`), the lists (`lists`), and how many more links have their memory already (`spare`).
#[derive(Drop)]
pub(crate) struct Callers {
    to: Vec<u32>,
    chains: Chains<u8>,
    /// How many lists there are.
    lists: u32,
}

impl Model for Callers {
    ghost use Rattle.std.specs.Prelude.{◌-◌, min, vec_len, vec_capacity};
    ghost use Rattle.cw_links.specs.Callers.{Calling, AreLinked};

    ghost Value = { Calling };

    ghost view = { λ c. record { to = c.to.items; lists = c.chains.lists; spare = min c.chains.spare (vec_capacity c.to - vec_len c.to) } };

    ghost invariant = { λ c. AreLinked c.to.items c.chains c.lists };
}

impl Callers {
    /// No links, and two lists.
    pub(crate) fn make(alloc: Global) -> Result<Callers, NoMemory>
        ensures to { IfOk result (λ callers. callers.to ≡ []) }
        ensures lists { IfOk result (λ callers. length callers.lists ≡ 2) }
    {
        Ok(Callers {
            to: Vec::new(alloc),
            chains: Chains::make(alloc, 2)?,
            lists: 2,
        })
    }

    /// How many links there are.
    pub(crate) fn len(&self) -> usize
        ensures { result ≡ length self.now.to }
    {
        self.to.len()
    }

    /// The number of the list in which a link stands.
    pub(crate) fn to(&self, link: usize) -> u32
        requires { link < length self.now.to }
        ensures { result ≡ slice_index self.now.to link }
    {
        self.to[link]
    }

    /// Takes the memory of one more link. The one error is want of memory; links stand where they stood.
    pub(crate) fn reserve(&mut self) -> Result<(), NoMemory>
        ensures room { OnOk result (0 < self.new.spare) }
        ensures to { self.new.to ≡ self.old.to }
        ensures lists { self.new.lists ≡ self.old.lists }
    {
        self.to.reserve(1)?;
        self.chains.reserve(1)?;
        Ok(())
    }

    /// Adds a link, which stands in the list 0.
    pub(crate) fn push(&mut self)
        requires few { length self.old.to < CELLS }
        requires room { 0 < self.old.spare }
        ensures to { self.new.to ≡ self.old.to ++ 0 ∷ [] }
        ensures lists { length self.new.lists ≡ length self.old.lists }
    {
        // There is room, so the push is not refused.
        push_in(&mut self.chains);
        let _ = self.to.push(0);
    }

    /// Moves the link to a list.
    pub(crate) fn tie(&mut self, link: usize, list: u32)
        requires link { link < length self.old.to }
        requires list { list < length self.old.lists }
        ensures to { self.new.to ≡ slice_set self.old.to link list }
        ensures lists { length self.new.lists ≡ length self.old.lists }
    {
        self.chains.move_to(link as u32, list);
        self.to[link] = list;
    }

    /// Makes so many lists, if there are fewer. The one error is want of memory.
    pub(crate) fn reach(&mut self, lists: u32) -> Result<(), NoMemory>
        requires few { lists ≤ 8388608 }
        ensures enough { OnOk result (lists ≤ length self.new.lists) }
        ensures more { length self.old.lists ≤ length self.new.lists }
        ensures to { self.new.to ≡ self.old.to }
    {
        if lists <= self.lists {
            return Ok(());
        }
        self.chains.reach(2 * lists)?;
        self.lists = 2 * lists;
        Ok(())
    }

    /// The first link of a list; None exactly where the list is empty. Each link stands in its list.
    pub(crate) fn first(&self, list: u32) -> Option<u32>
        requires { list < length self.now.lists }
        ensures first { result ≡ slice_get (list_at self.now.lists list) 0 }
        ensures known { IfSome result (λ link. link < length self.now.to) }
        ensures apart { AreApart self.now.lists (length self.now.to) }
        ensures there { (k : ℕ) → k < length self.now.to → Contains (list_at self.now.lists (slice_index self.now.to k)) k }
    {
        self.chains.first(list)
    }

    /// The link after this one in its list; None where it is the last.
    pub(crate) fn next(&self, link: u32) -> Option<u32>
        requires { link < length self.now.to }
        ensures within { (list : ℕ) (front back : List ℕ) → list_at self.now.lists list ≡ front ++ link ∷ back → result ≡ slice_get back 0 }
        ensures known { IfSome result (λ next. next < length self.now.to) }
        ensures apart { AreApart self.now.lists (length self.now.to) }
    {
        self.chains.next(link)
    }
}

/// Adds a link in front of the list 0.
fn push_in(chains: &mut Chains<u8>)
    requires some { 0 < length chains.old.lists }
    requires few { length chains.old.values < CELLS }
    requires room { 0 < chains.old.spare }
    ensures lists { chains.new.lists ≡ with_front chains.old.lists 0 (length chains.old.values) }
    ensures values { chains.new.values ≡ chains.old.values ++ 0 ∷ [] }
{
    // There is room, so the push is not refused.
    let _ = chains.push_front(0, 0);
}
