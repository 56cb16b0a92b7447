//! Lists of cells with a value each.
ghost use Rattle.std.specs.Prelude.{◌≡◌, ℕ, List, ◌+◌, ◌-◌, ◌<◌, ◌≤◌, [], ◌∷◌, ◌++◌, length, replicate, slice_get, None, Some, IsOk, IfOk, OnOk, OnErr, IfSome};
ghost use Rattle.cw_links.specs.Lists.{list_at, without, with_front, IsUnlinked, AreApart};

use crate::links::Links;
use cw_core::NoMemory;
use std::alloc::Global;
use std::marker::Model;

/// Lists of cells. Each cell has a value, and stands in one list at most.
///
/// Lists and cells are named by number from 0 on, cells in the order in which they were made. Contracts see
/// the list of lists of cells (`lists`), the list of values (`values`), and how many more cells have their
/// memory already (`spare`). The lists are doubly linked (Knuth, The Art of Computer Programming, volume 1,
/// section 2.2.5), by twelve bytes for a cell, and every call but `make` and `reserve` is meant to take a
/// constant number of steps, but for a growth; no clause says that.
#[derive(Drop)]
pub struct Chains<T: Copy> {
    links: Links,
    values: Vec<T>,
}

impl<T: Copy> Model for Chains<T> {
    ghost use Rattle.std.specs.Prelude.{◌≡◌, ◌-◌, length, min, vec_len, vec_capacity};
    ghost use Rattle.cw_links.specs.Lists.{Chained, chained_code};

    ghost Value = { Chained T };

    ghost coded = { chained_code T.code };

    ghost view = { λ c. record { lists = c.links.lists; values = c.values.items; spare = min c.links.spare (vec_capacity c.values - vec_len c.values) } };

    ghost invariant = { λ c. c.links.cells ≡ length c.values.items };
}

impl<T: Copy> Chains<T> {
    /// So many empty lists, and no cell. The one error is want of memory.
    pub fn make(alloc: Global, lists: u32) -> Result<Chains<T>, NoMemory>
        ensures lists { IfOk result (λ chains. chains.lists ≡ replicate lists []) }
        ensures values { IfOk result (λ chains. chains.values ≡ []) }
    {
        let links = Links::make(alloc, lists as usize, 0)?;
        Ok(Chains {
            links,
            values: Vec::new(alloc),
        })
    }

    /// Takes the memory of so many more cells, beyond those that are made. The one error is want of memory;
    /// lists and values stay as they are, and what was spare stays spare.
    pub fn reserve(&mut self, more: u32) -> Result<(), NoMemory>
        ensures room { OnOk result (more ≤ self.new.spare) }
        ensures lists { self.new.lists ≡ self.old.lists }
        ensures values { self.new.values ≡ self.old.values }
        ensures spare { self.old.spare ≤ self.new.spare }
        ensures granted { more ≤ self.old.spare → IsOk result }
    {
        self.links.reserve(more as usize)?;
        self.values.reserve(more as usize)?;
        Ok(())
    }

    /// Makes a cell with this value, in front of the list, and answers its number. The one error is want of
    /// memory, which does not come while `spare` is positive; lists and values then stay as they are.
    #[inline(always)]
    pub fn push_front(&mut self, list: u32, value: T) -> Result<u32, NoMemory>
        requires list { list < length self.old.lists }
        requires few { length self.old.values < 4294967295 }
        ensures number { IfOk result (λ cell. cell ≡ length self.old.values) }
        ensures lists { IfOk result (λ cell. self.new.lists ≡ with_front self.old.lists list cell) }
        ensures values { OnOk result (self.new.values ≡ self.old.values ++ value ∷ []) }
        ensures spare { self.old.spare ≤ self.new.spare + 1 }
        ensures granted { 0 < self.old.spare → IsOk result }
        ensures refused_lists { OnErr result (self.new.lists ≡ self.old.lists) }
        ensures refused_values { OnErr result (self.new.values ≡ self.old.values) }
    {
        self.links.reserve(1)?;
        self.values.reserve(1)?;
        // There is room now, so the push is not refused.
        let cell = self.values.len() as u32;
        let _ = self.values.push(value);
        self.links.add_cell();
        self.links.put_front(cell, list);
        Ok(cell)
    }

    /// Moves the cell to the front of the list, from whichever list it stands in, if it stands in one.
    pub fn move_to(&mut self, cell: u32, list: u32)
        requires cell { cell < length self.old.values }
        requires list { list < length self.old.lists }
        ensures lists { self.new.lists ≡ with_front (without self.old.lists cell) list cell }
        ensures values { self.new.values ≡ self.old.values }
        ensures spare { self.new.spare ≡ self.old.spare }
    {
        self.links.move_to(cell, list);
    }

    /// Takes the cell out of its list, if it stands in one. It keeps its number and its value.
    pub fn unlink(&mut self, cell: u32)
        requires { cell < length self.old.values }
        ensures lists { self.new.lists ≡ without self.old.lists cell }
        ensures values { self.new.values ≡ self.old.values }
        ensures spare { self.new.spare ≡ self.old.spare }
    {
        self.links.unlink(cell);
    }

    /// Adds empty lists until there are so many. The one error is want of memory, which changes no list and no value.
    pub(crate) fn reach(&mut self, lists: u32) -> Result<(), NoMemory>
        ensures lists { OnOk result (self.new.lists ≡ self.old.lists ++ replicate (lists - length self.old.lists) []) }
        ensures values { self.new.values ≡ self.old.values }
        ensures refused { OnErr result (self.new.lists ≡ self.old.lists) }
    {
        self.links.reach(lists as usize)?;
        Ok(())
    }

    /// How many cells there are.
    pub(crate) fn cells(&self) -> usize
        ensures { result ≡ length self.now.values }
    {
        self.values.len()
    }

    /// How many lists there are.
    pub(crate) fn lists(&self) -> usize
        ensures value { result ≡ length self.now.lists }
        ensures few { result ≤ 4294967296 }
    {
        self.links.lists()
    }

    /// The first cell of the list; None exactly where the list is empty.
    pub fn first(&self, list: u32) -> Option<u32>
        requires { list < length self.now.lists }
        ensures first { result ≡ slice_get (list_at self.now.lists list) 0 }
        ensures known { IfSome result (λ cell. cell < length self.now.values) }
        ensures apart { AreApart self.now.lists (length self.now.values) }
    {
        self.links.first(list)
    }

    /// The cell after this one in its list; None exactly where the cell is the last, or stands in no list.
    pub fn next(&self, cell: u32) -> Option<u32>
        requires { cell < length self.now.values }
        ensures within { (list : ℕ) (front back : List ℕ) → list_at self.now.lists list ≡ front ++ cell ∷ back → result ≡ slice_get back 0 }
        ensures unlinked { IsUnlinked self.now.lists cell → result ≡ None }
        ensures known { IfSome result (λ next. next < length self.now.values) }
        ensures apart { AreApart self.now.lists (length self.now.values) }
    {
        self.links.next(cell)
    }

    /// The cell's value.
    pub fn get(&self, cell: u32) -> &T
        requires { cell < length self.now.values }
        ensures { slice_get self.now.values cell ≡ Some result.now }
    {
        &self.values[cell as usize]
    }
}
