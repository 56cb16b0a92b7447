//! Lists of cells that grow at their front, with a value for each cell.
ghost use Rattle.std.specs.Prelude.{◌≡◌, ℕ, List, ◌+◌, ◌<◌, ◌≤◌, [], ◌∷◌, ◌++◌, length, replicate, slice_get, Some, IfOk, OnOk, IfSome, IfNone};
ghost use Rattle.cw_links.specs.Lists.{list_at, with_front, AreApart};

use cw_core::NoMemory;
use std::alloc::Global;
use std::marker::Model;

/// In place of a cell's number: no cell follows.
const NONE: u32 = u32::MAX;

/// A cell: its value, and the number of the cell after it.
#[derive(Clone, Copy, Drop)]
struct Linked<T: Copy> {
    value: T,
    after: u32,
}

/// Lists of cells that grow at their front alone. Each cell has a value, and stands where it was put.
///
/// Lists and cells are named by number from 0 on, cells in the order in which they were made. Contracts see what they see of `Chains`.
/// A cell keeps the cell after it, four bytes beside its value, and a list keeps its first cell: a cell is put in by one write for
/// each, where `Chains` write five.
#[derive(Drop)]
pub struct Trails<T: Copy> {
    first: Vec<u32>,
    cells: Vec<Linked<T>>,
}

impl<T: Copy> Model for Trails<T> {
    ghost use Rattle.std.specs.Prelude.{◌-◌, map, vec_len, vec_capacity};
    ghost use Rattle.cw_links.specs.Lists.{Chained, chained_code};
    ghost use Rattle.cw_links.specs.Rows.{lists_of};
    ghost use Rattle.cw_links.specs.Trails.{AreTrails};

    ghost Value = { Chained T };

    ghost coded = { chained_code T.code };

    ghost view = { λ t. record { lists = lists_of t.first.items (map (λ c. c.after) t.cells.items); values = map (λ c. c.value) t.cells.items; spare = vec_capacity t.cells - vec_len t.cells } };

    ghost invariant = { λ t. AreTrails t.first.items (map (λ c. c.after) t.cells.items) };
}

impl<T: Copy> Trails<T> {
    /// So many empty lists, and no cell. The one error is want of memory.
    pub fn make(alloc: Global, lists: u32) -> Result<Trails<T>, NoMemory>
        ensures lists { IfOk result (λ trails. trails.lists ≡ replicate lists []) }
        ensures values { IfOk result (λ trails. trails.values ≡ []) }
    {
        let first = vec![in alloc; NONE; lists as usize]?;
        Ok(Trails {
            first,
            cells: Vec::new(alloc),
        })
    }

    /// Takes the memory of so many more cells, beyond those that are made. The one error is want of memory; lists and values stay as
    /// they are.
    pub fn reserve(&mut self, more: u32) -> Result<(), NoMemory>
        ensures lists { self.new.lists ≡ self.old.lists }
        ensures values { self.new.values ≡ self.old.values }
    {
        self.cells.reserve(more as usize)?;
        Ok(())
    }

    /// Makes a cell with this value, in front of the list. The one error is want of memory.
    #[inline(always)]
    pub fn push_front(&mut self, list: u32, value: T) -> Result<(), NoMemory>
        requires list { list < length self.old.lists }
        requires few { length self.old.values < 4294967295 }
        ensures lists { OnOk result (self.new.lists ≡ with_front self.old.lists list (length self.old.values)) }
        ensures values { OnOk result (self.new.values ≡ self.old.values ++ value ∷ []) }
    {
        let cell = self.cells.len() as u32;
        self.cells.push(Linked {
            value,
            after: self.first[list as usize],
        })?;
        self.first[list as usize] = cell;
        Ok(())
    }

    /// How many cells there are.
    pub(crate) fn cells(&self) -> usize
        ensures { result ≡ length self.now.values }
    {
        self.cells.len()
    }

    /// How many lists there are.
    pub(crate) fn lists(&self) -> usize
        ensures value { result ≡ length self.now.lists }
        ensures few { result ≤ 4294967296 }
    {
        self.first.len()
    }

    /// The first cell of the list; None exactly where the list is empty.
    pub fn first(&self, list: u32) -> Option<u32>
        requires { list < length self.now.lists }
        ensures first { result ≡ slice_get (list_at self.now.lists list) 0 }
        ensures known { IfSome result (λ cell. cell < length self.now.values) }
        ensures apart { AreApart self.now.lists (length self.now.values) }
    {
        cell_of(self.first[list as usize])
    }

    /// The cell after this one in its list; None exactly where the cell is the last.
    pub fn next(&self, cell: u32) -> Option<u32>
        requires { cell < length self.now.values }
        ensures within { (list : ℕ) (front back : List ℕ) → list_at self.now.lists list ≡ front ++ cell ∷ back → result ≡ slice_get back 0 }
        ensures known { IfSome result (λ next. next < length self.now.values) }
        ensures apart { AreApart self.now.lists (length self.now.values) }
    {
        cell_of(self.cells[cell as usize].after)
    }

    /// The cell's value.
    pub fn get(&self, cell: u32) -> &T
        requires { cell < length self.now.values }
        ensures { slice_get self.now.values cell ≡ Some result.now }
    {
        &self.cells[cell as usize].value
    }
}

/// The cell of this number, if it is one.
fn cell_of(number: u32) -> Option<u32>
    ensures some { IfSome result (λ cell. (cell ≡ number) × (cell < 4294967295)) }
    ensures none { IfNone result (number ≡ 4294967295) }
{
    if number == NONE { None } else { Some(number) }
}
