//! The links of cells in lists: indices kept in flat vectors.
ghost use Rattle.std.specs.Prelude.{◌≡◌, ◌≢◌, ℕ, List, ◌+◌, ◌-◌, ◌<◌, ◌≤◌, ◌==◌, true, false, if◌then◌else◌, [], ◌∷◌, ◌++◌, length, replicate, slice_get, slice_index, IsOk, IfOk, OnOk, OnErr, IfSome, IfNone};
ghost use Rattle.cw_links.specs.Lists.{list_at, without, with_front, IsUnlinked, AreApart};
ghost use Rattle.cw_links.specs.Rows.{next_at};

use cw_core::NoMemory;
use std::alloc::Global;
use std::marker::Model;

/// In place of a cell's number: no cell follows.
const NONE: u32 = u32::MAX;

/// In place of a node's number: the cell stands in no list.
const OUT: u64 = u64::MAX;

/// Nodes below this number are cells; from it on they are the heads of the lists, in order.
const HEADS: u64 = 1 << 32;

/// Lists of cells, of which each cell stands in one at most.
///
/// A cell keeps the cell after it and the node before it, and a list keeps its first cell: twelve bytes
/// for a cell and four for a list.
#[derive(Drop)]
pub(crate) struct Links {
    first: Vec<u32>,
    next: Vec<u32>,
    before: Vec<u64>,
}

impl Model for Links {
    ghost use Rattle.std.specs.Prelude.{◌-◌, length, min, vec_len, vec_capacity};
    ghost use Rattle.cw_links.specs.Rows.{Linked, lists_of, AreLinks};

    ghost Value = { Linked };

    ghost view = { λ l. record { lists = lists_of l.first.items l.next.items; cells = length l.next.items; spare = min (vec_capacity l.next - vec_len l.next) (vec_capacity l.before - vec_len l.before) } };

    ghost invariant = { λ l. AreLinks l.first.items l.next.items l.before.items (lists_of l.first.items l.next.items) };
}

impl Links {
    /// So many empty lists, and so many cells that stand in none.
    pub(crate) fn make(alloc: Global, lists: usize, cells: usize) -> Result<Links, NoMemory>
        requires few_lists { lists ≤ 4294967296 }
        requires few_cells { cells ≤ 4294967295 }
        ensures lists { IfOk result (λ links. links.lists ≡ replicate lists []) }
        ensures cells { IfOk result (λ links. links.cells ≡ cells) }
    {
        let next = vec![in alloc; NONE; cells]?;
        let before = vec![in alloc; OUT; cells]?;
        let mut links = Links {
            first: Vec::new(alloc),
            next,
            before,
        };
        links.reach(lists)?;
        Ok(links)
    }

    /// Adds empty lists until there are so many.
    pub(crate) fn reach(&mut self, lists: usize) -> Result<(), NoMemory>
        requires { lists ≤ 4294967296 }
        ensures lists { OnOk result (self.new.lists ≡ self.old.lists ++ replicate (lists - length self.old.lists) []) }
        ensures cells { self.new.cells ≡ self.old.cells }
        ensures spare { self.new.spare ≡ self.old.spare }
        ensures refused { OnErr result (self.new ≡ self.old) }
    {
        if self.first.len() < lists {
            self.first.resize(lists, NONE)?;
        }
        Ok(())
    }

    /// Takes the memory of so many more cells.
    #[inline(always)]
    pub(crate) fn reserve(&mut self, more: usize) -> Result<(), NoMemory>
        ensures room { OnOk result (more ≤ self.new.spare) }
        ensures lists { self.new.lists ≡ self.old.lists }
        ensures cells { self.new.cells ≡ self.old.cells }
        ensures spare { self.old.spare ≤ self.new.spare }
        ensures granted { more ≤ self.old.spare → IsOk result }
    {
        self.next.reserve(more)?;
        self.before.reserve(more)?;
        Ok(())
    }

    /// Adds a cell, which stands in no list. Its memory is there already.
    #[inline(always)]
    pub(crate) fn add_cell(&mut self)
        requires room { 0 < self.old.spare }
        requires few { self.old.cells < 4294967295 }
        ensures lists { self.new.lists ≡ self.old.lists }
        ensures unlinked { without self.old.lists self.old.cells ≡ self.old.lists }
        ensures cells { self.new.cells ≡ self.old.cells + 1 }
        ensures spare { self.old.spare ≤ self.new.spare + 1 }
    {
        // There is room, so neither push is refused.
        let _ = self.next.push(NONE);
        let _ = self.before.push(OUT);
    }

    /// Takes the cell out of its list.
    pub(crate) fn unlink(&mut self, cell: u32)
        requires { cell < self.old.cells }
        ensures lists { self.new.lists ≡ without self.old.lists cell }
        ensures cells { self.new.cells ≡ self.old.cells }
        ensures spare { self.new.spare ≡ self.old.spare }
    {
        let before = self.before[cell as usize];
        if before == OUT {
            return;
        }
        let after = self.next[cell as usize];
        set_after(&mut self.first, &mut self.next, before, after);
        set_before(&mut self.before, after, before);
        self.next[cell as usize] = NONE;
        self.before[cell as usize] = OUT;
    }

    /// Puts a cell that stands in no list in front of this one.
    #[inline(always)]
    pub(crate) fn put_front(&mut self, cell: u32, list: u32)
        requires cell { cell < self.old.cells }
        requires list { list < length self.old.lists }
        requires unlinked { without self.old.lists cell ≡ self.old.lists }
        ensures lists { self.new.lists ≡ with_front self.old.lists list cell }
        ensures cells { self.new.cells ≡ self.old.cells }
        ensures spare { self.new.spare ≡ self.old.spare }
    {
        let after = self.first[list as usize];
        self.first[list as usize] = cell;
        self.next[cell as usize] = after;
        self.before[cell as usize] = HEADS + list as u64;
        set_before(&mut self.before, after, cell as u64);
    }

    /// Takes the cell out of its list, and puts it in front of this one.
    pub(crate) fn move_to(&mut self, cell: u32, list: u32)
        requires cell { cell < self.old.cells }
        requires list { list < length self.old.lists }
        ensures lists { self.new.lists ≡ with_front (without self.old.lists cell) list cell }
        ensures cells { self.new.cells ≡ self.old.cells }
        ensures spare { self.new.spare ≡ self.old.spare }
    {
        self.unlink(cell);
        self.put_front(cell, list);
    }

    /// How many lists there are.
    pub(crate) fn lists(&self) -> usize
        ensures value { result ≡ length self.now.lists }
        ensures few { result ≤ 4294967296 }
    {
        self.first.len()
    }

    /// The first cell of the list.
    pub(crate) fn first(&self, list: u32) -> Option<u32>
        requires { list < length self.now.lists }
        ensures first { result ≡ slice_get (list_at self.now.lists list) 0 }
        ensures known { IfSome result (λ cell. cell < self.now.cells) }
        ensures apart { AreApart self.now.lists self.now.cells }
    {
        cell_of(self.first[list as usize])
    }

    /// The cell after this one in its list.
    pub(crate) fn next(&self, cell: u32) -> Option<u32>
        requires { cell < self.now.cells }
        ensures within { (list : ℕ) (front back : List ℕ) → list_at self.now.lists list ≡ front ++ cell ∷ back → result ≡ slice_get back 0 }
        ensures unlinked { IsUnlinked self.now.lists cell → result ≡ None }
        ensures known { IfSome result (λ next. next < self.now.cells) }
        ensures apart { AreApart self.now.lists self.now.cells }
    {
        cell_of(self.next[cell as usize])
    }
}

/// The first cell of the lowest list, from the floor on, that has one, and the number of that list.
pub(crate) fn lowest(links: &Links, floor: usize) -> Option<(u32, u32)>
    ensures first { IfSome result (λ found. slice_get (list_at links.now.lists found.1) 0 ≡ Some found.0) }
    ensures lowest { IfSome result (λ found. (height : ℕ) → floor ≤ height → height < found.1 → list_at links.now.lists height ≡ []) }
    ensures from { IfSome result (λ found. floor ≤ found.1) }
    ensures known { IfSome result (λ found. found.0 < links.now.cells) }
    ensures apart { IfSome result (λ found. AreApart links.now.lists links.now.cells) }
    ensures none { IfNone result ((height : ℕ) → floor ≤ height → list_at links.now.lists height ≡ []) }
{
    for height in floor..links.lists() {
        if let Some(cell) = links.first(height as u32) {
            return Some((cell, height as u32));
        }
    }
    None
}

/// Whether the lists from the floor on that are below another one have no cell.
pub(crate) fn are_clear(links: &Links, floor: usize, below: usize) -> bool
    ensures clear { result ≡ true → (list : ℕ) → floor ≤ list → list < below → list_at links.now.lists list ≡ [] }
    ensures some { result ≡ false → (list : ℕ) × (floor ≤ list) × (list < below) × (list_at links.now.lists list ≡ [] → ⊥) }
{
    for list in floor..links.lists().min(below) {
        if let Some(_) = links.first(list as u32) {
            return false;
        }
    }
    true
}

/// The cell of this number, if it is one.
fn cell_of(number: u32) -> Option<u32>
    ensures some { IfSome result (λ cell. (cell ≡ number) × (cell < 4294967295)) }
    ensures none { IfNone result (number ≡ 4294967295) }
{
    if number == NONE { None } else { Some(number) }
}

/// Sets what comes after the node, a cell or a list's head.
fn set_after(first: &mut [u32], next: &mut [u32], node: u64, after: u32)
    requires cell { node < 4294967296 → node < length next.old }
    requires head { 4294967296 ≤ node → node < 4294967296 + length first.old }
    ensures { (y : ℕ) → next_at first.new next.new y ≡ (if y == node then after else next_at first.old next.old y) }
{
    if node < HEADS {
        next[node as usize] = after;
    } else {
        first[(node - HEADS) as usize] = after;
    }
}

/// Sets the node before the cell, if there is a cell.
fn set_before(before: &mut [u64], cell: u32, node: u64)
    requires cell { cell ≢ 4294967295 → cell < length before.old }
    requires few { length before.old ≤ 4294967295 }
    ensures { (y : ℕ) → y < length before.old → slice_index before.new y ≡ (if y == cell then node else slice_index before.old y) }
{
    if cell != NONE {
        before[cell as usize] = node;
    }
}
