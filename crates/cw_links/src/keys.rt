//! Heights and keys of cells and keys of links, the least key first.

ghost use Rattle.std.specs.Prelude.{◌≡◌, ◌+◌, ◌*◌, ◌<◌, ◌≤◌, [], ◌∷◌, ◌++◌, length, replicate, slice_index, OnOk, OnErr, IfOk, IfSome, IfNone};
ghost use Rattle.cw_links.specs.Keys.{AreEmpty, AreWaiting, IsElement, IsNext, Pops, asked_with, key_of, lowered};

use crate::NearQueue;
use crate::cells::Cells;
use crate::popped::Popped;
use cw_core::NoMemory;
use cw_core::limits::CELLS;
use std::alloc::Global;
use std::marker::Model;

/// Cells and links by number, which wait each under a key, or don't wait, under 0. A cell waits for a height, under twice that.
///
/// Contracts see the list of the cells' heights, that of their keys and that of the links', and how many more of each have their
/// memory already. In the queue the cell c is the element 2 * c, and the link l is 2 * l + 1. Where a key is lowered, the element
/// stays under the older key too; what is taken there is passed over, since it isn't the key that is written.
#[derive(Drop)]
pub(crate) struct Keys {
    cells: Cells,
    due: Vec<u32>,
    queue: NearQueue,
}

impl Model for Keys {
    ghost use Rattle.std.specs.Prelude.{◌-◌, length, min, vec_len, vec_capacity};
    ghost use Rattle.cw_core.specs.Quantities.{limit_of};
    ghost use Rattle.cw_core.specs.declared.quantity.Quantity.TheVariants.{Cells as CellCount};
    ghost use Rattle.cw_links.specs.Keys.{Keyed, AreQueued};

    ghost Value = { Keyed };

    ghost view = { λ k. record {
      heights = k.cells.heights;
      asked = k.cells.asked;
      due = k.due.items;
      spare_cells = min (limit_of CellCount - length k.cells.asked) k.cells.spare;
      spare_links = min (limit_of CellCount - length k.due.items) (vec_capacity k.due - vec_len k.due);
    } };

    ghost invariant = { λ k. AreQueued k.cells.asked k.due.items k.queue };
}

impl Keys {
    /// No cells and no links.
    pub(crate) fn make(alloc: Global) -> Result<Keys, NoMemory>
        ensures heights { IfOk result (λ keys. keys.heights ≡ []) }
        ensures asked { IfOk result (λ keys. keys.asked ≡ []) }
        ensures due { IfOk result (λ keys. keys.due ≡ []) }
    {
        Ok(Keys {
            cells: Cells::make(alloc)?,
            due: Vec::new(alloc),
            queue: NearQueue::make(alloc)?,
        })
    }

    /// The height of a cell, 0 where it has none.
    #[inline(always)]
    pub(crate) fn height(&self, cell: usize) -> u32
        requires { cell < length self.now.asked }
        ensures { result ≡ slice_index self.now.heights cell }
    {
        self.cells.height(cell)
    }

    /// The key of a link.
    pub(crate) fn due(&self, link: usize) -> u32
        requires { link < length self.now.due }
        ensures { result ≡ slice_index self.now.due link }
    {
        self.due[link]
    }

    /// Has the cell wait for a height, unless it has one or waits for a lower one.
    #[inline(always)]
    pub(crate) fn ask_cell(&mut self, cell: usize, height: u32) -> Result<(), NoMemory>
        requires within { cell < length self.old.asked }
        requires some { 0 < height }
        requires few { height ≤ 2147483647 }
        ensures asked { OnOk result (self.new.asked ≡ asked_with self.old.heights self.old.asked cell (2 * height)) }
        ensures refused { OnErr result (self.new.asked ≡ self.old.asked) }
        ensures heights { self.new.heights ≡ self.old.heights }
        ensures due { self.new.due ≡ self.old.due }
    {
        let key = 2 * height;
        if self.cells.may_wait(cell, key) {
            self.queue.put(2 * cell as u32, key)?;
            self.cells.wait(cell, height);
        }
        Ok(())
    }

    /// Has the link wait under a key, unless it waits under a lower one.
    pub(crate) fn ask_link(&mut self, link: usize, key: u32) -> Result<(), NoMemory>
        requires within { link < length self.old.due }
        requires some { 0 < key }
        ensures due { OnOk result (self.new.due ≡ lowered self.old.due link key) }
        ensures refused { OnErr result (self.new.due ≡ self.old.due) }
        ensures heights { self.new.heights ≡ self.old.heights }
        ensures asked { self.new.asked ≡ self.old.asked }
    {
        let due = self.due[link];
        if due == 0 || key < due {
            self.queue.put(2 * link as u32 + 1, key)?;
            self.due[link] = key;
        }
        Ok(())
    }

    /// Takes what waits under the least key. A cell has the height then for which it waited.
    pub(crate) fn pop(&mut self) -> Popped
        ensures { Pops self.old self.new result }
    {
        match next(&mut self.queue, &self.cells, &self.due) {
            None => Popped::Nothing,
            Some((element, key)) => {
                let number = element / 2;
                if element % 2 == 0 {
                    self.cells.take(number, key / 2);
                    Popped::Cell(number, key)
                } else {
                    self.due[number] = 0;
                    Popped::Link(number, key)
                }
            }
        }
    }

    /// Takes the memory of so many more cells. The one error is want of memory; heights and keys stay as they are.
    pub(crate) fn reserve_cells(&mut self, more: usize) -> Result<(), NoMemory>
        requires few { length self.old.asked + more ≤ CELLS }
        ensures room { OnOk result (more ≤ self.new.spare_cells) }
        ensures links { self.new.spare_links ≡ self.old.spare_links }
        ensures heights { self.new.heights ≡ self.old.heights }
        ensures asked { self.new.asked ≡ self.old.asked }
        ensures due { self.new.due ≡ self.old.due }
    {
        self.cells.reserve(more)?;
        Ok(())
    }

    /// Takes the memory of one more link. The one error is want of memory; heights and keys stay as they are.
    pub(crate) fn reserve_link(&mut self) -> Result<(), NoMemory>
        requires few { length self.old.due < CELLS }
        ensures room { OnOk result (0 < self.new.spare_links) }
        ensures cells { self.new.spare_cells ≡ self.old.spare_cells }
        ensures heights { self.new.heights ≡ self.old.heights }
        ensures asked { self.new.asked ≡ self.old.asked }
        ensures due { self.new.due ≡ self.old.due }
    {
        self.due.reserve(1)?;
        Ok(())
    }

    /// Adds so many cells, which have no height and don't wait.
    pub(crate) fn push_cells(&mut self, many: usize)
        requires room { many ≤ self.old.spare_cells }
        ensures heights { self.new.heights ≡ self.old.heights ++ replicate many 0 }
        ensures asked { self.new.asked ≡ self.old.asked ++ replicate many 0 }
        ensures due { self.new.due ≡ self.old.due }
        ensures links { self.new.spare_links ≡ self.old.spare_links }
    {
        self.cells.push(many);
    }

    /// Adds a link, which doesn't wait.
    pub(crate) fn push_link(&mut self)
        requires room { 0 < self.old.spare_links }
        ensures due { self.new.due ≡ self.old.due ++ 0 ∷ [] }
        ensures heights { self.new.heights ≡ self.old.heights }
        ensures asked { self.new.asked ≡ self.old.asked }
        ensures cells { self.new.spare_cells ≡ self.old.spare_cells }
    {
        // There is room, so the push is not refused.
        let _ = self.due.push(0);
    }

    /// The heights of the cells. It takes no memory.
    pub(crate) fn into_heights(self) -> Vec<u32>
        ensures { result.items ≡ self.heights }
    {
        let Keys {
            cells,
            due: _,
            queue: _,
        } = self;
        cells.into_heights()
    }
}

/// Takes elements until one is taken under the key that it has.
fn next(queue: &mut NearQueue, cells: &Cells, due: &[u32]) -> Option<(usize, u32)>
    requires { AreWaiting cells.now.asked due.now queue.old }
    ensures next { IfSome result (λ taken. IsNext cells.now.asked due.now queue.new taken.0 taken.1) }
    ensures none { IfNone result (AreEmpty cells.now.asked due.now) }
    ensures waiting { IfNone result (AreWaiting cells.now.asked due.now queue.new) }
{
    while let Some((element, key)) = queue.take_wide() {
        if key_of(cells, due, element) == key {
            return Some((element, key));
        }
    }
    None
}

/// The key of an element.
#[inline(always)]
fn key_of(cells: &Cells, due: &[u32], element: usize) -> u32
    requires { IsElement cells.now.asked due.now element }
    ensures { result ≡ key_of cells.now.asked due.now element }
{
    let number = element / 2;
    if element % 2 == 0 {
        cells.key(number)
    } else {
        due[number]
    }
}
