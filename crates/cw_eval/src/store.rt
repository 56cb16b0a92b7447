//! The values of some names: of a frame, or of the file.

ghost use Rattle.std.specs.Prelude.{◌≡◌, [], length, slice_get, slice_set, unwrap_or, OnOk};
ghost use Rattle.cw_value.specs.Stores.{array_of, cell_of, with_cell};
ghost use Rattle.cw_eval.specs.Shown.{spot_in, store_of};

use cw_cells::Cells;
use cw_core::NoMemory;

/// The values of some names: of those that are no arrays, and of the arrays.
#[derive(Drop)]
pub struct Store {
    pub cells: Cells,
    pub arrays: Vec<Cells>,
}

/// A value's spot among them: that of a name, or of an element of an array.
#[derive(Clone, Copy, Drop, Debug, PartialEq, Eq)]
pub enum Spot {
    Plain(usize),
    Element(usize, usize),
}

impl Store {
    /// How many elements an array has.
    #[inline(always)]
    pub fn count(&self, array: usize) -> usize
        ensures count { result ≡ length (array_of (store_of self.now) array) }
    {
        match self.arrays.get(array) {
            Some(cells) => cells.len(),
            None => 0,
        }
    }

    /// What stands at a spot.
    #[inline(always)]
    pub fn get(&self, spot: Spot) -> Option<i64>
        ensures cell { result ≡ cell_of (store_of self.now) (spot_in spot) }
    {
        match spot {
            Spot::Plain(n) => self.cells.get(n),
            Spot::Element(n, i) => match self.arrays.get(n) {
                Some(cells) => cells.get(i),
                None => None,
            },
        }
    }

    /// Writes what stands at a spot. The one error is want of memory.
    #[inline(always)]
    pub fn set(&mut self, spot: Spot, cell: Option<i64>) -> Result<(), NoMemory>
        ensures written { OnOk result (store_of self.new ≡ with_cell (store_of self.old) (spot_in spot) cell) }
    {
        match spot {
            Spot::Plain(n) => self.cells.set(n, cell),
            Spot::Element(n, i) => set_element(&mut self.arrays, n, i, cell),
        }
    }
}

/// Sets an element of an array. The one error is want of memory.
fn set_element(
    arrays: &mut Vec<Cells>,
    array: usize,
    at: usize,
    cell: Option<i64>,
) -> Result<(), NoMemory>
    ensures { OnOk result (arrays.new.items ≡ slice_set arrays.old.items array (slice_set (unwrap_or (slice_get arrays.old.items array) []) at cell)) }
{
    match arrays.get_mut(array) {
        Some(cells) => cells.set(at, cell),
        None => Ok(()),
    }
}
