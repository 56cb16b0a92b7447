//! Cells in a number each, which has a cell's height or the key under which it waits.

ghost use Rattle.std.specs.Prelude.{◌≡◌, ◌+◌, ◌*◌, ◌<◌, ◌≤◌, [], ◌++◌, length, map, replicate, slice_index, slice_set, IfOk, OnOk};
ghost use Rattle.cw_links.specs.Cells.{height_in, key_in, may_wait};

use cw_core::NoMemory;
use cw_core::limits::CELLS;
use std::alloc::Global;
use std::marker::Model;

/// For how many cells there is memory at first. What isn't used of it costs nothing, and a vector that grows is copied, cell by cell.
const ROOM: usize = 65_536;

/// Cells by number, each of which has a height, or waits for one, or neither.
///
/// Contracts see the list of heights and that of keys, 0 where there is none, and how many more cells have their memory already. A
/// cell that has a height doesn't wait any more, so one number serves for both: it is 2 * n while the cell waits for the height n,
/// which is its key, and 2 * n + 1 from then on.
#[derive(Drop)]
pub(crate) struct Cells {
    numbers: Vec<u32>,
}

impl Model for Cells {
    ghost use Rattle.std.specs.Prelude.{◌-◌, map, vec_len, vec_capacity};
    ghost use Rattle.cw_links.specs.Cells.{Celled, height_in, key_in};

    ghost Value = { Celled };

    ghost view = { λ c. record { heights = map height_in c.numbers.items; asked = map key_in c.numbers.items; spare = vec_capacity c.numbers - vec_len c.numbers } };
}

impl Cells {
    /// No cells, with the memory of some. The one error is want of memory.
    pub(crate) fn make(alloc: Global) -> Result<Cells, NoMemory>
        ensures heights { IfOk result (λ cells. cells.heights ≡ []) }
        ensures asked { IfOk result (λ cells. cells.asked ≡ []) }
    {
        Ok(Cells {
            numbers: Vec::with_capacity(alloc, ROOM)?,
        })
    }

    /// The height of a cell, 0 where it has none.
    #[inline(always)]
    pub(crate) fn height(&self, cell: usize) -> u32
        requires { cell < length self.now.asked }
        ensures { result ≡ slice_index self.now.heights cell }
    {
        height_in(self.numbers[cell])
    }

    /// The key under which a cell waits, 0 where it doesn't.
    #[inline(always)]
    pub(crate) fn key(&self, cell: usize) -> u32
        requires { cell < length self.now.asked }
        ensures { result ≡ slice_index self.now.asked cell }
    {
        key_in(self.numbers[cell])
    }

    /// Whether a cell may wait under a key: it has no height, and doesn't wait yet, or waits under a greater key.
    #[inline(always)]
    pub(crate) fn may_wait(&self, cell: usize, key: u32) -> bool
        requires { cell < length self.now.asked }
        ensures { result ≡ may_wait (slice_index self.now.heights cell) (slice_index self.now.asked cell) key }
    {
        may_wait(self.numbers[cell], key)
    }

    /// Has a cell that has no height wait for one, under twice that.
    #[inline(always)]
    pub(crate) fn wait(&mut self, cell: usize, height: u32)
        requires within { cell < length self.old.asked }
        requires none { slice_index self.old.heights cell ≡ 0 }
        requires few { height ≤ 2147483647 }
        ensures heights { self.new.heights ≡ self.old.heights }
        ensures asked { self.new.asked ≡ slice_set self.old.asked cell (2 * height) }
    {
        self.numbers[cell] = 2 * height;
    }

    /// Gives a cell its height, and it doesn't wait any more.
    #[inline(always)]
    pub(crate) fn take(&mut self, cell: usize, height: u32)
        requires within { cell < length self.old.asked }
        requires few { height ≤ 2147483647 }
        ensures heights { self.new.heights ≡ slice_set self.old.heights cell height }
        ensures asked { self.new.asked ≡ slice_set self.old.asked cell 0 }
    {
        self.numbers[cell] = 2 * height + 1;
    }

    /// Takes the memory of so many more cells. The one error is want of memory; cells stay as they are.
    pub(crate) fn reserve(&mut self, more: usize) -> Result<(), NoMemory>
        ensures room { OnOk result (more ≤ self.new.spare) }
        ensures heights { self.new.heights ≡ self.old.heights }
        ensures asked { self.new.asked ≡ self.old.asked }
    {
        self.numbers.reserve(more)?;
        Ok(())
    }

    /// Adds so many cells, of which nothing is known.
    pub(crate) fn push(&mut self, many: usize)
        requires few { length self.old.asked + many ≤ CELLS }
        requires room { many ≤ self.old.spare }
        ensures heights { self.new.heights ≡ self.old.heights ++ replicate many 0 }
        ensures asked { self.new.asked ≡ self.old.asked ++ replicate many 0 }
    {
        // There is room, so this is not refused.
        let cells = self.numbers.len() + many;
        let _ = self.numbers.resize(cells, 0);
    }

    /// The heights. It takes no memory.
    pub(crate) fn into_heights(self) -> Vec<u32>
        ensures { result.items ≡ self.heights }
    {
        let Cells { mut numbers } = self;
        into_heights(numbers.as_mut_slice());
        numbers
    }
}

/// The height that a number tells, 0 where it tells none.
#[inline(always)]
fn height_in(number: u32) -> u32
    ensures { result ≡ height_in number }
{
    if number % 2 == 0 { 0 } else { number / 2 }
}

/// The key that a number tells, 0 where it tells none.
#[inline(always)]
fn key_in(number: u32) -> u32
    ensures { result ≡ key_in number }
{
    if number % 2 == 0 { number } else { 0 }
}

/// Whether a cell with this number may wait under a key. As 0 does, 1 tells neither a height nor a key.
#[inline(always)]
fn may_wait(number: u32, key: u32) -> bool
    ensures { result ≡ may_wait (height_in number) (key_in number) key }
{
    number <= 1 || (number % 2 == 0 && key < number)
}

/// Makes each number the height that it tells.
fn into_heights(numbers: &mut [u32])
    ensures { numbers.new ≡ map height_in numbers.old }
{
    for number in numbers.iter_mut() {
        *number = height_in(*number);
    }
}
