//! Rows of values that stand one behind the other.
ghost use Rattle.std.specs.Prelude.{◌≡◌, ◌+◌, ◌<◌, length, IfOk, OnOk};
ghost use Rattle.cw_links.specs.Flat.{row_of, row_at, AreFlat, AreRowsOf, AreRowsTo, PushesList};

use crate::Trails;
use cw_core::NoMemory;
use std::alloc::Global;
use std::marker::Model;

/// Rows of values, named by number from 0 on, which stay as they were made.
///
/// Contracts see the list of rows. All values stand one behind the other, with where each row begins: four bytes for a row beside its
/// values. So a row is read as a slice, where a list of `Chains` is walked from cell to cell.
#[derive(Drop)]
pub struct Rows<T: Copy> {
    values: Vec<T>,
    /// One more than there are rows: the last is where the last row ends.
    firsts: Vec<u32>,
}

impl<T: Copy> Model for Rows<T> {
    ghost use Rattle.std.specs.Prelude.{List};
    ghost use Rattle.std.specs.Coded.{coded_list};
    ghost use Rattle.cw_links.specs.Flat.{rows_of, AreFlat};

    ghost Value = { List (List T) };

    ghost coded = { coded_list (coded_list T.code) };

    ghost view = { λ r. rows_of r.values.items r.firsts.items };

    ghost invariant = { λ r. AreFlat r.values.items r.firsts.items };
}

impl<T: Copy> Rows<T> {
    /// The lists of trails as rows, in their order, each with the values of its cells in theirs. The one error is want of memory, which
    /// comes too where there are more values than a number of 32 bits counts.
    pub fn of(alloc: Global, trails: &Trails<T>) -> Result<Rows<T>, NoMemory>
        ensures { IfOk result (AreRowsOf trails.now) }
    {
        let mut values = Vec::with_capacity(alloc, trails.cells())?;
        let mut firsts = Vec::with_capacity(alloc, trails.lists() + 1)?;
        firsts.push(0)?;
        for list in 0..trails.lists() {
            push_row(trails, list as u32, &mut values, &mut firsts)?;
        }
        Ok(Rows { values, firsts })
    }

    /// The row of this number.
    #[inline(always)]
    pub fn row(&self, number: u32) -> &[T]
        requires { number < length self.now }
        ensures { result.now ≡ row_at self.now number }
    {
        row_in(&self.values, &self.firsts, number)
    }
}

/// The row of this number among all values.
#[inline(always)]
fn row_in<'a, T: Copy>(values: &'a [T], firsts: &[u32], number: u32) -> &'a [T]
    requires flat { AreFlat values.now firsts.now }
    requires within { number + 1 < length firsts.now }
    ensures { result.now ≡ row_of values.now firsts.now number }
{
    let first = firsts[number as usize] as usize;
    let past = firsts[number as usize + 1] as usize;
    &values[first..past]
}

/// Puts the values of a list's cells behind the others.
fn push_list<T: Copy>(trails: &Trails<T>, list: u32, values: &mut Vec<T>) -> Result<(), NoMemory>
    requires { list < length trails.now.lists }
    ensures { OnOk result (PushesList trails.now list values.old.items values.new.items) }
{
    let mut next = trails.first(list);
    'walk: while let Some(cell) = next {
        values.push(*trails.get(cell))?;
        next = trails.next(cell);
    }
    Ok(())
}

/// Puts a list behind those before it, as a row.
fn push_row<T: Copy>(
    trails: &Trails<T>,
    list: u32,
    values: &mut Vec<T>,
    firsts: &mut Vec<u32>,
) -> Result<(), NoMemory>
    requires list { list < length trails.now.lists }
    requires before { AreRowsTo trails.now values.old.items firsts.old.items list }
    ensures { OnOk result (AreRowsTo trails.now values.new.items firsts.new.items (list + 1)) }
{
    push_list(trails, list, values)?;
    let end = values.len();
    if end > u32::MAX as usize {
        return Err(NoMemory);
    }
    firsts.push(end as u32)?;
    Ok(())
}
