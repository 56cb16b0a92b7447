//! A list of cells that is made again without a walk over it.
ghost use Rattle.std.specs.Prelude.{◌≡◌, ◌+◌, ◌-◌, ◌<◌, ◌≤◌, ◌++◌, length, take, drop, replicate, slice_get, slice_set, unwrap_or, None, OnOk, OnErr, IfOk};
ghost use Rattle.cw_cells.specs.Entries.{shown, AreUpTo, AreBefore};

use cw_core::NoMemory;
use std::alloc::Global;
use std::marker::Model;

/// What was written to a cell, and in which turn.
#[derive(Clone, Copy, Drop)]
struct Entry {
    turn: u32,
    cell: Option<i64>,
}

/// A list of cells, each of which has a number or none.
///
/// Contracts see the list. `renew` takes a constant number of steps but for once in 2^32 calls, and memory is taken for the cells up
/// to the last that was ever written; no clause says either.
#[derive(Drop)]
pub struct Cells {
    entries: Vec<Entry>,
    /// An entry of another turn is past.
    turn: u32,
    size: usize,
    /// What cells hold that weren't written in this turn.
    rest: Option<i64>,
}

impl Model for Cells {
    ghost use Rattle.std.specs.Prelude.{List, Option, ℤ};
    ghost use Rattle.cw_cells.specs.Entries.{shown, AreUpTo};

    ghost Value = { List (Option ℤ) };

    ghost view = { λ c. shown c.turn c.size c.rest c.entries.items };

    ghost invariant = { λ c. AreUpTo c.turn c.entries.items };
}

impl Cells {
    /// So many cells that hold the same.
    pub fn new(alloc: Global, size: usize, cell: Option<i64>) -> Cells
        ensures made { result ≡ replicate size cell }
    {
        Cells {
            entries: Vec::new(alloc),
            turn: 0,
            size,
            rest: cell,
        }
    }

    /// These cells, and behind them others that all hold the same, up to so many. The one error is want of memory.
    pub fn of(
        alloc: Global,
        first: &[Option<i64>],
        size: usize,
        cell: Option<i64>,
    ) -> Result<Cells, NoMemory>
        ensures made { IfOk result (λ cells. cells ≡ first.now ++ replicate (size - length first.now) cell) }
    {
        let mut cells = Cells::new(alloc, first.len() + size.saturating_sub(first.len()), cell);
        cells.write(first)?;
        Ok(cells)
    }

    /// How many cells there are.
    #[inline(always)]
    pub fn len(&self) -> usize
        ensures { result ≡ length self.now }
    {
        self.size
    }

    /// What a cell holds; none past the last.
    #[inline(always)]
    pub fn get(&self, at: usize) -> Option<i64>
        ensures { result ≡ unwrap_or (slice_get self.now at) None }
    {
        if at >= self.size {
            return None;
        }
        match self.entries.get(at) {
            Some(entry) => {
                if entry.turn == self.turn {
                    entry.cell
                } else {
                    self.rest
                }
            }
            None => self.rest,
        }
    }

    /// Writes a cell; nothing where the index is past the last. The one error is want of memory, which changes nothing.
    #[inline(always)]
    pub fn set(&mut self, at: usize, cell: Option<i64>) -> Result<(), NoMemory>
        ensures written { OnOk result (self.new ≡ slice_set self.old at cell) }
        ensures refused { OnErr result (self.new ≡ self.old) }
    {
        if at >= self.size {
            return Ok(());
        }
        let past = Entry {
            turn: self.turn,
            cell: self.rest,
        };
        reach(&mut self.entries, at, past)?;
        self.entries[at] = Entry {
            turn: self.turn,
            cell,
        };
        Ok(())
    }

    /// Makes the list anew: so many cells that hold the same.
    pub fn renew(&mut self, size: usize, cell: Option<i64>)
        ensures made { self.new ≡ replicate size cell }
    {
        self.turn = next_turn(&mut self.entries, self.turn);
        self.size = size;
        self.rest = cell;
    }

    /// Leaves so many of the first cells, and makes those behind them anew up to so many, which all hold the same.
    ///
    /// The one error is want of memory, after which nothing is known of the cells.
    pub fn renew_from(
        &mut self,
        alloc: Global,
        count: usize,
        size: usize,
        cell: Option<i64>,
    ) -> Result<(), NoMemory>
        ensures made { OnOk result (self.new ≡ take count self.old ++ replicate (size - count) cell) }
    {
        let first = self.first(alloc, count)?;
        self.renew(first.len() + size.saturating_sub(count), cell);
        self.write(&first)?;
        Ok(())
    }

    /// The first cells, so many if there are.
    fn first(&self, alloc: Global, count: usize) -> Result<Vec<Option<i64>>, NoMemory>
        ensures first { IfOk result (λ first. first.items ≡ take count self.now) }
    {
        let mut first = Vec::new(alloc);
        for at in 0..count.min(self.len()) {
            first.push(self.get(at))?;
        }
        Ok(first)
    }

    /// Writes the first cells. The one error is want of memory, after which nothing is known of the cells.
    fn write(&mut self, first: &[Option<i64>]) -> Result<(), NoMemory>
        requires within { length first.now ≤ length self.old }
        ensures written { OnOk result (self.new ≡ first.now ++ drop (length first.now) self.old) }
    {
        for at in 0..first.len() {
            self.set(at, first[at])?;
        }
        Ok(())
    }
}

/// Adds entries until there is one at this index.
#[inline(always)]
fn reach(entries: &mut Vec<Entry>, at: usize, past: Entry) -> Result<(), NoMemory>
    requires few { at < 18446744073709551615 }
    ensures grown { OnOk result (entries.new.items ≡ entries.old.items ++ replicate (at + 1 - length entries.old.items) past) }
    ensures refused { OnErr result (entries.new.items ≡ entries.old.items) }
{
    if entries.len() <= at {
        entries.resize(at + 1, past)?;
    }
    Ok(())
}

/// The turn after this one; where there is none the first, and no entry stays.
fn next_turn(entries: &mut Vec<Entry>, turn: u32) -> u32
    requires up_to { AreUpTo turn entries.old.items }
    ensures before { AreBefore result entries.new.items }
{
    match turn.checked_add(1) {
        Some(next) => next,
        None => {
            entries.clear();
            0
        }
    }
}
