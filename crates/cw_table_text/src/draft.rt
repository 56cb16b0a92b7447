//! A table in the making.

ghost use Rattle.std.specs.Prelude.{◌≡◌, OnOk};
ghost use Rattle.cw_certs.specs.Ascending.{Ascends, mem_cmp};
ghost use Rattle.cw_table_text.specs.Working.{table_of, is_above, is_next, IsEmpty, none_from_into, none_from_opened, none_from_tries, with_row};

use crate::keys::is_above;
use crate::row::Row;
use cw_certs::{AtRow, BackRow, IntoRow, OpenRow, TryRow, WeaverCert};
use cw_core::{MemId, NoMemory, PosId, StateId, StateSet};
use std::alloc::Global;

/// The lists of a table as far as its lines are read.
#[derive(Drop)]
pub(crate) struct Draft {
    pub states: u16,
    pub start: MemId,
    pub mems: Vec<(StateId, StateSet)>,
    pub live: Vec<(PosId, MemId)>,
    pub tries: Vec<TryRow>,
    pub ats: Vec<AtRow>,
    pub opened: Vec<OpenRow>,
    pub closed: Vec<AtRow>,
    pub into: Vec<IntoRow>,
    pub back: Vec<BackRow>,
}

impl Draft {
    /// A table without rows.
    pub(crate) fn without_rows(alloc: Global, states: u16, start: MemId) -> Draft
        ensures states { (table_of result).states ≡ states }
        ensures start { (table_of result).start ≡ start }
        ensures empty { IsEmpty (table_of result) }
    {
        Draft {
            states,
            start,
            mems: Vec::new(alloc),
            live: Vec::new(alloc),
            tries: Vec::new(alloc),
            ats: Vec::new(alloc),
            opened: Vec::new(alloc),
            closed: Vec::new(alloc),
            into: Vec::new(alloc),
            back: Vec::new(alloc),
        }
    }

    /// Whether there are no rows yet of calls and returns.
    fn has_none_from_into(&self) -> bool
        ensures { result ≡ none_from_into (table_of self.now) }
    {
        self.into.is_empty() && self.back.is_empty()
    }

    /// Whether there are no rows yet of opens and what comes after them.
    fn has_none_from_opened(&self) -> bool
        ensures { result ≡ none_from_opened (table_of self.now) }
    {
        self.opened.is_empty() && self.closed.is_empty() && self.has_none_from_into()
    }

    /// Whether there are no rows yet of tries and what comes after them.
    fn has_none_from_tries(&self) -> bool
        ensures { result ≡ none_from_tries (table_of self.now) }
    {
        self.tries.is_empty() && self.ats.is_empty() && self.has_none_from_opened()
    }

    /// Whether a live row may stand behind the rows that the table has.
    pub(crate) fn is_next_live(&self, pair: &(PosId, MemId)) -> bool
        ensures { result ≡ is_next (table_of self.now) (Row.Live pair.now) }
    {
        is_above(&self.live, pair) && self.has_none_from_tries()
    }

    /// Whether a memory is above the last that the table has.
    fn is_above_memories(&self, memory: &(StateId, StateSet)) -> bool
        ensures { result ≡ is_above mem_cmp (table_of self.now).mems memory.now }
    {
        is_above(&self.mems, memory)
    }

    /// Whether a memory may stand behind the rows that the table has.
    fn is_next_memory(&self, number: u32, memory: &(StateId, StateSet)) -> bool
        ensures { result ≡ is_next (table_of self.now) (Row.Memory number memory.now) }
    {
        number as usize == self.mems.len()
            && self.is_above_memories(memory)
            && self.live.is_empty()
            && self.has_none_from_tries()
    }

    /// Whether a try may stand behind them.
    fn is_next_try(&self, row: &TryRow) -> bool
        ensures { result ≡ is_next (table_of self.now) (Row.Try row.now) }
    {
        is_above(&self.tries, row) && self.ats.is_empty() && self.has_none_from_opened()
    }

    /// Whether a label may stand behind them.
    fn is_next_at(&self, row: &AtRow) -> bool
        ensures { result ≡ is_next (table_of self.now) (Row.At row.now) }
    {
        is_above(&self.ats, row) && self.has_none_from_opened()
    }

    /// Whether an open may stand behind them.
    fn is_next_opened(&self, row: &OpenRow) -> bool
        ensures { result ≡ is_next (table_of self.now) (Row.Opened row.now) }
    {
        is_above(&self.opened, row) && self.closed.is_empty() && self.has_none_from_into()
    }

    /// Whether a close may stand behind them.
    fn is_next_closed(&self, row: &AtRow) -> bool
        ensures { result ≡ is_next (table_of self.now) (Row.Closed row.now) }
    {
        is_above(&self.closed, row) && self.has_none_from_into()
    }

    /// Whether a call may stand behind them.
    fn is_next_into(&self, row: &IntoRow) -> bool
        ensures { result ≡ is_next (table_of self.now) (Row.Into row.now) }
    {
        is_above(&self.into, row) && self.back.is_empty()
    }

    /// Whether a return may stand behind them.
    fn is_next_back(&self, row: &BackRow) -> bool
        ensures { result ≡ is_next (table_of self.now) (Row.Back row.now) }
    {
        is_above(&self.back, row)
    }

    /// Whether a row may stand behind those that the table has.
    pub(crate) fn is_next(&self, row: &Row) -> bool
        ensures { result ≡ is_next (table_of self.now) row.now }
    {
        match row {
            Row::Memory(number, memory) => self.is_next_memory(*number, memory),
            Row::Live(pair) => self.is_next_live(pair),
            Row::Try(row) => self.is_next_try(row),
            Row::At(row) => self.is_next_at(row),
            Row::Opened(row) => self.is_next_opened(row),
            Row::Closed(row) => self.is_next_closed(row),
            Row::Into(row) => self.is_next_into(row),
            Row::Back(row) => self.is_next_back(row),
        }
    }

    /// Appends a live row.
    pub(crate) fn push_live(&mut self, pair: (PosId, MemId)) -> Result<(), NoMemory>
        ensures { OnOk result (table_of self.new ≡ with_row (table_of self.old) (Row.Live pair)) }
    {
        self.live.push(pair)?;
        Ok(())
    }

    /// Appends a row to the list of its kind.
    pub(crate) fn push(&mut self, row: Row) -> Result<(), NoMemory>
        ensures { OnOk result (table_of self.new ≡ with_row (table_of self.old) row) }
    {
        match row {
            Row::Memory(_, memory) => self.mems.push(memory)?,
            Row::Live(pair) => self.push_live(pair)?,
            Row::Try(row) => self.tries.push(row)?,
            Row::At(row) => self.ats.push(row)?,
            Row::Opened(row) => self.opened.push(row)?,
            Row::Closed(row) => self.closed.push(row)?,
            Row::Into(row) => self.into.push(row)?,
            Row::Back(row) => self.back.push(row)?,
        }
        Ok(())
    }

    /// The table, whose lists ascend.
    pub(crate) fn finish(self) -> WeaverCert
        requires { Ascends (table_of self) }
        ensures { result ≡ table_of self }
    {
        match WeaverCert::make(
            self.states,
            self.start,
            self.mems,
            self.live,
            self.tries,
            self.ats,
            self.opened,
            self.closed,
            self.into,
            self.back,
        ) {
            Some(table) => table,
            None => unreachable!(),
        }
    }
}
