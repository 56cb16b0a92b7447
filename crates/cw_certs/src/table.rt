//! The table of a woven program.

use crate::keys::ascends;
use crate::rows::{AtRow, BackRow, IntoRow, OpenRow, TryRow};
use cw_core::{MemId, PosId, StateId, StateSet};
use std::marker::Model;

/// The table of a woven program, as its prologue has it: by seam, stage and memory what is tried, and the memory after each
/// answer, label, open, close, call and return. Each list ascends strictly by its key: the memories by state and promise,
/// where a run may come by position and memory, the rows by seam, then mode (plain before split), stage, memory and exit
/// state, as far as they have them. A contract sees a table as its lists.
#[derive(Drop)]
pub struct WeaverCert {
    states: u16,
    start: MemId,
    mems: Vec<(StateId, StateSet)>,
    live: Vec<(PosId, MemId)>,
    tries: Vec<TryRow>,
    ats: Vec<AtRow>,
    opened: Vec<OpenRow>,
    closed: Vec<AtRow>,
    into: Vec<IntoRow>,
    back: Vec<BackRow>,
}

impl Model for WeaverCert {
    ghost use Rattle.cw_certs.specs.Tables.{Table, table_with};
    ghost use Rattle.cw_certs.specs.Ascending.{Ascends};

    ghost Value = { Table };

    ghost view = { λ c. table_with c.states c.start c.mems.items c.live.items c.tries.items c.ats.items c.opened.items c.closed.items c.into.items c.back.items };

    ghost invariant = { λ c. Ascends (table_with c.states c.start c.mems.items c.live.items c.tries.items c.ats.items c.opened.items c.closed.items c.into.items c.back.items) };
}

impl WeaverCert {
    ghost use Rattle.std.specs.Prelude.{◌≡◌, IfSome, IfNone};
    ghost use Rattle.cw_certs.specs.Tables.{table_with};
    ghost use Rattle.cw_certs.specs.Ascending.{Ascends};

    /// The table of these lists, None exactly where one of them doesn't ascend strictly by its key. It takes no memory.
    #[allow(clippy::too_many_arguments)]
    pub fn make(
        states: u16,
        start: MemId,
        mems: Vec<(StateId, StateSet)>,
        live: Vec<(PosId, MemId)>,
        tries: Vec<TryRow>,
        ats: Vec<AtRow>,
        opened: Vec<OpenRow>,
        closed: Vec<AtRow>,
        into: Vec<IntoRow>,
        back: Vec<BackRow>,
    ) -> Option<WeaverCert>
        ensures made { IfSome result (λ c. c ≡ table_with states start mems.items live.items tries.items ats.items opened.items closed.items into.items back.items) }
        ensures ascends { IfSome result (λ c. Ascends c) }
        ensures refused { IfNone result (Ascends (table_with states start mems.items live.items tries.items ats.items opened.items closed.items into.items back.items) → ⊥) }
    {
        if !ascends(&mems) {
            return None;
        }
        if !ascends(&live) {
            return None;
        }
        if !ascends(&tries) {
            return None;
        }
        if !ascends(&ats) {
            return None;
        }
        if !ascends(&opened) {
            return None;
        }
        if !ascends(&closed) {
            return None;
        }
        if !ascends(&into) {
            return None;
        }
        if !ascends(&back) {
            return None;
        }
        Some(WeaverCert {
            states,
            start,
            mems,
            live,
            tries,
            ats,
            opened,
            closed,
            into,
            back,
        })
    }

    /// How many states the policy has for this source.
    pub fn states(&self) -> u16
        ensures { result ≡ self.now.states }
    {
        self.states
    }

    /// The memory with which `main` begins.
    pub fn start(&self) -> MemId
        ensures { result ≡ self.now.start }
    {
        self.start
    }

    /// By the number of a memory its state, and the states in which its function may end.
    pub fn mems(&self) -> &[(StateId, StateSet)]
        ensures { result.now ≡ self.now.mems }
    {
        &self.mems
    }

    /// Where a run may come with which memory.
    pub fn live(&self) -> &[(PosId, MemId)]
        ensures { result.now ≡ self.now.live }
    {
        &self.live
    }

    /// By seam, stage and memory what is tried.
    pub fn tries(&self) -> &[TryRow]
        ensures { result.now ≡ self.now.tries }
    {
        &self.tries
    }

    /// The memory after a label.
    pub fn ats(&self) -> &[AtRow]
        ensures { result.now ≡ self.now.ats }
    {
        &self.ats
    }

    /// The memory after an open.
    pub fn opened(&self) -> &[OpenRow]
        ensures { result.now ≡ self.now.opened }
    {
        &self.opened
    }

    /// The memory after a close.
    pub fn closed(&self) -> &[AtRow]
        ensures { result.now ≡ self.now.closed }
    {
        &self.closed
    }

    /// The memory with which a called function begins.
    pub fn into_rows(&self) -> &[IntoRow]
        ensures { result.now ≡ self.now.into }
    {
        &self.into
    }

    /// The memory after a call.
    pub fn back_rows(&self) -> &[BackRow]
        ensures { result.now ≡ self.now.back }
    {
        &self.back
    }

    /// Each list ascends strictly by its key, whichever way the table was made.
    pub fn fact_lists_ascend(&self)
        ensures ascend { Ascends self.now }
    {
        let _ = &self.states;
    }
}
