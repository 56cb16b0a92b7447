//! The keys of a table's rows, and the rows that are asked for at a seam.

ghost use Rattle.std.specs.Prelude.{◌≡◌};
ghost use Rattle.cw_certs.specs.Tables.{try_at, after_at, open_at, into_at, back_at};

use crate::keys::{Keyed, row_at};
use crate::{AtRow, BackRow, IntoRow, OpenRow, TryRow, WeaverCert};
use cw_core::{MemId, SeamId, StateId, StateSet};

impl Keyed for (StateId, StateSet) {
    type Key = (StateId, StateSet);

    ghost key_of = { λ r. r };

    fn key(&self) -> (StateId, StateSet) {
        *self
    }
}

impl Keyed for TryRow {
    type Key = (SeamId, (u8, MemId));

    ghost key_of = { λ r. (r.seam, (r.stage, r.mem)) };

    fn key(&self) -> (SeamId, (u8, MemId)) {
        (self.seam, (self.stage, self.mem))
    }
}

impl Keyed for AtRow {
    type Key = (SeamId, MemId);

    ghost key_of = { λ r. (r.seam, r.mem) };

    fn key(&self) -> (SeamId, MemId) {
        (self.seam, self.mem)
    }
}

impl Keyed for OpenRow {
    type Key = (SeamId, MemId);

    ghost key_of = { λ r. (r.seam, r.mem) };

    fn key(&self) -> (SeamId, MemId) {
        (self.seam, self.mem)
    }
}

impl Keyed for IntoRow {
    type Key = (SeamId, (bool, MemId));

    ghost key_of = { λ r. (r.seam, (r.split, r.mem)) };

    fn key(&self) -> (SeamId, (bool, MemId)) {
        (self.seam, (self.split, self.mem))
    }
}

impl Keyed for BackRow {
    type Key = (SeamId, (bool, (MemId, StateId)));

    ghost key_of = { λ r. (r.seam, (r.split, (r.mem, r.exit))) };

    fn key(&self) -> (SeamId, (bool, (MemId, StateId))) {
        (self.seam, (self.split, (self.mem, self.exit)))
    }
}

/// The row of a stage of a seam with this memory: the memory after each answer to what is tried.
pub fn try_at(cert: &WeaverCert, seam: SeamId, stage: u8, mem: MemId) -> Option<TryRow>
    ensures { result ≡ try_at cert.now seam.0 stage mem.0 }
{
    cert.fact_lists_ascend();
    row_at(cert.tries(), &(seam, (stage, mem)))
}

/// The row of the label at a seam with this memory.
pub fn after_label(cert: &WeaverCert, seam: SeamId, mem: MemId) -> Option<AtRow>
    ensures { result ≡ after_at cert.now.ats seam.0 mem.0 }
{
    cert.fact_lists_ascend();
    row_at(cert.ats(), &(seam, mem))
}

/// The row of the open at a seam with this memory.
pub fn open_at(cert: &WeaverCert, seam: SeamId, mem: MemId) -> Option<OpenRow>
    ensures { result ≡ open_at cert.now seam.0 mem.0 }
{
    cert.fact_lists_ascend();
    row_at(cert.opened(), &(seam, mem))
}

/// The row of the close at a seam with this memory.
pub fn after_close(cert: &WeaverCert, seam: SeamId, mem: MemId) -> Option<AtRow>
    ensures { result ≡ after_at cert.now.closed seam.0 mem.0 }
{
    cert.fact_lists_ascend();
    row_at(cert.closed(), &(seam, mem))
}

/// The row of the call at a seam, plain or split, with this memory: the memory with which the function begins.
pub fn into_at(cert: &WeaverCert, seam: SeamId, split: bool, mem: MemId) -> Option<IntoRow>
    ensures { result ≡ into_at cert.now seam.0 split mem.0 }
{
    cert.fact_lists_ascend();
    row_at(cert.into_rows(), &(seam, (split, mem)))
}

/// The row of the return to a seam, from a plain or a split call with this memory, by the state in which the function ended.
pub fn back_at(
    cert: &WeaverCert,
    seam: SeamId,
    split: bool,
    mem: MemId,
    exit: StateId,
) -> Option<BackRow>
    ensures { result ≡ back_at cert.now seam.0 split mem.0 exit.0 }
{
    cert.fact_lists_ascend();
    row_at(cert.back_rows(), &(seam, (split, (mem, exit))))
}
