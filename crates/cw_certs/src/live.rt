//! Where a run may come with which memory.

ghost use Rattle.std.specs.Prelude.{◌≡◌, ◌&&◌, ◌≤◌, true, false, is_some, find, filter, length, nat_eq, nat_lt, nat_le};
ghost use Rattle.std.specs.List.Sorted.{IsStrictlySortedBy, IsPartitionPoint};
ghost use Rattle.cw_certs.specs.Ascending.{live_cmp};

use crate::WeaverCert;
use crate::keys::{Keyed, row_at};
use cw_core::{MemId, PosId};

impl Keyed for (PosId, MemId) {
    type Key = (PosId, MemId);

    ghost key_of = { λ r. r };

    fn key(&self) -> (PosId, MemId) {
        *self
    }
}

/// Whether a run may come to a position with this memory.
pub fn is_live(cert: &WeaverCert, pos: PosId, mem: MemId) -> bool
    ensures { result ≡ is_some (find (λ r. nat_eq r.0.0 pos.0 && nat_eq r.1.0 mem.0) cert.now.live) }
{
    cert.fact_lists_ascend();
    row_at(cert.live(), &(pos, mem)).is_some()
}

/// The pairs of one position, which stand side by side.
pub fn live_at(cert: &WeaverCert, pos: PosId) -> &[(PosId, MemId)]
    ensures { result.now ≡ filter (λ r. nat_eq r.0.0 pos.0) cert.now.live }
{
    cert.fact_lists_ascend();
    between(cert.live(), pos)
}

/// The pairs of one position in a list that ascends by position, then memory.
fn between(rows: &[(PosId, MemId)], pos: PosId) -> &[(PosId, MemId)]
    requires ascend { IsStrictlySortedBy live_cmp rows.now }
    ensures { result.now ≡ filter (λ r. nat_eq r.0.0 pos.0) rows.now }
{
    &rows[first_from(rows, pos)..first_after(rows, pos)]
}

/// The index of the first pair of this position or a later one.
fn first_from(rows: &[(PosId, MemId)], pos: PosId) -> usize
    requires ascend { IsStrictlySortedBy live_cmp rows.now }
    ensures bound { result ≤ length rows.now }
    ensures point { IsPartitionPoint (λ r. nat_lt r.0.0 pos.0 ≡ true) (λ r. nat_lt r.0.0 pos.0 ≡ false) rows.now result }
{
    rows.partition_point(|row| row.0.0 < pos.0)
}

/// The index of the first pair of a later position.
fn first_after(rows: &[(PosId, MemId)], pos: PosId) -> usize
    requires ascend { IsStrictlySortedBy live_cmp rows.now }
    ensures bound { result ≤ length rows.now }
    ensures point { IsPartitionPoint (λ r. nat_le r.0.0 pos.0 ≡ true) (λ r. nat_le r.0.0 pos.0 ≡ false) rows.now result }
{
    rows.partition_point(|row| row.0.0 <= pos.0)
}
