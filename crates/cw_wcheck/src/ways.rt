//! The rows of a call, of its ways back and of a label, which mostly stand behind those of the call or label before.

ghost use Rattle.std.specs.Prelude.{◌≡◌, slice_get};
ghost use Rattle.cw_certs.specs.Tables.{after_at, back_at, into_at, same};
ghost use Rattle.cw_wcheck.specs.Working.{is_at, is_back, is_into};

use cw_certs::{AtRow, BackRow, IntoRow, WeaverCert, after_label, back_at, into_at};
use cw_core::{MemId, SeamId, StateId};
use cw_game::Spot;

/// Where the rows of a call may stand: in the list of calls, and the first one in that of ways back; and where that of a label may.
/// Nothing rests on it but how long a look-up takes.
#[derive(Clone, Copy, Drop)]
pub struct Ways {
    pub into: usize,
    pub back: usize,
    pub label: usize,
}

/// The first row from an index on in the list of calls that isn't before this seam with this memory.
fn into_from(cert: &WeaverCert, near: usize, seam: u32, mem: MemId) -> usize {
    let rows = cert.into_rows();
    for index in near..rows.len() {
        let row = &rows[index];
        if row.seam.0 > seam || (row.seam.0 == seam && row.mem.0 >= mem.0) {
            return index;
        }
    }
    rows.len()
}

/// The same in the list of ways back.
fn back_from(cert: &WeaverCert, near: usize, seam: u32, mem: MemId) -> usize {
    let rows = cert.back_rows();
    for index in near..rows.len() {
        let row = &rows[index];
        if row.seam.0 > seam || (row.seam.0 == seam && row.mem.0 >= mem.0) {
            return index;
        }
    }
    rows.len()
}

/// The same in the list of labels.
fn label_from(cert: &WeaverCert, near: usize, seam: u32, mem: MemId) -> usize {
    let rows = cert.ats();
    for index in near..rows.len() {
        let row = &rows[index];
        if row.seam.0 > seam || (row.seam.0 == seam && row.mem.0 >= mem.0) {
            return index;
        }
    }
    rows.len()
}

/// Where the rows of a call or a label with a memory may stand, if those of the calls and labels before stand before this place. What
/// stands elsewhere has none.
pub fn ways_at(cert: &WeaverCert, ways: Ways, spot: Spot, mem: MemId) -> Ways {
    match spot {
        Spot::Call(seam, _, _) | Spot::SplitCall(seam, _, _) => Ways {
            into: into_from(cert, ways.into, seam, mem),
            back: back_from(cert, ways.back, seam, mem),
            label: ways.label,
        },
        Spot::Label(seam, _, _) => Ways {
            label: label_from(cert, ways.label, seam, mem),
            ..ways
        },
        _ => ways,
    }
}

/// Whether a row's call is plain or split as this one is.
fn is_same(split: bool, other: bool) -> bool
    ensures { result ≡ same split other }
{
    if split { other } else { !other }
}

/// Whether a row of the list of calls is that of a seam, plain or split, with this memory.
fn is_into(row: &IntoRow, seam: SeamId, split: bool, mem: MemId) -> bool
    ensures { result ≡ is_into seam.0 split mem.0 row.now }
{
    row.seam == seam && (is_same(row.split, split) && row.mem == mem)
}

/// Whether a row of the list of ways back is that of a seam, plain or split, with this memory, from an end in this state.
fn is_back(row: &BackRow, seam: SeamId, split: bool, mem: MemId, exit: StateId) -> bool
    ensures { result ≡ is_back seam.0 split mem.0 exit.0 row.now }
{
    row.seam == seam && (is_same(row.split, split) && (row.mem == mem && row.exit == exit))
}

/// Whether a row of the list of labels is that of a seam with this memory.
fn is_at(row: &AtRow, seam: SeamId, mem: MemId) -> bool
    ensures { result ≡ is_at seam.0 mem.0 row.now }
{
    row.seam == seam && row.mem == mem
}

/// The row at an index of the list of labels.
fn label_row(cert: &WeaverCert, index: usize) -> Option<AtRow>
    ensures { result ≡ slice_get cert.now.ats index }
{
    cert.ats().get(index).copied()
}

/// The row at an index of the list of calls.
fn into_row(cert: &WeaverCert, index: usize) -> Option<IntoRow>
    ensures { result ≡ slice_get cert.now.into index }
{
    cert.into_rows().get(index).copied()
}

/// The row at an index of the list of ways back.
fn back_row(cert: &WeaverCert, index: usize) -> Option<BackRow>
    ensures { result ≡ slice_get cert.now.back index }
{
    cert.back_rows().get(index).copied()
}

/// The row of the label at a seam with this memory. It is searched for only where it doesn't stand at this index.
pub fn label_near(cert: &WeaverCert, near: usize, seam: SeamId, mem: MemId) -> Option<AtRow>
    ensures { result ≡ after_at cert.now.ats seam.0 mem.0 }
{
    cert.fact_lists_ascend();
    match label_row(cert, near) {
        Some(row) if is_at(&row, seam, mem) => Some(row),
        _ => after_label(cert, seam, mem),
    }
}

/// The row of the call at a seam, plain or split, with this memory. It is searched for only where it doesn't stand at this index.
pub fn into_near(
    cert: &WeaverCert,
    near: usize,
    seam: SeamId,
    split: bool,
    mem: MemId,
) -> Option<IntoRow>
    ensures { result ≡ into_at cert.now seam.0 split mem.0 }
{
    cert.fact_lists_ascend();
    match into_row(cert, near) {
        Some(row) if is_into(&row, seam, split, mem) => Some(row),
        _ => into_at(cert, seam, split, mem),
    }
}

/// The row of the return to a seam, from a plain or a split call with this memory, by the state in which the function ended. It is
/// searched for only where it stands neither at this index nor right behind.
pub fn back_near(
    cert: &WeaverCert,
    near: usize,
    seam: SeamId,
    split: bool,
    mem: MemId,
    exit: StateId,
) -> Option<BackRow>
    ensures { result ≡ back_at cert.now seam.0 split mem.0 exit.0 }
{
    cert.fact_lists_ascend();
    match back_row(cert, near) {
        Some(row) if is_back(&row, seam, split, mem, exit) => Some(row),
        _ => back_beside(cert, near.saturating_add(1), seam, split, mem, exit),
    }
}

/// The same where it doesn't stand at the index before this one.
fn back_beside(
    cert: &WeaverCert,
    near: usize,
    seam: SeamId,
    split: bool,
    mem: MemId,
    exit: StateId,
) -> Option<BackRow>
    ensures { result ≡ back_at cert.now seam.0 split mem.0 exit.0 }
{
    cert.fact_lists_ascend();
    match back_row(cert, near) {
        Some(row) if is_back(&row, seam, split, mem, exit) => Some(row),
        _ => back_at(cert, seam, split, mem, exit),
    }
}
