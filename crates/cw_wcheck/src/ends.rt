//! The live rows of where a function ends, which are looked for about those of its calls.

ghost use Rattle.std.specs.Prelude.{◌≡◌, ◌+◌, true, filter, nat_eq, slice_get, IfSome};
ghost use Rattle.std.specs.List.Sorted.{IsStrictlySortedBy};
ghost use Rattle.cw_certs.specs.Ascending.{live_cmp};
ghost use Rattle.cw_wcheck.specs.Working.{is_below, parts_at};

use cw_certs::{WeaverCert, live_at};
use cw_core::{MemId, PosId};

/// How often a place is looked for by the row that stands where it was thought to be.
const ROUNDS: usize = 8;

/// Where the first row of a position may be, by the row at this index: so many rows on or back as there are positions between, and one back
/// from another row of the position. Nothing rests on it but how long a look-up takes.
fn nearer(rows: &[(PosId, MemId)], index: usize, pos: PosId) -> usize {
    match rows.get(index) {
        Some((there, _)) => {
            if there.0 < pos.0 {
                index.saturating_add((pos.0 - there.0) as usize)
            } else if there.0 > pos.0 {
                index.saturating_sub((there.0 - pos.0) as usize)
            } else {
                before_alike(rows, index, pos)
            }
        }
        None => rows.len().saturating_sub(1),
    }
}

/// The index before this one where a row of the position stands there too, and else this one.
fn before_alike(rows: &[(PosId, MemId)], index: usize, pos: PosId) -> usize {
    let before = index.saturating_sub(1);
    match rows.get(before) {
        Some((there, _)) if there.0 == pos.0 => before,
        _ => index,
    }
}

/// The same after some rounds.
fn first_about(rows: &[(PosId, MemId)], near: usize, pos: PosId) -> usize {
    let mut index = near;
    for _ in 0..ROUNDS {
        let next = nearer(rows, index, pos);
        if next == index {
            return index;
        }
        index = next;
    }
    index
}

/// The index behind the rows of a position that begin at an index.
fn behind(rows: &[(PosId, MemId)], first: usize, pos: PosId) -> usize {
    for index in first..rows.len() {
        if rows[index].0.0 != pos.0 {
            return index;
        }
    }
    rows.len()
}

/// Whether a row is there and has a position below a number.
fn is_below(rows: &[(PosId, MemId)], index: usize, number: u64) -> bool
    ensures { result ≡ is_below number (slice_get rows.now index) }
{
    match rows.get(index) {
        Some((there, _)) => (there.0 as u64) < number,
        None => false,
    }
}

/// Whether the row before an index has a position below a number, and the one there has not.
fn parts_at(rows: &[(PosId, MemId)], index: usize, number: u64) -> bool
    ensures { result ≡ parts_at number rows.now index }
{
    (index == 0 || is_below(rows, index - 1, number)) && !is_below(rows, index, number)
}

/// The rows from one index to another, where these are those of a position.
fn part(rows: &[(PosId, MemId)], first: usize, last: usize, pos: PosId) -> Option<&[(PosId, MemId)]>
    requires ascend { IsStrictlySortedBy live_cmp rows.now }
    ensures { IfSome result (λ ends. ends.now ≡ filter (λ r. nat_eq r.0.0 pos.0) rows.now) }
{
    if first > last || last > rows.len() {
        return None;
    }
    let begins = parts_at(rows, first, pos.0 as u64);
    let ends = parts_at(rows, last, pos.0 as u64 + 1);
    if begins && ends {
        Some(&rows[first..last])
    } else {
        None
    }
}

/// The rows of a position, if they are found about an index.
fn part_about(rows: &[(PosId, MemId)], near: usize, pos: PosId) -> Option<&[(PosId, MemId)]>
    requires ascend { IsStrictlySortedBy live_cmp rows.now }
    ensures { IfSome result (λ ends. ends.now ≡ filter (λ r. nat_eq r.0.0 pos.0) rows.now) }
{
    let first = first_about(rows, near, pos);
    part(rows, first, behind(rows, first, pos), pos)
}

/// The live rows of a position. They are searched for only where they don't stand about this index of the list.
pub fn ends_near(cert: &WeaverCert, near: usize, pos: PosId) -> &[(PosId, MemId)]
    ensures { result.now ≡ filter (λ r. nat_eq r.0.0 pos.0) cert.now.live }
{
    cert.fact_lists_ascend();
    match part_about(cert.live(), near, pos) {
        Some(ends) => ends,
        None => live_at(cert, pos),
    }
}
