//! What the memories of a table mean, where they are live, and what they are followed by.

ghost use Rattle.std.specs.Prelude.{◌≡◌, ◌-◌, ◌^◌, nat_eq, nat_lt, option_map, slice_get};
ghost use Rattle.cw_game.specs.Pairs.{has, is_live, leads, means_it};
ghost use Rattle.cw_game.specs.Conditions.{is_memory, is_memory_if, memory_after, takes_on};
ghost use Rattle.cw_product.specs.Moves.{numbers};
ghost use Rattle.cw_wcheck.specs.Working.{stands_there, takes_pair};

use crate::ways::{Ways, label_near};
use cw_certs::{Move, WeaverCert, after_close, is_live, open_at};
use cw_core::limits::PRODUCT_STATES_IN_FORMAT_2;
use cw_core::{MemId, PosId, SeamId, StateId, StateSet};
use cw_game::Spot;

/// The numbers that a set can have.
const MEMBERS: u16 = PRODUCT_STATES_IN_FORMAT_2 as u16;

/// The state and the promise that a memory means; None where the memory isn't there.
pub fn meaning(cert: &WeaverCert, mem: MemId) -> Option<&(StateId, StateSet)>
    ensures { option_map (λ meant. meant.now) result ≡ slice_get cert.now.mems mem.0 }
{
    cert.mems().get(mem.0 as usize)
}

/// Whether a memory is there.
pub fn is_memory(cert: &WeaverCert, mem: MemId) -> bool
    ensures { result ≡ is_memory cert.now mem }
{
    (mem.0 as usize) < cert.mems().len()
}

/// Whether it is there, if there is to be one.
pub fn is_memory_if(cert: &WeaverCert, mem: Option<MemId>) -> bool
    ensures { result ≡ is_memory_if cert.now mem }
{
    mem.is_none_or(|mem| is_memory(cert, mem))
}

/// Where the row of a position and a memory may stand in the list of live rows, by the row at this index: so many rows behind or before
/// that as there are positions between, and beside it where it has another memory at the position. Nothing rests on it but how long a
/// look-up takes.
fn row_near(cert: &WeaverCert, near: usize, pos: PosId, mem: MemId) -> usize {
    match cert.live().get(near) {
        Some((there, with)) => {
            if there.0 < pos.0 {
                near.saturating_add((pos.0 - there.0) as usize)
            } else if there.0 > pos.0 {
                near.saturating_sub((there.0 - pos.0) as usize)
            } else if with.0 < mem.0 {
                near.saturating_add(1)
            } else {
                near.saturating_sub(1)
            }
        }
        None => near,
    }
}

/// Whether a memory is live at a position. The list of live rows is searched only where the pair stands neither at this index of it nor
/// where the rows looked at before tell that it may stand.
#[inline(always)]
pub fn is_live_near(cert: &WeaverCert, near: usize, pos: PosId, mem: MemId) -> bool
    ensures { result ≡ is_live cert.now pos.0 mem.0 }
{
    stands_at(cert, near, pos, mem) || is_live_about(cert, near, pos, mem)
}

/// The same where it doesn't stand at the index.
#[inline(never)]
fn is_live_about(cert: &WeaverCert, near: usize, pos: PosId, mem: MemId) -> bool
    ensures { result ≡ is_live cert.now pos.0 mem.0 }
{
    let index = row_near(cert, near, pos, mem);
    stands_at(cert, index, pos, mem) || is_live_beside(cert, index, pos, mem)
}

/// The same where it doesn't stand there either: the row at that index tells where it may stand once more.
fn is_live_beside(cert: &WeaverCert, near: usize, pos: PosId, mem: MemId) -> bool
    ensures { result ≡ is_live cert.now pos.0 mem.0 }
{
    let index = row_near(cert, near, pos, mem);
    stands_at(cert, index, pos, mem) || is_live(cert, pos, mem)
}

/// Whether a position and a memory stand at an index of the list of live rows.
#[inline(always)]
fn stands_at(cert: &WeaverCert, index: usize, pos: PosId, mem: MemId) -> bool
    ensures { result ≡ stands_there pos.0 mem.0 (slice_get cert.now.live index) }
{
    match cert.live().get(index) {
        Some((there, with)) => *there == pos && *with == mem,
        None => false,
    }
}

/// Whether a memory means this state with this promise.
fn means(cert: &WeaverCert, mem: MemId, state: StateId, promise: &StateSet) -> bool
    ensures { result ≡ means_it (slice_get cert.now.mems mem.0) state.0 promise.now }
{
    match meaning(cert, mem) {
        Some((meant, promised)) => *meant == state && *promised == *promise,
        None => false,
    }
}

/// Whether a memory means this state with this promise and is live at this position, with a row that may stand at this index.
pub fn leads(
    cert: &WeaverCert,
    near: usize,
    pos: PosId,
    mem: MemId,
    state: StateId,
    promise: &StateSet,
) -> bool
    ensures { result ≡ leads cert.now pos.0 mem.0 state.0 promise.now }
{
    means(cert, mem, state, promise) && is_live_near(cert, near, pos, mem)
}

/// Whether the pair to which the game leads, if it does, is taken: the memory is there, means its state with the promise, and is
/// live at its position, with a row that may stand at this index.
pub fn takes(
    cert: &WeaverCert,
    near: usize,
    promise: &StateSet,
    mem: Option<MemId>,
    to: Option<(PosId, StateId)>,
) -> bool
    ensures { result ≡ takes_pair cert.now promise.now mem (numbers to) }
{
    match (to, mem) {
        (None, _) => true,
        (Some(_), None) => false,
        (Some((pos, state)), Some(mem)) => leads(cert, near, pos, mem, state, promise),
    }
}

/// Whether the pair at which going on arrives, if it does, is taken where there is a memory for it.
pub fn takes_on(
    cert: &WeaverCert,
    near: usize,
    promise: &StateSet,
    mem: Option<MemId>,
    to: Option<(PosId, StateId)>,
) -> bool
    ensures { result ≡ takes_on cert.now promise.now mem (numbers to) }
{
    match (to, mem) {
        (Some((pos, state)), Some(mem)) => leads(cert, near, pos, mem, state, promise),
        (Some(_), None) | (None, _) => true,
    }
}

/// The memory after a move: that of the row for a label, an open and a close, and the same one after all else. The row for a label may
/// stand where the `ways` are.
pub fn memory_after(
    cert: &WeaverCert,
    ways: Ways,
    mem: MemId,
    spot: Spot,
    by: Move,
) -> Option<MemId>
    ensures { result ≡ memory_after cert.now mem.0 spot by }
{
    match spot {
        Spot::Label(seam, _, _) => label_near(cert, ways.label, SeamId(seam), mem).map(
            |row| row.after,
        ),
        Spot::Close(seam, _, _) => after_close(cert, SeamId(seam), mem).map(|row| row.after),
        Spot::Open(seam, _, _) => {
            let row = open_at(cert, SeamId(seam), mem)?;
            match by {
                Move::Opened => Some(row.opened),
                _ => Some(row.failed),
            }
        }
        _ => Some(mem),
    }
}

/// Whether a state is promised.
pub fn is_promised(promise: &StateSet, state: StateId) -> bool
    ensures { result ≡ has promise.now state.0 }
{
    promise.fact_members_are_below_1024();
    state.0 < MEMBERS && promise.contains(state)
}

/// Whether a set has states alone, of which there are so many. A set has numbers below 1,024.
pub fn has_states_alone(set: &StateSet, states: u16) -> bool
    ensures { result ≡ nat_lt set.now (2 ^ states) }
{
    set.fact_members_are_below_1024();
    states >= MEMBERS || *set <= StateSet::empty().complement_in(states)
}

/// Whether a set has all states, of which there are so many.
pub fn has_all_states(set: &StateSet, states: u16) -> bool
    ensures { result ≡ nat_eq set.now (2 ^ states - 1) }
{
    set.fact_members_are_below_1024();
    states <= MEMBERS && *set == StateSet::empty().complement_in(states)
}
