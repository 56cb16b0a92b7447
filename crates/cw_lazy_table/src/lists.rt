//! The rows of keys.

ghost use Rattle.std.specs.Prelude.{◌≡◌, ◌<◌, ℕ, length, map, slice_get, Contains, IfOk};
ghost use Rattle.cw_game.specs.Games.{resumed};
ghost use Rattle.cw_product.specs.Moves.{IsPosition, IsState, next_at};
ghost use Rattle.cw_product.specs.Product.{game_of};
ghost use Rattle.cw_lazy_table.specs.Numbered.{lost_by, set_at, whole_memory, CanAsk, ArePromised};
ghost use Rattle.cw_lazy_table.specs.SeamKeys.{key_of};
ghost use Rattle.cw_lazy_table.specs.Rowing.{AreMemories, mem, moved, mem_after, going_on, refused_by, live_row, try_row, at_row, open_row, into_row, back_row};
ghost use Rattle.cw_certs.specs.declared.moves.Move.TheVariants.{Refuse};

use crate::choice::is_lost;
use crate::follow::set_at;
use crate::key::Key;
use crate::looked::Looked;
use crate::mems::Mems;
use crate::seam_key::{SeamKey, stands};
use cw_certs::{AtRow, BackRow, IntoRow, Move, OpenRow, TryRow};
use cw_core::{MemId, PosId, SeamId, StateId, StateSet};
use cw_fixpoint::number_of;
use cw_product::Game;
use std::alloc::{AllocError, Global};

/// The number of a memory among others in order, and how many they are where it is none of them.
#[tactic(auto, using(crate::proofs::Numbers::mem_exact))]
#[inline(never)]
fn mem_among(mems: &[(StateId, usize)], state: StateId, promise: usize) -> MemId
    requires mems { AreMemories mems.now }
    ensures { result ≡ mem mems.now state.0 promise }
{
    MemId(number_of(mems, &(state, promise)) as u32)
}

/// The number of a memory: where it stands at an index, that index.
#[inline(always)]
fn mem_near(mems: &[(StateId, usize)], near: usize, state: StateId, promise: usize) -> MemId
    requires mems { AreMemories mems.now }
    ensures { result ≡ mem mems.now state.0 promise }
{
    if stands(mems, near, (state, promise)) {
        MemId(near as u32)
    } else {
        mem_among(mems, state, promise)
    }
}

/// The number of a memory, and how many they are where it is none of them.
#[inline(always)]
pub(crate) fn mem(mems: &Mems, state: StateId, promise: usize) -> MemId
    requires mems { AreMemories mems.now }
    ensures { result ≡ mem mems.now state.0 promise }
{
    mem_near(mems.list(), mems.guess(state, promise), state, promise)
}

/// A memory with its promise.
fn whole_memory(promises: &[StateSet], mem: &(StateId, usize)) -> (StateId, StateSet)
    requires within { mem.now.1 < length promises.now }
    ensures { result ≡ whole_memory promises.now mem.now }
{
    (mem.0, promises[mem.1])
}

/// The memories with their promises.
pub(crate) fn whole_memories(
    alloc: Global,
    promises: &[StateSet],
    mems: &[(StateId, usize)],
) -> Result<Vec<(StateId, StateSet)>, AllocError>
    requires within { (m : StateId × ℕ) → Contains mems.now m → m.1 < length promises.now }
    ensures { IfOk result (λ v. v.items ≡ map (whole_memory promises.now) mems.now) }
{
    let mut memories = Vec::new(alloc);
    for mem in mems {
        memories.push(whole_memory(promises, mem))?;
    }
    Ok(memories)
}

/// The rows of live pairs: each key's position and the number of its memory.
#[inline(never)]
pub(crate) fn live_rows(
    alloc: Global,
    mems: &Mems,
    keys: &[Key],
) -> Result<Vec<(PosId, MemId)>, AllocError>
    requires mems { AreMemories mems.now }
    ensures { IfOk result (λ v. v.items ≡ map (live_row mems.now) keys.now) }
{
    let mut rows = Vec::with_capacity(alloc, keys.len())?;
    for key in keys {
        rows.push((PosId(key.pos), mem(mems, StateId(key.state), key.promise)))?;
    }
    Ok(rows)
}

/// The memory after a move, if there is one.
fn after(game: &Game, mems: &Mems, seam_key: &SeamKey, by: Move) -> Option<MemId>
    requires mems { AreMemories mems.now }
    requires position { IsPosition (game_of game.now) seam_key.now.pos }
    requires state { IsState (game_of game.now) seam_key.now.state }
    ensures { result ≡ mem_after mems.now seam_key.now.promise (next_at (game_of game.now) seam_key.now.pos seam_key.now.state by) }
{
    match game.next(PosId(seam_key.pos), StateId(seam_key.state), by) {
        None => None,
        Some((_, state)) => Some(mem(mems, state, seam_key.promise)),
    }
}

/// The memory after a move, the same where there is none.
fn moved(game: &Game, mems: &Mems, seam_key: &SeamKey, by: Move) -> MemId
    requires mems { AreMemories mems.now }
    requires position { IsPosition (game_of game.now) seam_key.now.pos }
    requires state { IsState (game_of game.now) seam_key.now.state }
    ensures { result ≡ moved (game_of game.now) mems.now seam_key.now by }
{
    match game.next(PosId(seam_key.pos), StateId(seam_key.state), by) {
        None => mem(mems, StateId(seam_key.state), seam_key.promise),
        Some((_, state)) => mem(mems, state, seam_key.promise),
    }
}

/// The memory with which the program goes on after a refusal that a stop can answer; none where that is lost.
fn going_on(
    game: &Game,
    solved: &Looked,
    promises: &[StateSet],
    mems: &Mems,
    seam_key: &SeamKey,
) -> Option<MemId>
    requires mems { AreMemories mems.now }
    requires can { CanAsk game.now solved.now promises.now (key_of seam_key.now) }
    ensures { result ≡ going_on (lost_by (game_of game.now) promises.now) mems.now seam_key.now.promise (resumed (game_of game.now) seam_key.now.pos seam_key.now.state) }
{
    match game.resumed(PosId(seam_key.pos), StateId(seam_key.state)) {
        None => None,
        Some((pos, state)) => {
            if is_lost(
                game,
                solved,
                pos,
                state,
                seam_key.promise,
                &promises[seam_key.promise],
            ) {
                None
            } else {
                Some(mem(mems, state, seam_key.promise))
            }
        }
    }
}

/// The memory after a refusal; where a stop can answer, the one with which the program goes on, None where that is lost.
fn refused(
    game: &Game,
    solved: &Looked,
    promises: &[StateSet],
    mems: &Mems,
    seam_key: &SeamKey,
) -> Option<MemId>
    requires mems { AreMemories mems.now }
    requires can { CanAsk game.now solved.now promises.now (key_of seam_key.now) }
    ensures { result ≡ refused_by (lost_by (game_of game.now) promises.now) mems.now seam_key.now.promise (next_at (game_of game.now) seam_key.now.pos seam_key.now.state Refuse)
        (resumed (game_of game.now) seam_key.now.pos seam_key.now.state) }
{
    match game.next(PosId(seam_key.pos), StateId(seam_key.state), Move::Refuse) {
        None => going_on(game, solved, promises, mems, seam_key),
        Some((_, state)) => Some(mem(mems, state, seam_key.promise)),
    }
}

/// The row of a primitive that is tried: the memories after a grant and after a refusal.
fn try_row(
    game: &Game,
    solved: &Looked,
    promises: &[StateSet],
    mems: &Mems,
    seam_key: &SeamKey,
) -> TryRow
    requires mems { AreMemories mems.now }
    requires can { CanAsk game.now solved.now promises.now (key_of seam_key.now) }
    ensures { result ≡ try_row (game_of game.now) (lost_by (game_of game.now) promises.now) mems.now seam_key.now }
{
    TryRow {
        seam: SeamId(seam_key.seam),
        stage: seam_key.part,
        mem: mem(mems, StateId(seam_key.state), seam_key.promise),
        granted: after(game, mems, seam_key, Move::Grant),
        refused: refused(game, solved, promises, mems, seam_key),
    }
}

/// The rows of all primitives that are tried.
pub(crate) fn try_rows(
    alloc: Global,
    game: &Game,
    solved: &Looked,
    promises: &[StateSet],
    mems: &Mems,
    seam_keys: &[SeamKey],
) -> Result<Vec<TryRow>, AllocError>
    requires mems { AreMemories mems.now }
    requires can { (x : SeamKey) → Contains seam_keys.now x → CanAsk game.now solved.now promises.now (key_of x) }
    ensures { IfOk result (λ v. v.items ≡ map (try_row (game_of game.now) (lost_by (game_of game.now) promises.now) mems.now) seam_keys.now) }
{
    let mut rows = Vec::with_capacity(alloc, seam_keys.len())?;
    for seam_key in seam_keys {
        rows.push(try_row(game, solved, promises, mems, seam_key))?;
    }
    Ok(rows)
}

/// The rows of labels or of closes: the memory after each.
pub(crate) fn at_rows(
    alloc: Global,
    game: &Game,
    mems: &Mems,
    seam_keys: &[SeamKey],
) -> Result<Vec<AtRow>, AllocError>
    requires mems { AreMemories mems.now }
    requires there { (x : SeamKey) → Contains seam_keys.now x → IsPosition (game_of game.now) x.pos × IsState (game_of game.now) x.state }
    ensures { IfOk result (λ v. v.items ≡ map (at_row (game_of game.now) mems.now) seam_keys.now) }
{
    let mut rows = Vec::with_capacity(alloc, seam_keys.len())?;
    for seam_key in seam_keys {
        rows.push(AtRow {
            seam: SeamId(seam_key.seam),
            mem: mem(mems, StateId(seam_key.state), seam_key.promise),
            after: moved(game, mems, seam_key, Move::On),
        })?;
    }
    Ok(rows)
}

/// The rows of opens: the memory after one that succeeds and after one that fails.
pub(crate) fn open_rows(
    alloc: Global,
    game: &Game,
    mems: &Mems,
    seam_keys: &[SeamKey],
) -> Result<Vec<OpenRow>, AllocError>
    requires mems { AreMemories mems.now }
    requires there { (x : SeamKey) → Contains seam_keys.now x → IsPosition (game_of game.now) x.pos × IsState (game_of game.now) x.state }
    ensures { IfOk result (λ v. v.items ≡ map (open_row (game_of game.now) mems.now) seam_keys.now) }
{
    let mut rows = Vec::with_capacity(alloc, seam_keys.len())?;
    for seam_key in seam_keys {
        rows.push(OpenRow {
            seam: SeamId(seam_key.seam),
            mem: mem(mems, StateId(seam_key.state), seam_key.promise),
            opened: moved(game, mems, seam_key, Move::Opened),
            failed: moved(game, mems, seam_key, Move::Failed),
        })?;
    }
    Ok(rows)
}

/// The return that stands at an index.
#[inline(always)]
fn return_at(returns: &[(SeamKey, Key)], at: usize) -> Option<(SeamKey, Key)>
    ensures { result ≡ slice_get returns.now at }
{
    returns.get(at).copied()
}

/// The number of what is promised at a call: where its return stands at an index, the promise of the key where its function ends.
fn promise_near(
    game: &Game,
    solved: &Looked,
    promises: &[StateSet],
    returns: &[(SeamKey, Key)],
    near: usize,
    seam_key: &SeamKey,
) -> usize
    requires can { CanAsk game.now solved.now promises.now (key_of seam_key.now) }
    requires returns { ArePromised (game_of game.now) promises.now returns.now }
    ensures { result ≡ set_at (game_of game.now) promises.now seam_key.now.pos seam_key.now.state seam_key.now.promise }
{
    match return_at(returns, near) {
        Some(back) if back.0 == *seam_key => back.1.promise,
        _ => set_at(
            game,
            solved,
            promises,
            &Key {
                pos: seam_key.pos,
                state: seam_key.state,
                promise: seam_key.promise,
            },
        ),
    }
}

/// The index behind the returns of a call that stand from an index on.
fn behind(returns: &[(SeamKey, Key)], from: usize, seam_key: &SeamKey) -> usize {
    for at in from..returns.len() {
        if returns[at].0 != *seam_key {
            return at;
        }
    }
    from
}

/// The row of a call to which this is promised: the memory with which its function begins.
fn into_row(mems: &Mems, seam_key: &SeamKey, promise: usize) -> IntoRow
    requires mems { AreMemories mems.now }
    ensures { result ≡ into_row (λ _ _ _. promise) mems.now seam_key.now }
{
    IntoRow {
        seam: SeamId(seam_key.seam),
        split: seam_key.part == 1,
        mem: mem(mems, StateId(seam_key.state), seam_key.promise),
        callee: mem(mems, StateId(seam_key.state), promise),
    }
}

/// The rows of all calls. What is promised at a call is mostly told by its returns, which come in the order of the calls.
pub(crate) fn into_rows(
    alloc: Global,
    game: &Game,
    solved: &Looked,
    promises: &[StateSet],
    mems: &Mems,
    returns: &[(SeamKey, Key)],
    seam_keys: &[SeamKey],
) -> Result<Vec<IntoRow>, AllocError>
    requires mems { AreMemories mems.now }
    requires can { (x : SeamKey) → Contains seam_keys.now x → CanAsk game.now solved.now promises.now (key_of x) }
    requires returns { ArePromised (game_of game.now) promises.now returns.now }
    ensures { IfOk result (λ v. v.items ≡ map (into_row (set_at (game_of game.now) promises.now) mems.now) seam_keys.now) }
{
    let mut rows = Vec::with_capacity(alloc, seam_keys.len())?;
    let mut at: usize = 0;
    for seam_key in seam_keys {
        let promise = promise_near(game, solved, promises, returns, at, seam_key);
        rows.push(into_row(mems, seam_key, promise))?;
        at = behind(returns, at, seam_key);
    }
    Ok(rows)
}

/// The row of a return: the memory behind the call, by the exit state with which the function ends.
fn back_row(game: &Game, mems: &Mems, seam_key: &SeamKey, exit: &Key) -> BackRow
    requires mems { AreMemories mems.now }
    requires state { IsState (game_of game.now) seam_key.now.state }
    requires exit { IsState (game_of game.now) exit.now.state }
    ensures { result ≡ back_row (game_of game.now) mems.now (seam_key.now, exit.now) }
{
    let split = seam_key.part == 1;
    let exit = StateId(exit.state);
    let state = game.returned(StateId(seam_key.state), exit, split);
    BackRow {
        seam: SeamId(seam_key.seam),
        split,
        mem: mem(mems, StateId(seam_key.state), seam_key.promise),
        exit,
        after: mem(mems, state, seam_key.promise),
    }
}

/// The rows of all returns.
pub(crate) fn back_rows(
    alloc: Global,
    game: &Game,
    mems: &Mems,
    returns: &[(SeamKey, Key)],
) -> Result<Vec<BackRow>, AllocError>
    requires mems { AreMemories mems.now }
    requires states { (x : SeamKey × Key) → Contains returns.now x → IsState (game_of game.now) x.0.state × IsState (game_of game.now) x.1.state }
    ensures { IfOk result (λ v. v.items ≡ map (back_row (game_of game.now) mems.now) returns.now) }
{
    let mut rows = Vec::with_capacity(alloc, returns.len())?;
    for back in returns {
        rows.push(back_row(game, mems, &back.0, &back.1))?;
    }
    Ok(rows)
}
