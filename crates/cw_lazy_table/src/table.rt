//! The lazy table of a solved game.

ghost use Rattle.std.specs.Prelude.{◌≡◌, ◌<◌, ◌≤◌, None, Contains, filter_map, length, map, nat_lt, IfOk, IfErr, IfSome, IfNone};
ghost use Rattle.cw_certs.specs.Ascending.{try_cmp, at_cmp, open_cmp, into_cmp, back_cmp, Ascends};
ghost use Rattle.cw_certs.specs.Tables.{Table};
ghost use Rattle.cw_fixpoint.specs.Closures.{Exactly};
ghost use Rattle.cw_game.specs.Conditions.{IsGoodTable};
ghost use Rattle.cw_game.specs.Necessity.{TriesOnlyLost};
ghost use Rattle.cw_game.specs.Pairs.{all_states};
ghost use Rattle.cw_product.specs.Product.{game_of};
ghost use Rattle.cw_solve.specs.Contexts.{HeightIs};
ghost use Rattle.cw_product.specs.Made.{IsMade};
ghost use Rattle.cw_lazy_table.specs.Choices.{start_of, IsReady};
ghost use Rattle.cw_lazy_table.specs.Kinds.{Asked, Label, Open, Close, Call};
ghost use Rattle.cw_lazy_table.specs.Lazy.{IsTryRow, IsLabelRow, IsOpenRow, IsCloseRow, IsIntoRow, IsBackRow, IsLazyTable, table_rows};
ghost use Rattle.cw_lazy_table.specs.Numbered.{small, whole_memory, ArePromises, AreNumbered, ArePaired, AreKept};
ghost use Rattle.cw_lazy_table.specs.SeamKeys.{AreOfKind, return_cmp, return_of};
ghost use Rattle.cw_lazy_table.specs.Numbered.{ArePromised};

use crate::follow::Choices;
use crate::indices::{group_indices, key_indices, pair_indices};
use crate::key::Key;
use crate::lists::{
    at_rows, back_rows, into_rows, live_rows, mem, open_rows, try_rows, whole_memories,
};
use crate::looked::{Looked, look_up};
use crate::mems::{Mems, mems_of};
use crate::promises::{promise_number, promises_of};
use crate::seam_key::{SeamKey, memories_of, returns, seam_keys};
use cw_certs::{AtRow, BackRow, IntoRow, OpenRow, TryRow, WeaverCert};
use cw_core::limits::ROWS;
use cw_core::{StateId, StateSet};
use cw_fixpoint::ordered;
use cw_joins::joined_up_to;
use cw_product::Game;
use cw_solve::{Solved, TableFault};
use std::alloc::{AllocError, Global};

/// The key at which the program begins.
fn start_key(game: &Game, solved: &Looked, promises: &[StateSet]) -> Key
    requires ready { IsReady game.now solved.now }
    requires promises { ArePromises (game_of game.now) promises.now }
    ensures { result ≡ small promises.now (start_of (game_of game.now)) }
{
    let (pos, state) = game.start();
    Key {
        pos: pos.0,
        state: state.0,
        promise: promise_number(promises, &solved.context(0).promise),
    }
}

/// The rows of the primitives that are tried.
fn tries(
    alloc: Global,
    game: &Game,
    solved: &Looked,
    promises: &[StateSet],
    mems: &Mems,
    keys: &[Key],
    asked: &[SeamKey],
) -> Result<Vec<TryRow>, AllocError>
    requires ready { IsReady game.now solved.now }
    requires live { AreNumbered game.now promises.now keys.now }
    requires asked { AreOfKind (game_of game.now) Asked keys.now asked.now }
    requires mems { AreKept (game_of game.now) promises.now mems.now }
    ensures { IfOk result (λ v. Exactly try_cmp (IsTryRow (game_of game.now) (map (whole_memory promises.now) mems.now)) v.items) }
{
    let _ = keys;
    try_rows(alloc, game, solved, promises, mems, asked)
}

/// The rows of labels.
fn labels(
    alloc: Global,
    game: &Game,
    promises: &[StateSet],
    mems: &Mems,
    keys: &[Key],
    labels: &[SeamKey],
) -> Result<Vec<AtRow>, AllocError>
    requires live { AreNumbered game.now promises.now keys.now }
    requires labels { AreOfKind (game_of game.now) Label keys.now labels.now }
    requires mems { AreKept (game_of game.now) promises.now mems.now }
    ensures { IfOk result (λ v. Exactly at_cmp (IsLabelRow (game_of game.now) (map (whole_memory promises.now) mems.now)) v.items) }
{
    let _ = promises;
    let _ = keys;
    at_rows(alloc, game, mems, labels)
}

/// The rows of opens.
fn opens(
    alloc: Global,
    game: &Game,
    promises: &[StateSet],
    mems: &Mems,
    keys: &[Key],
    opens: &[SeamKey],
) -> Result<Vec<OpenRow>, AllocError>
    requires live { AreNumbered game.now promises.now keys.now }
    requires opens { AreOfKind (game_of game.now) Open keys.now opens.now }
    requires mems { AreKept (game_of game.now) promises.now mems.now }
    ensures { IfOk result (λ v. Exactly open_cmp (IsOpenRow (game_of game.now) (map (whole_memory promises.now) mems.now)) v.items) }
{
    let _ = promises;
    let _ = keys;
    open_rows(alloc, game, mems, opens)
}

/// The rows of closes.
fn closes(
    alloc: Global,
    game: &Game,
    promises: &[StateSet],
    mems: &Mems,
    keys: &[Key],
    closes: &[SeamKey],
) -> Result<Vec<AtRow>, AllocError>
    requires live { AreNumbered game.now promises.now keys.now }
    requires closes { AreOfKind (game_of game.now) Close keys.now closes.now }
    requires mems { AreKept (game_of game.now) promises.now mems.now }
    ensures { IfOk result (λ v. Exactly at_cmp (IsCloseRow (game_of game.now) (map (whole_memory promises.now) mems.now)) v.items) }
{
    let _ = promises;
    let _ = keys;
    at_rows(alloc, game, mems, closes)
}

/// The rows of calls.
fn calls(
    alloc: Global,
    game: &Game,
    solved: &Looked,
    promises: &[StateSet],
    mems: &Mems,
    keys: &[Key],
    calls: &[SeamKey],
    returns: &[(SeamKey, Key)],
) -> Result<Vec<IntoRow>, AllocError>
    requires ready { IsReady game.now solved.now }
    requires promised { ArePromised (game_of game.now) promises.now returns.now }
    requires live { AreNumbered game.now promises.now keys.now }
    requires calls { AreOfKind (game_of game.now) Call keys.now calls.now }
    requires mems { AreKept (game_of game.now) promises.now mems.now }
    ensures { IfOk result (λ v. Exactly into_cmp (IsIntoRow (game_of game.now) (map (whole_memory promises.now) mems.now)) v.items) }
{
    let _ = keys;
    into_rows(alloc, game, solved, promises, mems, returns, calls)
}

/// The rows of returns.
fn backs(
    alloc: Global,
    game: &Game,
    promises: &[StateSet],
    mems: &Mems,
    pairs: &[(Key, Key)],
    returns: &[(SeamKey, Key)],
) -> Result<Vec<BackRow>, AllocError>
    requires paired { ArePaired game.now promises.now pairs.now }
    requires returns { Exactly return_cmp (Contains (filter_map (return_of (game_of game.now)) pairs.now)) returns.now }
    requires mems { AreKept (game_of game.now) promises.now mems.now }
    ensures { IfOk result (λ v. Exactly back_cmp (IsBackRow (game_of game.now) (map (whole_memory promises.now) mems.now)) v.items) }
{
    let _ = promises;
    let _ = pairs;
    back_rows(alloc, game, mems, returns)
}

/// The table of what is live, whose memories these are.
#[inline(never)]
fn table_of(
    alloc: Global,
    game: &Game,
    solved: &Looked,
    promises: &[StateSet],
    mems: &Mems,
    keys: &[Key],
    pairs: &[(Key, Key)],
) -> Result<WeaverCert, AllocError>
    requires ready { IsReady game.now solved.now }
    requires live { AreNumbered game.now promises.now keys.now }
    requires returns { ArePaired game.now promises.now pairs.now }
    requires mems { AreKept (game_of game.now) promises.now mems.now }
    ensures { IfOk result (λ t. IsLazyTable (game_of game.now) t) }
{
    let named = whole_memories(alloc, promises, mems.list())?;
    let start = start_key(game, solved, promises);
    let start = mem(mems, StateId(start.state), start.promise);
    let live = live_rows(alloc, mems, keys)?;
    let seam_keys = seam_keys(alloc, game, keys)?;
    let tries = tries(alloc, game, solved, promises, mems, keys, &seam_keys.asked)?;
    let labels = labels(alloc, game, promises, mems, keys, &seam_keys.labels)?;
    let opens = opens(alloc, game, promises, mems, keys, &seam_keys.opens)?;
    let closes = closes(alloc, game, promises, mems, keys, &seam_keys.closes)?;
    let returns = returns(alloc, game, pairs)?;
    let calls = calls(
        alloc,
        game,
        solved,
        promises,
        mems,
        keys,
        &seam_keys.calls,
        &returns,
    )?;
    let backs = backs(alloc, game, promises, mems, pairs, &returns)?;
    let states = game.states();
    match WeaverCert::make(
        states, start, named, live, tries, labels, opens, closes, calls, backs,
    ) {
        Some(table) => Ok(table),
        None => unreachable!(),
    }
}

/// Numbers the memories of what is live, and makes the table.
fn numbered_table(
    alloc: Global,
    game: &Game,
    solved: &Looked,
    promises: &[StateSet],
    keys: &[Key],
    pairs: &[(Key, Key)],
) -> Result<WeaverCert, AllocError>
    requires ready { IsReady game.now solved.now }
    requires live { AreNumbered game.now promises.now keys.now }
    requires returns { ArePaired game.now promises.now pairs.now }
    ensures { IfOk result (λ t. IsLazyTable (game_of game.now) t) }
{
    let states = game.states() as usize;
    let all = memories_of(alloc, states, promises.len(), keys)?;
    let found = ordered(alloc, &all)?;
    let mems = mems_of(alloc, &found, states, promises.len())?;
    table_of(alloc, game, solved, promises, &mems, keys, pairs)
}

/// Whether a table has more than 65,536 rows in all its lists.
fn is_long(table: &WeaverCert) -> bool
    ensures { result ≡ nat_lt ROWS (table_rows table.now) }
{
    let rows = table.mems().len();
    let rows = rows.saturating_add(table.live().len());
    let rows = rows.saturating_add(table.tries().len());
    let rows = rows.saturating_add(table.ats().len());
    let rows = rows.saturating_add(table.opened().len());
    let rows = rows.saturating_add(table.closed().len());
    let rows = rows.saturating_add(table.into_rows().len());
    let rows = rows.saturating_add(table.back_rows().len());
    ROWS < rows
}

/// The lazy table by these promises; none where it has more than 65,536 rows.
fn table_by(
    alloc: Global,
    game: &Game,
    solved: &Looked,
    promises: &[StateSet],
) -> Result<Option<WeaverCert>, AllocError>
    requires ready { IsReady game.now solved.now }
    requires promises { ArePromises (game_of game.now) promises.now }
    ensures lazy { IfOk result (λ o. IfSome o (λ t. IsLazyTable (game_of game.now) t)) }
    ensures few { IfOk result (λ o. IfSome o (λ t. table_rows t ≤ ROWS)) }
    ensures many { IfOk result (λ o. IfNone o ((t : Table) → IsLazyTable (game_of game.now) t → ROWS < table_rows t)) }
{
    let start = start_key(game, solved, promises);
    let choices = Choices {
        game,
        solved,
        promises,
    };
    let keys = key_indices(game, promises);
    let pairs = pair_indices(&keys);
    let groups = group_indices(solved, promises);
    match joined_up_to(alloc, &choices, &keys, &pairs, &groups, start, ROWS)? {
        None => Ok(None),
        Some(joined) => {
            let table = numbered_table(
                alloc,
                game,
                solved,
                promises,
                &joined.members,
                &joined.pairs,
            )?;
            if is_long(&table) {
                Ok(None)
            } else {
                Ok(Some(table))
            }
        }
    }
}

/// The lazy table; none where it has more than 65,536 rows.
fn table_within(
    alloc: Global,
    game: &Game,
    solved: &Solved,
) -> Result<Option<WeaverCert>, AllocError>
    requires ready { IsReady game.now solved.now }
    ensures lazy { IfOk result (λ o. IfSome o (λ t. IsLazyTable (game_of game.now) t)) }
    ensures few { IfOk result (λ o. IfSome o (λ t. table_rows t ≤ ROWS)) }
    ensures many { IfOk result (λ o. IfNone o ((t : Table) → IsLazyTable (game_of game.now) t → ROWS < table_rows t)) }
{
    let mut orders = Vec::with_capacity(alloc, solved.contexts() as usize)?;
    let promises = promises_of(alloc, game, solved, &mut orders)?;
    let looked = look_up(alloc, game, solved, &promises, &orders)?;
    table_by(alloc, game, &looked, &promises)
}

/// The lazy table of a solved game whose start isn't lost: it tries a primitive, and stops after a refusal, only where
/// the pair after it is lost, and a call promises all exit states from which the return isn't lost.
///
/// TooManyRows comes exactly where it has more than 65,536 rows, backs counted (`many`); that there is such a table is said too (`there`).
/// NoMemory is want of memory.
///
/// Public source: the weaver's strategies of Harris, Jha, Reps, Anderson and Watson (2013).
pub fn weaver_table(alloc: Global, game: &Game, solved: &Solved) -> Result<WeaverCert, TableFault>
    requires made { IsMade game.now }
    requires solved { solved.now.game ≡ game.now }
    requires kept { HeightIs (game_of game.now) ((game_of game.now).entry (game_of game.now).main) (game_of game.now).states.start (all_states (game_of game.now)) None }
    ensures lazy { IfOk result (λ t. IsLazyTable (game_of game.now) t) }
    ensures ascends { IfOk result (λ t. Ascends t) }
    ensures good { IfOk result (λ t. IsGoodTable (game_of game.now) t) }
    ensures lost { IfOk result (λ t. TriesOnlyLost (game_of game.now) t) }
    ensures few { IfOk result (λ t. table_rows t ≤ ROWS) }
    ensures many { IfErr result (λ fault. fault ≡ TableFault.TooManyRows → (t : Table) → IsLazyTable (game_of game.now) t → ROWS < table_rows t) }
    ensures there { IfErr result (λ fault. fault ≡ TableFault.TooManyRows → (t : Table) × IsLazyTable (game_of game.now) t × (ROWS < table_rows t)) }
{
    solved.fact_contexts_are_needed();
    solved.fact_heights_are_low();
    match table_within(alloc, game, solved) {
        Err(_) => Err(TableFault::NoMemory),
        Ok(None) => Err(TableFault::TooManyRows),
        Ok(Some(table)) => Ok(table),
    }
}
