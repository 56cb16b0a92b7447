//! What a settled search tells.

ghost use Rattle.std.specs.Prelude.{◌≡◌, ◌<◌, ◌≤◌, true, length, option_map, IfOk, IfErr, OnOk};
ghost use Rattle.cw_product.specs.Product.{game_of};
ghost use Rattle.cw_audit_table.specs.Tables.{audit_of};
ghost use Rattle.cw_audit_search.specs.Settled.{IsSettled};
ghost use Rattle.cw_audit_store.specs.Finding.{found_of};
ghost use Rattle.cw_audit_visits.specs.Searching.{IsFairGame, IsKept, functions_of, left};
ghost use Rattle.cw_audit.specs.Audits.{AreManyRows, IsAuditOf, IsFaultOf};
ghost use Rattle.cw_audit.specs.Bounds.{AreMovesTo, IsEarly, IsNoted, early_bound, bound_of, is_far};
ghost use Rattle.cw_audit_listing.specs.Lists.{AreAllBelow};

use crate::fault::AuditFault;
use cw_audit_listing::{below, list, ordered};
use cw_audit_moves::tell;
use cw_audit_store::{RowKey, Store};
use cw_audit_table::AuditTable;
use cw_audit_visits::{Search, settle};
use cw_certs::Move;
use cw_core::NoMemory;
use cw_core::limits::ROWS;
use cw_product::Game;
use std::alloc::Global;

/// The greatest number of rows, and of moves, that a table has.
pub(crate) const MOST: u32 = ROWS as u32;

/// The least number that stands for more moves than can be told.
const CUT: u32 = 65_537;

/// Above each number: the bound of a search that is settled everywhere.
const ALL: u32 = 65_538;

/// As far as which rows a search has to be settled to be done: to the nearest violation, or everywhere, where that is further
/// than can be told.
pub(crate) fn bound_of(store: &Store) -> u32
    ensures { result ≡ bound_of store.now.hit }
{
    match store.hit {
        Some(hit) if hit.distance <= MOST => hit.distance,
        Some(_) | None => ALL,
    }
}

// As far as which rows a search may be told to be settled, where rows of this key are visited: not past the nearest violation.
fn early_bound(store: &Store, key: u32) -> u32
    ensures { result ≡ early_bound store.now.hit key }
{
    let bound = key.saturating_add(1).min(CUT);
    match store.hit {
        Some(hit) => bound.min(hit.distance),
        None => bound,
    }
}

// Whether the rows below the bound, or all rows where it is past what can be told, are more than a table has.
fn are_many(alloc: Global, game: &Game, search: &Search, bound: u32) -> Result<bool, NoMemory>
    requires fair { IsFairGame game.now }
    requires kept { IsKept (game_of game.now) (functions_of game.now) search.now }
    requires early { IsEarly search.now.store.hit bound }
    requires settled { IsSettled (game_of game.now) (found_of search.now.store) bound }
    ensures { IfOk result (λ many. many ≡ true → AreManyRows (game_of game.now)) }
{
    let limit = if bound == CUT { ALL } else { bound };
    let row_keys = below(alloc, &search.store, limit)?;
    Ok(row_keys.len() > MOST as usize)
}

/// Whether the rows that were found as near as this are too many for a table, and the search is settled so far that each table of the
/// game has them.
pub(crate) fn too_many(
    alloc: Global,
    game: &Game,
    search: &mut Search,
    key: u32,
) -> Result<bool, NoMemory>
    requires fair { IsFairGame game.now }
    requires kept { IsKept (game_of game.now) (functions_of game.now) search.old }
    ensures less { OnOk result (left search.new ≤ left search.old) }
    ensures kept { OnOk result (IsKept (game_of game.now) (functions_of game.now) search.new) }
    ensures many { IfOk result (λ many. many ≡ true → AreManyRows (game_of game.now)) }
{
    let bound = early_bound(&search.store, key);
    if !settle(alloc, game, search, bound)? {
        return Ok(false);
    }
    are_many(alloc, game, search, bound)
}

// The distance of the nearest violation.
fn distance_of(store: &Store) -> Option<u32>
    ensures { result ≡ option_map (λ h. h.distance) store.now.hit }
{
    let hit = store.hit?;
    Some(hit.distance)
}

// The moves to the nearest violation, or none.
fn moves_of(alloc: Global, game: &Game, search: &Search) -> Result<Vec<Move>, NoMemory>
    requires fair { IsFairGame game.now }
    requires kept { IsKept (game_of game.now) (functions_of game.now) search.now }
    requires settled { IsSettled (game_of game.now) (found_of search.now.store) (bound_of search.now.store.hit) }
    requires near { IsNoted search.now.store.hit }
    ensures { IfOk result (λ moves. AreMovesTo (game_of game.now) moves.items search.now.store.hit) }
{
    match search.store.hit {
        Some(hit) => tell(alloc, game, &search.store, hit),
        None => Ok(Vec::new(alloc)),
    }
}

// The table of a search that is done, without a violation or with one that can be told, whose rows are few.
fn table_of(
    alloc: Global,
    game: &Game,
    search: &Search,
    row_keys: Vec<RowKey>,
) -> Result<AuditTable, NoMemory>
    requires fair { IsFairGame game.now }
    requires kept { IsKept (game_of game.now) (functions_of game.now) search.now }
    requires settled { IsSettled (game_of game.now) (found_of search.now.store) (bound_of search.now.store.hit) }
    requires near { IsNoted search.now.store.hit }
    requires below { AreAllBelow search.now.store (bound_of search.now.store.hit) row_keys.items }
    requires few { length row_keys.items ≤ ROWS }
    ensures { IfOk result (λ t. IsAuditOf (game_of game.now) (functions_of game.now) (audit_of t)) }
{
    let moves = moves_of(alloc, game, search)?;
    let ordered = ordered(row_keys)?;
    let groups = list(alloc, &search.store, &ordered)?;
    Ok(AuditTable {
        states: game.states(),
        distance: distance_of(&search.store),
        moves,
        groups,
    })
}

// Whether the nearest violation is further than can be told.
fn is_far(store: &Store) -> bool
    ensures { result ≡ is_far store.now.hit }
{
    match store.hit {
        Some(hit) => hit.distance > MOST,
        None => false,
    }
}

/// The table of a search that is done, or why it has none.
pub(crate) fn finish(alloc: Global, game: &Game, search: &Search) -> Result<AuditTable, AuditFault>
    requires fair { IsFairGame game.now }
    requires kept { IsKept (game_of game.now) (functions_of game.now) search.now }
    requires settled { IsSettled (game_of game.now) (found_of search.now.store) (bound_of search.now.store.hit) }
    ensures table { IfOk result (λ t. IsAuditOf (game_of game.now) (functions_of game.now) (audit_of t)) }
    ensures fault { IfErr result (λ fault. IsFaultOf (game_of game.now) fault) }
{
    let row_keys = below(alloc, &search.store, bound_of(&search.store))?;
    if row_keys.len() > MOST as usize {
        return Err(AuditFault::TooManyRows);
    }
    if is_far(&search.store) {
        return Err(AuditFault::TooManyMoves);
    }
    let table = table_of(alloc, game, search, row_keys)?;
    Ok(table)
}
