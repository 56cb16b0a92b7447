//! The search.

ghost use Rattle.std.specs.Prelude.{◌≡◌, ◌<◌, ◌≤◌, true, false, Err, IfOk, IfErr, OnOk};
ghost use Rattle.cw_model.specs.Boards.{Problem};
ghost use Rattle.cw_game.specs.Standing.{IsGameOf};
ghost use Rattle.cw_product.specs.Product.{game_of};
ghost use Rattle.cw_audit_table.specs.Plays.{IsVerdict};
ghost use Rattle.cw_audit_table.specs.Tables.{audit_of};
ghost use Rattle.cw_audit_search.specs.Settled.{IsSettled};
ghost use Rattle.cw_audit_store.specs.Finding.{found_of};
ghost use Rattle.cw_audit_visits.specs.Searching.{IsFairGame, IsKept, functions_of, left};
ghost use Rattle.cw_audit_search.specs.Counted.{row_count};
ghost use Rattle.cw_audit_table.specs.Conditions.{IsGoodAudit, IsShown};
ghost use Rattle.cw_audit_table.specs.Stated.{IsStated};
ghost use Rattle.cw_audit.specs.declared.fault.AuditFault.TheVariants.{TooManyMoves, TooManyRows};
ghost use Rattle.cw_audit.specs.Audits.{AreManyMoves, AreManyRows, AreNeeded, IsAuditOf, IsFaultOf, IsFew, IsPlayed};
ghost use Rattle.cw_audit.specs.Bounds.{bound_of};

use crate::fault::AuditFault;
use crate::finish::{MOST, bound_of, finish, too_many};
use cw_audit_store::Store;
use cw_audit_table::AuditTable;
use cw_audit_visits::{Search, begin, settle, visit};
use cw_core::NoMemory;
use cw_core::limits::ROWS;
use cw_product::Game;
use std::alloc::Global;

/// How many rows were visited, and after how many it is asked whether there are too many.
#[derive(Drop)]
struct Pace {
    visited: u64,
    limit: u64,
}

// Whether a row of this key is nearer than the nearest violation, where that can be told.
fn is_nearer(store: &Store, key: u32) -> bool {
    match store.hit {
        Some(hit) if hit.distance <= MOST => key < hit.distance,
        Some(_) | None => true,
    }
}

// A row is visited. The answer is whether the rows are too many.
fn visit_next(
    alloc: Global,
    game: &Game,
    search: &mut Search,
    pace: &mut Pace,
    key: u32,
    number: usize,
) -> Result<bool, NoMemory>
    requires fair { IsFairGame game.now }
    requires kept { IsKept (game_of game.now) (functions_of game.now) search.old }
    ensures less { OnOk result (left search.new ≤ left search.old) }
    ensures kept { OnOk result (IsKept (game_of game.now) (functions_of game.now) search.new) }
    ensures many { IfOk result (λ many. many ≡ true → AreManyRows (game_of game.now)) }
{
    visit(game, search, key, number)?;
    pace.visited = pace.visited.saturating_add(1);
    if pace.visited <= pace.limit {
        return Ok(false);
    }
    pace.limit = pace.limit.saturating_add(pace.limit / 16);
    too_many(alloc, game, search, key)
}

// One step: a row that waits is visited, or where none is nearer than the violation, all are once more. The answer is whether
// the search is done.
fn advance(
    alloc: Global,
    game: &Game,
    search: &mut Search,
    pace: &mut Pace,
) -> Result<bool, AuditFault>
    requires fair { IsFairGame game.now }
    requires kept { IsKept (game_of game.now) (functions_of game.now) search.old }
    ensures kept { OnOk result (IsKept (game_of game.now) (functions_of game.now) search.new) }
    ensures less { IfOk result (λ done. done ≡ false → left search.new < left search.old) }
    ensures settled { IfOk result (λ done. done ≡ true → IsSettled (game_of game.now) (found_of search.new.store) (bound_of search.new.store.hit)) }
    ensures fault { IfErr result (λ fault. IsFaultOf (game_of game.now) fault) }
{
    match search.frontier.take() {
        Some((key, number)) if is_nearer(&search.store, key) => {
            if visit_next(alloc, game, search, pace, key, number)? {
                return Err(AuditFault::TooManyRows);
            }
            Ok(false)
        }
        Some(_) | None => {
            let bound = bound_of(&search.store);
            let settled = settle(alloc, game, search, bound)?;
            Ok(settled)
        }
    }
}

// A search that is done.
fn searched(alloc: Global, game: &Game) -> Result<Search, AuditFault>
    requires fair { IsFairGame game.now }
    ensures kept { IfOk result (λ s. IsKept (game_of game.now) (functions_of game.now) s) }
    ensures settled { IfOk result (λ s. IsSettled (game_of game.now) (found_of s.store) (bound_of s.store.hit)) }
    ensures fault { IfErr result (λ fault. IsFaultOf (game_of game.now) fault) }
{
    let mut search = begin(alloc, game)?;
    let mut pace = Pace {
        visited: 0,
        limit: u64::from(MOST),
    };
    'search: loop {
        if advance(alloc, game, &mut search, &mut pace)? {
            return Ok(search);
        }
    }
}

// The table, with all that is said of it, or why there is none.
fn audited(alloc: Global, game: &Game) -> Result<AuditTable, AuditFault>
    requires program { (p : Problem) × IsGameOf p (game_of game.now) }
    ensures table { IfOk result (λ t. IsAuditOf (game_of game.now) (functions_of game.now) (audit_of t)) }
    ensures verdict { IfOk result (λ t. (p : Problem) → IsGameOf p (game_of game.now) → IsVerdict p t.distance) }
    ensures fault { IfErr result (λ fault. IsFaultOf (game_of game.now) fault) }
{
    game.fact_is_closed();
    let search = searched(alloc, game)?;
    finish(alloc, game, &search)
}

/// The audit of a source as it is, without insertions, by the game of its program and policy: whether a play in which the weaver
/// always skips comes to a violation; if so the least number of the program's moves to one, with the moves of such a play; and
/// the table that shows that none is shorter. Its groups and rows ascend. Each of its numbers is the least there is, cut at 65,537, and
/// it has all that is reached, but for what is no nearer than the violation.
///
/// TooManyRows comes exactly where the table has more than 65,536 rows, then TooManyMoves where the moves are more than 65,536.
///
/// Public source: the summaries of Löding, Madhusudan and Serre, *Visibly Pushdown Games* (2004), with least numbers of moves, found as by
/// Dijkstra (1959).
pub fn audit(alloc: Global, game: &Game) -> Result<AuditTable, AuditFault>
    requires program { (p : Problem) × IsGameOf p (game_of game.now) }
    ensures stated { IfOk result (λ t. IsStated (game_of game.now) (audit_of t)) }
    ensures good { IfOk result (λ t. IsGoodAudit (game_of game.now) (functions_of game.now) (audit_of t)) }
    ensures shown { IfOk result (λ t. IsShown (game_of game.now) (audit_of t)) }
    ensures needed { IfOk result (λ t. AreNeeded (audit_of t)) }
    ensures few_rows { IfOk result (λ t. row_count (audit_of t) ≤ ROWS) }
    ensures few_moves { IfOk result (λ t. IsFew t.distance) }
    ensures verdict { IfOk result (λ t. (p : Problem) → IsGameOf p (game_of game.now) → IsVerdict p t.distance) }
    ensures plays { IfOk result (λ t. (p : Problem) → IsGameOf p (game_of game.now) → IsPlayed p (audit_of t)) }
    ensures many_rows { result ≡ Err TooManyRows → AreManyRows (game_of game.now) }
    ensures many_moves { result ≡ Err TooManyMoves → AreManyMoves (game_of game.now) }
{
    audited(alloc, game)
}
