//! Moves within a function.

ghost use Rattle.std.specs.Prelude.{◌≡◌, ◌<◌, ◌+◌, ◌≤◌, true, false, Some, slice_get, IfOk, OnOk};
ghost use Rattle.cw_certs.specs.declared.moves.Move.{Move};
ghost use Rattle.cw_game.specs.Games.{bad_in};
ghost use Rattle.cw_product.specs.Moves.{IsPosition, IsState};
ghost use Rattle.cw_product.specs.Product.{game_of};
ghost use Rattle.cw_audit_table.specs.Runs.{cut, is_step};
ghost use Rattle.cw_audit_table.specs.Conditions.{is_inner};
ghost use Rattle.cw_audit_visits.specs.Searching.{IsFairGame, IsGoneOn, IsKept, IsStepDue, IsStepNoted, IsThere, Tells, functions_of, reach_of};

use crate::met::Met;
use crate::propose::propose;
use crate::under_way::Search;
use cw_audit_store::{Row, RowKey, Way};
use cw_audit_table::cut;
use cw_certs::Move;
use cw_core::NoMemory;
use cw_product::Game;

// A row within a function goes on by a move.
fn step(game: &Game, search: &mut Search, met: Met, by: Move) -> Result<bool, NoMemory>
    requires reach { reach_of search.old met.row_key ≡ Some met.reach }
    requires position { IsPosition (game_of game.now) met.row_key.pos.0 }
    requires state { IsState (game_of game.now) met.row_key.state.0 }
    requires inside { met.row.inside ≤ 65537 }
    requires inner { is_inner (slice_get (game_of game.now).spots met.row_key.pos.0) ≡ true }
    requires good { bad_in (game_of game.now) met.row_key.state.0 (slice_get (game_of game.now).spots met.row_key.pos.0) ≡ false }
    requires fair { IsFairGame game.now }
    requires kept { IsKept (game_of game.now) (functions_of game.now) search.old }
    requires due { IsStepDue game.now search.old met.row_key met.row.inside by }
    ensures tells { IfOk result (λ changed. Tells search.old search.new changed) }
    ensures noted { IfOk result (λ changed. changed ≡ false → IsStepNoted game.now search.old met.row_key met.row.inside by) }
    ensures groups { search.new.store.groups ≡ search.old.store.groups }
    ensures goes_on { OnOk result (IsGoneOn game.now search.old search.new) }
{
    let row_key = met.row_key;
    let Some((pos, state)) = game.next(row_key.pos, row_key.state, by) else {
        return Ok(false);
    };
    propose(
        game,
        search,
        met.reach,
        RowKey {
            pos,
            state,
            ..row_key
        },
        Row {
            inside: cut(u64::from(met.row.inside) + 1),
            way: Way::Moved(row_key.state, row_key.pos, by),
            group: met.row.group,
        },
    )
}

/// A row within a function goes on by each move.
pub(crate) fn steps(game: &Game, search: &mut Search, met: Met) -> Result<bool, NoMemory>
    requires there { IsThere search.old met }
    requires inner { is_inner (slice_get (game_of game.now).spots met.row_key.pos.0) ≡ true }
    requires fair { IsFairGame game.now }
    requires kept { IsKept (game_of game.now) (functions_of game.now) search.old }
    ensures tells { IfOk result (λ changed. Tells search.old search.new changed) }
    ensures noted { IfOk result (λ changed. changed ≡ false → (by : Move) → is_step by ≡ true → IsStepNoted game.now search.old met.row_key met.row.inside by) }
    ensures goes_on { OnOk result (IsGoneOn game.now search.old search.new) }
{
    let (first, second) = game.moves(met.row_key.pos);
    let one = step(game, search, met, first)?;
    match second {
        None => Ok(one),
        Some(by) => {
            let other = step(game, search, met, by)?;
            Ok(one | other)
        }
    }
}
