//! What a row leads to.

ghost use Rattle.std.specs.Prelude.{◌≡◌, false, IfOk, OnOk};
ghost use Rattle.cw_product.specs.Product.{game_of};
ghost use Rattle.cw_audit_visits.specs.Searching.{AreLeadsNotedBy, IsFairGame, IsGoneOn, IsKept, Tells, functions_of};

use crate::enter::call;
use crate::group_numbers::number_of;
use crate::met::{Calling, call_at, is_within, meet};
use crate::returns::{resume_all, return_all};
use crate::steps::steps;
use crate::under_way::Search;
use cw_audit_store::Entrance;
use cw_core::NoMemory;
use cw_product::Game;

/// All that the row with the number leads to is proposed, where it isn't nearer than by the key with which it waited: then it waits,
/// or was visited, by that. The answer is whether anything changed: where nothing did, its moves and its callee are noted. What
/// waited still waits, and so does each row that was made or lowered.
///
/// What is behind returns isn't promised: `settle` shows what is settled.
pub fn visit(game: &Game, search: &mut Search, key: u32, number: usize) -> Result<bool, NoMemory>
    requires fair { IsFairGame game.now }
    requires kept { IsKept (game_of game.now) (functions_of game.now) search.old }
    ensures tells { IfOk result (λ changed. Tells search.old search.new changed) }
    ensures noted { IfOk result (λ changed. changed ≡ false → AreLeadsNotedBy game.now search.old key number) }
    ensures goes_on { OnOk result (IsGoneOn game.now search.old search.new) }
{
    let Some(met) = meet(search, number) else {
        return Ok(false);
    };
    if u64::from(met.reach) + u64::from(met.row.inside) < u64::from(key) {
        return Ok(false);
    }
    if is_within(game, met.row_key) {
        return steps(game, search, met);
    }
    let Some((callee, back)) = call_at(game, met.row_key) else {
        return resume_all(game, search, number, met.row.group);
    };
    let entrance = Entrance {
        function: callee,
        state: met.row_key.state,
    };
    let group = number_of(search, entrance);
    let entered = call(game, search, Calling { met, callee, back }, group)?;
    let returned = return_all(game, search, number, group)?;
    Ok(entered | returned)
}
