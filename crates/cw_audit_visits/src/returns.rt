//! What goes on behind the return of a function.

ghost use Rattle.std.specs.Prelude.{◌≡◌, ◌<◌, false, length, IfOk, OnOk};
ghost use Rattle.cw_product.specs.Product.{game_of};
ghost use Rattle.cw_audit_store.specs.Stores.{row_key_eq};
ghost use Rattle.cw_audit_visits.specs.Searching.{IsCallOf, IsEndNoted, IsFairGame, IsGoneOn, IsKept, IsThere, Tells, functions_of, end_of};

use crate::met::{Calling, call_at, meet};
use crate::propose::propose;
use crate::under_way::Search;
use cw_audit_store::{Entrance, Row, RowKey, Way};
use cw_audit_table::cut;
use cw_core::NoMemory;
use cw_product::Game;

// Whether the row key is an end of the function that the call enters.
fn is_end(game: &Game, call: Calling, end: RowKey) -> bool
    requires { call.callee < length game.now.graph.parts.items }
    ensures { result ≡ row_key_eq end (end_of game.now call end.state.0) }
{
    let entrance = Entrance {
        function: call.callee,
        state: call.met.row_key.state,
    };
    let due = RowKey {
        entrance,
        pos: game.exit(call.callee),
        state: end.state,
    };
    end == due
}

/// A call's row goes on behind the return from the row with the number, where that is an end of what it calls.
pub(crate) fn return_from(
    game: &Game,
    search: &mut Search,
    call: Calling,
    number: usize,
) -> Result<bool, NoMemory>
    requires there { IsThere search.old call.met }
    requires call { IsCallOf game.now call.met.row_key call.callee call.back.0 }
    requires fair { IsFairGame game.now }
    requires kept { IsKept (game_of game.now) (functions_of game.now) search.old }
    ensures tells { IfOk result (λ changed. Tells search.old search.new changed) }
    ensures noted { IfOk result (λ changed. changed ≡ false → IsEndNoted game.now search.old call number) }
    ensures goes_on { OnOk result (IsGoneOn game.now search.old search.new) }
{
    let met = call.met;
    let Some((end, ended)) = search.store.numbered(number) else {
        return Ok(false);
    };
    if !is_end(game, call, end) {
        return Ok(false);
    }
    propose(
        game,
        search,
        met.reach,
        RowKey {
            pos: call.back,
            state: end.state,
            ..met.row_key
        },
        Row {
            inside: cut(u64::from(met.row.inside) + u64::from(ended.inside) + 2),
            way: Way::Returned(met.row_key.state, met.row_key.pos, call.callee, end.state),
            group: met.row.group,
        },
    )
}

// Where one row is a call and the other an end of what it calls, the call goes on.
fn join(game: &Game, search: &mut Search, caller: usize, end: usize) -> Result<bool, NoMemory>
    requires fair { IsFairGame game.now }
    requires kept { IsKept (game_of game.now) (functions_of game.now) search.old }
    ensures tells { IfOk result (λ changed. Tells search.old search.new changed) }
    ensures goes_on { OnOk result (IsGoneOn game.now search.old search.new) }
{
    let Some(met) = meet(search, caller) else {
        return Ok(false);
    };
    let Some((callee, back)) = call_at(game, met.row_key) else {
        return Ok(false);
    };
    return_from(game, search, Calling { met, callee, back }, end)
}

/// The row of a call, which enters the group with that number, goes on behind each return that was visited. Behind one that will be it
/// goes on by `resume_all`.
pub(crate) fn return_all(
    game: &Game,
    search: &mut Search,
    caller: usize,
    group: u32,
) -> Result<bool, NoMemory>
    requires fair { IsFairGame game.now }
    requires kept { IsKept (game_of game.now) (functions_of game.now) search.old }
    ensures tells { IfOk result (λ changed. Tells search.old search.new changed) }
    ensures goes_on { OnOk result (IsGoneOn game.now search.old search.new) }
{
    search.frontier.calls.put(group, caller)?;
    let mut changed = false;
    for row_key in 0..usize::MAX {
        let Some(end) = search.frontier.ends.get(group, row_key) else {
            break;
        };
        let joined = join(game, search, caller, end)?;
        changed |= joined;
    }
    Ok(changed)
}

/// Each call that was visited and enters the group with that number goes on behind the return from its end. One that will be goes on
/// by `return_all`.
pub(crate) fn resume_all(
    game: &Game,
    search: &mut Search,
    end: usize,
    group: u32,
) -> Result<bool, NoMemory>
    requires fair { IsFairGame game.now }
    requires kept { IsKept (game_of game.now) (functions_of game.now) search.old }
    ensures tells { IfOk result (λ changed. Tells search.old search.new changed) }
    ensures goes_on { OnOk result (IsGoneOn game.now search.old search.new) }
{
    search.frontier.ends.put(group, end)?;
    let mut changed = false;
    for row_key in 0..usize::MAX {
        let Some(caller) = search.frontier.calls.get(group, row_key) else {
            break;
        };
        let joined = join(game, search, caller, end)?;
        changed |= joined;
    }
    Ok(changed)
}
