//! Functions that are entered.

ghost use Rattle.std.specs.Prelude.{◌≡◌, ◌<◌, ◌≤◌, true, false, length, option_map, IfOk, OnOk};
ghost use Rattle.cw_product.specs.Product.{game_of};
ghost use Rattle.cw_audit_search.specs.Sound.{IsArrival};
ghost use Rattle.cw_audit_search.specs.Ways.{IsCaller};
ghost use Rattle.cw_audit_visits.specs.Searching.{IsCallOf, IsCallNear, IsFairGame, IsGoneOn, IsGroupFalling, IsGroupNear, IsGroupSet, IsKept, IsThere, Tells, functions_of, found_of, caller_of};

use crate::group_numbers::short;
use crate::met::Calling;
use crate::propose::propose;
use crate::under_way::Search;
use cw_audit_store::{Entered, Entrance, Frontier, Row, RowKey, Store, Way};
use cw_audit_table::cut;
use cw_core::NoMemory;
use cw_product::Game;
use std::alloc::Global;

// The group of an entrance is made, or is nearer.
fn reach(
    search: &mut Search,
    number: u32,
    entrance: Entrance,
    entered: Entered,
) -> Result<bool, NoMemory>
    requires { entered.reach ≤ 65537 }
    ensures tells { IfOk result (λ changed. Tells search.old search.new changed) }
    ensures near { IfOk result (λ changed. changed ≡ false → IsGroupNear search.old entrance entered.reach) }
    ensures falls { IfOk result (λ changed. changed ≡ true → IsGroupFalling search.old entrance entered.reach) }
    ensures set { IfOk result (λ changed. changed ≡ true → IsGroupSet search.old.store search.new.store entrance entered) }
    ensures rests { search.new.frontier.rows ≡ search.old.frontier.rows }
{
    if let Some(old) = search.store.group_by(number, entrance)
        && old.reach <= entered.reach
    {
        return Ok(false);
    }
    search.store.put_group(entrance, entered)?;
    Ok(true)
}

// A function is entered in a state by so many moves from the start, and so is its entry, where that is nearer.
fn enter(
    game: &Game,
    search: &mut Search,
    number: u32,
    entrance: Entrance,
    entered: Entered,
) -> Result<bool, NoMemory>
    requires function { entrance.function < length game.now.graph.parts.items }
    requires fair { IsFairGame game.now }
    requires kept { IsKept (game_of game.now) (functions_of game.now) search.old }
    requires arrival { IsArrival (game_of game.now) entrance.function entrance.state.0 entered.reach }
    requires caller { IsCaller (game_of game.now) (found_of search.old.store) entrance.function entrance.state.0 entered.reach (option_map caller_of entered.call) }
    ensures tells { IfOk result (λ changed. Tells search.old search.new changed) }
    ensures near { IfOk result (λ changed. changed ≡ false → IsGroupNear search.old entrance entered.reach) }
    ensures goes_on { OnOk result (IsGoneOn game.now search.old search.new) }
{
    let group = short(search.store.group_count());
    if !reach(search, number, entrance, entered)? {
        return Ok(false);
    }
    let entry = RowKey {
        entrance,
        pos: game.entry(entrance.function),
        state: entrance.state,
    };
    propose(
        game,
        search,
        entered.reach,
        entry,
        Row {
            inside: 0,
            way: Way::Begun,
            group,
        },
    )?;
    Ok(true)
}

/// A call's row enters the callee, whose group should have the number.
pub(crate) fn call(
    game: &Game,
    search: &mut Search,
    call: Calling,
    number: u32,
) -> Result<bool, NoMemory>
    requires there { IsThere search.old call.met }
    requires call { IsCallOf game.now call.met.row_key call.callee call.back.0 }
    requires fair { IsFairGame game.now }
    requires kept { IsKept (game_of game.now) (functions_of game.now) search.old }
    ensures tells { IfOk result (λ changed. Tells search.old search.new changed) }
    ensures near { IfOk result (λ changed. changed ≡ false → IsCallNear search.old call) }
    ensures goes_on { OnOk result (IsGoneOn game.now search.old search.new) }
{
    let met = call.met;
    let entrance = Entrance {
        function: call.callee,
        state: met.row_key.state,
    };
    let entered = Entered {
        reach: cut(u64::from(met.reach) + u64::from(met.row.inside) + 1),
        call: Some(met.row_key),
    };
    enter(game, search, number, entrance, entered)
}

/// A search begins: `main` is entered at the start.
pub fn begin(alloc: Global, game: &Game) -> Result<Search, NoMemory>
    requires fair { IsFairGame game.now }
    ensures kept { IfOk result (λ s. IsKept (game_of game.now) (functions_of game.now) s) }
{
    game.fact_is_closed();
    let mut search = Search {
        store: Store::make(alloc),
        frontier: Frontier::make(alloc),
    };
    let (pos, state) = game.start();
    let entrance = Entrance {
        function: game.main(),
        state,
    };
    let entered = Entered {
        reach: 0,
        call: None,
    };
    search.store.put_group(entrance, entered)?;
    let entry = RowKey {
        entrance,
        pos,
        state,
    };
    propose(
        game,
        &mut search,
        0,
        entry,
        Row {
            inside: 0,
            way: Way::Begun,
            group: 0,
        },
    )?;
    Ok(search)
}
