//! Rows and violations that are proposed.

ghost use Rattle.std.specs.Prelude.{◌≡◌, ◌<◌, ◌≤◌, true, false, Some, IfOk, OnOk};
ghost use Rattle.cw_product.specs.Moves.{IsPosition, IsState};
ghost use Rattle.cw_product.specs.Product.{game_of};
ghost use Rattle.cw_audit_visits.specs.Searching.{IsDue, IsHitNear, IsHitSet, IsNear, IsPut, IsRowSet, IsFairGame, IsGoneOn, IsHitFalling, IsRowFalling, IsKept, IsNoted, Tells, functions_of, reach_of};

use crate::under_way::Search;
use cw_audit_store::{Hit, Row, RowKey};
use cw_audit_table::{cut, skipped};
use cw_core::NoMemory;
use cw_product::Game;

// The row of a row key is made, or lowered, and waits; nothing changes where it is as near.
fn lower(search: &mut Search, reach: u32, row_key: RowKey, row: Row) -> Result<bool, NoMemory>
    requires reach { reach ≤ 65537 }
    requires row { row.inside ≤ 65537 }
    ensures tells { IfOk result (λ changed. Tells search.old search.new changed) }
    ensures near { IfOk result (λ changed. changed ≡ false → IsNear search.old row_key row.inside) }
    ensures falls { IfOk result (λ changed. changed ≡ true → IsRowFalling search.old row_key row.inside) }
    ensures set { IfOk result (λ changed. changed ≡ true → IsRowSet search.old.store search.new.store row_key row) }
    ensures put { IfOk result (λ changed. changed ≡ true → IsPut search.old search.new row_key reach) }
    ensures rests { IfOk result (λ changed. changed ≡ false → search.new.frontier.rows ≡ search.old.frontier.rows) }
    ensures groups { search.new.store.groups ≡ search.old.store.groups }
{
    if let Some(old) = search.store.row(row_key)
        && old.inside <= row.inside
    {
        return Ok(false);
    }
    let number = search.store.put_row(row_key, row)?;
    search.frontier.put(reach + row.inside, number)?;
    Ok(true)
}

// A violation is noted, where it is nearer than the nearest so far.
fn violate(search: &mut Search, hit: Hit) -> bool
    requires { hit.distance ≤ 65537 }
    ensures tells { Tells search.old search.new result }
    ensures near { result ≡ false → IsHitNear search.old hit.distance }
    ensures falls { result ≡ true → IsHitFalling search.old hit.distance }
    ensures set { result ≡ true → IsHitSet search.old.store search.new.store hit }
    ensures rests { search.new.frontier.rows ≡ search.old.frontier.rows }
    ensures groups { search.new.store.groups ≡ search.old.store.groups }
{
    if let Some(nearest) = search.store.hit
        && nearest.distance <= hit.distance
    {
        return false;
    }
    search.store.put_hit(hit);
    true
}

/// So many moves lead to a pair of a group, with skips behind it: what is behind them is a violation where it is bad, and else the row.
pub(crate) fn propose(
    game: &Game,
    search: &mut Search,
    reach: u32,
    at: RowKey,
    row: Row,
) -> Result<bool, NoMemory>
    requires reach { reach_of search.old at ≡ Some reach }
    requires position { IsPosition (game_of game.now) at.pos.0 }
    requires state { IsState (game_of game.now) at.state.0 }
    requires fair { IsFairGame game.now }
    requires kept { IsKept (game_of game.now) (functions_of game.now) search.old }
    requires inside { row.inside ≤ 65537 }
    requires due { IsDue game.now search.old at row.inside row.way }
    ensures tells { IfOk result (λ changed. Tells search.old search.new changed) }
    ensures noted { IfOk result (λ changed. changed ≡ false → IsNoted game.now search.old at row.inside) }
    ensures groups { search.new.store.groups ≡ search.old.store.groups }
    ensures goes_on { OnOk result (IsGoneOn game.now search.old search.new) }
{
    let row_key = RowKey {
        pos: skipped(game, at.pos),
        ..at
    };
    if game.bad(row_key.pos, row_key.state) {
        return Ok(violate(
            search,
            Hit {
                distance: cut(u64::from(reach) + u64::from(row.inside)),
                entrance: row_key.entrance,
                way: row.way,
            },
        ));
    }
    lower(search, reach, row_key, row)
}
