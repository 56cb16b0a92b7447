//! Rows that are met, and the calls at which they stand.

ghost use Rattle.std.specs.Prelude.{◌≡◌, slice_get, Some, IfSome, IfNone};
ghost use Rattle.cw_product.specs.Product.{game_of};
ghost use Rattle.cw_audit_table.specs.Conditions.{is_inner};
ghost use Rattle.cw_audit_visits.specs.Searching.{IsCallOf, IsFairGame, IsNoCall, IsThere, IsUnknown, MayStand};

use crate::under_way::Search;
use cw_audit_store::{Row, RowKey};
use cw_core::PosId;
use cw_product::{Game, Turn};

/// A row, its row key, and the reach of its group.
#[derive(Clone, Copy, Drop)]
pub struct Met {
    pub row_key: RowKey,
    pub row: Row,
    pub reach: u32,
}

/// A row at a call: which function is called, and where it returns.
#[derive(Clone, Copy, Drop)]
pub struct Calling {
    pub met: Met,
    pub callee: u16,
    pub back: PosId,
}

/// The row with a number, where there is one and its entrance has a group.
pub(crate) fn meet(search: &Search, number: usize) -> Option<Met>
    ensures entry { IfSome result (λ m. slice_get search.now.store.rows.entries number ≡ Some (m.row_key, m.row)) }
    ensures there { IfSome result (λ m. IsThere search.now m) }
    ensures none { IfNone result (IsUnknown search.now number) }
{
    let (row_key, row) = search.store.numbered(number)?;
    let group = search.store.group_by(row.group, row_key.entrance)?;
    Some(Met {
        row_key,
        row,
        reach: group.reach,
    })
}

/// Which function is called at the row key, and where it returns, if it is a call.
pub(crate) fn call_at(game: &Game, row_key: RowKey) -> Option<(u16, PosId)>
    requires fair { IsFairGame game.now }
    requires may_stand { MayStand game.now row_key }
    ensures some { IfSome result (λ (callee, back). IsCallOf game.now row_key callee back.0) }
    ensures none { IfNone result (IsNoCall game.now row_key) }
{
    game.fact_is_closed();
    match game.turn(row_key.pos) {
        Turn::Call { callee, back, .. } => Some((callee, back)),
        Turn::Weaver | Turn::Environment | Turn::Exit { .. } => None,
    }
}

/// Whether a row at the row key goes on within its function.
pub(crate) fn is_within(game: &Game, row_key: RowKey) -> bool
    requires fair { IsFairGame game.now }
    requires may_stand { MayStand game.now row_key }
    ensures { result ≡ is_inner (slice_get (game_of game.now).spots row_key.pos.0) }
{
    match game.turn(row_key.pos) {
        Turn::Environment => true,
        Turn::Weaver | Turn::Call { .. } | Turn::Exit { .. } => false,
    }
}
