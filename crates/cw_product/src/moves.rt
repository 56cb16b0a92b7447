//! Where the spots lead that ask for no state.

ghost use Rattle.std.specs.Prelude.{◌≡◌, ◌<◌, Some};
ghost use Rattle.cw_rights.specs.declared.capabilities.Primitive.TheVariants.{Enter};
ghost use Rattle.cw_game.specs.Games.{Game};
ghost use Rattle.cw_product.specs.Moves.{numbers, next_in};

use cw_certs::Move;
use cw_core::limits::POSITIONS_TIMES_STATES;
use cw_core::{PosId, StateId};
use cw_game::Spot;

/// Where a visit leads.
pub(crate) fn visited(pos: PosId, state: StateId, by: Move) -> Option<(PosId, StateId)>
    requires { pos.0 < POSITIONS_TIMES_STATES }
    ensures { (g : Game) → numbers result ≡ next_in g pos.0 state.0 (Some (Spot.Visit 0 0 Enter)) by }
{
    match by {
        Move::Skip => Some((PosId(pos.0 + 2), state)),
        Move::Try => Some((PosId(pos.0 + 1), state)),
        Move::Grant | Move::Refuse | Move::On | Move::Left => None,
        Move::Right | Move::Opened | Move::Failed | Move::Stop => None,
    }
}

/// Where a step leads.
pub(crate) fn gone_on(next: PosId, state: StateId, by: Move) -> Option<(PosId, StateId)>
    ensures { (g : Game) → numbers result ≡ next_in g 0 state.0 (Some (Spot.Step next.0)) by }
{
    match by {
        Move::On => Some((next, state)),
        Move::Skip | Move::Try | Move::Grant | Move::Refuse | Move::Left => None,
        Move::Right | Move::Opened | Move::Failed | Move::Stop => None,
    }
}

/// Where a condition leads.
pub(crate) fn branched(
    left: PosId,
    right: PosId,
    state: StateId,
    by: Move,
) -> Option<(PosId, StateId)>
    ensures { (g : Game) → numbers result ≡ next_in g 0 state.0 (Some (Spot.Branch left.0 right.0)) by }
{
    match by {
        Move::Left => Some((left, state)),
        Move::Right => Some((right, state)),
        Move::Skip | Move::Try | Move::Grant | Move::Refuse => None,
        Move::On | Move::Opened | Move::Failed | Move::Stop => None,
    }
}
