//! The visits at a seam.

ghost use Rattle.std.specs.Prelude.{◌≡◌, ◌≤◌, ◌++◌, [], ◌∷◌, map, length, OnOk};
ghost use Rattle.cw_rights.specs.Policies.{policy_of, primitives};
ghost use Rattle.cw_positions.specs.Positions.{visits};

use cw_core::limits::LIMITS;
use cw_game::Spot;
use cw_rights::capabilities::{Limit, Primitive};
use cw_rights::policy::Policy;
use std::alloc::AllocError;

/// Appends the visit of one stage of a seam, and what is asked there.
fn put_visit(
    spots: &mut Vec<Spot>,
    seam: u32,
    stage: u8,
    primitive: Primitive,
) -> Result<(), AllocError>
    ensures { OnOk result (spots.new.items ≡ spots.old.items ++ Spot.Visit seam stage primitive ∷ Spot.Asked seam stage primitive ∷ []) }
{
    spots.push(Spot::Visit(seam, stage, primitive))?;
    spots.push(Spot::Asked(seam, stage, primitive))?;
    Ok(())
}

/// Appends the visits of the policy's limits at a seam.
fn put_limits(spots: &mut Vec<Spot>, seam: u32, limits: &[Limit]) -> Result<(), AllocError>
    requires few { length limits.now ≤ LIMITS }
    ensures { OnOk result (spots.new.items ≡ spots.old.items ++ visits seam 0 (map (λ limit. Primitive.Limit limit) limits.now)) }
{
    let mut stage = 0;
    for limit in limits {
        put_visit(spots, seam, stage, Primitive::Limit(*limit))?;
        stage += 1;
    }
    Ok(())
}

/// Appends the visits of all primitives at a seam: the limits in the policy's order, enter, and split where it is one of a call that
/// may be split off.
pub(crate) fn put_visits(
    spots: &mut Vec<Spot>,
    seam: u32,
    policy: &Policy,
    split: bool,
) -> Result<(), AllocError>
    requires few { length policy.now.limits.items ≤ LIMITS }
    ensures { OnOk result (spots.new.items ≡ spots.old.items ++ visits seam 0 (primitives (policy_of policy.now) split)) }
{
    put_limits(spots, seam, &policy.limits)?;
    let stage = policy.limits.len() as u8;
    put_visit(spots, seam, stage, Primitive::Enter)?;
    if split {
        put_visit(spots, seam, stage + 1, Primitive::Split)?;
    }
    Ok(())
}
