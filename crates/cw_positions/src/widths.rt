//! How many positions the points of a program have.

ghost use Rattle.std.specs.Prelude.{◌≡◌, ◌≤◌, ◌*◌, length};
ghost use Rattle.cw_rights.specs.Policies.{policy_of};
ghost use Rattle.cw_rights.specs.Valid.{IsValid};
ghost use Rattle.cw_positions.specs.Positions.{is_split, width, spots};

use cw_core::limits::{LIMITS, POINTS};
use cw_points::{Graph, Part, Point};
use cw_rights::policy::Policy;

/// Whether the function with this number may be split off: not, where no function has it.
#[inline(always)]
pub(crate) fn is_split(parts: &[Part], function: u16) -> bool
    ensures { result ≡ is_split parts.now function }
{
    match parts.get(function as usize) {
        Some(part) => part.split,
        None => false,
    }
}

/// How many positions a point has.
#[inline(always)]
pub(crate) fn width(policy: &Policy, parts: &[Part], point: Point) -> u32
    requires few { length policy.now.limits.items ≤ LIMITS }
    ensures width { result ≡ width (policy_of policy.now) parts.now point }
    ensures small { result ≤ 30 }
{
    let limits = policy.limits.len() as u32;
    match point {
        Point::Entry | Point::Label(_) => 2 * limits + 3,
        Point::Call(callee) if is_split(parts, callee) => 2 * limits + 6,
        Point::Call(_) => 2 * limits + 3,
        _ => 1,
    }
}

/// How many positions a program has under a policy. No position is made for it.
#[inline(never)]
pub fn count(graph: &Graph, policy: &Policy) -> u32
    requires valid { IsValid (policy_of policy.now) }
    requires few { length graph.now.nodes.items ≤ POINTS }
    ensures count { result ≡ length (spots graph.now (policy_of policy.now)) }
    ensures small { result ≤ 30 * length graph.now.nodes.items }
{
    let mut count = 0;
    for node in &graph.nodes {
        count += width(policy, &graph.parts, node.point);
    }
    count
}
