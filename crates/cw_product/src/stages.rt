//! How many primitives are tried or skipped at a seam.

ghost use Rattle.std.specs.Prelude.{◌≡◌, length};
ghost use Rattle.cw_rights.specs.Policies.{policy_of};
ghost use Rattle.cw_positions.specs.Positions.{primitives_at};
ghost use Rattle.cw_positions.specs.Seams.{stages_of};

use cw_core::SeamId;
use cw_points::{Graph, Part, Point};
use cw_rights::Policy;

// How many primitives are tried or skipped at a point.
fn stages_at(policy: &Policy, parts: &[Part], point: Point) -> usize
    ensures { result ≡ length (primitives_at (policy_of policy.now) parts.now point) }
{
    let seams = policy.limits.len() + 1;
    match point {
        Point::Entry | Point::Label(_) => seams,
        Point::Call(callee) => match parts.get(callee as usize) {
            Some(part) if part.split => seams + 1,
            _ => seams,
        },
        Point::Step | Point::Branch | Point::Open(_) | Point::Close(_) | Point::Exit => 0,
    }
}

/// How many primitives are tried or skipped at the point of a seam; none, where there is no such seam.
pub(crate) fn stages_of(graph: &Graph, policy: &Policy, seam: SeamId) -> usize
    ensures { result ≡ stages_of graph.now (policy_of policy.now) seam.0 }
{
    match graph.seams.get(seam.0 as usize) {
        None => 0,
        Some(seam) => match graph.nodes.get(seam.point.0 as usize) {
            None => 0,
            Some(node) => stages_at(policy, &graph.parts, node.point),
        },
    }
}
