//! What a program has that the states of a policy ask for.

ghost use Rattle.std.specs.Prelude.{◌≡◌, ◌++◌, [], ◌∷◌, List};
ghost use Rattle.cw_rights.specs.Policies.{policy_of};
ghost use Rattle.cw_points.specs.declared.graph.Point.TheVariants.{Close};
ghost use Rattle.cw_product.specs.Uses.{all_closes, uses_in, uses_of};

use cw_points::{Node, Point};
use cw_rights::Policy;
use cw_states::Uses;

/// Tells that a descriptor is closed, where it is one of eight.
#[inline(never)]
fn put_close(closes: &mut [bool; 8], closed: u8)
    ensures { (nodes : List Node) (node : Node) → node.point ≡ Close closed → closes.old ≡ all_closes nodes
        → closes.new ≡ all_closes (nodes ++ node ∷ []) }
{
    if closed < 8 {
        closes[closed as usize] = true;
    }
}

/// Adds what a point has.
#[inline(always)]
fn put_use(uses: &mut Uses, node: Node, other: usize)
    ensures { (nodes : List Node) → uses.old ≡ uses_in other nodes → uses.new ≡ uses_in other (nodes ++ node ∷ []) }
{
    match node.point {
        Point::Close(closed) => put_close(&mut uses.closes, closed),
        Point::Label(label) => {
            if label as usize == other {
                uses.has_other = true;
            }
        }
        _ => {}
    }
}

/// What the points of a program have: the descriptors that are closed, and whether there is a label that the policy
/// doesn't name. The points are gone over once.
#[inline(never)]
pub(crate) fn uses_of(nodes: &[Node], policy: &Policy) -> Uses
    ensures { result ≡ uses_of (policy_of policy.now) nodes.now }
{
    let other = policy.labels.len();
    let mut uses = Uses {
        closes: [false; 8],
        has_other: false,
    };
    for node in nodes {
        put_use(&mut uses, *node, other);
    }
    uses
}
