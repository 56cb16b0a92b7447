//! Games of programs and policies by their texts.

ghost use Rattle.std.specs.Prelude.{◌≤◌, length, IfSome};
ghost use Rattle.cw_rights.specs.Policies.{policy_of};
ghost use Rattle.cw_rights.specs.Valid.{IsValid};
ghost use Rattle.cw_product.specs.Product.{IsProgramsGraph};
ghost use Rattle.cw_product.specs.Made.{LeavesMain};

use cw_core::limits::POINTS;
use cw_points::Graph;
use cw_points::build::build;
use cw_rights::Policy;
use cw_source::laws::programs_are_runnable;
use cw_source::read_source;
use cw_source_laws::calls::read_programs_leave_main;
use std::alloc::Global;

/// The graph of a source that is read, under a policy's names.
pub fn graph_of(alloc: Global, policy: &Policy, source: &[u8]) -> Option<Graph>
    requires { IsValid (policy_of policy.now) }
    ensures drawn { IfSome result (IsProgramsGraph (policy_of policy.now)) }
    ensures leaves { IfSome result (LeavesMain (policy_of policy.now)) }
    ensures few { IfSome result (λ g. length g.nodes.items ≤ POINTS) }
{
    if source.len() > 262144 {
        return None;
    }
    programs_are_runnable();
    read_programs_leave_main();
    let Ok(checked) = read_source(alloc, source) else {
        return None;
    };
    let Ok(graph) = build(alloc, &checked, policy) else {
        return None;
    };
    if graph.nodes.len() > 8192 {
        return None;
    }
    Some(graph)
}
