//! The positions of a program's points.

ghost use Rattle.std.specs.Prelude.{◌≡◌, ◌≤◌, ◌<◌, ◌++◌, [], ◌∷◌, length, IfOk, OnOk};
ghost use Rattle.cw_points.specs.Walks.{number_of};
ghost use Rattle.cw_rights.specs.Policies.{PlainPolicy, policy_of};
ghost use Rattle.cw_rights.specs.Valid.{IsValid};
ghost use Rattle.cw_positions.specs.Positions.{base_of, bases, free, number, primitives_at, spots, spots_at, to, visits};

use crate::visits::put_visits;
use crate::widths::{is_split, width};
use cw_core::limits::{LIMITS, POINTS};
use cw_core::{NoMemory, PointId, PosId, SeamId};
use cw_game::Spot;
use cw_points::{Graph, Node, Part, Point};
use cw_rights::policy::Policy;
use std::alloc::{AllocError, Global};

/// The positions of a program under a policy: what stands at each, and where those of each point begin and all end.
#[derive(Drop)]
pub struct Positions {
    pub spots: Vec<Spot>,
    pub bases: Vec<u32>,
}

/// Where the positions of each point begin, and where they all end.
#[inline(never)]
fn bases(alloc: Global, graph: &Graph, policy: &Policy) -> Result<Vec<u32>, AllocError>
    requires valid { IsValid (policy_of policy.now) }
    requires few { length graph.now.nodes.items ≤ POINTS }
    ensures bases { IfOk result (λ v. v.items ≡ bases graph.now (policy_of policy.now)) }
{
    let mut bases = Vec::with_capacity(alloc, graph.nodes.len() + 1)?;
    let mut end = 0;
    bases.push(end)?;
    for node in &graph.nodes {
        end += width(policy, &graph.parts, node.point);
        bases.push(end)?;
    }
    Ok(bases)
}

/// Where the positions of this point begin: at the end of all, where no point has this number.
#[inline(always)]
fn base(graph: &Graph, policy: &Policy, begins: &[u32], point: PointId) -> u32
    requires begins { begins.now ≡ bases graph.now (policy_of policy.now) }
    ensures base { result ≡ base_of graph.now (policy_of policy.now) point.0 }
{
    begins[(point.0 as usize).min(graph.nodes.len())]
}

/// The same of the point that is next, and 0 where none is.
#[inline(always)]
fn to(graph: &Graph, policy: &Policy, begins: &[u32], next: Option<PointId>) -> u32
    requires begins { begins.now ≡ bases graph.now (policy_of policy.now) }
    ensures to { result ≡ to (base_of graph.now (policy_of policy.now)) (number_of next) }
{
    match next {
        Some(point) => base(graph, policy, begins, point),
        None => 0,
    }
}

/// The number of a point's seam, 0 where it has none.
#[inline(always)]
fn number(seam: Option<SeamId>) -> u32
    ensures { result ≡ number seam }
{
    match seam {
        Some(seam) => seam.0,
        None => 0,
    }
}

/// Appends a position.
#[inline(always)]
fn put(spots: &mut Vec<Spot>, spot: Spot) -> Result<(), AllocError>
    ensures { OnOk result (spots.new.items ≡ spots.old.items ++ spot ∷ []) }
{
    spots.push(spot)?;
    Ok(())
}

/// Appends the free positions of a call, the second where it may be split off.
fn put_call(
    spots: &mut Vec<Spot>,
    parts: &[Part],
    callee: u16,
    seam: u32,
    back: u32,
) -> Result<(), AllocError>
    ensures { OnOk result (spots.new.items ≡ spots.old.items ++ free parts.now (Point.Call callee) 0 seam back 0) }
{
    put(spots, Spot::Call(seam, u32::from(callee), back))?;
    if is_split(parts, callee) {
        put(spots, Spot::SplitCall(seam, u32::from(callee), back))?;
    }
    Ok(())
}

/// Appends the free positions of what stands at a point, in this function and with this seam.
#[inline(always)]
fn put_free(
    spots: &mut Vec<Spot>,
    parts: &[Part],
    point: Point,
    function: u16,
    seam: u32,
    left: u32,
    right: u32,
) -> Result<(), AllocError>
    ensures { OnOk result (spots.new.items ≡ spots.old.items ++ free parts.now point function seam left right) }
{
    match point {
        Point::Entry | Point::Step => put(spots, Spot::Step(left)),
        Point::Branch => put(spots, Spot::Branch(left, right)),
        Point::Label(label) => put(spots, Spot::Label(seam, label, left)),
        Point::Open(descriptor) => put(spots, Spot::Open(seam, descriptor, left)),
        Point::Close(descriptor) => put(spots, Spot::Close(seam, descriptor, left)),
        Point::Call(callee) => put_call(spots, parts, callee, seam, left),
        Point::Exit => put(spots, Spot::Exit(u32::from(function))),
    }
}

/// Appends the visits of what stands at a point, with this seam.
#[inline(always)]
fn put_primitives(
    spots: &mut Vec<Spot>,
    parts: &[Part],
    policy: &Policy,
    point: Point,
    seam: u32,
) -> Result<(), AllocError>
    requires few { length policy.now.limits.items ≤ LIMITS }
    ensures { OnOk result (spots.new.items ≡ spots.old.items ++ visits seam 0 (primitives_at (policy_of policy.now) parts.now point)) }
{
    match point {
        Point::Entry | Point::Label(_) => put_visits(spots, seam, policy, false),
        Point::Call(callee) => put_visits(spots, seam, policy, is_split(parts, callee)),
        _ => Ok(()),
    }
}

/// Appends the positions of a point.
#[inline(always)]
fn put_node(
    spots: &mut Vec<Spot>,
    graph: &Graph,
    policy: &Policy,
    begins: &[u32],
    node: Node,
) -> Result<(), AllocError>
    requires valid { IsValid (policy_of policy.now) }
    requires begins { begins.now ≡ bases graph.now (policy_of policy.now) }
    ensures put { OnOk result (spots.new.items ≡ spots.old.items
        ++ spots_at (policy_of policy.now) graph.now.parts.items (base_of graph.now (policy_of policy.now)) node) }
{
    let seam = number(node.seam);
    let left = to(graph, policy, begins, node.next[0]);
    let right = to(graph, policy, begins, node.next[1]);
    put_primitives(spots, &graph.parts, policy, node.point, seam)?;
    put_free(
        spots,
        &graph.parts,
        node.point,
        node.function,
        seam,
        left,
        right,
    )
}

/// What stands at each position.
#[inline(never)]
fn spots(
    alloc: Global,
    graph: &Graph,
    policy: &Policy,
    begins: &[u32],
) -> Result<Vec<Spot>, AllocError>
    requires valid { IsValid (policy_of policy.now) }
    requires begins { begins.now ≡ bases graph.now (policy_of policy.now) }
    ensures spots { IfOk result (λ v. v.items ≡ spots graph.now (policy_of policy.now)) }
{
    let end = match begins.last() {
        None => 0,
        Some(end) => *end,
    };
    let mut spots = Vec::with_capacity(alloc, end as usize)?;
    for node in &graph.nodes {
        put_node(&mut spots, graph, policy, begins, *node)?;
    }
    Ok(spots)
}

impl Positions {
    /// The positions of a program's points under a policy, in the order of the points.
    ///
    /// # Errors
    ///
    /// Where memory is refused.
    pub fn make(alloc: Global, graph: &Graph, policy: &Policy) -> Result<Positions, NoMemory>
        requires valid { IsValid (policy_of policy.now) }
        requires few { length graph.now.nodes.items ≤ POINTS }
        ensures spots { IfOk result (λ r. r.spots.items ≡ spots graph.now (policy_of policy.now)) }
        ensures bases { IfOk result (λ r. r.bases.items ≡ bases graph.now (policy_of policy.now)) }
    {
        let bases = bases(alloc, graph, policy)?;
        let spots = spots(alloc, graph, policy, &bases)?;
        Ok(Positions { spots, bases })
    }

    /// The first position of a point.
    pub fn first(&self, point: PointId) -> PosId
        requires point { point.0 < length self.now.bases.items }
        ensures first { (graph : Graph) (policy : PlainPolicy)
            → self.now.bases.items ≡ bases graph policy
            → result.0 ≡ base_of graph policy point.0 }
    {
        PosId(self.bases[point.0 as usize])
    }
}
