//! A step of a run: what it does with the values, and where it leads.

ghost use Rattle.std.specs.Prelude.{◌≡◌, Some, option_map, slice_get, IfSome};
ghost use Rattle.cw_rights.specs.Policies.{PlainPolicy};
ghost use Rattle.cw_value.specs.Runs.{Going};
ghost use Rattle.cw_eval.specs.Passings.{way_in};
ghost use Rattle.cw_starts.specs.Sources.{source_in};
ghost use Rattle.cw_machine.specs.Knowing.{IsKnown, IsTask};
ghost use Rattle.cw_machine.specs.Shown.{IsInnerRow};
ghost use Rattle.cw_values.specs.Running.{IsRunOf, first, first_back, next_by, rows_of};
ghost use Rattle.cw_values.specs.Stands.{Advances, StandsAt};

use cw_core::PointId;
use cw_deeds::Row;
use cw_eval::{Halt, Way};
use cw_machine::{Known, Machine, Task, step_call, step_end, step_within};
use cw_points::{Graph, Node, Part};
use cw_syntax::program::Name;

/// What a run goes by: what is known of the program, and its graph.
#[derive(Clone, Copy, Drop)]
pub struct Run<'a, 's> {
    pub known: Known<'a, 's>,
    pub graph: &'a Graph,
}

/// Where a step leads: the way that the program goes, and the point behind it, or none where the program has ended.
#[derive(Clone, Copy, Drop)]
pub struct Onward {
    pub way: Way,
    pub next: Option<PointId>,
}

/// The point to which a way leads within a function.
#[inline(always)]
fn within(node: &Node, way: Way) -> Option<PointId>
    ensures { result ≡ next_by node.now.next (way_in way) }
{
    match way {
        Way::On => node.next[0],
        Way::Left => node.next[0],
        Way::Right => node.next[1],
        Way::Opened => node.next[0],
        Way::Failed => node.next[0],
    }
}

/// The point behind a call.
fn successor(node: &Node) -> Option<PointId>
    ensures { result ≡ first node.now.next }
{
    node.next[0]
}

/// The part of the function with this number.
fn part_of(graph: &Graph, number: usize) -> Option<Part>
    ensures { result ≡ slice_get graph.now.parts.items number }
{
    match graph.parts.get(number) {
        None => None,
        Some(part) => Some(*part),
    }
}

/// The point to which the innermost call returns that waits.
fn innermost(m: &Machine) -> Option<PointId>
    ensures { result ≡ first_back m.now.waits.items }
{
    match m.waits.front() {
        None => None,
        Some(wait) => Some(wait.back),
    }
}

/// What is to be done at the point with this number.
#[inline(always)]
fn task_at<'a, 's>(run: &Run<'a, 's>, number: usize) -> Option<&'a Task<'s>>
    requires known { IsKnown run.now.known }
    ensures row { option_map (λ t. t.now.row) result ≡ slice_get (rows_of run.now) number }
    ensures task { IfSome result (λ t. IsTask (source_in run.now.known.source).file.functions t.now) }
{
    match run.known.tasks.get(number) {
        None => None,
        Some(task) => Some(task),
    }
}

/// A step within a frame.
#[inline(always)]
fn advance_within(
    run: &Run,
    m: &mut Machine,
    point: PointId,
    node: &Node,
    task: &Task,
) -> Result<Onward, Halt>
    requires known { IsKnown run.now.known }
    requires node { slice_get run.now.graph.now.nodes.items point.0 ≡ Some node.now }
    requires row { slice_get (rows_of run.now) point.0 ≡ Some task.now.row }
    requires task { IsTask (source_in run.now.known.source).file.functions task.now }
    requires inner { IsInnerRow task.now.row }
    ensures { (policy : PlainPolicy) (g : Going) → IsRunOf policy run.now → StandsAt policy (source_in run.now.known.source) (Some point) m.old g → Advances policy (source_in run.now.known.source) result m.new g }
{
    match step_within(&run.known, m, task) {
        Ok(way) => Ok(Onward {
            way,
            next: within(node, way),
        }),
        Err(halt) => Err(halt),
    }
}

/// A call of a defined function.
fn advance_into(
    run: &Run,
    m: &mut Machine,
    point: PointId,
    node: &Node,
    at: u32,
    callee: usize,
    taker: Option<Name>,
) -> Result<Onward, Halt>
    requires known { IsKnown run.now.known }
    requires node { slice_get run.now.graph.now.nodes.items point.0 ≡ Some node.now }
    requires row { slice_get (rows_of run.now) point.0 ≡ Some (Row.Calls at callee taker) }
    ensures { (policy : PlainPolicy) (g : Going) → IsRunOf policy run.now → StandsAt policy (source_in run.now.known.source) (Some point) m.old g → Advances policy (source_in run.now.known.source) result m.new g }
{
    let Some(back) = successor(node) else {
        return Ok(Onward {
            way: Way::On,
            next: None,
        });
    };
    let Some(part) = part_of(run.graph, callee) else {
        return Ok(Onward {
            way: Way::On,
            next: None,
        });
    };
    match step_call(&run.known, m, at, callee, taker, back) {
        Ok(way) => Ok(Onward {
            way,
            next: Some(part.entry),
        }),
        Err(halt) => Err(halt),
    }
}

/// The end of a frame.
fn advance_back(run: &Run, m: &mut Machine, point: PointId) -> Result<Onward, Halt>
    requires known { IsKnown run.now.known }
    requires row { slice_get (rows_of run.now) point.0 ≡ Some Row.Ends }
    ensures { (policy : PlainPolicy) (g : Going) → IsRunOf policy run.now → StandsAt policy (source_in run.now.known.source) (Some point) m.old g → Advances policy (source_in run.now.known.source) result m.new g }
{
    let back = innermost(m);
    match step_end(&run.known, m) {
        Ok(way) => Ok(Onward { way, next: back }),
        Err(halt) => Err(halt),
    }
}

/// A step from a point: the way that the program goes, and the point that is next, or none where the program has ended.
#[inline(always)]
pub fn advance(run: &Run, m: &mut Machine, point: PointId) -> Result<Onward, Halt>
    requires known { IsKnown run.now.known }
    ensures { (policy : PlainPolicy) (g : Going) → IsRunOf policy run.now → StandsAt policy (source_in run.now.known.source) (Some point) m.old g → Advances policy (source_in run.now.known.source) result m.new g }
{
    let at = point.0 as usize;
    let Some(node) = run.graph.nodes.get(at) else {
        return Ok(Onward {
            way: Way::On,
            next: None,
        });
    };
    let Some(task) = task_at(run, at) else {
        return Ok(Onward {
            way: Way::On,
            next: None,
        });
    };
    match task.row {
        Row::Ends => advance_back(run, m, point),
        Row::Calls(place, callee, taker) => {
            advance_into(run, m, point, node, place, callee, taker)
        }
        _ => advance_within(run, m, point, node, task),
    }
}
