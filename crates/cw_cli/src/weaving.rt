//! What is due for `weave`.

ghost use Rattle.std.specs.Prelude.{◌≡◌, ◌≤◌, [], length, IfErr, IfOk};
ghost use Rattle.cw_core.specs.Quantities.{limit_of};
ghost use Rattle.cw_core.specs.declared.quantity.Quantity.TheVariants.{Points};
ghost use Rattle.cw_rights.specs.Policies.{policy_of};
ghost use Rattle.cw_rights.specs.Valid.{IsValid};
ghost use Rattle.cw_syntax.specs.Plans.{plan_of};
ghost use Rattle.cw_resolve.specs.Scenes.{names_of};
ghost use Rattle.cw_points.specs.Graphs.{IsGraph};
ghost use Rattle.cw_points.specs.Points.{point_count};
ghost use Rattle.cw_callgraph.specs.Fitting.{Fits};
ghost use Rattle.cw_commands.specs.Outcomes.{due_of};
ghost use Rattle.cw_commands.specs.Starts.{Starts, StartsLine};
ghost use Rattle.cw_stages.specs.Counting.{IsCounted};
ghost use Rattle.cw_stages.specs.Reading.{WithSource};
ghost use Rattle.cw_stages.specs.Stops.{file_in, source_of, whole_of, Answers, Decides, IsReading, IsStop, Nothing, StartsText, StartsVerdict};
ghost use Rattle.cw_stages.specs.Verdicts.{IsVerdict};
ghost use Rattle.cw_cli.specs.Weaving.{AfterPair, IsWeaveDue};

use cw_commands::Outcome;
use cw_core::NoMemory;
use cw_core::limits::{POINTS, SOURCE_BYTES};
use cw_io::Sink;
use cw_points::Graph;
use cw_policy::read_policy;
use cw_rights::Policy;
use cw_stages::{
    Reading, Stop, Text, Verdict, attaches, draw, ended, fits, judge, make_game, policy_refusal,
    read_under,
};
use std::alloc::Global;
use std::mem::forget;

/// The graph of what has been read: its policy fits the program and detaches nothing, and the points are few; or why not.
pub(crate) fn drawn(alloc: Global, reading: &Reading) -> Result<Graph, Stop>
    requires is { IsReading reading.now }
    ensures fits { IfOk result (λ _. Fits (source_of reading.now) (file_in reading.now) (whole_of reading.now)) }
    ensures none { IfOk result (λ _. (whole_of reading.now).detached ≡ []) }
    ensures few { IfOk result (λ _. point_count (plan_of (names_of (whole_of reading.now)) (source_of reading.now) (file_in reading.now)) ≤ limit_of Points) }
    ensures graph { IfOk result (λ graph. IsGraph (names_of (whole_of reading.now)) (source_of reading.now) (file_in reading.now) graph) }
    ensures points { IfOk result (λ graph. length graph.nodes.items ≤ POINTS) }
    ensures stop { IfErr result (IsStop (whole_of reading.now) (source_of reading.now)
        (AfterPair Nothing (source_of reading.now) (whole_of reading.now) (file_in reading.now))) }
{
    fits(alloc, reading)?;
    attaches(reading.policy)?;
    draw(alloc, reading)
}

/// Who wins the game of what has been read, with the text that says so.
fn judged<O: Sink>(alloc: Global, reading: &Reading, out: &mut O) -> Result<Verdict<O>, Stop>
    requires is { IsReading reading.now }
    ensures due { let whole = whole_of reading.now in let source = source_of reading.now in let file = file_in reading.now in
        Decides whole source (λ numbers. AfterPair (IsCounted numbers whole source file) source whole file) (AfterPair Nothing source whole file) result }
    ensures puts { StartsVerdict O.taken O.faults O.refused out.old out.new result }
{
    let graph = drawn(alloc, reading)?;
    let game = make_game(alloc, reading, &graph)?;
    judge(alloc, &reading.checked, &game, out)
}

/// Who wins the game of a policy and a source, with the text that says so and the numbers of the game.
fn weave<O: Sink>(
    alloc: Global,
    policy: &Policy,
    source: &[u8],
    out: &mut O,
) -> Result<Verdict<O>, Stop>
    requires short { length source.now ≤ SOURCE_BYTES }
    requires valid { IsValid (policy_of policy.now) }
    ensures due { let whole = policy_of policy.now in
        Decides whole source.now (λ numbers. WithSource (λ file. AfterPair (IsCounted numbers whole source.now file) source.now whole file) source.now whole)
        (WithSource (λ file. AfterPair Nothing source.now whole file) source.now whole) result }
    ensures puts { StartsVerdict O.taken O.faults O.refused out.old out.new result }
{
    let reading = read_under(alloc, policy, source)?;
    let verdict = judged(alloc, &reading, out);
    // As in `check`: the end of the process gives the blocks of the tree back at once.
    forget(reading);
    verdict
}

/// The text alone.
fn woven<O: Sink>(
    alloc: Global,
    policy: &Policy,
    source: &[u8],
    out: &mut O,
) -> Result<Text<O>, Stop>
    requires short { length source.now ≤ SOURCE_BYTES }
    requires valid { IsValid (policy_of policy.now) }
    ensures due { let whole = policy_of policy.now in
        Answers whole source.now (WithSource (λ file. AfterPair (IsVerdict whole source.now file) source.now whole file) source.now whole) result }
    ensures puts { StartsText O.taken O.faults O.refused out.old out.new result }
{
    let verdict = weave(alloc, policy, source, out)?;
    let Verdict { text, .. } = verdict;
    Ok(text)
}

/// What is due for `weave`, by the bytes of a policy and of a source.
pub fn weave_due<O: Sink, N: Sink>(
    alloc: Global,
    policy: &[u8],
    source: &[u8],
    out: &mut O,
    note: &mut N,
) -> Result<Outcome<O, N>, NoMemory>
    requires short { length source.now ≤ SOURCE_BYTES }
    ensures due { IfOk result (λ outcome. IsWeaveDue policy.now source.now (due_of outcome)) }
    ensures puts { Starts O.taken O.faults O.refused out.old out.new result }
    ensures notes { StartsLine N.taken N.faults N.refused note.old note.new result }
{
    match read_policy(alloc, policy) {
        Ok(whole) => ended(woven(alloc, &whole, source, out), &whole, source, note),
        Err(fault) => policy_refusal(&fault, note),
    }
}
