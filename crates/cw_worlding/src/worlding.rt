//! What is due for `world`.

ghost use Rattle.std.specs.Prelude.{◌≡◌, ◌-◌, ◌≤◌, ◌<◌, ◌^◌, map, length, IfOk};
ghost use Rattle.cw_rights.specs.Policies.{policy_of};
ghost use Rattle.cw_rights.specs.Valid.{IsValid};
ghost use Rattle.cw_syntax.specs.Trees.{file_of};
ghost use Rattle.cw_resolve.specs.Scenes.{names_of};
ghost use Rattle.cw_points.specs.Graphs.{IsGraph};
ghost use Rattle.cw_source.specs.Read.{ReadsAs};
ghost use Rattle.cw_game.specs.Conditions.{IsGoodTable};
ghost use Rattle.cw_states.specs.States.{AreLists, lists_of};
ghost use Rattle.cw_io.specs.Written.{Follows};
ghost use Rattle.cw_product.specs.Product.{game_of};
ghost use Rattle.cw_product.specs.Uses.{uses_of};
ghost use Rattle.cw_procs.specs.Played.{end_of, entry_of};
ghost use Rattle.cw_wcheck.specs.Checking.{HasFewRows};
ghost use Rattle.cw_woven.specs.Held.{IsUnwoven};
ghost use Rattle.cw_commands.specs.Outcomes.{due_of};
ghost use Rattle.cw_commands.specs.Starts.{Starts, StartsLine};
ghost use Rattle.cw_stages.specs.Games.{WhereWovenFits};
ghost use Rattle.cw_stages.specs.Stops.{file_in, source_of, told_of, whole_of, Answers, BeginsText, IsReading, StartsText};
ghost use Rattle.cw_worlding.specs.Held.{IsWorldShownBy};
ghost use Rattle.cw_worlding.specs.Worlding.{world_told, AfterPolicy, IsWorldDue, IsWorldShown, IsWorldTold};

use crate::steps::steps_in;
use cw_certs::WeaverCert;
use cw_commands::{Outcome, Reply};
use cw_core::NoMemory;
use cw_core::limits::{FILE_BYTES_IN_FORMAT_2, POINTS};
use cw_io::{Sink, Writer};
use cw_points::Graph;
use cw_policy::read_policy;
use cw_procs::{WorldEnd, run_world};
use cw_product::Game;
use cw_rights::Policy;
use cw_stages::{
    Reading, Stop, Text, accept, ended, fits, make_game, open, policy_refusal, refused,
    tell_table_row,
};
use cw_steps::Step;
use cw_syntax::checked::Checked;
use cw_wcheck::check_weaver;
use cw_woven::Unwoven;
use std::alloc::Global;

/// The trace of a world, and behind it how the world ends.
fn world_told<O: Sink>(end: WorldEnd, trace: Writer<O>, out: &mut O) -> Text<O>
    requires follows { Follows O.taken O.faults O.refused trace out.old }
    ensures due { told_of result ≡ world_told (end_of end) trace.text }
    ensures puts { BeginsText O.taken O.faults O.refused trace.begun out.new result }
{
    let mut writer = trace;
    match end {
        WorldEnd::Done(processes) => {
            writer.put(b"done ", out);
            writer.put_number(u64::from(processes), out);
            writer.put(b"\n", out);
            Text {
                reply: Reply::Yes,
                writer,
            }
        }
        WorldEnd::BadStep(number) => {
            writer.put(b"bad step ", out);
            writer.put_number(u64::from(number), out);
            writer.put(b"\n", out);
            Text {
                reply: Reply::No,
                writer,
            }
        }
    }
}

/// The processes of a good table, step by step.
fn shown<O: Sink>(
    alloc: Global,
    checked: &Checked,
    game: &Game,
    table: &WeaverCert,
    steps: &[Step],
    out: &mut O,
) -> Result<Text<O>, Stop>
    requires valid { IsValid (policy_of game.now.states.policy) }
    requires lists { AreLists (uses_of (policy_of game.now.states.policy) game.now.graph.nodes.items) (lists_of game.now.states) }
    requires reads { ReadsAs checked.now.source.now (file_of checked.now.program) }
    requires graph { IsGraph (names_of (policy_of game.now.states.policy)) checked.now.source.now (file_of checked.now.program) game.now.graph }
    requires good { IsGoodTable (game_of game.now) table.now }
    requires steps { length steps.now < 2 ^ 32 - 1 }
    ensures due { let whole = policy_of game.now.states.policy in
        Answers whole checked.now.source.now (IsWorldTold checked.now.source.now whole (file_of checked.now.program) table.now (map entry_of steps.now)) result }
    ensures puts { StartsText O.taken O.faults O.refused out.old out.new result }
{
    let mut writer = Writer::begin(out);
    let end = run_world(alloc, checked, game, table, steps, &mut writer, out)?;
    Ok(world_told(end, writer, out))
}

/// What is told of a table: its processes, step by step, or the first row that fails a condition.
fn judged<O: Sink>(
    alloc: Global,
    checked: &Checked,
    game: &Game,
    table: &WeaverCert,
    steps: &[Step],
    out: &mut O,
) -> Result<Text<O>, Stop>
    requires valid { IsValid (policy_of game.now.states.policy) }
    requires lists { AreLists (uses_of (policy_of game.now.states.policy) game.now.graph.nodes.items) (lists_of game.now.states) }
    requires reads { ReadsAs checked.now.source.now (file_of checked.now.program) }
    requires graph { IsGraph (names_of (policy_of game.now.states.policy)) checked.now.source.now (file_of checked.now.program) game.now.graph }
    requires few { HasFewRows table.now }
    requires steps { length steps.now < 2 ^ 32 - 1 }
    ensures due { let whole = policy_of game.now.states.policy in
        Answers whole checked.now.source.now (IsWorldShownBy checked.now.source.now whole (file_of checked.now.program) table.now (map entry_of steps.now) (game_of game.now)) result }
    ensures puts { StartsText O.taken O.faults O.refused out.old out.new result }
{
    match check_weaver(game, table) {
        Ok(()) => shown(alloc, checked, game, table, steps, out),
        Err(bad) => Ok(tell_table_row(&bad, out)),
    }
}

/// That the policy doesn't fit the program, that no game of theirs comes, or what is told of the table.
fn fitted<O: Sink>(
    alloc: Global,
    reading: &Reading,
    graph: &Graph,
    table: &WeaverCert,
    steps: &[Step],
    out: &mut O,
) -> Result<Text<O>, Stop>
    requires is { IsReading reading.now }
    requires graph { IsGraph (names_of (whole_of reading.now)) (source_of reading.now) (file_in reading.now) graph.now }
    requires points { length graph.now.nodes.items ≤ POINTS }
    requires few { HasFewRows table.now }
    requires steps { length steps.now < 2 ^ 32 - 1 }
    ensures due { let whole = whole_of reading.now in let source = source_of reading.now in let file = file_in reading.now in
        Answers whole source (WhereWovenFits (IsWorldShown source whole file table.now (map entry_of steps.now)) source whole file) result }
    ensures puts { StartsText O.taken O.faults O.refused out.old out.new result }
{
    fits(alloc, reading)?;
    let game = make_game(alloc, reading, graph)?;
    judged(alloc, &reading.checked, &game, table, steps, out)
}

/// That the source of a woven text isn't read, that a text isn't one of steps, or what comes behind that.
fn accepted<O: Sink>(
    alloc: Global,
    policy: &Policy,
    parts: &Unwoven,
    steps: &[u8],
    out: &mut O,
) -> Result<Text<O>, Stop>
    requires valid { IsValid (policy_of policy.now) }
    requires unwoven { IsUnwoven (policy_of policy.now) parts.now }
    requires short { length steps.now ≤ FILE_BYTES_IN_FORMAT_2 }
    ensures due { Answers (policy_of policy.now) parts.now.source.items (AfterPolicy parts.now.text.now steps.now (policy_of policy.now)) result }
    ensures puts { StartsText O.taken O.faults O.refused out.old out.new result }
{
    let (reading, graph) = accept(alloc, policy, parts)?;
    let list = steps_in(alloc, steps)?;
    fitted(alloc, &reading, &graph, &parts.table, &list, out)
}

/// That a text is no woven text, or what is due for the source and the table that it is read as.
fn unwoven<O: Sink, N: Sink>(
    alloc: Global,
    policy: &Policy,
    text: &[u8],
    steps: &[u8],
    out: &mut O,
    note: &mut N,
) -> Result<Outcome<O, N>, NoMemory>
    requires valid { IsValid (policy_of policy.now) }
    requires short { length text.now ≤ FILE_BYTES_IN_FORMAT_2 }
    requires short_steps { length steps.now ≤ FILE_BYTES_IN_FORMAT_2 }
    ensures due { IfOk result (λ outcome. AfterPolicy text.now steps.now (policy_of policy.now) (due_of outcome)) }
    ensures puts { Starts O.taken O.faults O.refused out.old out.new result }
    ensures notes { StartsLine N.taken N.faults N.refused note.old note.new result }
{
    match open(alloc, policy, text) {
        Ok(parts) => ended(
            accepted(alloc, policy, &parts, steps, out),
            policy,
            &parts.source,
            note,
        ),
        Err(stop) => refused(&stop, policy, b"", note),
    }
}

/// What is due for `world`, by the bytes of a policy, of a woven text and of a list of steps.
pub fn world_due<O: Sink, N: Sink>(
    alloc: Global,
    policy: &[u8],
    text: &[u8],
    steps: &[u8],
    out: &mut O,
    note: &mut N,
) -> Result<Outcome<O, N>, NoMemory>
    requires short { length text.now ≤ FILE_BYTES_IN_FORMAT_2 }
    requires short_steps { length steps.now ≤ FILE_BYTES_IN_FORMAT_2 }
    ensures due { IfOk result (λ outcome. IsWorldDue policy.now text.now steps.now (due_of outcome)) }
    ensures puts { Starts O.taken O.faults O.refused out.old out.new result }
    ensures notes { StartsLine N.taken N.faults N.refused note.old note.new result }
{
    match read_policy(alloc, policy) {
        Ok(whole) => unwoven(alloc, &whole, text, steps, out, note),
        Err(fault) => policy_refusal(&fault, note),
    }
}
