//! What is due for `run`.

ghost use Rattle.std.specs.Prelude.{◌≤◌, ◌<◌, ◌^◌, length, IfOk};
ghost use Rattle.cw_rights.specs.Policies.{policy_of};
ghost use Rattle.cw_rights.specs.Valid.{IsValid};
ghost use Rattle.cw_resolve.specs.Scenes.{names_of};
ghost use Rattle.cw_points.specs.Graphs.{IsGraph};
ghost use Rattle.cw_wcheck.specs.Checking.{HasFewRows};
ghost use Rattle.cw_woven.specs.Held.{IsUnwoven};
ghost use Rattle.cw_commands.specs.Outcomes.{due_of};
ghost use Rattle.cw_commands.specs.Starts.{Starts, StartsLine};
ghost use Rattle.cw_stages.specs.Games.{WhereWovenFits};
ghost use Rattle.cw_stages.specs.Stops.{file_in, source_of, whole_of, Answers, IsReading, StartsText};
ghost use Rattle.cw_playing.specs.Running.{AfterPolicy, IsRunDue, IsRunShown};

use crate::telling::run_told;
use cw_certs::{Move, WeaverCert};
use cw_commands::Outcome;
use cw_core::NoMemory;
use cw_core::limits::{FILE_BYTES_IN_FORMAT_2, POINTS};
use cw_io::{Sink, Writer};
use cw_points::Graph;
use cw_policy::read_policy;
use cw_rights::Policy;
use cw_run::run_woven;
use cw_stages::{
    Reading, Stop, Text, accept, ended, fits, make_game, moves_of, open, policy_refusal, refused,
    tell_table_row,
};
use cw_wcheck::check_weaver;
use cw_woven::Unwoven;
use std::alloc::Global;

/// That the policy doesn't fit the program, that no game of theirs comes, or what is told of the table: its run by a tape, or the first row that fails a condition.
fn fitted<O: Sink>(
    alloc: Global,
    reading: &Reading,
    graph: &Graph,
    table: &WeaverCert,
    tape: &[Move],
    out: &mut O,
) -> Result<Text<O>, Stop>
    requires is { IsReading reading.now }
    requires graph { IsGraph (names_of (whole_of reading.now)) (source_of reading.now) (file_in reading.now) graph.now }
    requires points { length graph.now.nodes.items ≤ POINTS }
    requires few { HasFewRows table.now }
    requires tape { length tape.now < 2 ^ 32 }
    ensures due { let whole = whole_of reading.now in let source = source_of reading.now in let file = file_in reading.now in
        Answers whole source (WhereWovenFits (IsRunShown source whole file table.now tape.now) source whole file) result }
    ensures puts { StartsText O.taken O.faults O.refused out.old out.new result }
{
    fits(alloc, reading)?;
    let game = make_game(alloc, reading, graph)?;
    match check_weaver(&game, table) {
        Ok(()) => {
            let mut writer = Writer::begin(out);
            let end = run_woven(
                alloc,
                &reading.checked,
                &game,
                table,
                tape,
                &mut writer,
                out,
            )?;
            Ok(run_told(end, writer, out))
        }
        Err(bad) => Ok(tell_table_row(&bad, out)),
    }
}

/// That the source of a woven text isn't read, that the tape isn't one of the environment's moves, or what comes behind that.
fn accepted<O: Sink>(
    alloc: Global,
    policy: &Policy,
    parts: &Unwoven,
    tape: &[u8],
    out: &mut O,
) -> Result<Text<O>, Stop>
    requires valid { IsValid (policy_of policy.now) }
    requires unwoven { IsUnwoven (policy_of policy.now) parts.now }
    requires short { length tape.now ≤ FILE_BYTES_IN_FORMAT_2 }
    ensures due { Answers (policy_of policy.now) parts.now.source.items (AfterPolicy parts.now.text.now tape.now (policy_of policy.now)) result }
    ensures puts { StartsText O.taken O.faults O.refused out.old out.new result }
{
    let (reading, graph) = accept(alloc, policy, parts)?;
    let moves = moves_of(alloc, tape, false)?;
    fitted(alloc, &reading, &graph, &parts.table, &moves, out)
}

/// That a text is no woven text, or what is due for the source and the table that it is read as.
fn unwoven<O: Sink, N: Sink>(
    alloc: Global,
    policy: &Policy,
    text: &[u8],
    tape: &[u8],
    out: &mut O,
    note: &mut N,
) -> Result<Outcome<O, N>, NoMemory>
    requires valid { IsValid (policy_of policy.now) }
    requires short { length text.now ≤ FILE_BYTES_IN_FORMAT_2 }
    requires short_tape { length tape.now ≤ FILE_BYTES_IN_FORMAT_2 }
    ensures due { IfOk result (λ outcome. AfterPolicy text.now tape.now (policy_of policy.now) (due_of outcome)) }
    ensures puts { Starts O.taken O.faults O.refused out.old out.new result }
    ensures notes { StartsLine N.taken N.faults N.refused note.old note.new result }
{
    match open(alloc, policy, text) {
        Ok(parts) => ended(
            accepted(alloc, policy, &parts, tape, out),
            policy,
            &parts.source,
            note,
        ),
        Err(stop) => refused(&stop, policy, b"", note),
    }
}

/// What is due for `run`, by the bytes of a policy, of a woven text and of a tape.
pub fn run_due<O: Sink, N: Sink>(
    alloc: Global,
    policy: &[u8],
    text: &[u8],
    tape: &[u8],
    out: &mut O,
    note: &mut N,
) -> Result<Outcome<O, N>, NoMemory>
    requires short { length text.now ≤ FILE_BYTES_IN_FORMAT_2 }
    requires short_tape { length tape.now ≤ FILE_BYTES_IN_FORMAT_2 }
    ensures due { IfOk result (λ outcome. IsRunDue policy.now text.now tape.now (due_of outcome)) }
    ensures puts { Starts O.taken O.faults O.refused out.old out.new result }
    ensures notes { StartsLine N.taken N.faults N.refused note.old note.new result }
{
    match read_policy(alloc, policy) {
        Ok(whole) => unwoven(alloc, &whole, text, tape, out, note),
        Err(fault) => policy_refusal(&fault, note),
    }
}
