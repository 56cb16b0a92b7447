//! What is due for `check`.

ghost use Rattle.std.specs.Prelude.{◌≤◌, length, IfOk};
ghost use Rattle.cw_rights.specs.Policies.{policy_of};
ghost use Rattle.cw_rights.specs.Valid.{IsValid};
ghost use Rattle.cw_resolve.specs.Scenes.{names_of};
ghost use Rattle.cw_points.specs.Graphs.{IsGraph};
ghost use Rattle.cw_product.specs.Product.{game_of};
ghost use Rattle.cw_wcheck.specs.Checking.{HasFewRows};
ghost use Rattle.cw_woven.specs.Held.{IsUnwoven};
ghost use Rattle.cw_commands.specs.Outcomes.{due_of};
ghost use Rattle.cw_commands.specs.Starts.{Starts, StartsLine};
ghost use Rattle.cw_stages.specs.Stops.{file_in, source_of, told_of, whole_of, Answers, BeginsText, IsReading, StartsText};
ghost use Rattle.cw_checking.specs.Checking.{AfterPolicy, AfterWoven, IsCheckDue};
ghost use Rattle.cw_checking.specs.CheckingHeld.{IsCheckedBy};

use cw_certs::WeaverCert;
use cw_commands::{Outcome, Reply};
use cw_core::NoMemory;
use cw_core::limits::{FILE_BYTES_IN_FORMAT_2, POINTS};
use cw_io::Sink;
use cw_points::Graph;
use cw_policy::read_policy;
use cw_product::Game;
use cw_rights::Policy;
use cw_stages::{
    Reading, Stop, Text, accept, ended, fits, make_game, open, policy_refusal, refused, tell,
    tell_table_row,
};
use cw_wcheck::check_weaver;
use cw_woven::Unwoven;
use std::alloc::Global;
use std::mem::forget;

/// What is told of a table.
fn judged<O: Sink>(game: &Game, table: &WeaverCert, out: &mut O) -> Text<O>
    requires few { HasFewRows table.now }
    ensures due { IsCheckedBy (game_of game.now) table.now (told_of result) }
    ensures puts { BeginsText O.taken O.faults O.refused out.old out.new result }
{
    match check_weaver(game, table) {
        Ok(()) => tell(Reply::Yes, b"yes\n", out),
        Err(bad) => tell_table_row(&bad, out),
    }
}

/// That the policy doesn't fit the program, that no game of theirs comes, or what is told of the table.
fn fitted<O: Sink>(
    alloc: Global,
    reading: &Reading,
    graph: &Graph,
    table: &WeaverCert,
    out: &mut O,
) -> Result<Text<O>, Stop>
    requires is { IsReading reading.now }
    requires graph { IsGraph (names_of (whole_of reading.now)) (source_of reading.now) (file_in reading.now) graph.now }
    requires points { length graph.now.nodes.items ≤ POINTS }
    requires few { HasFewRows table.now }
    ensures due { let whole = whole_of reading.now in let source = source_of reading.now in
        Answers whole source (AfterWoven source whole (file_in reading.now) table.now) result }
    ensures puts { StartsText O.taken O.faults O.refused out.old out.new result }
{
    fits(alloc, reading)?;
    let game = make_game(alloc, reading, graph)?;
    Ok(judged(&game, table, out))
}

/// That the source of a woven text isn't read, or what is due for it and the table.
fn accepted<O: Sink>(
    alloc: Global,
    policy: &Policy,
    parts: &Unwoven,
    out: &mut O,
) -> Result<Text<O>, Stop>
    requires valid { IsValid (policy_of policy.now) }
    requires unwoven { IsUnwoven (policy_of policy.now) parts.now }
    ensures due { Answers (policy_of policy.now) parts.now.source.items (AfterPolicy parts.now.text.now (policy_of policy.now)) result }
    ensures puts { StartsText O.taken O.faults O.refused out.old out.new result }
{
    let (reading, graph) = accept(alloc, policy, parts)?;
    let text = fitted(alloc, &reading, &graph, &parts.table, out);
    // Nearly each expression has a block of memory of its own. No process checks twice, so its end gives all of them back at once.
    forget(reading);
    text
}

/// That a text is no woven text, or what is due for the source and the table that it is read as.
fn unwoven<O: Sink, N: Sink>(
    alloc: Global,
    policy: &Policy,
    text: &[u8],
    out: &mut O,
    note: &mut N,
) -> Result<Outcome<O, N>, NoMemory>
    requires valid { IsValid (policy_of policy.now) }
    requires short { length text.now ≤ FILE_BYTES_IN_FORMAT_2 }
    ensures due { IfOk result (λ outcome. AfterPolicy text.now (policy_of policy.now) (due_of outcome)) }
    ensures puts { Starts O.taken O.faults O.refused out.old out.new result }
    ensures notes { StartsLine N.taken N.faults N.refused note.old note.new result }
{
    match open(alloc, policy, text) {
        Ok(parts) => ended(
            accepted(alloc, policy, &parts, out),
            policy,
            &parts.source,
            note,
        ),
        Err(stop) => refused(&stop, policy, b"", note),
    }
}

/// What is due for `check`, by the bytes of a policy and of a woven text.
pub fn check_due<O: Sink, N: Sink>(
    alloc: Global,
    policy: &[u8],
    text: &[u8],
    out: &mut O,
    note: &mut N,
) -> Result<Outcome<O, N>, NoMemory>
    requires short { length text.now ≤ FILE_BYTES_IN_FORMAT_2 }
    ensures due { IfOk result (λ outcome. IsCheckDue policy.now text.now (due_of outcome)) }
    ensures puts { Starts O.taken O.faults O.refused out.old out.new result }
    ensures notes { StartsLine N.taken N.faults N.refused note.old note.new result }
{
    match read_policy(alloc, policy) {
        Ok(whole) => unwoven(alloc, &whole, text, out, note),
        Err(fault) => policy_refusal(&fault, note),
    }
}
