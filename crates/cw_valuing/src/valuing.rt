//! What is due for `values`.

ghost use Rattle.std.specs.Prelude.{◌≡◌, ◌≤◌, None, length, IfOk};
ghost use Rattle.cw_rights.specs.Policies.{policy_of};
ghost use Rattle.cw_rights.specs.Valid.{IsValid};
ghost use Rattle.cw_syntax.specs.Trees.{file_of};
ghost use Rattle.cw_resolve.specs.Scenes.{names_of};
ghost use Rattle.cw_points.specs.Graphs.{IsGraph};
ghost use Rattle.cw_source.specs.Read.{ReadsAs};
ghost use Rattle.cw_callgraph.specs.Fitting.{Fits};
ghost use Rattle.cw_game.specs.Conditions.{IsGoodTable};
ghost use Rattle.cw_states.specs.States.{AreLists, lists_of};
ghost use Rattle.cw_product.specs.Product.{game_of};
ghost use Rattle.cw_product.specs.Uses.{uses_of};
ghost use Rattle.cw_wcheck.specs.Checking.{HasFewRows};
ghost use Rattle.cw_woven.specs.Held.{IsUnwoven};
ghost use Rattle.cw_value.specs.Shown.{answers_of, values_of, AreInOrder};
ghost use Rattle.cw_value.specs.Starts.{shape};
ghost use Rattle.cw_commands.specs.Outcomes.{due_of};
ghost use Rattle.cw_commands.specs.Starts.{Starts, StartsLine};
ghost use Rattle.cw_stages.specs.Games.{WithGame};
ghost use Rattle.cw_stages.specs.Stops.{file_in, source_of, told_of, whole_of, Answers as Answered, BeginsText, IsReading, StartsText};
ghost use Rattle.cw_valuing.specs.Held.{IsValuesShownBy};
ghost use Rattle.cw_valuing.specs.Refusals.{WhereFormed, WithForm};
ghost use Rattle.cw_valuing.specs.Valuing.{reply_of, values_told, AfterPolicy, IsValuesDue, IsValuesShown, IsValuesTold};

use crate::answers::answers_in;
use cw_certs::WeaverCert;
use cw_commands::{Outcome, Reply};
use cw_core::NoMemory;
use cw_core::limits::{FILE_BYTES_IN_FORMAT_2, POINTS};
use cw_io::{Sink, Writer};
use cw_points::Graph;
use cw_policy::read_policy;
use cw_product::Game;
use cw_rights::Policy;
use cw_stages::{
    Reading, Stop, Text, accept, ended, fits, make_game, open, policy_refusal, refused,
    tell_table_row,
};
use cw_starts::shape;
use cw_syntax::checked::Checked;
use cw_value::{Answers, Stop as End, ValueFault, Values};
use cw_value_text::put_values;
use cw_wcheck::check_weaver;
use cw_woven::Unwoven;
use cw_woven_values::values_woven;
use std::alloc::Global;

/// Which of the two answers a run is that ends so.
fn reply_of(stop: End) -> Reply
    ensures { result ≡ reply_of stop }
{
    match stop {
        End::Ended => Reply::Yes,
        End::Form(_) | End::Unset(_) | End::Unknown(_) | End::Overflow(_) => Reply::No,
        End::Division(_) | End::Index(_) | End::Answers(_) => Reply::No,
        End::Steps | End::Refused(_) => Reply::No,
    }
}

/// What a run shows, told.
fn told<O: Sink>(source: &[u8], values: &Values, out: &mut O) -> Text<O>
    ensures due { told_of result ≡ values_told source.now (values_of values.now) }
    ensures puts { BeginsText O.taken O.faults O.refused out.old out.new result }
{
    let mut writer = Writer::begin(out);
    put_values(source, values, &mut writer, out);
    Text {
        reply: reply_of(values.stop),
        writer,
    }
}

/// The woven run of a good table, over values.
fn shown<O: Sink>(
    alloc: Global,
    checked: &Checked,
    game: &Game,
    table: &WeaverCert,
    answers: &Answers,
    out: &mut O,
) -> Result<Text<O>, Stop>
    requires valid { IsValid (policy_of game.now.states.policy) }
    requires lists { AreLists (uses_of (policy_of game.now.states.policy) game.now.graph.nodes.items) (lists_of game.now.states) }
    requires reads { ReadsAs checked.now.source.now (file_of checked.now.program) }
    requires graph { IsGraph (names_of (policy_of game.now.states.policy)) checked.now.source.now (file_of checked.now.program) game.now.graph }
    requires good { IsGoodTable (game_of game.now) table.now }
    requires fits { Fits checked.now.source.now (file_of checked.now.program) (policy_of game.now.states.policy) }
    requires formed { shape checked.now.source.now (file_of checked.now.program) ≡ None }
    requires in_order { AreInOrder (answers_of answers.now) }
    ensures due { let whole = policy_of game.now.states.policy in
        Answered whole checked.now.source.now (IsValuesTold checked.now.source.now whole (file_of checked.now.program) table.now (answers_of answers.now)) result }
    ensures puts { StartsText O.taken O.faults O.refused out.old out.new result }
{
    match values_woven(alloc, checked, game, table, answers) {
        Ok(values) => Ok(told(checked.source, &values, out)),
        Err(ValueFault::NoMemory) => Err(Stop::NoMemory),
        Err(ValueFault::Shape(_)) => unreachable!(),
    }
}

/// What is told of a table: its run, or the first row that fails a condition.
fn judged<O: Sink>(
    alloc: Global,
    checked: &Checked,
    game: &Game,
    table: &WeaverCert,
    answers: &Answers,
    out: &mut O,
) -> Result<Text<O>, Stop>
    requires valid { IsValid (policy_of game.now.states.policy) }
    requires lists { AreLists (uses_of (policy_of game.now.states.policy) game.now.graph.nodes.items) (lists_of game.now.states) }
    requires reads { ReadsAs checked.now.source.now (file_of checked.now.program) }
    requires graph { IsGraph (names_of (policy_of game.now.states.policy)) checked.now.source.now (file_of checked.now.program) game.now.graph }
    requires few { HasFewRows table.now }
    requires fits { Fits checked.now.source.now (file_of checked.now.program) (policy_of game.now.states.policy) }
    requires formed { shape checked.now.source.now (file_of checked.now.program) ≡ None }
    requires in_order { AreInOrder (answers_of answers.now) }
    ensures due { let whole = policy_of game.now.states.policy in
        Answered whole checked.now.source.now (IsValuesShownBy checked.now.source.now whole (file_of checked.now.program) table.now (answers_of answers.now) (game_of game.now)) result }
    ensures puts { StartsText O.taken O.faults O.refused out.old out.new result }
{
    match check_weaver(game, table) {
        Ok(()) => shown(alloc, checked, game, table, answers, out),
        Err(bad) => Ok(tell_table_row(&bad, out)),
    }
}

/// That no game of the policy and the program comes, or what is told of the table.
fn with_game<O: Sink>(
    alloc: Global,
    reading: &Reading,
    graph: &Graph,
    table: &WeaverCert,
    answers: &Answers,
    out: &mut O,
) -> Result<Text<O>, Stop>
    requires is { IsReading reading.now }
    requires graph { IsGraph (names_of (whole_of reading.now)) (source_of reading.now) (file_in reading.now) graph.now }
    requires points { length graph.now.nodes.items ≤ POINTS }
    requires few { HasFewRows table.now }
    requires fits { Fits (source_of reading.now) (file_in reading.now) (whole_of reading.now) }
    requires formed { shape (source_of reading.now) (file_in reading.now) ≡ None }
    requires in_order { AreInOrder (answers_of answers.now) }
    ensures due { let whole = whole_of reading.now in let source = source_of reading.now in let file = file_in reading.now in
        Answered whole source (WithGame (IsValuesShown source whole file table.now (answers_of answers.now)) source whole file graph.now) result }
    ensures puts { StartsText O.taken O.faults O.refused out.old out.new result }
{
    let game = make_game(alloc, reading, graph)?;
    judged(alloc, &reading.checked, &game, table, answers, out)
}

/// That a name of the program may not be declared where it is, or what comes behind that.
fn formed<O: Sink>(
    alloc: Global,
    reading: &Reading,
    graph: &Graph,
    table: &WeaverCert,
    answers: &Answers,
    out: &mut O,
) -> Result<Text<O>, Stop>
    requires is { IsReading reading.now }
    requires graph { IsGraph (names_of (whole_of reading.now)) (source_of reading.now) (file_in reading.now) graph.now }
    requires points { length graph.now.nodes.items ≤ POINTS }
    requires few { HasFewRows table.now }
    requires fits { Fits (source_of reading.now) (file_in reading.now) (whole_of reading.now) }
    requires in_order { AreInOrder (answers_of answers.now) }
    ensures due { let whole = whole_of reading.now in let source = source_of reading.now in let file = file_in reading.now in
        Answered whole source (WithForm (IsValuesShown source whole file table.now (answers_of answers.now)) source whole file) result }
    ensures puts { StartsText O.taken O.faults O.refused out.old out.new result }
{
    match shape(alloc, reading.checked.source, &reading.checked.program)? {
        None => with_game(alloc, reading, graph, table, answers, out),
        Some(at) => Err(Stop::Form(at)),
    }
}

/// That the policy doesn't fit the program, or what comes behind that.
fn fitted<O: Sink>(
    alloc: Global,
    reading: &Reading,
    graph: &Graph,
    table: &WeaverCert,
    answers: &Answers,
    out: &mut O,
) -> Result<Text<O>, Stop>
    requires is { IsReading reading.now }
    requires graph { IsGraph (names_of (whole_of reading.now)) (source_of reading.now) (file_in reading.now) graph.now }
    requires points { length graph.now.nodes.items ≤ POINTS }
    requires few { HasFewRows table.now }
    requires in_order { AreInOrder (answers_of answers.now) }
    ensures due { let whole = whole_of reading.now in let source = source_of reading.now in let file = file_in reading.now in
        Answered whole source (WhereFormed (IsValuesShown source whole file table.now (answers_of answers.now)) source whole file) result }
    ensures puts { StartsText O.taken O.faults O.refused out.old out.new result }
{
    fits(alloc, reading)?;
    formed(alloc, reading, graph, table, answers, out)
}

/// That the source of a woven text isn't read, that a text isn't one of answers, or what comes behind that.
fn accepted<O: Sink>(
    alloc: Global,
    policy: &Policy,
    parts: &Unwoven,
    answers: &[u8],
    out: &mut O,
) -> Result<Text<O>, Stop>
    requires valid { IsValid (policy_of policy.now) }
    requires unwoven { IsUnwoven (policy_of policy.now) parts.now }
    requires short { length answers.now ≤ FILE_BYTES_IN_FORMAT_2 }
    ensures due { Answered (policy_of policy.now) parts.now.source.items (AfterPolicy parts.now.text.now answers.now (policy_of policy.now)) result }
    ensures puts { StartsText O.taken O.faults O.refused out.old out.new result }
{
    let (reading, graph) = accept(alloc, policy, parts)?;
    let given = answers_in(alloc, answers)?;
    fitted(alloc, &reading, &graph, &parts.table, &given, out)
}

/// That a text is no woven text, or what is due for the source and the table that it is read as.
fn unwoven<O: Sink, N: Sink>(
    alloc: Global,
    policy: &Policy,
    text: &[u8],
    answers: &[u8],
    out: &mut O,
    note: &mut N,
) -> Result<Outcome<O, N>, NoMemory>
    requires valid { IsValid (policy_of policy.now) }
    requires short { length text.now ≤ FILE_BYTES_IN_FORMAT_2 }
    requires short_answers { length answers.now ≤ FILE_BYTES_IN_FORMAT_2 }
    ensures due { IfOk result (λ outcome. AfterPolicy text.now answers.now (policy_of policy.now) (due_of outcome)) }
    ensures puts { Starts O.taken O.faults O.refused out.old out.new result }
    ensures notes { StartsLine N.taken N.faults N.refused note.old note.new result }
{
    match open(alloc, policy, text) {
        Ok(parts) => ended(
            accepted(alloc, policy, &parts, answers, out),
            policy,
            &parts.source,
            note,
        ),
        Err(stop) => refused(&stop, policy, b"", note),
    }
}

/// What is due for `values`, by the bytes of a policy, of a woven text and of answers.
pub fn values_due<O: Sink, N: Sink>(
    alloc: Global,
    policy: &[u8],
    text: &[u8],
    answers: &[u8],
    out: &mut O,
    note: &mut N,
) -> Result<Outcome<O, N>, NoMemory>
    requires short { length text.now ≤ FILE_BYTES_IN_FORMAT_2 }
    requires short_answers { length answers.now ≤ FILE_BYTES_IN_FORMAT_2 }
    ensures due { IfOk result (λ outcome. IsValuesDue policy.now text.now answers.now (due_of outcome)) }
    ensures puts { Starts O.taken O.faults O.refused out.old out.new result }
    ensures notes { StartsLine N.taken N.faults N.refused note.old note.new result }
{
    match read_policy(alloc, policy) {
        Ok(whole) => unwoven(alloc, &whole, text, answers, out, note),
        Err(fault) => policy_refusal(&fault, note),
    }
}
