//! What is due for `procs`.

ghost use Rattle.std.specs.Prelude.{◌≡◌, ◌≤◌, length, None, IfErr, IfOk};
ghost use Rattle.cw_rights.specs.Policies.{policy_of};
ghost use Rattle.cw_rights.specs.Valid.{IsValid};
ghost use Rattle.cw_syntax.specs.Trees.{File};
ghost use Rattle.cw_scope.specs.Descriptors.{descriptor_fault};
ghost use Rattle.cw_source.specs.Read.{ReadsAs};
ghost use Rattle.cw_detach.specs.Faults.{IsDetachFault, IsFirstFault};
ghost use Rattle.cw_detach.specs.Form.{form_of};
ghost use Rattle.cw_commands.specs.Outcomes.{due_of};
ghost use Rattle.cw_commands.specs.Starts.{Starts, StartsLine};
ghost use Rattle.cw_stages.specs.Counting.{IsCounted};
ghost use Rattle.cw_stages.specs.Games.{WhereFits};
ghost use Rattle.cw_stages.specs.Reading.{WithSource};
ghost use Rattle.cw_stages.specs.Stops.{file_in, source_of, whole_of, Answers, Decides, IsReading, Nothing, StartsText, StartsVerdict};
ghost use Rattle.cw_stages.specs.Verdicts.{AfterGame};
ghost use Rattle.cw_parting.specs.Parting.{AfterForm, IsParted, IsProcsDue, OfForm};

use crate::refusals::form_refusal;
use cw_commands::Outcome;
use cw_core::NoMemory;
use cw_core::limits::SOURCE_BYTES;
use cw_detach::{ProcFault, detach};
use cw_io::Sink;
use cw_policy::read_policy;
use cw_rights::Policy;
use cw_stages::{
    Reading, Stop, Text, Verdict, draw, ended, fits, judge, make_game, policy_refusal, read_under,
    refused,
};
use std::alloc::Global;
use std::mem::forget;

/// Who wins the game of what has been read, with the text that says so.
fn judged<O: Sink>(alloc: Global, reading: &Reading, out: &mut O) -> Result<Verdict<O>, Stop>
    requires is { IsReading reading.now }
    ensures due { let whole = whole_of reading.now in let source = source_of reading.now in let file = file_in reading.now in
        Decides whole source (λ numbers. WhereFits (AfterGame (IsCounted numbers whole source file)) source whole file)
        (WhereFits (AfterGame Nothing) source whole file) result }
    ensures puts { StartsVerdict O.taken O.faults O.refused out.old out.new result }
{
    fits(alloc, reading)?;
    let graph = draw(alloc, reading)?;
    let game = make_game(alloc, reading, &graph)?;
    judge(alloc, &reading.checked, &game, out)
}

/// The text alone.
fn told<O: Sink>(alloc: Global, reading: &Reading, out: &mut O) -> Result<Text<O>, Stop>
    requires is { IsReading reading.now }
    ensures due { let whole = whole_of reading.now in let source = source_of reading.now in let file = file_in reading.now in
        Answers whole source (WhereFits (AfterGame (IsParted whole source file)) source whole file) result }
    ensures puts { StartsText O.taken O.faults O.refused out.old out.new result }
{
    let verdict = judged(alloc, reading, out)?;
    let Verdict { text, .. } = verdict;
    Ok(text)
}

/// What is due for a form, which is read as each form is: only want of memory can keep the reader from it.
fn parted<O: Sink>(
    alloc: Global,
    policy: &Policy,
    form: &[u8],
    out: &mut O,
) -> Result<Text<O>, Stop>
    requires short { length form.now ≤ SOURCE_BYTES }
    requires valid { IsValid (policy_of policy.now) }
    requires read { (file : File) × ReadsAs form.now file × (descriptor_fault form.now file (policy_of policy.now) ≡ None) }
    ensures due { Answers (policy_of policy.now) form.now (OfForm (policy_of policy.now) form.now) result }
    ensures puts { StartsText O.taken O.faults O.refused out.old out.new result }
{
    let reading = read_under(alloc, policy, form)?;
    let text = told(alloc, &reading, out);
    // As in `check`: the end of the process gives the blocks of the tree back at once.
    forget(reading);
    text
}

/// The form of what has been read, or why there is none. The program of the source goes, before that of the form comes.
fn form_in(alloc: Global, reading: Reading) -> Result<Vec<u8>, ProcFault>
    requires is { IsReading reading }
    requires short { length (source_of reading) ≤ SOURCE_BYTES }
    ensures form { IfOk result (λ form. form.items ≡ form_of (source_of reading.entry) (whole_of reading.entry).detached (file_in reading.entry)) }
    ensures few { IfOk result (λ form. length form.items ≤ SOURCE_BYTES) }
    ensures clear { IfOk result (λ _. IsFirstFault (source_of reading.entry) (file_in reading.entry) (whole_of reading.entry) None) }
    ensures fault { IfErr result (IsDetachFault (source_of reading.entry) (file_in reading.entry) (whole_of reading.entry)) }
{
    detach(alloc, &reading.checked, reading.policy)
}

/// What is due for a source behind its policy.
fn of_source<O: Sink, N: Sink>(
    alloc: Global,
    policy: &Policy,
    source: &[u8],
    out: &mut O,
    note: &mut N,
) -> Result<Outcome<O, N>, NoMemory>
    requires short { length source.now ≤ SOURCE_BYTES }
    requires valid { IsValid (policy_of policy.now) }
    ensures due { IfOk result (λ outcome. WithSource (AfterForm source.now (policy_of policy.now)) source.now (policy_of policy.now) (due_of outcome)) }
    ensures puts { Starts O.taken O.faults O.refused out.old out.new result }
    ensures notes { StartsLine N.taken N.faults N.refused note.old note.new result }
{
    let reading = match read_under(alloc, policy, source) {
        Ok(reading) => reading,
        Err(stop) => return refused(&stop, policy, source, note),
    };
    match form_in(alloc, reading) {
        Ok(form) => ended(parted(alloc, policy, &form, out), policy, &form, note),
        Err(fault) => form_refusal(policy, source, fault, note),
    }
}

/// What is due for `procs`, by the bytes of a policy and of a source.
pub fn procs_due<O: Sink, N: Sink>(
    alloc: Global,
    policy: &[u8],
    source: &[u8],
    out: &mut O,
    note: &mut N,
) -> Result<Outcome<O, N>, NoMemory>
    requires short { length source.now ≤ SOURCE_BYTES }
    ensures due { IfOk result (λ outcome. IsProcsDue policy.now source.now (due_of outcome)) }
    ensures puts { Starts O.taken O.faults O.refused out.old out.new result }
    ensures notes { StartsLine N.taken N.faults N.refused note.old note.new result }
{
    match read_policy(alloc, policy) {
        Ok(whole) => of_source(alloc, &whole, source, out, note),
        Err(fault) => policy_refusal(&fault, note),
    }
}
