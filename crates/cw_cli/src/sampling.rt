//! What is due for `sample`.

ghost use Rattle.std.specs.Prelude.{◌≡◌, ◌≤◌, length, IfOk, []};
ghost use Rattle.cw_rights.specs.Policies.{policy_of};
ghost use Rattle.cw_rights.specs.Valid.{IsValid};
ghost use Rattle.cw_sample.specs.Samples.{sample_policy, sample_source, HasSample};
ghost use Rattle.cw_commands.specs.Commands.{quantities_of, IsNumbered};
ghost use Rattle.cw_commands.specs.Files.{AreSized};
ghost use Rattle.cw_commands.specs.Outcomes.{due_of};
ghost use Rattle.cw_commands.specs.Starts.{Starts, StartsLine};
ghost use Rattle.cw_stages.specs.Counting.{IsCounted};
ghost use Rattle.cw_stages.specs.Reading.{WithSource};
ghost use Rattle.cw_stages.specs.Stops.{file_in, source_of, whole_of, Answers, Counts, IsReading, Nothing, StartsText};
ghost use Rattle.cw_cli.specs.Due.{IsDue};
ghost use Rattle.cw_cli.specs.Sampling.{AfterPolicy, IsSampleDue};
ghost use Rattle.cw_cli.specs.Weaving.{AfterPair};

use crate::telling::summary;
use crate::weaving::drawn;
use cw_commands::{Command, Outcome};
use cw_core::NoMemory;
use cw_core::limits::SOURCE_BYTES;
use cw_io::Sink;
use cw_policy::read_policy;
use cw_rights::Policy;
use cw_sample::{SampleFault, make_sample};
use cw_stages::{Count, Reading, Stop, Text, ended, make_game, policy_refusal, read_under, reckon};
use std::alloc::Global;
use std::mem::forget;

/// The policy and the source of a sample.
fn texts_of(alloc: Global, number: u32) -> Result<(Vec<u8>, Vec<u8>), NoMemory>
    requires { HasSample number }
    ensures policy { IfOk result (λ texts. texts.0.items ≡ sample_policy) }
    ensures source { IfOk result (λ texts. texts.1.items ≡ sample_source number) }
    ensures short { IfOk result (λ texts. length texts.1.items ≤ SOURCE_BYTES) }
{
    match make_sample(alloc, number) {
        Ok(texts) => Ok(texts),
        Err(SampleFault::NoMemory) => Err(NoMemory),
        Err(SampleFault::OutOfRange) => unreachable!(),
    }
}

/// Who wins the game of what has been read, with the numbers of the game; its table or its strategy is checked.
fn counted(alloc: Global, reading: &Reading) -> Result<Count, Stop>
    requires is { IsReading reading.now }
    ensures due { let whole = whole_of reading.now in let source = source_of reading.now in let file = file_in reading.now in
        Counts whole source (λ numbers. AfterPair (IsCounted numbers whole source file) source whole file) (AfterPair Nothing source whole file) result }
{
    let graph = drawn(alloc, reading)?;
    let game = make_game(alloc, reading, &graph)?;
    reckon(alloc, &reading.checked, &game)
}

/// Who wins the game of a policy and a source, with the numbers of the game.
fn count_under(alloc: Global, policy: &Policy, source: &[u8]) -> Result<Count, Stop>
    requires short { length source.now ≤ SOURCE_BYTES }
    requires valid { IsValid (policy_of policy.now) }
    ensures due { let whole = policy_of policy.now in
        Counts whole source.now (λ numbers. WithSource (λ file. AfterPair (IsCounted numbers whole source.now file) source.now whole file) source.now whole)
        (WithSource (λ file. AfterPair Nothing source.now whole file) source.now whole) result }
{
    let reading = read_under(alloc, policy, source)?;
    let count = counted(alloc, &reading);
    // As in `weave`: the end of the process gives the blocks of the tree back at once.
    forget(reading);
    count
}

/// Makes the table or the strategy for a policy and a source, has it checked, and tells the numbers.
fn sampled<O: Sink>(
    alloc: Global,
    number: u32,
    policy: &Policy,
    source: &[u8],
    out: &mut O,
) -> Result<Text<O>, Stop>
    requires short { length source.now ≤ SOURCE_BYTES }
    requires valid { IsValid (policy_of policy.now) }
    ensures due { Answers (policy_of policy.now) source.now (AfterPolicy number source.now (policy_of policy.now)) result }
    ensures puts { StartsText O.taken O.faults O.refused out.old out.new result }
{
    let count = count_under(alloc, policy, source)?;
    let Count { reply, numbers } = count;
    Ok(summary(number, &numbers, reply, out))
}

/// What is due for `sample`, by its number, from 1 to 400: the table or the strategy for its policy and its source is made and checked, and the numbers are told.
pub fn sample_due<O: Sink, N: Sink>(
    alloc: Global,
    number: u32,
    out: &mut O,
    note: &mut N,
) -> Result<Outcome<O, N>, NoMemory>
    requires { HasSample number }
    ensures due { IfOk result (λ outcome. IsSampleDue number (due_of outcome)) }
    ensures puts { Starts O.taken O.faults O.refused out.old out.new result }
    ensures notes { StartsLine N.taken N.faults N.refused note.old note.new result }
{
    let (policy, source) = texts_of(alloc, number)?;
    match read_policy(alloc, &policy) {
        Ok(whole) => ended(
            sampled(alloc, number, &whole, &source, out),
            &whole,
            &source,
            note,
        ),
        Err(fault) => policy_refusal(&fault, note),
    }
}

/// What is due for a command without files: a sample, by its number.
pub(crate) fn of_none<O: Sink, N: Sink>(
    alloc: Global,
    command: Command,
    out: &mut O,
    note: &mut N,
) -> Result<Outcome<O, N>, NoMemory>
    requires numbered { IsNumbered command }
    requires sized { AreSized (quantities_of command) ([]) }
    ensures due { IfOk result (λ outcome. IsDue command ([]) (due_of outcome)) }
    ensures puts { Starts O.taken O.faults O.refused out.old out.new result }
    ensures notes { StartsLine N.taken N.faults N.refused note.old note.new result }
{
    match command {
        Command::Sample(number) => sample_due(alloc, number, out, note),
        _ => unreachable!(),
    }
}
