//! What is due for a command, by its files.

ghost use Rattle.std.specs.Prelude.{map, IfOk, [], ◌∷◌};
ghost use Rattle.cw_commands.specs.Commands.{quantities_of, IsNumbered};
ghost use Rattle.cw_commands.specs.Files.{AreSized};
ghost use Rattle.cw_commands.specs.Outcomes.{due_of};
ghost use Rattle.cw_commands.specs.Starts.{Starts, StartsLine};
ghost use Rattle.cw_cli.specs.Due.{IsDue};

use crate::listing::listing_due;
use crate::sampling::of_none;
use crate::weaving::weave_due;
use cw_auditing::{audit_due, reaudit_due};
use cw_checking::{check_due, refute_due};
use cw_commands::{Command, Outcome};
use cw_core::NoMemory;
use cw_io::Sink;
use cw_parting::procs_due;
use cw_playing::{play_due, run_due};
use cw_valuing::values_due;
use cw_worlding::world_due;
use std::alloc::Global;

/// What is due for a command of one file.
fn of_one<O: Sink, N: Sink>(
    alloc: Global,
    command: Command,
    source: &[u8],
    out: &mut O,
    note: &mut N,
) -> Result<Outcome<O, N>, NoMemory>
    requires sized { AreSized (quantities_of command) (source.now ∷ []) }
    ensures due { IfOk result (λ outcome. IsDue command (source.now ∷ []) (due_of outcome)) }
    ensures puts { Starts O.taken O.faults O.refused out.old out.new result }
    ensures notes { StartsLine N.taken N.faults N.refused note.old note.new result }
{
    match command {
        Command::Graph => listing_due(alloc, source, out, note),
        _ => unreachable!(),
    }
}

/// What is due for a command of two files.
fn of_two<O: Sink, N: Sink>(
    alloc: Global,
    command: Command,
    policy: &[u8],
    text: &[u8],
    out: &mut O,
    note: &mut N,
) -> Result<Outcome<O, N>, NoMemory>
    requires sized { AreSized (quantities_of command) (policy.now ∷ (text.now ∷ [])) }
    ensures due { IfOk result (λ outcome. IsDue command (policy.now ∷ (text.now ∷ [])) (due_of outcome)) }
    ensures puts { Starts O.taken O.faults O.refused out.old out.new result }
    ensures notes { StartsLine N.taken N.faults N.refused note.old note.new result }
{
    match command {
        Command::Weave => weave_due(alloc, policy, text, out, note),
        Command::Procs => procs_due(alloc, policy, text, out, note),
        Command::Check => check_due(alloc, policy, text, out, note),
        Command::Audit => audit_due(alloc, policy, text, out, note),
        _ => unreachable!(),
    }
}

/// What is due for a command of three files.
fn of_three<O: Sink, N: Sink>(
    alloc: Global,
    command: Command,
    policy: &[u8],
    text: &[u8],
    behind: &[u8],
    out: &mut O,
    note: &mut N,
) -> Result<Outcome<O, N>, NoMemory>
    requires sized { AreSized (quantities_of command) (policy.now ∷ (text.now ∷ (behind.now ∷ []))) }
    ensures due { IfOk result (λ outcome. IsDue command (policy.now ∷ (text.now ∷ (behind.now ∷ []))) (due_of outcome)) }
    ensures puts { Starts O.taken O.faults O.refused out.old out.new result }
    ensures notes { StartsLine N.taken N.faults N.refused note.old note.new result }
{
    match command {
        Command::Refute => refute_due(alloc, policy, text, behind, out, note),
        Command::Reaudit => reaudit_due(alloc, policy, text, behind, out, note),
        Command::Run => run_due(alloc, policy, text, behind, out, note),
        Command::World => world_due(alloc, policy, text, behind, out, note),
        Command::Values => values_due(alloc, policy, text, behind, out, note),
        _ => unreachable!(),
    }
}

/// What is due for a command of four files.
fn of_four<O: Sink, N: Sink>(
    alloc: Global,
    command: Command,
    policy: &[u8],
    source: &[u8],
    strategy: &[u8],
    tape: &[u8],
    out: &mut O,
    note: &mut N,
) -> Result<Outcome<O, N>, NoMemory>
    requires sized { AreSized (quantities_of command) (policy.now ∷ (source.now ∷ (strategy.now ∷ (tape.now ∷ [])))) }
    ensures due { IfOk result (λ outcome. IsDue command (policy.now ∷ (source.now ∷ (strategy.now ∷ (tape.now ∷ [])))) (due_of outcome)) }
    ensures puts { Starts O.taken O.faults O.refused out.old out.new result }
    ensures notes { StartsLine N.taken N.faults N.refused note.old note.new result }
{
    match command {
        Command::Play => play_due(alloc, policy, source, strategy, tape, out, note),
        _ => unreachable!(),
    }
}

/// What is due for a command, by the bytes of its files in the order of its arguments, or for a sample by its number.
pub(crate) fn due<O: Sink, N: Sink>(
    alloc: Global,
    command: Command,
    files: &[Vec<u8>],
    out: &mut O,
    note: &mut N,
) -> Result<Outcome<O, N>, NoMemory>
    requires numbered { IsNumbered command }
    requires sized { AreSized (quantities_of command) (map (λ file. file.items) files.now) }
    ensures due { IfOk result (λ outcome. IsDue command (map (λ file. file.items) files.now) (due_of outcome)) }
    ensures puts { Starts O.taken O.faults O.refused out.old out.new result }
    ensures notes { StartsLine N.taken N.faults N.refused note.old note.new result }
{
    match files {
        [] => of_none(alloc, command, out, note),
        [source] => of_one(alloc, command, source, out, note),
        [policy, text] => of_two(alloc, command, policy, text, out, note),
        [policy, text, behind] => of_three(alloc, command, policy, text, behind, out, note),
        [policy, source, strategy, tape] => of_four(
            alloc, command, policy, source, strategy, tape, out, note,
        ),
        _ => unreachable!(),
    }
}
