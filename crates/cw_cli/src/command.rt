//! The commands.

ghost use Rattle.std.specs.Prelude.{◌≡◌, map, length, None, Some, IfSome, ◌⊎◌};
ghost use Rattle.cw_io.specs.Causes.{Rose};
ghost use Rattle.cw_commands.specs.Commands.{quantities_of, IsNumbered};
ghost use Rattle.cw_commands.specs.Endings.{line_of, status_of, usage_line, IsNoted, IsNotedWhole};
ghost use Rattle.cw_commands.specs.Runs.{Ends};
ghost use Rattle.cw_commands.specs.Starts.{noted_from, EndsLine};
ghost use Rattle.cw_commands.specs.Arguments.{first_command, requested};
ghost use Rattle.cw_cli.specs.Due.{IsDue};

use crate::due::due;
use cw_commands::{
    Command, Ending, deliver, first_command, put_ending, put_usage, read_files, requested,
};
use cw_core::NoMemory;
use cw_io::{Shelf, Sink};
use std::alloc::Global;

/// The status of arguments that don't fit.
const USAGE: u8 = 2;

/// Reads a command's files, and puts what is due for them.
fn perform<'w, F: Shelf, O: Sink, N: Sink>(
    alloc: Global,
    command: Command,
    names: &[&'w str],
    shelf: &mut F,
    out: &mut O,
    note: &mut N,
) -> Ending<'w, N>
    requires many { length names.now ≡ length (quantities_of command) }
    requires numbered { IsNumbered command }
    ensures same { F.files shelf.new ≡ F.files shelf.old }
    ensures ends { Ends (IsDue command) (F.files shelf.old) (F.faults shelf.old) (F.faults shelf.new)
        (O.taken out.old) (O.taken out.new) (O.faults out.old) (O.faults out.new)
        (quantities_of command) (map (λ name. name.now) names.now) result }
    ensures memory { result ≡ Ending.Memory → (O.taken out.new ≡ O.taken out.old) ⊎ Rose (O.refused out.old) (O.refused out.new) }
    ensures notes { EndsLine N.taken N.faults N.refused note.old note.new result }
{
    let files = match read_files(alloc, command.quantities(), names, shelf) {
        Ok(files) => files,
        Err(ending) => return ending,
    };
    match due(alloc, command, &files, out, note) {
        Ok(outcome) => deliver(outcome, out),
        Err(NoMemory) => Ending::Memory,
    }
}

/// Puts the line of an ending, and answers its status. What the note answers changes no status.
fn end<N: Sink>(ending: Ending<'_, N>, note: &mut N) -> u8
    requires begun { EndsLine N.taken N.faults N.refused (noted_from note.old ending) note.old ending }
    ensures status { result ≡ status_of ending.entry }
    ensures noted { IsNoted (N.taken (noted_from note.old ending.entry)) (N.taken note.new) (line_of ending.entry) }
    ensures whole { IsNotedWhole N.taken N.faults N.refused (noted_from note.old ending.entry) note.new (line_of ending.entry) }
{
    let status = ending.status();
    let _ = put_ending(note, ending);
    status
}

/// Does what the arguments of a command line ask for, and answers the status.
///
/// `weave POLICY SOURCE` puts the woven text (0), or the strategy by which the environment beats every weaver (1), `procs POLICY SOURCE` the same for the source's form; `graph SOURCE` puts the
/// lines of the graph of the source's points (0); `refute POLICY SOURCE STRATEGY` puts `yes` where the strategy beats every weaver (0), or the
/// first row that fails a condition (1); `check POLICY WOVEN` puts `yes` where the table is sound (0), or the first row that fails a condition (1);
/// `play POLICY SOURCE STRATEGY TAPE` puts the trace of the strategy's play by the tape and `violation RULE` (0) or `tape spent` (1), and `run POLICY WOVEN TAPE` that of the
/// woven run and `ended` (0), `tape spent` or `bad move I` (1), or each the first row that fails a condition (1); `audit POLICY SOURCE` puts the audit of the source as it is,
/// which meets the policy (0) or violates it (1); `reaudit POLICY SOURCE AUDIT` puts `yes`
/// where the audit is exact (0), or the first group and row that fail a condition (1); `sample N` weaves the sample of N, has it checked and puts its
/// numbers and `woven` (0) or `refuted` (1); `world POLICY WOVEN STEPS` puts the trace of a woven text's processes and `done N` (0) or `bad step I` (1), and `values POLICY WOVEN ANSWERS` the external
/// calls of a woven text over numbers and `ended` (0) or where it stopped (1), or each the first row that fails a condition (1). Arguments that fit no command are 2, a refused source 3, a refused policy 4, a quantity over
/// its limit 5, a file that can't be read 6, an output that can't be written 7, want of memory 8, a strategy, a woven text, a tape, a list of steps, answers or an audit that isn't of its grammar, or a woven text that isn't run over numbers, 9.
pub fn capweave<F: Shelf, O: Sink, N: Sink>(
    alloc: Global,
    arguments: &[String],
    shelf: &mut F,
    out: &mut O,
    note: &mut N,
) -> u8
    ensures same { F.files shelf.new ≡ F.files shelf.old }

    // Arguments that don't fit: no file is read, nothing is appended to the output, and the note gets a front of the line on usage, or there was no memory to read them.
    // Where neither of the note's counts rose it got the whole line, here and below.
    ensures usage { requested arguments.now ≡ None → (O.taken out.new ≡ O.taken out.old)
        × (((result ≡ 2) × IsNoted (N.taken note.old) (N.taken note.new) (Some (usage_line (first_command arguments.now)))
        × IsNotedWhole N.taken N.faults N.refused note.old note.new (Some (usage_line (first_command arguments.now))))
        ⊎ ((result ≡ 8) × IsNoted (N.taken note.old) (N.taken note.new) (line_of {N = N} Ending.Memory)
        × IsNotedWhole N.taken N.faults N.refused note.old note.new (line_of {N = N} Ending.Memory))) }
    ensures misused { result ≡ 2 → requested arguments.now ≡ None }
    ensures unread { requested arguments.now ≡ None → shelf.new ≡ shelf.old }

    // The arguments of a command: its ending, with its status, what it leaves on the output and its line on the note.
    ensures ends { IfSome (requested arguments.now) (λ wish. (ending : Ending N) × (result ≡ status_of ending)
        × Ends (IsDue wish.0) (F.files shelf.old) (F.faults shelf.old) (F.faults shelf.new)
        (O.taken out.old) (O.taken out.new) (O.faults out.old) (O.faults out.new) (quantities_of wish.0) wish.1 ending
        × IsNoted (N.taken note.old) (N.taken note.new) (line_of ending)
        × IsNotedWhole N.taken N.faults N.refused note.old note.new (line_of ending)) }

    // Want of memory: nothing is appended to the output, or its count of refused memory rose.
    ensures memory { result ≡ 8 → (O.taken out.new ≡ O.taken out.old) ⊎ Rose (O.refused out.old) (O.refused out.new) }
{
    let request = match requested(alloc, arguments) {
        Ok(request) => request,
        Err(NoMemory) => return end(Ending::Memory, note),
    };
    let Some(request) = request else {
        // What the note answers changes no status.
        let _ = put_usage(note, first_command(arguments));
        return USAGE;
    };
    let ending = perform(alloc, request.command, &request.names, shelf, out, note);
    end(ending, note)
}
