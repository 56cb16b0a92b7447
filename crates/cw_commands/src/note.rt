//! The one line on the note.

ghost use Rattle.std.specs.Prelude.{◌≡◌, [], codes, Some};
ghost use Rattle.cw_io.specs.Causes.{HasCause};
ghost use Rattle.cw_io.specs.Pieces.{Puts};
ghost use Rattle.cw_io.specs.declared.fault.SinkFault.TheVariants as SinkFault;
ghost use Rattle.cw_io.specs.Written.{Follows};
ghost use Rattle.cw_commands.specs.Endings.{line, line_of, usage_line, IsNoted, IsNotedWhole, PutsLine};
ghost use Rattle.cw_commands.specs.Starts.{noted_from, EndsLine};

use crate::ending::Ending;
use crate::name::Name;
use cw_io::{Sink, SinkFault, Writer};

/// Puts some arguments, others behind them and a line feed.
fn put_line<N: Sink>(note: &mut N, arguments: &[u8], rest: &[u8]) -> Result<(), SinkFault>
    ensures puts { Puts (N.taken note.old) (N.taken note.new) (line arguments.now rest.now) result }
    ensures failed { HasCause SinkFault.Failed (N.faults note.old) (N.faults note.new) result }
    ensures refused { HasCause SinkFault.NoMemory (N.refused note.old) (N.refused note.new) result }
{
    let mut writer = Writer::begin(note);
    writer.put(arguments, note);
    writer.put(rest, note);
    writer.put(b"\n", note);
    writer.finish(note)
}

/// The arguments of a command, or of all, for the line on usage.
fn usage(first: Option<Name>) -> &'static [u8]
    ensures { usage_line first ≡ line (codes "usage: capweave ") result.now }
{
    match first {
        Some(name) => name.usage(),
        None => b"COMMAND ARGUMENTS",
    }
}

/// Puts the line of arguments that don't fit, by the command that the first one names. The note gets a front of it, and all of it where neither of
/// its counts rises.
pub fn put_usage<N: Sink>(note: &mut N, first: Option<Name>) -> Result<(), SinkFault>
    ensures puts { Puts (N.taken note.old) (N.taken note.new) (usage_line first) result }
    ensures noted { IsNoted (N.taken note.old) (N.taken note.new) (Some (usage_line first)) }
    ensures whole { IsNotedWhole N.taken N.faults N.refused note.old note.new (Some (usage_line first)) }
    ensures failed { HasCause SinkFault.Failed (N.faults note.old) (N.faults note.new) result }
    ensures refused { HasCause SinkFault.NoMemory (N.refused note.old) (N.refused note.new) result }
{
    put_line(note, b"usage: capweave ", usage(first))
}

/// Ends a line that was begun.
fn end_line<N: Sink>(arguments: Writer<N>, note: &mut N) -> Result<(), SinkFault>
    requires follows { Follows N.taken N.faults N.refused arguments note.old }
    ensures puts { Puts (N.taken arguments.begun) (N.taken note.new) (line arguments.text []) result }
    ensures failed { HasCause SinkFault.Failed (N.faults arguments.begun) (N.faults note.new) result }
    ensures refused { HasCause SinkFault.NoMemory (N.refused arguments.begun) (N.refused note.new) result }
{
    let mut writer = arguments;
    writer.put(b"\n", note);
    writer.finish(note)
}

/// Puts the rest of an ending's line, and its end: nothing where something was put out.
fn put_line_of<N: Sink>(note: &mut N, ending: Ending<'_, N>) -> Result<(), SinkFault>
    requires begun { EndsLine N.taken N.faults N.refused (noted_from note.old ending) note.old ending }
    ensures puts { PutsLine (N.taken (noted_from note.old ending.entry)) (N.taken note.new) (line_of ending.entry) result }
    ensures failed { HasCause SinkFault.Failed (N.faults (noted_from note.old ending.entry)) (N.faults note.new) result }
    ensures refused { HasCause SinkFault.NoMemory (N.refused (noted_from note.old ending.entry)) (N.refused note.new) result }
{
    match ending {
        Ending::Put(_) => Ok(()),
        Ending::Refused(_, arguments) => end_line(arguments, note),
        Ending::TooLong(quantity) => put_line(note, b"limit: ", quantity.name().as_bytes()),
        Ending::Unread(name) => put_line(note, b"read: ", name.as_bytes()),
        Ending::Unwritten => put_line(note, b"write", b""),
        Ending::Memory => put_line(note, b"memory", b""),
    }
}

/// Puts the line of an ending, if it has one, or what is left of it. After an error a front of it was put, maybe all of it; where neither of the note's
/// counts rises since the line began, all of it.
pub fn put_ending<N: Sink>(note: &mut N, ending: Ending<'_, N>) -> Result<(), SinkFault>
    requires begun { EndsLine N.taken N.faults N.refused (noted_from note.old ending) note.old ending }
    ensures puts { PutsLine (N.taken (noted_from note.old ending.entry)) (N.taken note.new) (line_of ending.entry) result }
    ensures noted { IsNoted (N.taken (noted_from note.old ending.entry)) (N.taken note.new) (line_of ending.entry) }
    ensures whole { IsNotedWhole N.taken N.faults N.refused (noted_from note.old ending.entry) note.new (line_of ending.entry) }
    ensures failed { HasCause SinkFault.Failed (N.faults (noted_from note.old ending.entry)) (N.faults note.new) result }
    ensures refused { HasCause SinkFault.NoMemory (N.refused (noted_from note.old ending.entry)) (N.refused note.new) result }
{
    put_line_of(note, ending)
}
