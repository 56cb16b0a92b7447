//! What becomes of what is due.

ghost use Rattle.std.specs.Prelude.{◌≡◌};
ghost use Rattle.cw_io.specs.Causes.{Rose};
ghost use Rattle.cw_commands.specs.Outcomes.{due_of};
ghost use Rattle.cw_commands.specs.Runs.{Delivered};
ghost use Rattle.cw_commands.specs.Starts.{begun_of, Begins, BeginsLine, EndsLine};

use crate::ending::Ending;
use crate::outcome::Outcome;
use cw_io::{Sink, SinkFault};

/// Finishes the text that is due, or hands the refusal on, for which nothing is put.
pub fn deliver<'w, O: Sink, N: Sink>(outcome: Outcome<O, N>, out: &mut O) -> Ending<'w, N>
    requires { Begins O.taken O.faults O.refused (begun_of out.old outcome) out.old outcome }
    ensures due { let begun = begun_of out.old outcome in
        Delivered (O.taken begun) (O.taken out.new) (O.faults begun) (O.faults out.new) (due_of outcome) result }
    ensures memory { let begun = begun_of out.old outcome in result ≡ Ending.Memory → Rose (O.refused begun) (O.refused out.new) }
    ensures line { (old new : N) → BeginsLine N.taken N.faults N.refused old new outcome → EndsLine N.taken N.faults N.refused old new result }
{
    match outcome {
        Outcome::Refused(cause, line) => Ending::Refused(cause, line),
        Outcome::Told(reply, writer) => match writer.finish(out) {
            Ok(()) => Ending::Put(reply),
            Err(SinkFault::Failed) => Ending::Unwritten,
            Err(SinkFault::NoMemory) => Ending::Memory,
        },
    }
}
