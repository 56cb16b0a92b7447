//! What holds of every command line, and of how commands end. The functions do nothing: their contracts are the laws.

ghost use Rattle.std.specs.Prelude.{List, ℕ};
ghost use Rattle.cw_commands.specs.Outcomes.{Due};
ghost use Rattle.cw_commands.specs.Statuses.{EndsWell, NeverFails, NeverFailsForSure};
ghost use Rattle.cw_commands.specs.Arguments.{OneArgumentIsNoCommand};

use cw_io::Sink;

/// One argument asks for no command, whatever it is, since each command has arguments behind its name.
pub fn one_argument_is_no_command()
    ensures { OneArgumentIsNoCommand }
{}

/// What is due for the bytes of a command's files. It has no code; a law over each command takes one.
pub trait DueRelation {
    ghost is_due: { List (List ℕ) → Due → Type 0 };
}

/// Of any command, whatever is due for it: where no read failed and no put to the output did, the status is neither 6 nor 7; where what is
/// due is a text besides, and no file is too long, it is 0 or 1, or 8 where memory was wanting. Over a shelf and an output whose counts
/// are always 0, as those of the sure shelf and the sure sink are, it is never 6 or 7.
pub fn statuses_have_causes<N: Sink, D: DueRelation>()
    ensures failed { NeverFails N D.is_due }
    ensures well { EndsWell N D.is_due }
    ensures sure { NeverFailsForSure N D.is_due }
{}
