//! How a command ends.

ghost use Rattle.std.specs.Prelude.{◌≡◌};
ghost use Rattle.cw_commands.specs.Endings.{status_of};
ghost use Rattle.cw_commands.specs.Outcomes.{cause_status, reply_status};

use crate::outcome::{Cause, Reply};
use cw_core::Quantity;
use cw_io::{Sink, Writer};

/// How a command ends: a text was put whole, or why none was.
#[derive(Drop)]
pub enum Ending<'w, N: Sink> {
    /// The text was put whole.
    Put(Reply),
    /// The files are refused, by this line, which was put to the note but for what waits in its writer.
    Refused(Cause, Writer<N>),
    /// A file has more bytes than its quantity allows.
    TooLong(Quantity),
    /// The file of this name can't be read.
    Unread(&'w str),
    /// The text can't be written.
    Unwritten,
    /// There was no memory.
    Memory,
}

/// The status of an answer: 0 for yes, 1 for no.
fn reply_status(reply: Reply) -> u8
    ensures { result ≡ reply_status reply }
{
    match reply {
        Reply::Yes => 0,
        Reply::No => 1,
    }
}

/// The status of a refusal, by what is refused.
fn cause_status(cause: Cause) -> u8
    ensures { result ≡ cause_status cause }
{
    match cause {
        Cause::Source => 3,
        Cause::Policy => 4,
        Cause::Limit => 5,
        Cause::Grammar => 9,
    }
}

impl<N: Sink> Ending<'_, N> {
    /// Its status.
    pub fn status(&self) -> u8
        ensures { result ≡ status_of self.now }
    {
        match self {
            Ending::Put(reply) => reply_status(*reply),
            Ending::Refused(cause, _) => cause_status(*cause),
            Ending::TooLong(_) => 5,
            Ending::Unread(_) => 6,
            Ending::Unwritten => 7,
            Ending::Memory => 8,
        }
    }
}
