//! What is due for the bytes of a command's files.

use cw_io::{Sink, Writer};

/// Which of a command's two answers a text is.
#[derive(Clone, Copy, Debug, PartialEq, Eq, Drop)]
pub enum Reply {
    /// What was asked for, or that it holds: status 0.
    Yes,
    /// What stands in its place, or why it doesn't hold: status 1.
    No,
}

/// Why a command's files are refused.
#[derive(Clone, Copy, Debug, PartialEq, Eq, Drop)]
pub enum Cause {
    /// The source: status 3.
    Source,
    /// The policy: status 4.
    Policy,
    /// A quantity is over its limit: status 5.
    Limit,
    /// A text that isn't of its grammar, as that of a strategy: status 9.
    Grammar,
}

/// What is due for the bytes of a command's files.
#[derive(Drop)]
pub enum Outcome<O: Sink, N: Sink> {
    /// A text for the output, to which it was put, but for what waits in its writer.
    Told(Reply, Writer<O>),
    /// A refusal: its line for the note, likewise, without the line feed.
    Refused(Cause, Writer<N>),
}
