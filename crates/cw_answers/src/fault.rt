//! Why a text is none of answers.

ghost use Rattle.std.specs.Prelude.{◌≡◌};
ghost use Rattle.cw_answers.specs.declared.fault.AnswersFault.TheVariants as fault;

use std::alloc::{AllocError, AllocFailed};
use thiserror::Error;

/// Why a text is none of answers, with the number of the first line that doesn't fit, from 1.
#[derive(Clone, Copy, Debug, PartialEq, Eq, Error)]
pub enum AnswersFault {
    /// The line isn't of the form, or has no LF.
    #[error("line {0}")]
    Line(u32),
    /// There was no memory.
    #[error("out of memory")]
    NoMemory,
}

impl From<AllocError> for AnswersFault {
    ghost from_gives = { λ _ refused. refused ≡ fault.NoMemory };

    fn from(_refused: AllocError) -> AnswersFault {
        AnswersFault::NoMemory
    }
}

impl<T: Drop> From<AllocFailed<T>> for AnswersFault {
    ghost from_gives = { λ _ refused. refused ≡ fault.NoMemory };

    fn from(_refused: AllocFailed<T>) -> AnswersFault {
        AnswersFault::NoMemory
    }
}
