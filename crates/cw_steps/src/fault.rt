//! Why a text is none of steps.

ghost use Rattle.std.specs.Prelude.{◌≡◌};
ghost use Rattle.cw_steps.specs.declared.fault.StepsFault.TheVariants as fault;

use std::alloc::{AllocError, AllocFailed};
use thiserror::Error;

/// Why a text is none of steps, with the number of the first line that is at fault, from 1.
#[derive(Clone, Copy, Debug, PartialEq, Eq, Error)]
pub enum StepsFault {
    /// The line isn't of the form, or has no LF.
    #[error("line {0}")]
    Line(u32),
    /// There was no memory.
    #[error("out of memory")]
    NoMemory,
}

impl From<AllocError> for StepsFault {
    ghost from_gives = { λ _ refused. refused ≡ fault.NoMemory };

    fn from(_refused: AllocError) -> StepsFault {
        StepsFault::NoMemory
    }
}

impl<T: Drop> From<AllocFailed<T>> for StepsFault {
    ghost from_gives = { λ _ refused. refused ≡ fault.NoMemory };

    fn from(_refused: AllocFailed<T>) -> StepsFault {
        StepsFault::NoMemory
    }
}
