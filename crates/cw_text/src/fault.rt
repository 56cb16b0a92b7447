//! Why a text is none of its grammar.

ghost use Rattle.std.specs.Prelude.{◌≡◌};
ghost use Rattle.cw_text.specs.declared.fault.TextFault.TheVariants as fault;

use cw_core::NoMemory;
use std::alloc::{AllocError, AllocFailed};
use thiserror::Error;

/// Why a text is none of its grammar, with the number of the first line that is at fault, from 1.
#[derive(Clone, Copy, Debug, PartialEq, Eq, Error)]
pub enum TextFault {
    /// The line isn't of the form.
    #[error("line {0}")]
    Line(u32),
    /// The line is of the form, and its number or key isn't the next.
    #[error("order {0}")]
    Order(u32),
    /// The line is the next, and its row is one too many.
    #[error("too many rows at line {0}")]
    Limit(u32),
    /// There was no memory.
    #[error("out of memory")]
    NoMemory,
}

impl From<NoMemory> for TextFault {
    ghost from_gives = { λ _ refused. refused ≡ fault.NoMemory };

    fn from(_refused: NoMemory) -> TextFault {
        TextFault::NoMemory
    }
}

impl From<AllocError> for TextFault {
    ghost from_gives = { λ _ refused. refused ≡ fault.NoMemory };

    fn from(_refused: AllocError) -> TextFault {
        TextFault::NoMemory
    }
}

impl<T: Drop> From<AllocFailed<T>> for TextFault {
    ghost from_gives = { λ _ refused. refused ≡ fault.NoMemory };

    fn from(_refused: AllocFailed<T>) -> TextFault {
        TextFault::NoMemory
    }
}
