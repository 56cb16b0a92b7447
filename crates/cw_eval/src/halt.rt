//! Why an expression gives no value.

ghost use Rattle.std.specs.Prelude.{◌≡◌};
ghost use Rattle.cw_eval.specs.declared.halt.Halt.TheVariants.{NoMemory};

use cw_core::NoMemory as OutOfMemory;
use cw_value::Stop;
use std::alloc::{AllocError, AllocFailed};

/// Why an expression gives no value: the run stops there, or no memory is left.
#[derive(Clone, Copy, Drop, Debug, PartialEq, Eq)]
pub enum Halt {
    Stop(Stop),
    NoMemory,
}

impl From<AllocError> for Halt {
    ghost from_gives = { λ _ halt. halt ≡ NoMemory };

    fn from(_refused: AllocError) -> Halt {
        Halt::NoMemory
    }
}

impl<T: Drop> From<AllocFailed<T>> for Halt {
    ghost from_gives = { λ _ halt. halt ≡ NoMemory };

    fn from(_refused: AllocFailed<T>) -> Halt {
        Halt::NoMemory
    }
}

impl From<OutOfMemory> for Halt {
    ghost from_gives = { λ _ halt. halt ≡ NoMemory };

    fn from(_refused: OutOfMemory) -> Halt {
        Halt::NoMemory
    }
}
