//! Why a source isn't run over values.

ghost use Rattle.std.specs.Prelude.{◌≡◌};
ghost use Rattle.cw_value.specs.declared.fault.ValueFault.TheVariants.{NoMemory};

use cw_core::NoMemory as OutOfMemory;
use std::alloc::{AllocError, AllocFailed};
use thiserror::Error;

/// Why a source isn't run over values.
#[derive(Clone, Copy, Drop, Debug, PartialEq, Eq, Error)]
pub enum ValueFault {
    /// The name at this place is declared a second time in its function, is a name of file scope too, or is `static` there. The place
    /// is counted in bytes from the front of the source.
    #[error("value form")]
    Shape(u32),
    #[error("no memory is left")]
    NoMemory,
}

impl From<AllocError> for ValueFault {
    ghost from_gives = { λ _ fault. fault ≡ NoMemory };

    fn from(_refused: AllocError) -> ValueFault {
        ValueFault::NoMemory
    }
}

impl<T: Drop> From<AllocFailed<T>> for ValueFault {
    ghost from_gives = { λ _ fault. fault ≡ NoMemory };

    fn from(_refused: AllocFailed<T>) -> ValueFault {
        ValueFault::NoMemory
    }
}

impl From<OutOfMemory> for ValueFault {
    ghost from_gives = { λ _ fault. fault ≡ NoMemory };

    fn from(_refused: OutOfMemory) -> ValueFault {
        ValueFault::NoMemory
    }
}
