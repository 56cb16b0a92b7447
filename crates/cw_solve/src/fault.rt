//! Why a game isn't solved, and why a solved game has no table.

ghost use Rattle.std.specs.Prelude.{◌≡◌};
ghost use Rattle.cw_solve.specs.declared.fault.SolveFault.TheVariants.{NoMemory};

use crate::contexts::Context;
use std::alloc::{AllocError, AllocFailed};
use thiserror::Error;

/// Why a game isn't solved.
#[derive(Debug, Drop, Error)]
pub enum SolveFault {
    /// Needed contexts, no two the same, whose cells alone are more than 4,194,304.
    #[error("the cells of the needed contexts are more than 4,194,304")]
    TooManyCells(Vec<Context>),
    #[error("no memory is left")]
    NoMemory,
}

impl From<AllocError> for SolveFault {
    ghost from_gives = { λ _ fault. fault ≡ NoMemory };

    fn from(_refused: AllocError) -> SolveFault {
        SolveFault::NoMemory
    }
}

impl<T: Drop> From<AllocFailed<T>> for SolveFault {
    ghost from_gives = { λ _ fault. fault ≡ NoMemory };

    fn from(_refused: AllocFailed<T>) -> SolveFault {
        SolveFault::NoMemory
    }
}

/// Why a table, or a strategy, of a solved game isn't made.
#[derive(Clone, Copy, Debug, PartialEq, Eq, Error)]
pub enum TableFault {
    #[error("the rows are more than 65,536")]
    TooManyRows,
    #[error("no memory is left")]
    NoMemory,
}
