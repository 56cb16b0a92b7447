//! Why a program has no graph.

ghost use Rattle.std.specs.Prelude.{◌≡◌};
ghost use Rattle.cw_points.specs.declared.fault.PointsFault.TheVariants as fault;

use cw_core::NoMemory;
use std::alloc::AllocError;
use thiserror::Error;

/// Why a program has no graph.
#[derive(Clone, Copy, Debug, PartialEq, Eq, Error)]
pub enum PointsFault {
    /// It has more points than a program may have.
    #[error("too many points")]
    TooManyPoints,
    /// There was no memory.
    #[error("out of memory")]
    NoMemory,
}

impl From<AllocError> for PointsFault {
    ghost from_gives = { λ _ refused. refused ≡ fault.NoMemory };

    fn from(_refused: AllocError) -> PointsFault {
        PointsFault::NoMemory
    }
}

impl From<NoMemory> for PointsFault {
    ghost from_gives = { λ _ refused. refused ≡ fault.NoMemory };

    fn from(_refused: NoMemory) -> PointsFault {
        PointsFault::NoMemory
    }
}
