//! Why a read or a put is refused.
ghost use Rattle.std.specs.Prelude.{◌≡◌};
ghost use Rattle.cw_io.specs.declared.fault.ReadFault.TheVariants as read;
ghost use Rattle.cw_io.specs.declared.fault.SinkFault.TheVariants as sink;

use std::alloc::AllocError;
use thiserror::Error;

/// Why a read has no bytes to give.
#[derive(Clone, Copy, Debug, PartialEq, Eq, Error)]
pub enum ReadFault {
    /// The file isn't there, or can't be read.
    #[error("the file can't be read")]
    Failed,
    /// The file is longer than the reader allows.
    #[error("the file is too long")]
    TooLong,
    #[error("out of memory")]
    NoMemory,
}

impl From<AllocError> for ReadFault {
    ghost from_gives = { λ _ fault. fault ≡ read.NoMemory };

    fn from(_refused: AllocError) -> ReadFault {
        ReadFault::NoMemory
    }
}

/// Why a put didn't take its piece.
#[derive(Clone, Copy, Debug, PartialEq, Eq, Error)]
pub enum SinkFault {
    /// The bytes can't be written.
    #[error("the output can't be written")]
    Failed,
    #[error("out of memory")]
    NoMemory,
}
