//! Why a program has no board.

ghost use Rattle.std.specs.Prelude.{◌≡◌};
ghost use Rattle.cw_boards.specs.declared.fault.BoardFault.TheVariants as fault;

use std::alloc::AllocError;
use thiserror::Error;

/// Why a program has no board.
#[derive(Clone, Copy, Debug, PartialEq, Eq, Error)]
pub enum BoardFault {
    /// Its seams have no numbers of 64 bits.
    #[error("too many seams")]
    TooManySeams,
    /// There was no memory.
    #[error("out of memory")]
    NoMemory,
}

impl From<AllocError> for BoardFault {
    ghost from_gives = { λ _ refused. refused ≡ fault.NoMemory };

    fn from(_refused: AllocError) -> BoardFault {
        BoardFault::NoMemory
    }
}
