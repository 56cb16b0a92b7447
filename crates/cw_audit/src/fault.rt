//! Why a source has no audit.

ghost use Rattle.std.specs.Prelude.{◌≡◌};
ghost use Rattle.cw_audit.specs.declared.fault.AuditFault.TheVariants.{NoMemory as OutOfMemory};

use cw_core::NoMemory;
use thiserror::Error;

/// Why a source has no audit.
#[derive(Clone, Copy, Debug, PartialEq, Eq, Error)]
pub enum AuditFault {
    #[error("the rows are more than 65,536")]
    TooManyRows,
    #[error("the moves to the nearest violation are more than 65,536")]
    TooManyMoves,
    #[error("no memory is left")]
    NoMemory,
}

impl From<NoMemory> for AuditFault {
    ghost from_gives = { λ _ fault. fault ≡ OutOfMemory };

    fn from(_refused: NoMemory) -> AuditFault {
        AuditFault::NoMemory
    }
}
