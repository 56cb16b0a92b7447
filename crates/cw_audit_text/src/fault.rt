//! Why a text is no audit's.

ghost use Rattle.std.specs.Prelude.{◌≡◌};
ghost use Rattle.cw_audit_text.specs.declared.fault.AuditTextFault.TheVariants as fault;

use std::alloc::{AllocError, AllocFailed};
use thiserror::Error;

/// Why a text is no audit's, with the number of the first line that is at fault, from 1.
#[derive(Clone, Copy, Debug, PartialEq, Eq, Error)]
pub enum AuditTextFault {
    /// The line isn't of the form.
    #[error("line {0}")]
    Line(u32),
    /// There was no memory.
    #[error("out of memory")]
    NoMemory,
}

impl From<AllocError> for AuditTextFault {
    ghost from_gives = { λ _ refused. refused ≡ fault.NoMemory };

    fn from(_refused: AllocError) -> AuditTextFault {
        AuditTextFault::NoMemory
    }
}

impl<T: Drop> From<AllocFailed<T>> for AuditTextFault {
    ghost from_gives = { λ _ refused. refused ≡ fault.NoMemory };

    fn from(_refused: AllocFailed<T>) -> AuditTextFault {
        AuditTextFault::NoMemory
    }
}
