//! Why a source has no form.

ghost use Rattle.std.specs.Prelude.{◌≡◌};
ghost use Rattle.cw_detach.specs.declared.faults.ProcFault.TheVariants.{NoMemory as Memory};

use cw_core::{NoMemory, Quantity};
use std::alloc::AllocError;
use thiserror::Error;

/// Why a source has no form under a policy, in this order. A detached function has its number in the policy's list; a place is counted
/// in bytes from the front of the source.
#[derive(Clone, Copy, Drop, Debug, PartialEq, Eq, Error)]
pub enum ProcFault {
    /// The source defines no function of this detached name besides `main`.
    #[error("no function {0}")]
    NoFunction(u16),
    /// The policy also splits this detached function.
    #[error("detached {0}")]
    Both(u16),
    /// At this place a token is `fork` or `_exit`.
    #[error("fork name at {0}")]
    Taken(u32),
    /// At this place a call of a detached function stands whose result is taken.
    #[error("detached result at {0}")]
    Result(u32),
    /// The form has more of this quantity than a source may have: bytes, or nesting.
    #[error("over its limit: {0:?}")]
    Limit(Quantity),
    /// There was no memory.
    #[error("out of memory")]
    NoMemory,
}

impl From<NoMemory> for ProcFault {
    ghost from_gives = { λ _ fault. fault ≡ Memory };

    fn from(_refused: NoMemory) -> ProcFault {
        ProcFault::NoMemory
    }
}

impl From<AllocError> for ProcFault {
    ghost from_gives = { λ _ fault. fault ≡ Memory };

    fn from(_refused: AllocError) -> ProcFault {
        ProcFault::NoMemory
    }
}
