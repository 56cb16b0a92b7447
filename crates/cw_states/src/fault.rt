//! Why a policy has no states.

ghost use Rattle.std.specs.Prelude.{◌≡◌};
ghost use Rattle.cw_states.specs.declared.fault.StatesFault.TheVariants.{NoMemory};

use std::alloc::{AllocError, AllocFailed};
use thiserror::Error;

/// Why a policy has no states for a source.
#[derive(Clone, Copy, Debug, PartialEq, Eq, Error)]
pub enum StatesFault {
    #[error("the rights states are more than 128")]
    TooManyCaps,
    #[error("the policy states are more than 64")]
    TooManyWords,
    #[error("the pairs of a policy state and a rights state are too many for the format")]
    TooManyStates,
    #[error("no memory is left")]
    NoMemory,
}

impl From<AllocError> for StatesFault {
    ghost from_gives = { λ _ fault. fault ≡ NoMemory };

    fn from(_refused: AllocError) -> StatesFault {
        StatesFault::NoMemory
    }
}

impl<T: Drop> From<AllocFailed<T>> for StatesFault {
    ghost from_gives = { λ _ fault. fault ≡ NoMemory };

    fn from(_refused: AllocFailed<T>) -> StatesFault {
        StatesFault::NoMemory
    }
}
