//! Why a program and a policy have no game.

ghost use Rattle.std.specs.Prelude.{◌≡◌};
ghost use Rattle.cw_product.specs.declared.fault.GameFault.TheVariants.{NoMemory};

use cw_core::NoMemory as Refused;
use cw_states::StatesFault;
use thiserror::Error;

/// Why a program and a policy have no game.
#[derive(Clone, Copy, Debug, PartialEq, Eq, Error)]
pub enum GameFault {
    #[error("the rights states are more than 128")]
    TooManyCaps,
    #[error("the policy states are more than 64")]
    TooManyWords,
    #[error("the pairs of a policy state and a rights state are too many for the format")]
    TooManyStates,
    #[error("the pairs of a position and a state are more than 1,048,576")]
    TooManyPositions,
    #[error("no memory is left")]
    NoMemory,
}

impl From<Refused> for GameFault {
    ghost from_gives = { λ _ fault. fault ≡ NoMemory };

    fn from(_refused: Refused) -> GameFault {
        GameFault::NoMemory
    }
}

impl From<StatesFault> for GameFault {
    ghost use Rattle.cw_product.specs.Faults.{fault_of};

    ghost from_gives = { λ given fault. fault ≡ fault_of given };

    fn from(fault: StatesFault) -> GameFault {
        match fault {
            StatesFault::TooManyCaps => GameFault::TooManyCaps,
            StatesFault::TooManyWords => GameFault::TooManyWords,
            StatesFault::TooManyStates => GameFault::TooManyStates,
            StatesFault::NoMemory => GameFault::NoMemory,
        }
    }
}
