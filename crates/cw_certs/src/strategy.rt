//! The strategy of the environment.

use crate::moves::Move;
use cw_core::{PosId, StateId, StateSet};

/// What a row of a strategy does.
#[derive(Drop)]
pub enum How {
    /// The policy is violated here.
    Bad,
    /// The function ends here, in a state of the aim.
    Out,
    /// The weaver moves: the row after a skip, and after a try.
    Both {
        skip: u32,
        tried: u32,
    },
    /// The environment moves: its move, and the row after it.
    Go {
        by: Move,
        row: u32,
    },
    /// A function is called: the row in its body, and by the state in which it ends the row after its return.
    Into {
        callee: u32,
        backs: Vec<(StateId, u32)>,
    },
}

/// A row of a strategy: where it stands, the exit states at which it aims in this function, and what it does.
#[derive(Drop)]
pub struct EnvRow {
    pub pos: PosId,
    pub state: StateId,
    pub aim: StateSet,
    pub how: How,
}

/// A strategy of the environment. Rows are named by their number, from 0.
#[derive(Drop)]
pub struct EnvCert {
    /// How many states the policy has for this source.
    pub states: u16,
    pub rows: Vec<EnvRow>,
}
