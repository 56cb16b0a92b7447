//! Groups and rows, and how each was come to.

ghost use Rattle.std.specs.Prelude.{◌+◌, ◌*◌, ◌^◌, ◌++◌};
ghost use Rattle.std.proofs.Common.{rules};
ghost use Rattle.std.specs.Hash as fed;
ghost use Rattle.std.specs.Cmp.Rules.{hashing};

use cw_certs::Move;
use cw_core::{PosId, StateId};
use std::hash::{Hash, Hasher};

/// A function with the state in which it is entered.
#[derive(Clone, Copy, Drop, Debug, PartialEq, Eq, PartialOrd, Ord)]
pub struct Entrance {
    pub function: u16,
    pub state: StateId,
}

// As one number: a look-up takes less time than where each field is written by itself.
impl Hash for Entrance {
    ghost hash_input = { λ e. fed.u32 (e.state.0 + e.function * 2 ^ 16) };

    ghost respects_eq = { Prim.search (hashing, rules) };

    fn hash<H: Hasher>(&self, state: &mut H) {
        state.write_u32(u32::from(self.state.0) + u32::from(self.function) * 65_536);
    }
}

/// A pair within the activations that begin at an entrance.
#[derive(Clone, Copy, Drop, Debug, PartialEq, Eq, PartialOrd, Ord)]
pub struct RowKey {
    pub entrance: Entrance,
    pub pos: PosId,
    pub state: StateId,
}

// As two numbers.
impl Hash for RowKey {
    ghost hash_input = { λ p. fed.u64 (p.pos.0 + p.state.0 * 2 ^ 32) ++ fed.u32 (p.entrance.state.0 + p.entrance.function * 2 ^ 16) };

    ghost respects_eq = { Prim.search (hashing, rules) };

    fn hash<H: Hasher>(&self, state: &mut H) {
        state.write_u64(u64::from(self.pos.0) + u64::from(self.state.0) * 4_294_967_296);
        self.entrance.hash(state);
    }
}

/// The last thing on the way from an entrance to a row key: nothing; a move from a pair, which is its state and its position; or the
/// return of a function that was called at a pair, and the state in which it ended.
///
/// The fields stand in the order in which a way has twelve bytes.
#[derive(Clone, Copy, Drop, Debug, PartialEq, Eq)]
pub enum Way {
    Begun,
    Moved(StateId, PosId, Move),
    Returned(StateId, PosId, u16, StateId),
}

/// A row: how many moves it is from its entrance, and the way; and the number that its group should have, by which that is read
/// without a look-up.
#[derive(Clone, Copy, Drop, Debug, PartialEq, Eq)]
pub struct Row {
    pub inside: u32,
    pub way: Way,
    pub group: u32,
}

/// An entrance that is come to: how many moves it is from the start, and the row key of the call; `main` at the start has none.
#[derive(Clone, Copy, Drop, Debug, PartialEq, Eq)]
pub struct Entered {
    pub reach: u32,
    pub call: Option<RowKey>,
}

/// A bad pair that is come to: how many moves it is from the start, and the way from the entrance in which it lies.
#[derive(Clone, Copy, Drop, Debug, PartialEq, Eq)]
pub struct Hit {
    pub distance: u32,
    pub entrance: Entrance,
    pub way: Way,
}
