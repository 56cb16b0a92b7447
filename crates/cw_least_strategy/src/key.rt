//! Keys of rows.

use cw_certs::Move;
use cw_core::StateSet;

/// A pair of a position and a state, the exit states at which the environment aims in its function, and its height: the
/// least number of moves for which the pair doesn't hold where all states but those of the aim are promised; 0 where it
/// has none.
#[derive(Clone, Copy, Drop, PartialEq, Eq, PartialOrd, Ord)]
pub struct Key {
    pub height: u32,
    pub pos: u32,
    pub state: u16,
    pub aim: StateSet,
}

/// A key whose aim is lent, as a copy of an aim costs more than the rest of a key.
#[derive(Clone, Copy, Drop)]
pub(crate) struct LentKey<'a> {
    pub height: u32,
    pub pos: u32,
    pub state: u16,
    pub aim: &'a StateSet,
}

/// A key with its aim by number: the index of the aim among those of all contexts, ascending. So small keys are in the order of
/// the keys that they stand for.
#[derive(Clone, Copy, Drop, PartialEq, Eq, PartialOrd, Ord)]
pub(crate) struct SmallKey {
    pub height: u32,
    pub pos: u32,
    pub state: u16,
    pub aim: u32,
}

/// A move of the environment, and where it leads.
#[derive(Clone, Copy, Drop)]
pub struct Way {
    pub by: Move,
    pub to: Key,
}
