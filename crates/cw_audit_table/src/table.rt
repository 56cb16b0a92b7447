//! The table of an audit.

use cw_certs::Move;
use cw_core::{PosId, StateId};

/// A function with the state in which it is entered. `reach` is the least number of the program's moves from the start to
/// that entry. A row has a position of the function, a state, and the least number of moves from the entry to that pair,
/// those of the functions that are called on the way and have ended among them.
#[derive(Drop)]
pub struct Group {
    pub function: u16,
    pub entered: StateId,
    pub reach: u32,
    pub rows: Vec<(PosId, StateId, u32)>,
}

/// What an audit finds of a source as it is: the least number of the program's moves to a violation, and the moves of such a
/// run, where there is one; and the groups of rows that show that none is shorter.
#[derive(Drop)]
pub struct AuditTable {
    pub states: u16,
    pub distance: Option<u32>,
    pub moves: Vec<Move>,
    pub groups: Vec<Group>,
}
