//! Keys of what is live.

/// A position, a state, and the states in which the position's function may end, by their number among the promises of the
/// game, ascending.
#[derive(Clone, Copy, Drop, PartialEq, Eq, PartialOrd, Ord)]
pub struct Key {
    pub pos: u32,
    pub state: u16,
    pub promise: usize,
}
