//! What is told of a table that isn't good.

/// A condition of a table that fails. The lists of a table are numbered from 1: memories, where they are live, tries, labels, opens, closes,
/// calls, returns. The rows of each are numbered from 0, and the conditions from 1.
#[derive(Clone, Copy, Drop, Debug, PartialEq, Eq)]
pub struct BadRow {
    pub table: u8,
    pub number: u32,
    pub condition: u8,
}
