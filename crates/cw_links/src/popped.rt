//! What waited under the least key.

/// What waited under the least key.
#[derive(Drop)]
pub enum Popped {
    Nothing,
    /// A cell, with its key.
    Cell(usize, u32),
    /// A link, with its key.
    Link(usize, u32),
}
