//! The moves of both parties.

/// One move: the weaver's first two and its last, and the environment's.
#[derive(Clone, Copy, Drop, Debug, PartialEq, Eq)]
pub enum Move {
    /// The weaver passes a primitive by.
    Skip,
    /// The weaver tries a primitive.
    Try,
    /// The kernel grants what was tried.
    Grant,
    /// The kernel refuses what was tried.
    Refuse,
    /// The program goes on where it has one way to go.
    On,
    /// A condition holds.
    Left,
    /// A condition doesn't hold.
    Right,
    /// An open gives a descriptor.
    Opened,
    /// An open gives none.
    Failed,
    /// The weaver ends the program, right after a refusal.
    Stop,
}
