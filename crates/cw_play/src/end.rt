//! How a play ends.

/// How a play ends.
#[derive(Clone, Copy, Drop, Debug, PartialEq, Eq)]
pub enum PlayEnd {
    /// The policy is violated: the least rule that the word breaks, by its number in the policy, from 0.
    Violation(u8),
    /// It is the weaver's turn, and the tape has no entry left.
    TapeSpent,
}
