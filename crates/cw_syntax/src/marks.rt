//! The marks of the seams: the places of a source where the weaver may put a call of its own.

use crate::program::Name;

/// What a mark stands at.
#[derive(Clone, Copy, Drop, Debug, PartialEq, Eq)]
pub enum MarkKind {
    /// The entry of a function.
    Entry,
    /// A label.
    Label,
    /// An open, with the number of its descriptor in the policy.
    Open(u8),
    /// A close.
    Close,
    /// A call of a defined function, with the variable that takes its result.
    Call(Option<Name>),
}

/// A mark: its place in the source in bytes, its seam's number, what it stands at.
#[derive(Clone, Copy, Drop, Debug, PartialEq, Eq)]
pub struct SeamMark {
    pub place: u32,
    pub seam: u32,
    pub kind: MarkKind,
}
