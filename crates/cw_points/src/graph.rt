//! The graph of a program's points.

use cw_core::{PointId, SeamId};
use cw_syntax::program::Name;

/// What stands at a point.
#[derive(Clone, Copy, Drop, Debug, PartialEq, Eq)]
pub enum Point {
    /// The entry of a function.
    Entry,
    /// A declaration, an expression, an empty statement, a jump, the init or the step of a `for`, a test without a condition.
    Step,
    /// The condition of an `if` or of a loop.
    Branch,
    /// A label, with its number in the policy, or the number of the policy's labels.
    Label(u16),
    /// An open of the policy's descriptor with this number.
    Open(u8),
    /// A close of the policy's descriptor with this number.
    Close(u8),
    /// A call of the defined function with this number.
    Call(u16),
    /// The exit of a function.
    Exit,
}

/// A point: what stands there, its function's number in the order of definition, where it leads, and its seam.
///
/// A branch leads to its first successor where the condition holds, and else to its second. A call leads to its
/// successor on return. All others lead to their first successor, and an exit to none.
#[derive(Clone, Copy, Drop, Debug, PartialEq, Eq)]
pub struct Node {
    pub point: Point,
    pub function: u16,
    pub next: [Option<PointId>; 2],
    pub seam: Option<SeamId>,
}

/// A seam: its point, the place of its mark in the source in bytes, and the variable that takes the result of a call.
#[derive(Clone, Copy, Drop, Debug, PartialEq, Eq)]
pub struct Seam {
    pub point: PointId,
    pub place: u32,
    pub result: Option<Name>,
}

/// A function: where it begins and ends, and whether the policy lets it run in a process of its own.
#[derive(Clone, Copy, Drop, Debug, PartialEq, Eq)]
pub struct Part {
    pub entry: PointId,
    pub exit: PointId,
    pub split: bool,
}

/// The points of a program by number, its functions in the order of definition, the number of `main` among them, and
/// its seams by number.
#[derive(Drop)]
pub struct Graph {
    pub nodes: Vec<Node>,
    pub parts: Vec<Part>,
    pub main: u16,
    pub seams: Vec<Seam>,
}
