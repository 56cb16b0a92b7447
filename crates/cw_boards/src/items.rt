//! What a frame holds.

use cw_syntax::program::Stmt;

/// An item of a frame. A statement is held with the number of its first seam; a test has its loop's place,
/// whether there is a condition, whether a step comes after the body, and the body.
#[derive(Clone, Copy, Drop)]
pub(crate) enum Item<'s> {
    Entry {
        function: usize,
        seam: usize,
    },
    Todo {
        statement: &'s Stmt,
        seam: usize,
    },
    /// The arm of an `if` that isn't there.
    Nothing,
    /// The init of a `for`, by its place.
    Init(u32),
    Test {
        at: u32,
        decided: bool,
        stepped: bool,
        body: &'s Stmt,
        seam: usize,
    },
    /// The step of a `for`, by its place.
    After(u32),
    /// The end of a loop.
    LoopEnd,
    End(usize),
}
