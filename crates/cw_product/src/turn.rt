//! Who moves at a position.

use cw_core::PosId;

/// Who moves at a position.
#[derive(Clone, Copy, Drop, Debug, PartialEq, Eq)]
pub enum Turn {
    /// A primitive is skipped or tried.
    Weaver,
    /// The kernel or the program moves within the function.
    Environment,
    /// A function is called, in a process of its own where the call is split, and the caller goes on at `back`.
    Call {
        callee: u16,
        split: bool,
        back: PosId,
    },
    /// The function ends; where it is `main`, so does the program.
    Exit {
        main: bool,
    },
}
