//! What a function is promised.

use cw_core::StateSet;

/// A function, and the states in which it may end: those from which its caller goes on well.
#[derive(Clone, Copy, Debug, PartialEq, Eq)]
pub struct Context {
    pub function: u16,
    pub promise: StateSet,
}
