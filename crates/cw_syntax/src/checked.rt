//! A program together with its source.

use crate::program::Program;

/// A source with the program that was read from it. Names in the program are places in the source.
#[derive(Drop)]
pub struct Checked<'s> {
    pub source: &'s [u8],
    pub program: Program,
}
