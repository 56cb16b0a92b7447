//! Runs of programs over numbers of 64 bits.
#![tactic(auto)]

mod looping;
mod plain;
mod prepared;
mod running;
mod starting;

pub use plain::values_plain;
pub use prepared::{Prepared, prepare};
pub use running::{Onward, Run, advance};
pub use starting::{Begun, entry, start};
