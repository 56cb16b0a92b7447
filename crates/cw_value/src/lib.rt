//! Runs of programs over numbers of 64 bits: what they mean, and their data.
#![tactic(auto)]

mod fault;
mod values;

pub use fault::ValueFault;
pub use values::{Answers, Arg, Made, Stop, Values};
