//! The form of a source under a policy that detaches functions.
#![tactic(auto)]

pub mod detaching;
mod faults;
mod form;
pub mod laws;
mod names;
mod nesting;
mod spans;
mod tokens;

pub use detaching::detach;
pub use faults::ProcFault;
