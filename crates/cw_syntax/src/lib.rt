//! The C subset of CapWeave.
#![tactic(auto)]

pub mod checked;
pub mod laws;
pub mod marks;
pub mod names;
pub mod program;
