//! The form of a source that is read is read. No code.
#![tactic(auto)]

pub mod laws;
