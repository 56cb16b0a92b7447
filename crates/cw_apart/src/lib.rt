//! Laws of the statements of a program that is read. No code.
#![tactic(auto)]

pub mod laws;
