//! The plain run and the woven run over numbers of 64 bits: they make the same external calls, and end alike.
#![tactic(auto)]

pub mod laws;
