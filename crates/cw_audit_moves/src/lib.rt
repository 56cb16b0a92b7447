//! The moves of a shortest run to a violation, from how a search came to it.
#![tactic(auto)]

mod moves;
mod todo;

pub use moves::tell;
