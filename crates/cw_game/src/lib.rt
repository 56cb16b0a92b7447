//! The game on numbered positions and states.
#![tactic(auto)]

pub mod laws;
mod spots;

pub use spots::Spot;
