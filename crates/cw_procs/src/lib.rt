//! Worlds of processes by a list of steps, with their trace.
#![tactic(auto)]

pub mod laws;
mod stacks;
mod world;

pub use world::{WorldEnd, run_world};
