//! What is due for `world`: the processes of a woven text, step by step.
#![tactic(auto)]

mod steps;
mod worlding;

pub use worlding::world_due;
