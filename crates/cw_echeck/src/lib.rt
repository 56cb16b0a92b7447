//! The check of a strategy, and what its conditions are good for.
#![tactic(auto)]

pub mod check;
mod named;
mod sets;
pub mod strategies;

pub use check::{BadEnvRow, check_env, is_start};
