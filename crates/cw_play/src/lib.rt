//! Plays of a strategy against a weaver whose moves are read off a tape.
#![tactic(auto)]

mod end;
pub mod laws;
mod play;
mod rows;
mod start;

pub use end::PlayEnd;
pub use play::play_env;
