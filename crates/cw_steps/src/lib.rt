//! Steps of a world of processes as text, read: a line for each step of the environment, with a process and a move.
#![tactic(auto)]

mod fault;
pub mod laws;
mod reading;
mod step;

pub use fault::StepsFault;
pub use reading::read_steps;
pub use step::Step;
