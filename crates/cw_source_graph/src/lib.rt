//! From the bytes of a source to a program that keeps the rules of a policy's descriptors; and the graph of a program for which there is no policy.
#![tactic(auto)]

mod fault;
mod own;
mod reading;

pub use fault::ProgramFault;
pub use own::{Drawn, draw_own};
pub use reading::program_under;
