//! The positions of the game at the points of any program, under any policy.
#![tactic(auto)]

pub mod laws;
mod layout;
mod visits;
mod widths;

pub use layout::Positions;
pub use widths::count;
