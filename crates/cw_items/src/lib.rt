//! Which item of a program stands where: the points that are forks, and the link from boards to points.
#![tactic(auto)]

mod flags;
mod forks;
pub mod laws;

pub use flags::fork_points;
