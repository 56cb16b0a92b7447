//! Runs of woven programs over numbers of 64 bits.
#![tactic(auto)]

mod looping;
mod stepping;
mod tries;
mod visiting;
mod waiting;
mod woven;

pub use woven::values_woven;
