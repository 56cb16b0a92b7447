//! The check of an audit's table against the game of a program.
#![tactic(auto)]

mod check;
mod looked_up;
mod ranges;
mod rows;
mod walk;

pub use check::{BadGroup, check_audit};
pub use walk::shows;
