//! The groups of an audit's table: the rows that a search has found, in order.
#![tactic(auto)]

mod groups;
mod kept;

pub use groups::list;
pub use kept::{below, ordered};
