//! The graph of a program's points as text.
#![tactic(auto)]

mod listing;

pub use listing::{Names, put_graph};
