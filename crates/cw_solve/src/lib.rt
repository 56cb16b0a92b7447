//! The heights of pairs and the needed contexts of a game.
#![tactic(auto)]

pub mod contexts;
pub mod fault;
pub mod indices;
pub mod laws;
mod look;
mod number;
mod rounds;
pub mod solved;
pub mod table;
mod tries;

pub use contexts::Context;
pub use fault::{SolveFault, TableFault};
pub use indices::Indices;
pub use solved::{Solved, solve};
