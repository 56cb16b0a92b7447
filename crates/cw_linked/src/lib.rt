//! The heights of the pairs of a game and its needed contexts, by linked cells.
#![tactic(auto)]

mod added;
mod asked;
mod block;
mod bounds;
mod calls;
mod cells;
mod divisor;
mod edges;
mod grants;
mod home;
mod implied;
mod links;
mod popped;
mod returns;
mod room;
mod solver;
mod spans;
mod ties;
mod waiting;
mod work;

pub use solver::solve;
