//! Lists of cells, each of which has a number or none, that are made again in a constant number of steps.
#![tactic(auto)]

mod cells;

pub use cells::Cells;
