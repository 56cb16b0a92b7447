//! Least sets: keys that are reached by steps; the different items of a list, ascending; the number of an item in a list that ascends.
#![tactic(auto)]

mod closure;
mod number;
mod order;
mod sees;
mod steps;

pub use closure::{closed_up_to, closed_within};
pub use number::number_of;
pub use order::{ascending, ordered};
pub use steps::Steps;
