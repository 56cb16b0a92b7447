//! What is due for `check` and `refute`: whether a table is sound, and whether a strategy beats every weaver.
#![tactic(auto)]

mod checking;
mod refuting;

pub use checking::check_due;
pub use refuting::refute_due;
