//! A step of a program over numbers of 64 bits: what it does with the values.
#![tactic(auto)]

mod known;
mod machine;
mod passing;
mod prepared;
mod said;
mod steps;
mod tasks;
mod whole;

pub use known::Known;
pub use machine::{Machine, Wait, new_store};
pub use prepared::{all_names_at, all_own_names, all_said, given_cells};
pub use said::Said;
pub use steps::{step_back, step_into, step_on};
pub use tasks::{Task, all_tasks};
pub use whole::{step_call, step_end, step_within};
