//! Strategies of the environment as text, written and read.
#![tactic(auto)]

mod kind;
mod laws;
mod printing;
mod reading;
mod row;
mod steps;
mod wording;

pub use laws::{one_answer, read_again, some_answer};
pub use printing::{print_env, put_end, put_head, put_row, put_strategy};
pub use reading::read_env;
