//! What passing each point of a program does: the statement that stands there, found by its place.
#![tactic(auto)]

mod forms;
mod items;

pub use forms::{call_start, deed_by, statement_start};
pub use items::{Row, rows};
