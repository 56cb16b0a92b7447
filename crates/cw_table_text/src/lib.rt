//! The tables of woven texts as text, both ways, in both formats.
#![tactic(auto)]

mod draft;
mod fields;
mod head;
mod keys;
pub mod laws;
mod line;
mod live;
mod reading;
mod row;
mod rows;
mod writing;

pub use reading::read_tables;
pub use row::Row;
pub use writing::{print_tables, put_tables};
