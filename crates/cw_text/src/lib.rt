//! What texts of tables, strategies, woven programs and tapes are made of: lines and their fields, numbers, sets and moves as fields, the
//! fields of rows, limits and descriptors' names, and the faults that a reader of such a text answers; tapes whole.
#![tactic(auto)]

mod cutting;
mod fault;
mod field;
mod fields;
pub mod laws;
mod limits;
mod moves;
mod sets;
mod tape_moves;
mod tapes;

pub use cutting::{behind, cut, is_same, next_line};
pub use fault::TextFault;
pub use field::{number_of, set_of};
pub use fields::Fields;
pub use limits::{descriptor_name, put_limits};
pub use moves::{environments_move, move_name, weavers_move};
pub use sets::put_set;
pub use tapes::read_tape;
