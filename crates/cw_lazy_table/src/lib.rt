//! The lazy table of a game: its definition, that it is good and lazy, and the function that makes it.
#![tactic(auto)]

mod choice;
mod follow;
mod indices;
pub mod key;
pub mod laws;
mod lists;
mod looked;
mod mems;
mod near;
mod promises;
mod seam_key;
pub mod table;

pub use key::Key;
pub use table::weaver_table;
