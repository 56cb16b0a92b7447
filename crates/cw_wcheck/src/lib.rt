//! The checker of tables, and what its conditions are good for.
#![tactic(auto)]

mod calls;
mod check;
mod ends;
mod fault;
mod memories;
mod ranges;
mod rows;
pub mod soundness;
mod ways;

pub use check::check_weaver;
pub use fault::BadRow;
