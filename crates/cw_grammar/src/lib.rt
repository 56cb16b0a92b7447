//! The grammar of the C subset.
#![tactic(auto)]

pub mod rules;
pub mod spelling;
pub mod terminals;
