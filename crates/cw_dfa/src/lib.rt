//! The rules of a policy, judged by sets of positions: after a word, the set of literals that some way of reading
//! the word through its rule reads last.
#![tactic(auto)]

pub mod laws;
mod matching;
pub mod rules;
pub mod states;
mod tables;

pub use rules::{DfaFault, Rules, start, step, violated};
pub use states::{all_states, states_by_masks};
