//! The search for the table of an audit, seen by its look-ups alone: what is asked of it at each step, and what follows when it ends.
#![tactic(auto)]

pub mod laws;
