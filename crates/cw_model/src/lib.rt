//! The model of a program under a policy: boards and their moves, woven runs, strategies. It has definitions and laws alone.
#![tactic(auto)]

pub mod laws;
