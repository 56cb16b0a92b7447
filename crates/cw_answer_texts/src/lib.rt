//! That what is made of a game has a text.
#![tactic(auto)]

pub mod laws;
