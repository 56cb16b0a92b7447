//! What follows of what is due for the commands: laws over the definitions.
#![tactic(auto)]

pub mod laws;
pub mod stopping;
