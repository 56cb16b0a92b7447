//! A recogniser of the grammar of the C subset over a stack of its own: nesting of any depth needs no deep calls.
#![tactic(auto)]

mod kinds;
mod machine;
mod punctuators;
mod recogniser;
mod symbols;
mod tables;

pub use recogniser::recognise;
