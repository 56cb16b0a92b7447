//! Laws of programs that are read: the names in their marks are names, they open variables alone, and they don't call `main`.
#![tactic(auto)]

pub mod calls;
pub mod names;
pub mod opens;
