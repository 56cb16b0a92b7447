//! Expressions, read from tokens.
#![tactic(auto)]

pub mod cursor;
pub mod expressions;
mod found;
mod operators;
pub mod refusal;
pub mod types;
