//! Numbers of 64 bits, and what the operators of C give over them.
#![tactic(auto)]

mod joints;
mod operators;

pub use joints::{Joint, compound_of, joint_of};
pub use operators::{Operator, Want, fitting, is_zero, negated, operate, truth};
