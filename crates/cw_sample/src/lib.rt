//! A policy and a source of any size, made from a number: functions that call one another in a ring.
#![tactic(auto)]

mod argument;
mod sample;

pub use argument::sample_number;
pub use sample::{SampleFault, make_sample};
