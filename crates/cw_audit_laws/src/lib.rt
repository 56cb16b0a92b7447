//! Laws of audits over tables that are searched for.
#![tactic(auto)]

pub mod laws;
