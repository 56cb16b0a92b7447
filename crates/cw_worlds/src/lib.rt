//! Processes side by side: worlds of woven runs that fork. It has definitions and laws alone.
#![tactic(auto)]

pub mod laws;
