//! What is due for `procs`: the form of a source, woven or refuted.
#![tactic(auto)]

mod parting;
mod refusals;

pub use parting::procs_due;
