//! What is due for `values`: the external calls of a woven program over numbers of 64 bits.
#![tactic(auto)]

mod answers;
mod valuing;

pub use valuing::values_due;
