//! The states of a policy for a source: pairs of a policy state and a rights state.
#![tactic(auto)]

mod acts;
pub mod fault;
mod growth;
pub mod laws;
mod masks;
mod order;
mod pairs;
pub mod states;
mod tables;
pub mod uses;

pub use fault::StatesFault;
pub use states::States;
pub use uses::Uses;
