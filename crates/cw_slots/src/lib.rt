//! Names by their numbers: those of a function and of its file, and what a name stands for where it is used.
#![tactic(auto)]

mod declared;
mod locations;
mod names;
mod names_at;
mod numbers;
mod scope;
mod statements;

pub use declared::{own_names, shared_names};
pub use names::Names;
pub use names_at::NamesAt;
pub use numbers::Kept;
pub use scope::{Location, Scope};
pub use statements::said;
