//! The least set that has a key, is closed under steps, and has the join of each two members of one group: what was seen and what is held for a
//! group is looked up by index.
#![tactic(auto)]

mod held;
mod indices;
mod joined;
mod joins;
mod seen;

pub use indices::Indices;
pub use joined::{Joined, joined_up_to};
pub use joins::{Groups, Joins};
