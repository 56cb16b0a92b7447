//! The table of an audit: its data, what it says of a source as it is, and its conditions.
#![tactic(auto)]

pub mod laws;
mod skipping;
mod table;

pub use skipping::{cut, skipped};
pub use table::{AuditTable, Group};
