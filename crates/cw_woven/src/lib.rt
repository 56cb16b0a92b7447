//! Woven texts read back: the source, the table and the marks that a text stands for, or why it stands for none.
#![tactic(auto)]

mod acceptance;
mod comparing;
mod fault;
pub mod laws;
mod parts;
mod reading;
mod scanning;
mod spelling;

pub use acceptance::Accepted;
pub use fault::{CutFault, WovenFault};
pub use reading::{Unwoven, Woven, accept_woven, open_woven, read_woven};
