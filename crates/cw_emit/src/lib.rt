//! Woven texts of both formats: a prologue with the table, and the source with the marks of its seams.
#![tactic(auto)]

pub mod laws;
mod marks;
mod weave;

pub use marks::put_spelling;
pub use weave::{put_woven, weave_text};
