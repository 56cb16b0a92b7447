//! Sources read: tokens, program, scope rules; and the lines that tell why one is refused.
#![tactic(auto)]

pub mod fault;
pub mod laws;
pub mod line;
pub mod place;
pub mod read;

pub use fault::SourceFault;
pub use line::{put_fault_line, put_place_line};
pub use read::read_source;
