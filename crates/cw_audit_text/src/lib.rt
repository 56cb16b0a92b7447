//! Audits as text, written and read.
#![tactic(auto)]

mod fault;
pub mod laws;
mod printing;
mod reading;
mod text_line;

pub use fault::AuditTextFault;
pub use printing::{print_audit, put_audit};
pub use reading::read_audit;
