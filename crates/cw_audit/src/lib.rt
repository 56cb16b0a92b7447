//! The search for an audit's table.
#![tactic(auto)]

mod fault;
mod finish;
mod run;

pub use fault::AuditFault;
pub use run::audit;
