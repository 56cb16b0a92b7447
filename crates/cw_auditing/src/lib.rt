//! What is due for `audit` and `reaudit`: the audit of a source as it is, and one that is judged again.
#![tactic(auto)]

mod auditing;
mod reauditing;

pub use auditing::audit_due;
pub use reauditing::reaudit_due;
