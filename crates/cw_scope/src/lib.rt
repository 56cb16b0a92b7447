//! The scope rules of the C subset, and the rules of a policy's descriptors in a program.
#![tactic(auto)]

pub mod check;
pub mod descriptors;
mod entries;
pub mod faults;
mod forms;
mod functions;
pub mod lists;
mod misuses;
mod names;
mod places;
mod rules;
pub mod walks;

pub use check::check_scope;
pub use descriptors::{DescriptorFault, check_descriptors};
pub use faults::ScopeFault;
pub use lists::{body_of, every_statement};
pub use walks::Nested;
