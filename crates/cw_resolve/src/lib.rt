//! Names by their bytes and the numbers that stand for them, the functions and labels of a program, and what a statement does that is an
//! expression: an open or a close of a descriptor of the policy, the call of a defined function, or none of these.
#![tactic(auto)]

mod actions;
mod labelled;
mod labels;
mod name_list;
mod names;
mod scene;
mod soonest;

pub use actions::{Act, action_of, descriptor_of};
pub use labelled::{Labelled, function_names, label_names, labels_in, name_in};
pub use labels::is_label;
pub use names::{function_named, text};
pub use scene::Scene;
pub use soonest::sooner;
