//! Regular expressions and tests of policies, read from their texts.
#![tactic(auto)]

mod build;
mod items;
mod label;
mod phase;
mod read;
mod scan;
mod test;
mod text;
mod unknown;

pub use read::{RegexFault, read_regex, read_test};
