//! Rights, capabilities, primitives, words and the data of policies.
//!
//! The model is FreeBSD's Capsicum: capsicum(4), cap_enter(2), cap_rights_limit(2), rights(4).
//! Nothing here takes memory or refuses.
#![tactic(auto)]

pub mod capabilities;
pub mod laws;
pub mod names;
pub mod plain;
pub mod policy;
pub mod words;

pub use capabilities::{
    ALL_RIGHTS, Allowed, Caps, Hold, Limit, Primitive, Rights, apply, close_hold, limit_allowed,
    open_hold,
};
pub use names::{is_name, is_name_byte, is_name_start, right_named};
pub use plain::matches_plain;
pub use policy::{Descriptor, Policy, Rule};
pub use words::{Letter, Lit, Regex, Test, lit_matches};
