//! The top call: arguments, a shelf and two sinks in, the status out.
#![tactic(auto)]

mod command;
mod due;
pub mod laws;
mod listing;
mod sampling;
mod telling;
mod weaving;

pub use command::capweave;
pub use listing::listing_due;
pub use sampling::sample_due;
pub use weaving::weave_due;
