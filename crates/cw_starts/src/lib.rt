//! How a run over values begins: the values at file scope; and what may not be run.
#![tactic(auto)]

mod outer;
mod owns;
mod sizes;
mod texts;
mod turns;

pub use outer::globals;
pub use owns::shape;
pub use sizes::{Source, no_store, start_store};
pub use turns::{Turning, begin};
