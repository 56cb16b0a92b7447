//! Woven runs by a tape.
#![tactic(auto)]

mod owned;
mod run;
mod walk;

pub use owned::{put_own_move, put_process};
pub use run::{Landing, RunEnd, begin, land, run_woven};
pub use walk::{Here, Next, Wait, lead};
