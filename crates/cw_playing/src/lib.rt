//! What is due for `play` and `run`: the trace of a strategy's play, and of a woven run, by a tape.
#![tactic(auto)]

mod playing;
mod running;
mod telling;

pub use playing::play_due;
pub use running::run_due;
