//! The trace of a play or a woven run: its definition over boards, the printing of its lines, and what each move of a game tells.
#![tactic(auto)]

pub mod laws;
mod lines;
mod names;
mod telling;

pub use lines::{put_call, put_close, put_label, put_open, put_return, put_stop, put_try};
pub use names::{Names, trace_names};
pub use telling::{put_move, put_reached, put_step};
