//! The answers that a run over values is given, as text, read.
#![tactic(auto)]

mod fault;
pub mod laws;
mod lines;
mod reading;
mod value;

pub use fault::AnswersFault;
pub use reading::read_answers;
