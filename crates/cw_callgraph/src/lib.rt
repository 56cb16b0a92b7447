//! What each function of a program calls directly, and all that it reaches; what forbids splitting it; and which policies fit a program.
#![tactic(auto)]

mod alone;
mod bars;
mod callees;
mod expressions;
mod fit;
mod found;
mod heads;
mod lowest;
mod reach;
mod scopes;
mod statements;
mod table;

pub use fit::{FitFault, fit_fault, fits};
pub use table::{Effect, EffectTable, call_table, calls_in, effects};
