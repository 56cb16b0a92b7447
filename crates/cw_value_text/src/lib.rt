//! What a run over values shows, written.
#![tactic(auto)]

mod printing;

pub use printing::put_values;
