//! What every crate of CapWeave stands on: numbers of places, points and states, sets of states, numbers
//! and sets as text, a buffer of fixed size for pieces of text, and the quantities that have a limit.
#![tactic(auto)]

mod decimal;
mod hexadecimal;
mod ids;
mod laws;
pub mod limits;
mod line;
mod memory;
mod quantity;
mod ranges;
mod reading_ranges;
mod state_set;

pub use decimal::{put_dec, read_dec};
pub use hexadecimal::{put_hex, read_hex};
pub use ids::{MemId, PointId, PosId, SeamId, StateId};
pub use laws::{
    decimal_is_read_back, one_set_is_spelled, runs_are_maximal, set_is_read_back,
    spelling_is_read_back,
};
pub use line::Line;
pub use memory::NoMemory;
pub use quantity::Quantity;
pub use ranges::{mask_length, put_ranges};
pub use reading_ranges::read_ranges;
pub use state_set::StateSet;
