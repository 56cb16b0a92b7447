//! The strategy by least heights of a game.
#![tactic(auto)]

mod acts;
mod aims;
pub mod certificate;
mod contexts;
mod heights;
pub mod key;
pub mod laws;
mod named;
mod rows;
mod search;
mod strategy;
pub mod table;

pub use cw_solve::TableFault;
pub use key::{Key, Way};
pub use strategy::{LeastRow, LeastStrategy};
pub use table::{env_table, least_strategy};
