//! The data of both answers: the table of a woven program, and the strategy of its environment; look-ups in the lists of a table by their
//! keys.
#![tactic(auto)]

mod keys;
mod live;
mod lookups;
mod moves;
mod rows;
mod strategy;
mod table;

pub use keys::{Keyed, is_below};
pub use live::{is_live, live_at};
pub use lookups::{after_close, after_label, back_at, into_at, open_at, try_at};
pub use moves::Move;
pub use rows::{AtRow, BackRow, IntoRow, OpenRow, TryRow};
pub use strategy::{EnvCert, EnvRow, How};
pub use table::WeaverCert;
