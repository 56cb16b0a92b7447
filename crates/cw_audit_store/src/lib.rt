//! What a search for an audit has found so far: groups, rows and a violation, and what it visits next.
#![tactic(auto)]

mod frontier;
mod group_lists;
mod lists;
mod row_key;
mod store;
mod waiting;

pub use frontier::Frontier;
pub use group_lists::GroupLists;
pub use lists::Lists;
pub use row_key::{Entered, Entrance, Hit, Row, RowKey, Way};
pub use store::Store;
pub use waiting::Waiting;
