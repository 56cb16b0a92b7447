//! What a solver keeps by index: lists of cells that are linked, rows of values one behind the other, cells in buckets by height, elements
//! that wait under keys, flags of indices with how many come before an index, and keys of cells and of the few indices that are links.
#![tactic(auto)]

mod buckets;
mod callers;
mod cells;
mod chains;
mod flags;
mod keys;
mod later;
mod links;
mod low;
mod marks;
mod nearest;
mod popped;
mod queue;
mod ranked_flags;
mod rows;
mod store;
mod trails;

pub use buckets::Buckets;
pub use chains::Chains;
pub use flags::Flags;
pub use nearest::NearQueue;
pub use popped::Popped;
pub use queue::Queue;
pub use ranked_flags::RankedFlags;
pub use rows::Rows;
pub use store::{Link, Store};
pub use trails::Trails;
