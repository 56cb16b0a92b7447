//! What expressions and declarations of the C subset do, over numbers of 64 bits.
#![tactic(auto)]

mod declarations;
mod deeds;
mod expressions;
mod halt;
mod memory;
mod operations;
mod reads;
mod store;

pub use declarations::{declare, make_array, new_array, new_plain, sized};
pub use deeds::{Deed, Passing, Way, does};
pub use expressions::{arguments, value};
pub use halt::Halt;
pub use memory::{Memory, Target};
pub use reads::name_target;
pub use store::{Spot, Store};
