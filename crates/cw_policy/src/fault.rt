//! Why a text spells no policy.

use cw_core::Quantity;
use cw_regex::RegexFault;
use thiserror::Error;

/// A path in a policy's tree.
///
/// `array` is 0 for the root and 1 to 4 for the arrays `descriptor`, `limit`, `at` and `rule`, `index` the number of the
/// table in its array, from 0. `key` is the key's number in the list of its table's keys, from 1, and 0 for the table
/// itself. The root's list is `format`, `refusable`, `split`, `on_refusal`, `detached`, and then the arrays in their
/// order; it is one list for both formats. `item` is the number of the item of the key's array, from 1, and 0 for the
/// value itself.
#[derive(Clone, Copy, Debug, Drop, PartialEq, Eq)]
pub struct Path {
    pub array: u8,
    pub index: u32,
    pub key: u8,
    pub item: u32,
}

/// Why a text spells no policy.
#[derive(Debug, Drop, Error)]
pub enum PolicyFault {
    /// The text isn't UTF-8, or isn't TOML.
    #[error("the text isn't TOML")]
    Toml,
    /// A table lacks a key that it must have.
    #[error("a key is missing")]
    Missing(Path),
    /// A table has a key that isn't known, or a descriptor or a right is named that isn't known.
    #[error("a name isn't known")]
    Unknown(Path),
    /// A value has another form than its key says, or a test is none.
    #[error("a value has another form")]
    Kind(Path),
    /// The expression of the rule with this number is none, or names what isn't known.
    #[error("an expression is refused")]
    Regex(u32, RegexFault),
    /// A quantity is over its limit.
    #[error("a quantity is over its limit")]
    Limit(Quantity),
    /// A name stands twice.
    #[error("a name stands twice")]
    Twice(Path),
    #[error("no memory is left")]
    NoMemory,
}
