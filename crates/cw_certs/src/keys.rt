//! Rows by their key, in a list that ascends strictly by it.

ghost use Rattle.std.specs.Prelude.{◌≡◌, MatchBool, find};
ghost use Rattle.std.specs.List.Sorted.{IsStrictlySortedBy};
ghost use Rattle.std.specs.Ordering.{is_eq, is_lt, on};

use std::cmp::Ordering;

/// A row of a list, with the key by which the list ascends: pairs within pairs, whose derived order is that of the lists by computation.
pub trait Keyed: Copy {
    type Key: Ord + Drop;

    ghost key_of: { Self → Self.Key };

    /// The key.
    fn key(&self) -> Self::Key
        ensures { result ≡ key_of self.now };
}

/// Whether a row's key is below that of another.
pub fn is_below<R: Keyed>(row: &R, other: &R) -> bool
    ensures { result ≡ is_lt (R.Key.cmp (R.key_of row.now) (R.key_of other.now)) }
{
    row.key().cmp(&other.key()) == Ordering::Less
}

/// Whether each row's key is below that of the next.
pub(crate) fn ascends<R: Keyed>(rows: &[R]) -> bool
    ensures { MatchBool result (IsStrictlySortedBy (on R.key_of R.Key.cmp) rows.now) (IsStrictlySortedBy (on R.key_of R.Key.cmp) rows.now → ⊥) }
{
    for i in 1..rows.len() {
        if !is_below(&rows[i - 1], &rows[i]) {
            return false;
        }
    }
    true
}

/// The first row with a key.
pub(crate) fn row_at<R: Keyed>(rows: &[R], key: &R::Key) -> Option<R>
    requires ascend { IsStrictlySortedBy (on R.key_of R.Key.cmp) rows.now }
    ensures { result ≡ find (λ r. is_eq (R.Key.cmp (R.key_of r) key.now)) rows.now }
{
    match rows.binary_search_by_key(key, |row| row.key()) {
        Ok(index) => Some(rows[index]),
        Err(_) => None,
    }
}
