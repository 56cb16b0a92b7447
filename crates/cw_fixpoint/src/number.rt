//! The number of an item, by a binary search.

ghost use Rattle.std.specs.Prelude.{◌≡◌, ◌≤◌, length};
ghost use Rattle.std.specs.FinMap.{IsAntisymmetric};
ghost use Rattle.std.specs.List.Sorted.{IsStrictlySortedBy};
ghost use Rattle.cw_fixpoint.specs.Numbers.{number_in};

/// The index of an item in a list that ascends, and how many items there are where it is none of them.
pub fn number_of<T: Ord>(items: &[T], item: &T) -> usize
    requires exact { IsAntisymmetric T.cmp }
    requires order { IsStrictlySortedBy T.cmp items.now }
    ensures is { result ≡ number_in T.cmp items.now item.now }
    ensures within { result ≤ length items.now }
{
    match items.binary_search(item) {
        Ok(index) => index,
        Err(_) => items.len(),
    }
}
