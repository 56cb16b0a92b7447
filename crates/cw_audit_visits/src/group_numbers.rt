//! The numbers of groups, as rows have them.

ghost use Rattle.std.specs.Prelude.{◌≡◌};
ghost use Rattle.cw_audit_visits.specs.GroupNumbers.{group_of, number_of, short};

use crate::under_way::Search;
use cw_audit_store::Entrance;

/// The greatest number of 32 bits.
const LONGEST: usize = 4_294_967_295;

/// The number of a group, as its rows have it. Past 32 bits it is another, which is no group's own.
pub(crate) fn short(number: usize) -> u32
    ensures { result ≡ short number }
{
    number.min(LONGEST) as u32
}

/// The number that the entrance's group has, or will have.
pub(crate) fn number_of(search: &Search, entrance: Entrance) -> u32
    ensures { result ≡ number_of search.now.store entrance }
{
    match search.store.group_number(entrance) {
        Some(number) => short(number),
        None => short(search.store.group_count()),
    }
}

/// The number of the group of the row with the first of these numbers, or 0.
pub(crate) fn group_of(search: &Search, numbers: &[usize]) -> u32
    ensures { result ≡ group_of search.now.store numbers.now }
{
    let Some(first) = numbers.first() else {
        return 0;
    };
    match search.store.numbered(*first) {
        Some((_row_key, row)) => row.group,
        None => 0,
    }
}
