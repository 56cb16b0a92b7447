//! Keys of the rows of one list.

ghost use Rattle.std.specs.Prelude.{◌≡◌};
ghost use Rattle.std.specs.Ordering.{on};
ghost use Rattle.cw_table_text.specs.Working.{is_above};

use cw_certs::{Keyed, is_below};

/// Whether the key of a row is above that of the last of a list, where it has one.
pub(crate) fn is_above<R: Keyed>(rows: &[R], row: &R) -> bool
    ensures { result ≡ is_above (on R.key_of R.Key.cmp) rows.now row.now }
{
    match rows.last() {
        None => true,
        Some(last) => is_below(last, row),
    }
}
