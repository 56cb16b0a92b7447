//! Numbers and sets as fields.

ghost use Rattle.std.specs.Prelude.{◌≡◌, ℕ, ◌^◌, ◌<◌, ◌≤◌, IsTrue, ◌↔◌, codes};
ghost use Rattle.std.specs.Fmt.{decimal};
ghost use Rattle.cw_core.specs.StateSet.{IsBelow};
ghost use Rattle.cw_core.specs.Numerals.{hexadecimal};
ghost use Rattle.cw_core.specs.Ranges.{set_spelling};
ghost use Rattle.cw_text.specs.Lines.{set_text, IsSetIn, Reads};

use cw_core::limits::PRODUCT_STATES;
use cw_core::{StateSet, read_dec, read_hex, read_ranges};

/// The number whose decimal, without leading zeros, a field is; none where it is that of none up to `most`.
pub fn number_of(field: &[u8], most: u64) -> Option<u64>
    ensures { Reads (λ number. number ≤ most) decimal field.now result }
{
    let (number, after) = read_dec(field, 0)?;
    if after < field.len() || number > most {
        return None;
    }
    Some(number)
}

/// The set that a field spells in a text of this format; none where it spells none.
pub fn set_of(field: &[u8], format: u8) -> Option<StateSet>
    ensures { Reads (IsSetIn format) (set_text format) field.now result }
{
    if format == 2 {
        spelled_of(field)
    } else {
        mask_of(field)
    }
}

/// The set of numbers below 1,024 that a field spells in format 2. The empty set, which most rows have, is told at once.
fn spelled_of(field: &[u8]) -> Option<StateSet>
    ensures { Reads (IsBelow 1024) set_spelling field.now result }
{
    if is_no_member(field) {
        return Some(StateSet::empty());
    }
    ranges_of(field)
}

/// Whether a field is how the empty set is spelled.
fn is_no_member(field: &[u8]) -> bool
    ensures { IsTrue result ↔ (field.now ≡ codes "0x0") }
{
    field == b"0x0".as_slice()
}

/// The set of numbers below 1,024 that a field spells as ranges or as hexadecimal, whichever is due.
fn ranges_of(field: &[u8]) -> Option<StateSet>
    ensures { Reads (IsBelow 1024) set_spelling field.now result }
{
    let (set, after) = read_ranges(field, 0)?;
    if after < field.len() {
        return None;
    }
    Some(set)
}

/// The set of numbers below 512 that a field spells as hexadecimal.
fn mask_of(field: &[u8]) -> Option<StateSet>
    ensures { Reads (IsBelow 512) hexadecimal field.now result }
{
    let (set, after) = read_hex(field, 0)?;
    if after < field.len() || !is_below_512(&set) {
        return None;
    }
    Some(set)
}

/// Whether a set has numbers below 512 alone.
fn is_below_512(set: &StateSet) -> bool
    ensures { IsTrue result ↔ IsBelow 512 set.now }
{
    set.is_subset(&StateSet::empty().complement_in(PRODUCT_STATES as u16))
}
