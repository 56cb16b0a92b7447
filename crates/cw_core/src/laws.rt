//! Laws of numbers and sets as text. The functions do nothing: their contracts are the laws.

ghost use Rattle.std.specs.Prelude.{◌≡◌, ℕ, ◌≤◌, ◌↔◌, ◌++◌, [], length, IsTrue};
ghost use Rattle.std.specs.Char.{is_ascii_digit};
ghost use Rattle.std.specs.Fmt.{decimal};
ghost use Rattle.std.specs.List.{take_while};
ghost use Rattle.cw_core.specs.Numerals.{hexadecimal, is_hexadecimal_digit, IsDecimalAt, IsSetAt};
ghost use Rattle.cw_core.specs.Ranges.{is_spelling_byte, members, runs_of, set_spelling, Ascend, IsIn, IsSpellingAt};
ghost use Rattle.cw_core.specs.StateSet.{has};

use crate::reading_ranges::read_ranges;
use crate::state_set::StateSet;

/// A number that was put stands in the text to be read, whatever is before it, where no digit follows.
pub fn decimal_is_read_back(number: u64, before: &[u8], after: &[u8])
    requires stops { take_while is_ascii_digit after.now ≡ [] }
    ensures stands { IsDecimalAt (before.now ++ (decimal number ++ after.now)) (length before.now) number }
{}

/// A set that was put stands in the text to be read, whatever is before it, where no digit follows.
pub fn set_is_read_back(set: &StateSet, before: &[u8], after: &[u8])
    requires stops { take_while is_hexadecimal_digit after.now ≡ [] }
    ensures stands { IsSetAt (before.now ++ (hexadecimal set.now ++ after.now)) (length before.now) set.now }
{
    set.fact_members_are_below_1024();
}

/// A set that was put as format 2 spells it stands in the text to be read, whatever is before it, where no
/// digit, letter, `+` or `-` follows.
pub fn spelling_is_read_back(set: &StateSet, before: &[u8], after: &[u8])
    requires stops { take_while is_spelling_byte after.now ≡ [] }
    ensures stands { IsSpellingAt (before.now ++ (set_spelling set.now ++ after.now)) (length before.now) set.now }
{
    set.fact_members_are_below_1024();
}

/// One set at most is spelled at a place.
pub fn one_set_is_spelled(text: &[u8], at: usize, set: &StateSet, other: &StateSet)
    requires in_range { at ≤ length text.now }
    requires set_stands { IsSpellingAt text.now at set.now }
    requires other_stands { IsSpellingAt text.now at other.now }
    ensures same { set.now ≡ other.now }
{
    let _ = read_ranges(text, at);
}

/// The runs that a set is spelled by are its maximal ones, in order: they ascend with a number at least
/// between two of them, and the numbers in them are the members.
pub fn runs_are_maximal(set: &StateSet)
    ensures ascend { Ascend 0 (runs_of (members set.now)) }
    ensures members { (s : ℕ) → IsTrue (has set.now s) ↔ IsIn s (runs_of (members set.now)) }
{
    set.fact_members_are_below_1024();
}
