//! Sets of states as hexadecimal text.

ghost use Rattle.std.specs.Prelude.{◌≡◌, ◌≢◌, ℕ, ◌+◌, ◌<◌, ◌≤◌, ◌↔◌, ◌||◌, ◌==◌, ◌++◌, ◌∷◌, [], not, if◌then◌else◌, length, take, drop, codes, IsTrue, IsNone, IfSome, IfNone, IfOk, OnOk, OnErr, Some};
ghost use Rattle.std.specs.Char.{digit_char, digit_value};
ghost use Rattle.std.specs.List.{list_all, prefix_len, take_while};
ghost use Rattle.std.specs.Str.Parse.{digits_value};
ghost use Rattle.cw_core.specs.Numerals.{hexadecimal, hexadecimal_digits, is_hexadecimal_digit, IsSetAt};
ghost use Rattle.cw_core.specs.StateSet.{IsBelow};

use crate::decimal::text_from;
use crate::line::Line;
use crate::memory::NoMemory;
use crate::state_set::StateSet;

/// Appends `0x` and the shortest lower-case hexadecimal of a set's number. Where the text can't grow, it is
/// as before.
pub fn put_hex(set: &StateSet, text: &mut Vec<u8>) -> Result<(), NoMemory>
    ensures ok { OnOk result (text.new.items ≡ text.old.items ++ hexadecimal set.now) }
    ensures err { OnErr result (text.new.items ≡ text.old.items) }
{
    let mut mask = Line::new();
    mask.put_mask(set);
    text.extend_from_slice(mask.bytes())?;
    Ok(())
}

/// The set that is spelled at a place, `0x` and the longest run of lower-case hexadecimal digits after it,
/// and the index after the spelling. There is none where no `0x` stands there, and where that run is empty,
/// begins with a needless zero or has a number of 1,024 or more.
pub fn read_hex(text: &[u8], at: usize) -> Option<(StateSet, usize)>
    requires in_range { at ≤ length text.now }
    ensures some { IfSome result (λ (set, end).
        IsSetAt text.now at set × (end ≡ at + length (hexadecimal set))) }
    ensures found { (set : ℕ) → IsSetAt text.now at set
        → result ≡ Some (set, at + length (hexadecimal set)) }
    ensures within { IfSome result (λ (set, end). (at < end) × (end ≤ length text.now)) }
    ensures none { IsNone result ↔ ((set : ℕ) → ¬ (IsSetAt text.now at set)) }
{
    let digits = digits_at(text, at)?;
    let set = set_of(digits)?;
    Some((set, at + 2 + digits.len()))
}

/// The longest run of hexadecimal digits after `0x` at a place.
fn digits_at(text: &[u8], at: usize) -> Option<&[u8]>
    requires in_range { at ≤ length text.now }
    ensures prefix { IfSome result (λ _. take 2 (drop at text.now) ≡ codes "0x") }
    ensures run { IfSome result (λ digits.
        digits.now ≡ take_while is_hexadecimal_digit (drop (at + 2) text.now)) }
    ensures within { IfSome result (λ digits. at + 2 + length digits.now ≤ length text.now) }
    ensures none { IfNone result (take 2 (drop at text.now) ≢ codes "0x") }
{
    if !has_prefix(text_from(text, at)) {
        return None;
    }
    Some(leading_digits(text_from(text, at + 2)))
}

/// Whether the text begins with `0x`.
pub(crate) fn has_prefix(text: &[u8]) -> bool
    ensures prefix { IsTrue result ↔ (take 2 text.now ≡ codes "0x") }
    ensures within { IsTrue result → 2 ≤ length text.now }
{
    text.starts_with(b"0x")
}

/// The longest run of hexadecimal digits at the front.
fn leading_digits(text: &[u8]) -> &[u8]
    ensures run { result.now ≡ take_while is_hexadecimal_digit text.now }
    ensures within { length result.now ≤ length text.now }
{
    &text[..digit_count(text)]
}

/// The length of the longest run of hexadecimal digits at the front.
fn digit_count(text: &[u8]) -> usize
    ensures count { result ≡ prefix_len is_hexadecimal_digit text.now }
    ensures within { result ≤ length text.now }
{
    text.iter().take_while(|b| is_digit(**b)).count()
}

/// Whether the byte is '0' to '9' or 'a' to 'f'.
fn is_digit(byte: u8) -> bool
    ensures digit { result ≡ is_hexadecimal_digit byte }
{
    (byte >= b'0' && byte <= b'9') || (byte >= b'a' && byte <= b'f')
}

/// The set of which these digits are the shortest hexadecimal.
fn set_of(digits: &[u8]) -> Option<StateSet>
    requires digits { IsTrue (list_all is_hexadecimal_digit digits.now) }
    ensures some { IfSome result (λ set. (hexadecimal_digits set ≡ digits.now) × IsBelow 1024 set) }
    ensures none { IfNone result ((set : ℕ) → IsBelow 1024 set → hexadecimal_digits set ≢ digits.now) }
{
    if digits.is_empty() {
        return None;
    }
    if digits.len() > 256 {
        return None;
    }
    if digits[0] == b'0' && digits.len() > 1 {
        return None;
    }
    let set = sum_of(digits);
    set.fact_members_are_below_1024();
    Some(set)
}

/// The set whose number these digits are.
fn sum_of(digits: &[u8]) -> StateSet
    requires digits { IsTrue (list_all is_hexadecimal_digit digits.now) }
    requires few { length digits.now ≤ 256 }
    ensures sum { result ≡ digits_value 16 digits.now }
{
    let mut set = StateSet::empty();
    for index in 0..digits.len() {
        let digit = digits[digits.len() - 1 - index];
        set.add_nibble(index, value_of(digit));
    }
    set
}

/// The value of a digit.
fn value_of(digit: u8) -> u8
    requires digit { IsTrue (is_hexadecimal_digit digit) }
    ensures value { result ≡ digit_value digit }
    ensures small { result < 16 }
{
    if digit <= b'9' {
        digit - b'0'
    } else {
        digit - b'a' + 10
    }
}
