//! Numbers as decimal text.

ghost use Rattle.std.specs.Prelude.{◌≡◌, ◌≢◌, ℕ, ◌+◌, ◌*◌, ◌-◌, ◌^◌, ◌<◌, ◌≤◌, ◌↔◌, ◌++◌, length, drop, IsNone, IfSome, IfNone, OnOk, OnErr, Some};
ghost use Rattle.std.specs.Char.{digit_value, is_ascii_digit};
ghost use Rattle.std.specs.Fmt.{decimal};
ghost use Rattle.std.specs.List.{prefix_len, take_while};
ghost use Rattle.std.specs.Str.Parse.{AllDigits, digits_value};
ghost use Rattle.cw_core.specs.Numerals.{IsDecimalAt};

use crate::memory::NoMemory;
use itoa::Buffer;

/// Appends the decimal of a number, without leading zeros. Where the text can't grow, it is as before.
pub fn put_dec(n: u64, text: &mut Vec<u8>) -> Result<(), NoMemory>
    ensures ok { OnOk result (text.new.items ≡ text.old.items ++ decimal n) }
    ensures err { OnErr result (text.new.items ≡ text.old.items) }
{
    let mut digits = Buffer::new();
    text.extend_from_slice(digits.format(n).as_bytes())?;
    Ok(())
}

/// The number whose decimal is the longest run of digits at a place, and the index after it. There is
/// none where that run is empty, begins with a needless zero or is of a number of 2 to the power 64 or more.
pub fn read_dec(text: &[u8], at: usize) -> Option<(u64, usize)>
    requires in_range { at ≤ length text.now }
    ensures some { IfSome result (λ (number, end).
        IsDecimalAt text.now at number × (end ≡ at + length (decimal number))) }
    ensures found { (number : ℕ) → IsDecimalAt text.now at number
        → result ≡ Some (number, at + length (decimal number)) }
    ensures within { IfSome result (λ (number, end). (at < end) × (end ≤ length text.now)) }
    ensures none { IsNone result ↔ ((number : ℕ) → ¬ (IsDecimalAt text.now at number)) }
{
    let digits = leading_digits(text_from(text, at));
    let number = decimal_value(digits)?;
    Some((number, at + digits.len()))
}

/// The text from an index on.
pub(crate) fn text_from(text: &[u8], at: usize) -> &[u8]
    requires in_range { at ≤ length text.now }
    ensures rest { result.now ≡ drop at text.now }
    ensures length { at + length result.now ≡ length text.now }
{
    &text[at..]
}

/// The longest run of digits at the front.
fn leading_digits(text: &[u8]) -> &[u8]
    ensures run { result.now ≡ take_while is_ascii_digit text.now }
    ensures within { length result.now ≤ length text.now }
{
    &text[..digit_count(text)]
}

/// The length of the longest run of digits at the front.
fn digit_count(text: &[u8]) -> usize
    ensures count { result ≡ prefix_len is_ascii_digit text.now }
    ensures within { result ≤ length text.now }
{
    text.iter()
        .take_while(|b| **b >= b'0' && **b <= b'9')
        .count()
}

/// The number below 2 to the power 64 of which these digits are the decimal.
fn decimal_value(digits: &[u8]) -> Option<u64>
    requires digits { AllDigits 10 digits.now }
    ensures some { IfSome result (λ number. (decimal number ≡ digits.now) × (number < 2 ^ 64)) }
    ensures none { IfNone result ((number : ℕ) → number < 2 ^ 64 → decimal number ≢ digits.now) }
{
    if digits.is_empty() {
        return None;
    }
    if digits[0] == b'0' && digits.len() > 1 {
        return None;
    }
    value_of(digits)
}

/// The value of digits, where 64 bits hold it.
fn value_of(digits: &[u8]) -> Option<u64>
    requires digits { AllDigits 10 digits.now }
    ensures some { IfSome result (λ number. (number ≡ digits_value 10 digits.now) × (number < 2 ^ 64)) }
    ensures none { IfNone result (2 ^ 64 ≤ digits_value 10 digits.now) }
{
    let mut number = 0;
    for digit in digits {
        number = with_digit(number, *digit)?;
    }
    Some(number)
}

/// The number with one digit more at its end, where 64 bits hold it.
fn with_digit(number: u64, digit: u8) -> Option<u64>
    requires digit { digit_value digit < 10 }
    ensures some { IfSome result (λ more. (more ≡ number * 10 + digit_value digit) × (more < 2 ^ 64)) }
    ensures none { IfNone result (2 ^ 64 ≤ number * 10 + digit_value digit) }
{
    number.checked_mul(10)?.checked_add(u64::from(digit - b'0'))
}
