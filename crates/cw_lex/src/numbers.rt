//! Numbers and their values.

ghost use Rattle.std.specs.Prelude.{◌≡◌, ◌+◌, ◌*◌, ◌^◌, ◌<◌, ◌≤◌, length, true, nat_lt, IfSome, IfNone};
ghost use Rattle.std.specs.Char.{digit_value};
ghost use Rattle.std.specs.List.{prefix_len, list_all};
ghost use Rattle.std.specs.Str.Parse.{digits_value};
ghost use Rattle.cw_lex.specs.Bytes.{is_digit, is_hexadecimal_digit};
ghost use Rattle.cw_lex.specs.Numbers.{is_hexadecimal, base_of, body_of, digit_count, digits_of, suffix_of, is_suffix, number_of, is_number};

use crate::bytes::{is_digit, is_hexadecimal_digit, tail};

/// Whether a number begins with `0x`; `0X` isn't taken.
fn is_hexadecimal(text: &[u8]) -> bool
    ensures value { result ≡ is_hexadecimal text.now }
    ensures long { result ≡ true → 2 ≤ length text.now }
{
    match text {
        [b'0', b'x', ..] => true,
        _ => false,
    }
}

/// The base of a number: 16, 8 behind a `0`, or 10 (ISO C11, 6.4.4.1).
fn base(text: &[u8]) -> u64
    ensures value { result ≡ base_of text.now }
    ensures within { (2 ≤ result) × (result ≤ 16) }
{
    match text {
        [b'0', b'x', ..] => 16,
        [b'0', ..] => 8,
        _ => 10,
    }
}

/// A number without its `0x`.
fn body(text: &[u8]) -> &[u8]
    ensures { result.now ≡ body_of text.now }
{
    if is_hexadecimal(text) {
        tail(text, 2)
    } else {
        text
    }
}

/// How many decimal digits stand in front.
fn decimal_run(text: &[u8]) -> usize
    ensures value { result ≡ prefix_len is_digit text.now }
    ensures within { result ≤ length text.now }
{
    text.iter().take_while(|b| is_digit(**b)).count()
}

/// How many hexadecimal digits stand in front.
fn hexadecimal_run(text: &[u8]) -> usize
    ensures value { result ≡ prefix_len is_hexadecimal_digit text.now }
    ensures within { result ≤ length text.now }
{
    text.iter()
        .take_while(|b| is_hexadecimal_digit(**b))
        .count()
}

/// How many digits a number has in front of its suffix, behind its `0x`.
fn digit_count(text: &[u8]) -> usize
    ensures value { result ≡ digit_count text.now }
    ensures within { result ≤ length (body_of text.now) }
{
    if is_hexadecimal(text) {
        hexadecimal_run(tail(text, 2))
    } else {
        decimal_run(text)
    }
}

/// The digits of a number, and what follows them.
#[tactic(auto, unfolding(crate::specs::Numbers::digits_of, crate::specs::Numbers::suffix_of))]
fn parts(text: &[u8]) -> (&[u8], &[u8])
    ensures digits { result.0.now ≡ digits_of text.now }
    ensures suffix { result.1.now ≡ suffix_of text.now }
{
    let body = body(text);
    let count = digit_count(text);
    (&body[..count], tail(body, count))
}

/// Whether this is the suffix of a number, or nothing: `u`, `l` and `ll`, in either order and case (ISO C11, 6.4.4.1).
fn is_suffix(text: &[u8]) -> bool
    ensures { result ≡ is_suffix text.now }
{
    match text {
        b""
        | b"u"
        | b"U"
        | b"l"
        | b"L"
        | b"ll"
        | b"LL"
        | b"ul"
        | b"uL"
        | b"ull"
        | b"uLL"
        | b"Ul"
        | b"UL"
        | b"Ull"
        | b"ULL"
        | b"lu"
        | b"lU"
        | b"llu"
        | b"llU"
        | b"Lu"
        | b"LU"
        | b"LLu"
        | b"LLU" => true,
        _ => false,
    }
}

/// The value of a digit, and 36 of a byte that is none.
pub(crate) fn digit(byte: u8) -> u64
    ensures { result ≡ digit_value byte }
{
    if byte < 48 {
        36
    } else if byte < 58 {
        u64::from(byte - 48)
    } else if byte < 65 {
        36
    } else if byte < 91 {
        u64::from(byte - 55)
    } else if byte < 97 {
        36
    } else if byte < 123 {
        u64::from(byte - 87)
    } else {
        36
    }
}

/// The number with one digit more at its end, where 64 bits hold it.
fn with_digit(base: u64, number: u64, byte: u8) -> Option<u64>
    ensures some { IfSome result (λ more. (more ≡ number * base + digit_value byte) × (more < 2 ^ 64)) }
    ensures none { IfNone result (2 ^ 64 ≤ number * base + digit_value byte) }
{
    number.checked_mul(base)?.checked_add(digit(byte))
}

/// The value of digits, where 64 bits hold it.
pub(crate) fn value(base: u64, digits: &[u8]) -> Option<u64>
    requires base { 0 < base }
    ensures some { IfSome result (λ number. (number ≡ digits_value base digits.now) × (number < 2 ^ 64)) }
    ensures none { IfNone result (2 ^ 64 ≤ digits_value base digits.now) }
{
    let mut number = 0;
    for digit in digits {
        number = with_digit(base, number, *digit)?;
    }
    Some(number)
}

/// Whether all digits are of this base: no 8 or 9 in an octal number.
fn are_of_base(base: u64, digits: &[u8]) -> bool
    ensures { result ≡ list_all (λ digit. nat_lt (digit_value digit) base) digits.now }
{
    digits.iter().all(|b| digit(*b) < base)
}

/// Whether a text is digits, one at least, of its base, and a suffix, of a value that 64 bits hold.
#[tactic(auto, unfolding(crate::specs::Numbers::is_number, crate::specs::Numbers::number_of))]
#[inline(never)]
fn has_parts(text: &[u8]) -> bool
    ensures { result ≡ is_number text.now }
{
    let base = base(text);
    let (digits, suffix) = parts(text);
    !digits.is_empty()
        && are_of_base(base, digits)
        && is_suffix(suffix)
        && value(base, digits).is_some()
}

/// Whether a text is a number: digits, one at least, of its base, and a suffix, of a value that 64 bits hold. Most are one digit.
#[inline(always)]
pub(crate) fn is_number(text: &[u8]) -> bool
    ensures { result ≡ is_number text.now }
{
    match text {
        [b'0'..=b'9'] => true,
        _ => has_parts(text),
    }
}

/// The value of the digits of a text.
#[tactic(auto, unfolding(crate::specs::Numbers::number_of))]
fn value_of_parts(text: &[u8]) -> u64
    requires small { number_of text.now < 2 ^ 64 }
    ensures { result ≡ number_of text.now }
{
    let (digits, _) = parts(text);
    value(base(text), digits).unwrap_or(0)
}

/// The value of a number's text, its suffix left out. The text begins with `0x` and is hexadecimal, or with another zero and is
/// octal, or is decimal.
///
/// Public source: ISO/IEC 9899:2011, 6.4.4.1.
pub fn number_value(text: &[u8]) -> u64
    requires small { number_of text.now < 2 ^ 64 }
    ensures { result ≡ number_of text.now }
{
    match text {
        [digit @ b'0'..=b'9'] => u64::from(*digit - b'0'),
        _ => value_of_parts(text),
    }
}
