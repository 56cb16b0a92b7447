//! Characters and strings, and the values of characters.

ghost use Rattle.std.specs.Prelude.{◌≡◌, ◌+◌, ◌^◌, ◌<◌, ◌≤◌, length, take, drop, IfSome};
ghost use Rattle.std.specs.List.{prefix_len, take_while};
ghost use Rattle.cw_lex.specs.Bytes.{is_octal_digit, is_hexadecimal_digit};
ghost use Rattle.cw_lex.specs.Characters.{simple_escape, longer, spelled, escape_at, item_at, closed, character_len, text_len, character_of};

use crate::bytes::{is_hexadecimal_digit, is_octal_digit, tail};
use crate::numbers::value;

/// The value of the escape with this letter, if there is one (ISO C11, 6.4.4.4).
#[tactic(auto, unfolding(crate::specs::Characters::simple_escape))]
fn simple_escape(byte: u8) -> Option<u8>
    ensures { result ≡ simple_escape byte }
{
    match byte {
        b'\'' => Some(39),
        b'"' => Some(34),
        b'?' => Some(63),
        b'\\' => Some(92),
        b'a' => Some(7),
        b'b' => Some(8),
        b'f' => Some(12),
        b'n' => Some(10),
        b'r' => Some(13),
        b't' => Some(9),
        b'v' => Some(11),
        _ => None,
    }
}

/// The bytes at the front, at most so many.
fn front(bytes: &[u8], most: usize) -> &[u8]
    ensures front { result.now ≡ take most bytes.now }
    ensures few { length result.now ≤ most }
    ensures within { length result.now ≤ length bytes.now }
{
    if most < bytes.len() {
        &bytes[..most]
    } else {
        bytes
    }
}

/// How many octal digits stand in front.
fn octal_run(bytes: &[u8]) -> usize
    ensures value { result ≡ prefix_len is_octal_digit bytes.now }
    ensures within { result ≤ length bytes.now }
{
    bytes.iter().take_while(|b| is_octal_digit(**b)).count()
}

/// How many hexadecimal digits stand in front.
fn hexadecimal_run(bytes: &[u8]) -> usize
    ensures value { result ≡ prefix_len is_hexadecimal_digit bytes.now }
    ensures within { result ≤ length bytes.now }
{
    bytes
        .iter()
        .take_while(|b| is_hexadecimal_digit(**b))
        .count()
}

/// The octal digits at the front, at most three.
fn octal_digits(bytes: &[u8]) -> &[u8]
    ensures digits { result.now ≡ take_while is_octal_digit (take 3 bytes.now) }
    ensures few { length result.now ≤ 3 }
    ensures within { length result.now ≤ length bytes.now }
{
    let bytes = front(bytes, 3);
    &bytes[..octal_run(bytes)]
}

/// The hexadecimal digits at the front, at most two.
fn hexadecimal_digits(bytes: &[u8]) -> &[u8]
    ensures digits { result.now ≡ take_while is_hexadecimal_digit (take 2 bytes.now) }
    ensures few { length result.now ≤ 2 }
    ensures within { length result.now ≤ length bytes.now }
{
    let bytes = front(bytes, 2);
    &bytes[..hexadecimal_run(bytes)]
}

/// The value of the digits of an escape, where a byte holds it, and how many they are.
fn spelled(base: u64, digits: &[u8]) -> Option<(u8, usize)>
    requires { 0 < base }
    ensures value { result ≡ spelled base digits.now }
    ensures within { IfSome result (λ x. (0 < x.1) × (x.1 ≤ length digits.now)) }
{
    if digits.is_empty() {
        return None;
    }
    match value(base, digits) {
        Some(value) if value <= 255 => Some((value as u8, digits.len())),
        _ => None,
    }
}

/// The same value, spelled by one byte more.
fn longer(spelled: Option<(u8, usize)>) -> Option<(u8, usize)>
    requires short { IfSome spelled (λ x. x.1 < 2 ^ 32) }
    ensures { result ≡ longer 1 spelled }
{
    let (value, length) = spelled?;
    Some((value, length + 1))
}

/// What stands behind a backslash: its value, and how many bytes spell it.
#[inline(never)]
#[tactic(auto, unfolding(crate::specs::Characters::escape_at))]
fn escape(bytes: &[u8]) -> Option<(u8, usize)>
    ensures value { result ≡ escape_at bytes.now }
    ensures few { IfSome result (λ x. x.1 ≤ 3) }
    ensures within { IfSome result (λ x. (0 < x.1) × (x.1 ≤ length bytes.now)) }
{
    let [first, rest @ ..] = bytes else {
        return None;
    };
    if is_octal_digit(*first) {
        spelled(8, octal_digits(bytes))
    } else if *first == b'x' {
        longer(spelled(16, hexadecimal_digits(rest)))
    } else {
        match simple_escape(*first) {
            Some(value) => Some((value, 1)),
            None => None,
        }
    }
}

/// The item at the front of a character or string between such quotes: its value, and how many bytes spell it.
#[inline(always)]
#[tactic(auto, unfolding(crate::specs::Characters::item_at))]
fn item(quote: u8, bytes: &[u8]) -> Option<(u8, usize)>
    ensures value { result ≡ item_at quote bytes.now }
    ensures within { IfSome result (λ x. (0 < x.1) × (x.1 ≤ length bytes.now)) }
{
    let [first, rest @ ..] = bytes else {
        return None;
    };
    if *first == quote || *first == b'\n' {
        None
    } else if *first == b'\\' {
        longer(escape(rest))
    } else {
        Some((*first, 1))
    }
}

/// How many bytes there are from behind the quote of a character up to and with the one that closes it.
#[tactic(auto, unfolding(crate::specs::Characters::character_len))]
#[inline(never)]
pub(crate) fn character_length(bytes: &[u8]) -> Option<usize>
    ensures value { result ≡ character_len bytes.now }
    ensures within { IfSome result (λ n. n ≤ length bytes.now) }
{
    let (_, length) = item(b'\'', bytes)?;
    if tail(bytes, length).starts_with(b"'") {
        Some(length + 1)
    } else {
        None
    }
}

/// The item of a string at an index.
#[inline(always)]
fn item_from(bytes: &[u8], at: usize) -> Option<(u8, usize)>
    requires { at ≤ length bytes.now }
    ensures value { result ≡ item_at 34 (drop at bytes.now) }
    ensures within { IfSome result (λ x. (0 < x.1) × (at + x.1 ≤ length bytes.now)) }
{
    item(b'"', tail(bytes, at))
}

/// How many bytes there are from behind the quote of a string up to and with the one that closes it.
#[inline(never)]
pub(crate) fn text_length(bytes: &[u8]) -> Option<usize>
    ensures value { result ≡ text_len 0 bytes.now }
    ensures within { IfSome result (λ n. n ≤ length bytes.now) }
{
    let mut at = 0;
    'items: while at < bytes.len() {
        if bytes[at] == b'"' {
            return Some(at + 1);
        }
        let (_, length) = item_from(bytes, at)?;
        at += length;
    }
    None
}

/// The bytes behind the first.
fn behind_first(text: &[u8]) -> &[u8]
    ensures { result.now ≡ drop 1 text.now }
{
    match text {
        [] => text,
        [_, rest @ ..] => rest,
    }
}

/// The byte that a character's text stands for. The text has the quotes.
///
/// Public source: ISO/IEC 9899:2011, 6.4.4.4.
#[tactic(auto, unfolding(crate::specs::Characters::character_of))]
pub fn character_value(text: &[u8]) -> u8
    ensures { result ≡ character_of text.now }
{
    match item(b'\'', behind_first(text)) {
        Some((value, _)) => value,
        None => 0,
    }
}
