//! What stands at the front of some bytes.

ghost use Rattle.std.specs.Prelude.{◌≡◌, ◌+◌, ◌^◌, ◌<◌, ◌≤◌, ◌==◌, true, length, IfSome};
ghost use Rattle.std.specs.List.{prefix_len, take_while, list_any};
ghost use Rattle.cw_lex.specs.declared.tokens.TokenKind.TheVariants as kind;
ghost use Rattle.cw_lex.specs.Characters.{character_len, text_len};
ghost use Rattle.cw_lex.specs.Punctuators.{punctuator_len};
ghost use Rattle.cw_lex.specs.Bytes.{is_white, is_blank, is_line_byte, is_name_byte, is_number_byte};
ghost use Rattle.cw_lex.specs.Fronts.{identifier, number, quoted, to_close, comment, is_include, line, directive, punctuator, front_at};
ghost use Rattle.cw_lex.specs.Fresh.{fresh_in};

use crate::bytes::{is_blank, is_letter, is_name_byte, is_number_byte, is_white, tail};
use crate::characters::{character_length, text_length};
use crate::keywords::is_keyword;
use crate::numbers::is_number;
use crate::punctuators::{first_place, punctuator_length};
use crate::tokens::TokenKind;
use memchr::memchr;

/// Why no token can be read.
#[derive(Clone, Copy, Drop)]
pub enum Defect {
    BadByte,
    OpenComment,
    OpenString,
    Number,
    Directive,
}

/// What stands at the front of some bytes, and how many of them it takes.
#[derive(Clone, Copy, Drop)]
pub enum Front {
    /// White space, a comment or an include line.
    Gap(usize),
    Token(TokenKind, usize),
    Fault(Defect),
}

/// How many bytes of white space stand in front.
fn white_run(bytes: &[u8]) -> usize
    ensures value { result ≡ prefix_len is_white bytes.now }
    ensures within { result ≤ length bytes.now }
{
    bytes.iter().take_while(|b| is_white(**b)).count()
}

/// Whether a byte behind the space stands in front: most white space is one byte.
#[inline(always)]
fn is_dark(bytes: &[u8]) -> bool
    ensures { (result ≡ true) → prefix_len is_white bytes.now ≡ 0 }
{
    match bytes {
        [first, ..] => *first > b' ',
        [] => false,
    }
}

/// The white space at the front, where the first byte has been looked at.
fn white_length(bytes: &[u8]) -> usize
    ensures value { result ≡ prefix_len is_white bytes.now }
    ensures within { result ≤ length bytes.now }
{
    match bytes {
        [first, rest @ ..] => {
            if !is_white(*first) {
                0
            } else if is_dark(rest) {
                1
            } else {
                1 + white_run(rest)
            }
        }
        [] => 0,
    }
}

/// How many spaces and tabs stand in front.
fn blank_length(bytes: &[u8]) -> usize
    ensures value { result ≡ prefix_len is_blank bytes.now }
    ensures within { result ≤ length bytes.now }
{
    bytes.iter().take_while(|b| is_blank(**b)).count()
}

/// How many bytes stand before the end of the line.
fn line_length(bytes: &[u8]) -> usize
    ensures value { result ≡ prefix_len is_line_byte bytes.now }
    ensures within { result ≤ length bytes.now }
{
    match memchr(b'\n', bytes) {
        None => bytes.len(),
        Some(at) => at,
    }
}

/// How many bytes of a name stand in front.
fn name_run(bytes: &[u8]) -> usize
    ensures value { result ≡ prefix_len is_name_byte bytes.now }
    ensures within { result ≤ length bytes.now }
{
    bytes.iter().take_while(|b| is_name_byte(**b)).count()
}

/// The same, with the first byte asked apart: most names are short.
fn name_length(bytes: &[u8]) -> usize
    ensures value { result ≡ prefix_len is_name_byte bytes.now }
    ensures within { result ≤ length bytes.now }
{
    match bytes {
        [first, rest @ ..] => {
            if is_name_byte(*first) {
                1 + name_run(rest)
            } else {
                0
            }
        }
        [] => 0,
    }
}

/// How many bytes of a number stand in front.
fn number_run(bytes: &[u8]) -> usize
    ensures value { result ≡ prefix_len is_number_byte bytes.now }
    ensures within { result ≤ length bytes.now }
{
    bytes.iter().take_while(|b| is_number_byte(**b)).count()
}

/// The same, with the first byte asked apart: most numbers are short.
fn number_length(bytes: &[u8]) -> usize
    ensures value { result ≡ prefix_len is_number_byte bytes.now }
    ensures within { result ≤ length bytes.now }
{
    match bytes {
        [first, rest @ ..] => {
            if is_number_byte(*first) {
                1 + number_run(rest)
            } else {
                0
            }
        }
        [] => 0,
    }
}

/// The identifier that stands in front.
#[inline(always)]
fn identifier_text(bytes: &[u8]) -> &[u8]
    ensures { result.now ≡ take_while is_name_byte bytes.now }
{
    &bytes[..name_length(bytes)]
}

/// The bytes in front that may be of a number.
#[inline(always)]
fn number_text(bytes: &[u8]) -> &[u8]
    ensures { result.now ≡ take_while is_number_byte bytes.now }
{
    &bytes[..number_length(bytes)]
}

/// A name or a keyword. Many names have one byte, and no keyword has.
#[tactic(auto, using(crate::proofs::ShortIdentifiers::short_identifier))]
#[inline(always)]
fn identifier(text: &[u8]) -> Front
    ensures { result ≡ identifier text.now }
{
    if text.len() > 1 && is_keyword(text) {
        Front::Token(TokenKind::Keyword, text.len())
    } else {
        Front::Token(TokenKind::Name, text.len())
    }
}

/// A name or a keyword, at the front of the bytes. One byte is a name, and most names have one.
#[inline(always)]
fn name(bytes: &[u8]) -> Front
    ensures { result ≡ identifier (take_while is_name_byte bytes.now) }
{
    match bytes {
        [first, next, ..] if is_letter(*first) && !is_name_byte(*next) => {
            Front::Token(TokenKind::Name, 1)
        }
        _ => identifier(identifier_text(bytes)),
    }
}

/// A number, if it is one of the subset with a value below 2^64.
#[inline(always)]
fn number(text: &[u8]) -> Front
    ensures { result ≡ number text.now }
{
    if is_number(text) {
        Front::Token(TokenKind::Number, text.len())
    } else {
        Front::Fault(Defect::Number)
    }
}

/// A character, whose opening quote was passed.
fn character(rest: &[u8]) -> Front
    requires { length rest.now < 2 ^ 32 }
    ensures { result ≡ quoted kind.Character (character_len rest.now) }
{
    match character_length(rest) {
        None => Front::Fault(Defect::OpenString),
        Some(n) => Front::Token(TokenKind::Character, n + 1),
    }
}

/// A string, whose opening quote was passed.
fn text(rest: &[u8]) -> Front
    requires { length rest.now < 2 ^ 32 }
    ensures { result ≡ quoted kind.Text (text_len 0 rest.now) }
{
    match text_length(rest) {
        None => Front::Fault(Defect::OpenString),
        Some(n) => Front::Token(TokenKind::Text, n + 1),
    }
}

/// How many bytes there are up to and with the first `*/`.
fn close_length(bytes: &[u8]) -> Option<usize>
    ensures value { result ≡ to_close bytes.now }
    ensures within { IfSome result (λ n. n ≤ length bytes.now) }
{
    match first_place(bytes, b"*/") {
        None => None,
        Some(at) => Some(at + 2),
    }
}

/// A comment, given what follows its first two bytes.
fn comment(rest: &[u8]) -> Front
    requires { length rest.now < 2 ^ 32 }
    ensures { result ≡ comment (to_close rest.now) }
{
    match close_length(rest) {
        None => Front::Fault(Defect::OpenComment),
        Some(n) => Front::Gap(n + 2),
    }
}

/// Whether `include` stands behind the `#`, blanks aside.
#[inline(never)]
fn is_include(bytes: &[u8]) -> bool
    ensures { result ≡ is_include bytes.now }
{
    identifier_text(tail(bytes, blank_length(bytes))) == b"include".as_slice()
}

/// A gap to the end of the line.
fn line(bytes: &[u8]) -> Front
    ensures { result ≡ line bytes.now }
{
    Front::Gap(line_length(bytes))
}

/// A `#`: at the start of a line that of an include, which is passed over; else a fault (ISO C11, 6.10).
fn directive(fresh: bool, bytes: &[u8]) -> Front
    requires { 1 ≤ length bytes.now }
    ensures { result ≡ directive fresh bytes.now }
{
    if !fresh {
        Front::Fault(Defect::BadByte)
    } else if is_include(tail(bytes, 1)) {
        line(bytes)
    } else {
        Front::Fault(Defect::Directive)
    }
}

// It stands in both of its callers' arms: a call would zero and copy its answer for each front.
#[inline(always)]
fn punctuator(bytes: &[u8]) -> Front
    ensures { result ≡ punctuator (punctuator_len bytes.now) }
{
    match punctuator_length(bytes) {
        0 => Front::Fault(Defect::BadByte),
        n => Front::Token(TokenKind::Punctuation, n),
    }
}

/// Whether no token stands on the line so far, given the bytes behind the last token, and whether there is none.
#[inline(never)]
#[tactic(auto, unfolding(crate::specs::Fresh::fresh_in))]
fn is_fresh(gap: &[u8], none_yet: bool) -> bool
    ensures { result ≡ fresh_in none_yet gap.now }
{
    none_yet || has_line_end(gap)
}

/// What stands at the front, given the bytes between the last token and it, and whether there is no token yet. Whether a token stands
/// before it on its line is asked where a `#` stands, and nowhere else.
#[inline(always)]
#[tactic(auto, unfolding(crate::specs::Fronts::front_at, crate::specs::Punctuators::punctuator_len))]
pub(crate) fn front_of(gap: &[u8], none_yet: bool, bytes: &[u8]) -> Front
    requires { length bytes.now < 2 ^ 32 }
    ensures { result ≡ front_at (fresh_in none_yet gap.now) bytes.now }
{
    let [first, ..] = bytes else {
        return Front::Gap(0);
    };
    // Neighbours among the bytes stand in different arms: a run of them is a range, and ranges are tested one by one where no single
    // byte fits.
    match *first {
        b' ' | b'\n' => Front::Gap(white_length(bytes)),
        b'(' | b'[' | b'{' | b';' => Front::Token(TokenKind::Punctuation, 1),
        b')' | b']' | b'}' | b',' => Front::Token(TokenKind::Punctuation, 1),
        b'=' | b'!' | b'*' | b'%' | b'^' => punctuator(bytes),
        b'<' | b'>' | b'&' | b'|' | b'+' | b'-' | b':' | b'~' => punctuator(bytes),
        b'0' | b'2' | b'4' | b'6' | b'8' => number(number_text(bytes)),
        b'1' | b'3' | b'5' | b'7' | b'9' => number(number_text(bytes)),
        b'\'' => character(tail(bytes, 1)),
        b'"' => text(tail(bytes, 1)),
        b'#' => directive(is_fresh(gap, none_yet), bytes),
        b'/' => match bytes {
            [_, b'*', inner @ ..] => comment(inner),
            [_, b'/', ..] => line(bytes),
            _ => punctuator(bytes),
        },
        other => {
            if is_letter(other) {
                name(bytes)
            } else if is_white(other) {
                Front::Gap(white_length(bytes))
            } else {
                punctuator(bytes)
            }
        }
    }
}

/// Whether a line feed is among the bytes.
fn has_line_end(bytes: &[u8]) -> bool
    ensures { result ≡ list_any (λ b. b == 10) bytes.now }
{
    memchr(b'\n', bytes).is_some()
}
