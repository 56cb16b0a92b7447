//! The parts of a text: identifiers of letters, digits and `_`, and signs.

ghost use Rattle.std.specs.Prelude.{◌≡◌, ◌+◌, ◌-◌, ◌<◌, ◌≤◌, true, false, length, take, drop, slice_index};
ghost use Rattle.std.specs.List.{list_all};
ghost use Rattle.cw_rights.specs.Valid.{is_name_byte};
ghost use Rattle.cw_regex.specs.Parts.{is_blank, sign_of, begins_identifier, ends_blank, parts, placed};
ghost use Rattle.cw_regex.specs.Faults.{colon_next};
ghost use Rattle.cw_regex.specs.Tokens.{IsToken, begins_colon};
ghost use Rattle.cw_regex.specs.Fronts.{IsFront};

use cw_rights::is_name_byte;

/// A byte that is no blank and in no identifier.
#[derive(Clone, Copy, Drop, PartialEq, Eq)]
pub enum Sign {
    Dot,
    ParenOpen,
    ParenClose,
    Bar,
    Star,
    Plus,
    Question,
    BracketOpen,
    BracketClose,
    Bang,
    Colon,
    Comma,
    Other,
}

/// A space or a tab.
fn is_blank(byte: u8) -> bool
    ensures { result ≡ is_blank byte }
{
    byte == b' ' || byte == b'\t'
}

/// The sign that a byte is, `Other` where it is none.
fn sign_of(byte: u8) -> Sign
    ensures { result ≡ sign_of byte }
{
    match byte {
        b'.' => Sign::Dot,
        b'(' => Sign::ParenOpen,
        b')' => Sign::ParenClose,
        b'|' => Sign::Bar,
        b'*' => Sign::Star,
        b'+' => Sign::Plus,
        b'?' => Sign::Question,
        b'[' => Sign::BracketOpen,
        b']' => Sign::BracketClose,
        b'!' => Sign::Bang,
        b':' => Sign::Colon,
        b',' => Sign::Comma,
        _ => Sign::Other,
    }
}

/// Where the identifier ends that begins there.
fn identifier_end(text: &[u8], at: usize) -> usize
    requires inside { at < length text.now }
    requires begins { is_name_byte (slice_index text.now at) ≡ true }
    ensures after { at < result }
    ensures within { result ≤ length text.now }
    ensures identifier { list_all is_name_byte (take (result - at) (drop at text.now)) ≡ true }
    ensures stop { begins_identifier (drop result text.now) ≡ false }
{
    for end in at + 1..text.len() {
        if !is_name_byte(text[end]) {
            return end;
        }
    }
    text.len()
}

/// What stands at a place of a text: a blank, an identifier up to a place, or a sign.
#[derive(Clone, Copy, Drop)]
pub enum Front {
    Blank,
    Identifier(usize),
    Sign(Sign),
}

/// What stands at a place.
pub fn front_at(text: &[u8], at: usize) -> Front
    requires { at < length text.now }
    ensures { IsFront text.now at result }
{
    let byte = text[at];
    if is_blank(byte) {
        return Front::Blank;
    }
    if is_name_byte(byte) {
        return Front::Identifier(identifier_end(text, at));
    }
    Front::Sign(sign_of(byte))
}

/// Whether the last byte of a text is a blank.
#[tactic(auto, using(crate::proofs::Runs::ends_last))]
pub fn ends_blank(text: &[u8]) -> bool
    ensures { result ≡ ends_blank text.now }
{
    if text.is_empty() {
        return false;
    }
    is_blank(text[text.len() - 1])
}

/// The next part of a text: an identifier from one place to another, or a sign up to a place.
#[derive(Clone, Copy, Drop)]
pub enum Token {
    End,
    Identifier { from: usize, to: usize },
    Sign { sign: Sign, to: usize },
}

/// The next part from a place on.
pub fn token_at(text: &[u8], at: usize) -> Token
    requires { at ≤ length text.now }
    ensures { IsToken text.now at result }
{
    for from in at..text.len() {
        match front_at(text, from) {
            Front::Blank => {}
            Front::Identifier(to) => return Token::Identifier { from, to },
            Front::Sign(sign) => return Token::Sign { sign, to: from + 1 },
        }
    }
    Token::End
}

/// Whether the next part is a colon.
pub fn colon_next(text: &[u8], at: usize) -> bool
    requires { at ≤ length text.now }
    ensures placed { result ≡ colon_next (placed at (drop at text.now)) }
    ensures part { result ≡ begins_colon (parts (drop at text.now)) }
{
    matches!(
        token_at(text, at),
        Token::Sign {
            sign: Sign::Colon,
            ..
        }
    )
}
