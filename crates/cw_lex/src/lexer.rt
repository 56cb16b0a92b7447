//! The tokens of a source.

ghost use Rattle.std.specs.Prelude.{◌≡◌, ◌+◌, ◌^◌, ◌<◌, ◌≤◌, ◌-◌, ◌⊎◌, ℕ, List, length, drop, IfOk, IfErr};
ghost use Rattle.cw_lex.specs.declared.lexer.LexFault.TheVariants.{NoMemory};
ghost use Rattle.cw_lex.specs.Punctuators.{HasNoMarker};
ghost use Rattle.cw_lex.specs.Fronts.{front_at};
ghost use Rattle.cw_lex.specs.Fresh.{fresh_from};
ghost use Rattle.cw_lex.specs.Tokens.{AreMadeOf, AreTokens, fault_at, IsFault};
ghost use Rattle.cw_lex.specs.Fronts.{IsWithin};
ghost use Rattle.cw_lex.specs.Listed.{IsTokenOf};
ghost use Rattle.cw_lex.specs.declared.tokens.Token.{Token};

use crate::bytes::tail;
use crate::front::{Defect, Front, front_of};
use crate::punctuators::first_marker;
use crate::tokens::Token;
use cw_core::limits::SOURCE_BYTES;
use std::alloc::{AllocError, AllocFailed, Global};
use thiserror::Error;

/// Why a source has no tokens. Places are counted in bytes from the front of the source.
#[derive(Debug, Drop, Error)]
pub enum LexFault {
    /// A byte that is in no token and no white space.
    #[error("bad byte at {0}")]
    BadByte(u32),
    /// A comment that isn't closed.
    #[error("open comment at {0}")]
    OpenComment(u32),
    /// A character or a string that isn't closed, or has an item that is none.
    #[error("open string at {0}")]
    OpenString(u32),
    /// A number that isn't spelled as one, or is too large.
    #[error("number at {0}")]
    Number(u32),
    /// A directive that isn't `#include`.
    #[error("directive at {0}")]
    Directive(u32),
    /// `cw{*` or `*}cw`.
    #[error("marker at {0}")]
    Marker(u32),
    #[error("no memory is left")]
    NoMemory,
}

impl From<AllocError> for LexFault {
    ghost from_gives = { λ _ fault. fault ≡ NoMemory };

    fn from(_refused: AllocError) -> LexFault {
        LexFault::NoMemory
    }
}

impl<T: Drop> From<AllocFailed<T>> for LexFault {
    ghost from_gives = { λ _ fault. fault ≡ NoMemory };

    fn from(_refused: AllocFailed<T>) -> LexFault {
        LexFault::NoMemory
    }
}

/// The fault for what is wrong at this place, in bytes from 0.
fn fault_at(defect: Defect, at: u32) -> LexFault
    ensures { result ≡ fault_at defect at }
{
    match defect {
        Defect::BadByte => LexFault::BadByte(at),
        Defect::OpenComment => LexFault::OpenComment(at),
        Defect::OpenString => LexFault::OpenString(at),
        Defect::Number => LexFault::Number(at),
        Defect::Directive => LexFault::Directive(at),
    }
}

/// The front at an index, given where the last token ends, and 0 where there is none.
#[inline(always)]
fn front_from(source: &[u8], last: usize, at: usize) -> Front
    requires short { length source.now ≤ SOURCE_BYTES }
    requires in_order { last ≤ at }
    requires in_range { at < length source.now }
    ensures value { result ≡ front_at (fresh_from last at source.now) (drop at source.now) }
    ensures within { IsWithin (length source.now - at) result }
{
    front_of(
        &tail(source, last)[..at - last],
        last == 0,
        tail(source, at),
    )
}

/// What each token of a source is made into as it is read, so that no list of tokens stands beside the list of what they are made into.
pub trait OfToken: Copy + Drop {
    /// What a token of a source is made into.
    ghost made: { List ℕ → Token → Self };

    /// Makes a token of a source into it.
    fn of(source: &[u8], token: Token) -> Self
        requires token { IsTokenOf source.now token }
        ensures { result ≡ made source.now token };
}

impl OfToken for Token {
    ghost made = { λ _ token. token };

    #[inline(always)]
    fn of(_source: &[u8], token: Token) -> Token {
        token
    }
}

/// What the tokens of a source of at most 262,144 bytes without markers are made into, or what is wrong first.
#[inline(never)]
fn read<T: OfToken>(alloc: Global, source: &[u8]) -> Result<Vec<T>, LexFault>
    requires short { length source.now ≤ SOURCE_BYTES }
    requires unmarked { HasNoMarker source.now }
    ensures tokens { IfOk result (λ v. AreMadeOf (T.made source.now) source.now v.items) }
    ensures fault { IfErr result (λ f. (f ≡ NoMemory) ⊎ IsFault source.now f) }
{
    // No token is shorter than a byte, and room that isn't written to is no memory in use.
    let mut tokens = Vec::with_capacity(alloc, source.len())?;
    let mut at: usize = 0;
    let mut last: usize = 0;
    'fronts: while at < source.len() {
        match front_from(source, last, at) {
            Front::Gap(n) => at += n,
            Front::Token(kind, n) => {
                let token = Token {
                    kind,
                    from: at as u32,
                    to: (at + n) as u32,
                };
                tokens.push_reserved(T::of(source, token));
                at += n;
                last = at;
            }
            Front::Fault(defect) => return Err(fault_at(defect, at as u32)),
        }
    }
    Ok(tokens)
}

/// What the tokens of a source of at most 262,144 bytes are made into, each as it is read, in their order.
///
/// Refused is what [`lex`] refuses.
pub fn lex_as<T: OfToken>(alloc: Global, source: &[u8]) -> Result<Vec<T>, LexFault>
    requires short { length source.now ≤ SOURCE_BYTES }
    ensures tokens { IfOk result (λ v. AreMadeOf (T.made source.now) source.now v.items) }
    ensures fault { IfErr result (λ f. (f ≡ NoMemory) ⊎ IsFault source.now f) }
{
    match first_marker(source) {
        Some(at) => Err(LexFault::Marker(at as u32)),
        None => read(alloc, source),
    }
}

/// The tokens of a source of at most 262,144 bytes, in order: all of it but white space, comments and include lines, each token the
/// longest that stands at its place.
///
/// Refused are first of all markers, `cw{*` and `*}cw`, wherever they stand: the fault names the least place where one begins. Where
/// there is none, the fault is the one at the least place.
pub fn lex(alloc: Global, source: &[u8]) -> Result<Vec<Token>, LexFault>
    requires short { length source.now ≤ SOURCE_BYTES }
    ensures tokens { IfOk result (λ v. AreTokens source.now v.items) }
    ensures fault { IfErr result (λ f. (f ≡ NoMemory) ⊎ IsFault source.now f) }
{
    lex_as::<Token>(alloc, source)
}
