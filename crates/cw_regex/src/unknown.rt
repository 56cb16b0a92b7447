//! The names of a text that aren't known.

ghost use Rattle.std.specs.Prelude.{◌≡◌, ◌<◌, ◌≤◌, false, Some, length, drop, unwrap_or, None, IfOk, IfErr, IfSome, IfNone};
ghost use Rattle.cw_regex.specs.Parts.{placed};
ghost use Rattle.cw_regex.specs.Meaning.{is_right, names_of, number_in};
ghost use Rattle.cw_regex.specs.Faults.{is_known, unknown_identifier, first_unknown, place_of};

use crate::text::{Sign, Token, colon_next, token_at};
use cw_rights::{Descriptor, right_named};

/// A name that isn't known, by its place.
#[derive(Clone, Copy, Drop)]
pub enum Unknown {
    Descriptor(usize),
    Right(usize),
}

/// The number of a descriptor's name, and 0 where it isn't known.
pub fn descriptor_number(descriptors: &[Descriptor], identifier: &[u8]) -> u8
    requires { length descriptors.now ≤ 8 }
    ensures { result ≡ number_in (names_of descriptors.now) identifier.now }
{
    for (i, descriptor) in descriptors.iter().enumerate() {
        if identifier == descriptor.name.as_slice() {
            return i as u8;
        }
    }
    0
}

/// Whether a descriptor has this name.
fn is_known(descriptors: &[Descriptor], identifier: &[u8]) -> bool
    ensures { result ≡ is_known (names_of descriptors.now) identifier.now }
{
    for descriptor in descriptors {
        if identifier == descriptor.name.as_slice() {
            return true;
        }
    }
    false
}

/// Whether an identifier isn't known: behind a `:` it is a right, before one a descriptor.
fn unknown_identifier(
    descriptors: &[Descriptor],
    format: u8,
    after: bool,
    before: bool,
    from: usize,
    identifier: &[u8],
) -> Option<Unknown>
    ensures is { result ≡ unknown_identifier format (names_of descriptors.now) after before from identifier.now }
    ensures place { IfSome result (λ u. place_of u ≡ from) }
{
    if after {
        return match right_named(identifier, format) {
            None => Some(Unknown::Right(from)),
            Some(_) => None,
        };
    }
    if before && !is_known(descriptors, identifier) {
        return Some(Unknown::Descriptor(from));
    }
    None
}

/// How far a search for unknown names has come: the place, and whether a colon was before.
#[derive(Clone, Copy, Drop)]
struct Searched {
    at: usize,
    after: bool,
}

/// Goes over one part of the text; None at its end, an error at a name that isn't known.
fn search_token(
    text: &[u8],
    descriptors: &[Descriptor],
    format: u8,
    so_far: Searched,
) -> Result<Option<Searched>, Unknown>
    requires { so_far.at ≤ length text.now }
    ensures next { IfOk result (λ o. IfSome o (λ next.
        first_unknown format (names_of descriptors.now) so_far.after (placed so_far.at (drop so_far.at text.now))
        ≡ first_unknown format (names_of descriptors.now) next.after (placed next.at (drop next.at text.now)))) }
    ensures on { IfOk result (λ o. IfSome o (λ next. so_far.at < next.at)) }
    ensures within { IfOk result (λ o. IfSome o (λ next. next.at ≤ length text.now)) }
    ensures end { IfOk result (λ o. IfNone o
        (first_unknown format (names_of descriptors.now) so_far.after (placed so_far.at (drop so_far.at text.now)) ≡ None)) }
    ensures unknown { IfErr result (λ u.
        first_unknown format (names_of descriptors.now) so_far.after (placed so_far.at (drop so_far.at text.now)) ≡ Some u) }
    ensures place { IfErr result (λ u. place_of u < length text.now) }
{
    match token_at(text, so_far.at) {
        Token::End => Ok(None),
        Token::Sign { sign, to } => Ok(Some(Searched {
            at: to,
            after: matches!(sign, Sign::Colon),
        })),
        Token::Identifier { from, to } => {
            let before = colon_next(text, to);
            match unknown_identifier(
                descriptors,
                format,
                so_far.after,
                before,
                from,
                &text[from..to],
            ) {
                Some(unknown) => Err(unknown),
                None => Ok(Some(Searched {
                    at: to,
                    after: false,
                })),
            }
        }
    }
}

/// The first name of a text, from the left, that isn't known.
pub fn first_unknown(text: &[u8], descriptors: &[Descriptor], format: u8) -> Option<Unknown>
    ensures is { result ≡ first_unknown format (names_of descriptors.now) false (placed 0 text.now) }
    ensures place { IfSome result (λ u. place_of u < length text.now) }
{
    let mut so_far = Searched {
        at: 0,
        after: false,
    };
    for _ in 0..=text.len() {
        match search_token(text, descriptors, format, so_far) {
            Err(unknown) => return Some(unknown),
            Ok(None) => return None,
            Ok(Some(next)) => so_far = next,
        }
    }
    None
}
