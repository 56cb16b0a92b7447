//! Punctuation and markers.

ghost use Rattle.std.specs.Prelude.{◌≡◌, ◌<◌, ℕ, true, false, nat_eq, ◌∷◌, [], length, drop, IfSome, IfNone};
ghost use Rattle.std.specs.List.{starts_with};
ghost use Rattle.cw_lex.specs.Punctuators.{punctuator_len, IsLeastMarker, HasNoMarker};

use memchr::memmem;

/// Whether this byte stands in front.
#[inline(always)]
fn is_next(bytes: &[u8], byte: u8) -> bool
    ensures { result ≡ starts_with nat_eq bytes.now (byte ∷ []) }
{
    match bytes {
        [] => false,
        [first, ..] => *first == byte,
    }
}

/// The length of the longest punctuation at the front, and 0 where none stands there.
#[inline(always)]
#[tactic(auto, unfolding(crate::specs::Punctuators::punctuator_len))]
pub(crate) fn punctuator_length(bytes: &[u8]) -> usize
    ensures { result ≡ punctuator_len bytes.now }
{
    let [first, rest @ ..] = bytes else {
        return 0;
    };
    match *first {
        b'(' | b')' | b'[' | b']' | b'{' | b'}' | b';' | b',' | b':' | b'~' => 1,
        b'=' | b'!' | b'*' | b'/' | b'%' | b'^' => if is_next(rest, b'=') { 2 } else { 1 },
        b'+' | b'-' | b'&' | b'|' => {
            if is_next(rest, *first) || is_next(rest, b'=') {
                2
            } else {
                1
            }
        }
        b'<' | b'>' => match rest {
            [] => 1,
            [next, behind @ ..] => {
                if *next == *first {
                    if is_next(behind, b'=') { 3 } else { 2 }
                } else if *next == b'=' {
                    2
                } else {
                    1
                }
            }
        },
        _ => 0,
    }
}

/// The least place where a needle begins.
pub(crate) fn first_place(source: &[u8], needle: &[u8]) -> Option<usize>
    requires some { 0 < length needle.now }
    ensures found { IfSome result (λ at. starts_with nat_eq (drop at source.now) needle.now ≡ true) }
    ensures least { IfSome result (λ at. (k : ℕ) → k < at → starts_with nat_eq (drop k source.now) needle.now ≡ false) }
    ensures within { IfSome result (λ at. at < length source.now) }
    ensures none { IfNone result ((k : ℕ) → starts_with nat_eq (drop k source.now) needle.now ≡ false) }
{
    memmem::find(source, needle)
}

/// The least place where a marker begins.
pub(crate) fn first_marker(source: &[u8]) -> Option<usize>
    ensures found { IfSome result (IsLeastMarker source.now) }
    ensures within { IfSome result (λ at. at < length source.now) }
    ensures none { IfNone result (HasNoMarker source.now) }
{
    let opening = first_place(source, b"cw{*");
    let closing = first_place(source, b"*}cw");
    match opening {
        None => closing,
        Some(at) => match closing {
            None => Some(at),
            Some(other) => Some(at.min(other)),
        },
    }
}
