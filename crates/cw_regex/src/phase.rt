//! What may come after what was read.

ghost use Rattle.std.specs.Prelude.{◌≡◌, ◌+◌, ◌-◌, ◌<◌, ◌^◌, nat_eq, cond, Some, None};
ghost use Rattle.cw_rights.specs.Valid.{is_name};
ghost use Rattle.std.specs.Option.{option_map};
ghost use Rattle.std.specs.Str.{bytes_eq};
ghost use Rattle.cw_regex.specs.Parts.{sign as part};
ghost use Rattle.cw_regex.specs.Grammar.{is_digit, is_descriptor, amb};
ghost use Rattle.cw_regex.specs.Scans.{is_held};
ghost use Rattle.cw_regex.specs.Machine.{kept, step, in_test, step_identifier, step_sign, takes_atom, is_end, is_test_end, start, ends_here};

use crate::text::Sign;
use cw_rights::is_name;

/// What was read last, as far as it tells what may come.
#[derive(Clone, Copy, Drop, PartialEq, Eq)]
pub enum Phase {
    /// Nothing yet, or `(` or `|`: an atom comes.
    Begin,
    /// `.` or a label.
    Label,
    /// `]` or `)`.
    Whole,
    /// `*`, `+` or `?`.
    Repeated,
    /// `[` or `,`: a test comes.
    Test,
    /// `!` of a test.
    Negated,
    /// `amb` in a test.
    Ambient,
    /// Another name or a digit in a test: `:` comes.
    Descriptor,
    /// `:` in a test: a right comes.
    Colon,
    /// A right.
    Right,
}

/// Whether an identifier is the number of a descriptor that is open at the start.
fn is_digit(identifier: &[u8]) -> bool
    ensures { result ≡ is_digit identifier.now }
{
    match identifier {
        [byte] => *byte == b'0' || *byte == b'1' || *byte == b'2',
        _ => false,
    }
}

/// What comes after this identifier at the start of a test: `amb` or a descriptor.
fn in_test(identifier: &[u8]) -> Option<Phase>
    ensures { result ≡ in_test identifier.now }
{
    if identifier == b"amb".as_slice() {
        return Some(Phase::Ambient);
    }
    if is_name(identifier) || is_digit(identifier) {
        return Some(Phase::Descriptor);
    }
    None
}

/// This phase, where the identifier is a name.
fn if_name(identifier: &[u8], phase: Phase) -> Option<Phase>
    ensures { result ≡ cond (is_name identifier.now) (Some phase) None }
{
    if is_name(identifier) {
        Some(phase)
    } else {
        None
    }
}

/// The phase after an identifier.
pub fn step_identifier(phase: Phase, identifier: &[u8]) -> Option<Phase>
    ensures { result ≡ step_identifier phase identifier.now }
{
    match phase {
        Phase::Begin | Phase::Label | Phase::Whole | Phase::Repeated => if_name(
            identifier,
            Phase::Label,
        ),
        Phase::Test | Phase::Negated => in_test(identifier),
        Phase::Colon => if_name(identifier, Phase::Right),
        Phase::Ambient | Phase::Descriptor | Phase::Right => None,
    }
}

/// The phase after a sign that is no parenthesis; `alone`: a test by itself.
pub fn step_sign(alone: bool, phase: Phase, sign: Sign) -> Option<Phase>
    ensures { result ≡ step_sign alone phase sign }
{
    match (phase, sign) {
        (Phase::Begin | Phase::Label | Phase::Whole | Phase::Repeated, Sign::Dot) => {
            Some(Phase::Label)
        }
        (Phase::Label | Phase::Whole | Phase::Repeated, Sign::Bar) => Some(Phase::Begin),
        (Phase::Label | Phase::Whole, Sign::Star | Sign::Plus | Sign::Question) => {
            Some(Phase::Repeated)
        }
        (Phase::Label, Sign::BracketOpen) => Some(Phase::Test),
        (Phase::Test, Sign::Bang) => Some(Phase::Negated),
        (Phase::Ambient | Phase::Descriptor, Sign::Colon) => Some(Phase::Colon),
        (Phase::Ambient | Phase::Right, Sign::Comma) if !alone => Some(Phase::Test),
        (Phase::Ambient | Phase::Right, Sign::BracketClose) if !alone => Some(Phase::Whole),
        _ => None,
    }
}

/// Whether a label, `.` or `(` may come.
fn takes_atom(phase: Phase) -> bool
    ensures { result ≡ takes_atom phase }
{
    match phase {
        Phase::Begin | Phase::Label | Phase::Whole | Phase::Repeated => true,
        _ => false,
    }
}

/// Whether an expression may end.
fn is_end(phase: Phase) -> bool
    ensures { result ≡ is_end phase }
{
    match phase {
        Phase::Label | Phase::Whole | Phase::Repeated => true,
        _ => false,
    }
}

/// The phase in which an expression, or a test by itself, begins.
pub fn start(alone: bool) -> Phase
    ensures { result ≡ start alone }
{
    if alone { Phase::Test } else { Phase::Begin }
}

/// Whether the text may end there.
pub fn ends_here(alone: bool, phase: Phase, depth: u32) -> bool
    ensures { result ≡ ends_here alone phase depth }
{
    if alone {
        return matches!(phase, Phase::Ambient | Phase::Right);
    }
    is_end(phase) && depth == 0
}

/// Whether an identifier that may not stand there begins with a digit that may.
pub fn kept(phase: Phase, first: u8) -> bool
    ensures { result ≡ kept phase first }
{
    matches!(phase, Phase::Test | Phase::Negated) && is_digit(&[first])
}

/// The phase after a sign, and how many parentheses are open then.
pub fn step(alone: bool, phase: Phase, depth: u32, sign: Sign) -> Option<(Phase, u32)>
    requires { depth < 2 ^ 32 - 1 }
    ensures { result ≡ step alone phase depth (part sign) }
{
    match sign {
        Sign::ParenOpen if takes_atom(phase) => Some((Phase::Begin, depth + 1)),
        Sign::ParenClose if is_end(phase) && depth > 0 => Some((Phase::Whole, depth - 1)),
        Sign::ParenOpen | Sign::ParenClose => None,
        _ => match step_sign(alone, phase, sign) {
            None => None,
            Some(next) => Some((next, depth)),
        },
    }
}

/// Whether a test by itself has had its right, so that nothing may come, not even a blank.
pub fn is_held(alone: bool, phase: Phase) -> bool
    ensures { result ≡ is_held alone phase }
{
    match phase {
        Phase::Right => alone,
        _ => false,
    }
}
