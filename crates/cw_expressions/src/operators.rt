//! The operators by their numbers.

ghost use Rattle.std.specs.Prelude.{◌≡◌, ◌<◌, ◌≤◌, ℕ, suc, true, false, is_some, MatchOption};
ghost use Rattle.cw_grammar.specs.Operators.{sign, step, suffix, binary, assign};
ghost use Rattle.cw_expressions.specs.Behind.{is_looser};
ghost use Rattle.cw_expressions.specs.Reading.{next_of, at_level, binary_at, goes_on_at};

use cw_grammar::terminals::{Lexeme, Terminal};

/// The number of `+ - ! ~ * &` as an operator before an operand (ISO C11, 6.5.3).
#[inline(always)]
pub(crate) fn sign_of(terminal: Terminal) -> Option<u8>
    ensures { result ≡ sign terminal }
{
    match terminal {
        Terminal::Plus => Some(0),
        Terminal::Minus => Some(1),
        Terminal::Exclamation => Some(2),
        Terminal::Tilde => Some(3),
        Terminal::Star => Some(4),
        Terminal::Ampersand => Some(5),
        _ => None,
    }
}

/// The number of `++` or `--` as an operator before a unary (ISO C11, 6.5.3.1).
#[inline(always)]
pub(crate) fn step_of(terminal: Terminal) -> Option<u8>
    ensures { result ≡ step terminal }
{
    match terminal {
        Terminal::PlusPlus => Some(6),
        Terminal::MinusMinus => Some(7),
        _ => None,
    }
}

/// The number of `++` or `--` as an operator behind (ISO C11, 6.5.2.4).
#[inline(always)]
pub(crate) fn suffix_of(terminal: Terminal) -> Option<u8>
    ensures { result ≡ suffix terminal }
{
    match terminal {
        Terminal::PlusPlus => Some(0),
        Terminal::MinusMinus => Some(1),
        _ => None,
    }
}

/// The number of a binary operator and its level, 1 to 10, of which 1 binds tightest (ISO C11, 6.5.5 to 6.5.14).
#[inline(always)]
fn binary_of(terminal: Terminal) -> Option<(u8, u32)>
    ensures { result ≡ binary terminal }
{
    match terminal {
        Terminal::BarBar => Some((0, 10)),
        Terminal::AmpersandAmpersand => Some((1, 9)),
        Terminal::Bar => Some((2, 8)),
        Terminal::Caret => Some((3, 7)),
        Terminal::Ampersand => Some((4, 6)),
        Terminal::Equal => Some((5, 5)),
        Terminal::NotEqual => Some((6, 5)),
        Terminal::Less => Some((7, 4)),
        Terminal::LessEqual => Some((8, 4)),
        Terminal::Greater => Some((9, 4)),
        Terminal::GreaterEqual => Some((10, 4)),
        Terminal::LeftShift => Some((11, 3)),
        Terminal::RightShift => Some((12, 3)),
        Terminal::Plus => Some((13, 2)),
        Terminal::Minus => Some((14, 2)),
        Terminal::Star => Some((15, 1)),
        Terminal::Slash => Some((16, 1)),
        Terminal::Percent => Some((17, 1)),
        _ => None,
    }
}

/// The number of an operator that assigns (ISO C11, 6.5.16).
#[inline(always)]
fn assign_of(terminal: Terminal) -> Option<u8>
    ensures { result ≡ assign terminal }
{
    match terminal {
        Terminal::Assign => Some(0),
        Terminal::AddAssign => Some(1),
        Terminal::SubtractAssign => Some(2),
        Terminal::MultiplyAssign => Some(3),
        Terminal::DivideAssign => Some(4),
        Terminal::RemainderAssign => Some(5),
        Terminal::AndAssign => Some(6),
        Terminal::OrAssign => Some(7),
        Terminal::XorAssign => Some(8),
        Terminal::LeftShiftAssign => Some(9),
        Terminal::RightShiftAssign => Some(10),
        _ => None,
    }
}

/// Whether a terminal is an assignment's operator.
#[inline(always)]
pub(crate) fn is_assign(terminal: Terminal) -> bool
    ensures { result ≡ is_some (assign terminal) }
{
    assign_of(terminal).is_some()
}

/// Whether a terminal is a binary operator of a looser level than this one.
#[inline(always)]
pub(crate) fn is_looser(level: u32, terminal: Terminal) -> bool
    ensures { result ≡ is_looser level (binary terminal) }
{
    match binary_of(terminal) {
        None => false,
        Some((_, found)) => level < found,
    }
}

/// The number of the operator behind that the next token is, if it is one.
#[inline(always)]
pub(crate) fn suffix_next(tokens: &[Lexeme]) -> Option<u8>
    ensures { result ≡ next_of suffix tokens.now }
{
    match tokens {
        [] => None,
        [first, ..] => suffix_of(first.terminal),
    }
}

/// The number of the operator that assigns that the next token is, if it is one.
#[inline(always)]
pub(crate) fn assign_next(tokens: &[Lexeme]) -> Option<u8>
    ensures { result ≡ next_of assign tokens.now }
{
    match tokens {
        [] => None,
        [first, ..] => assign_of(first.terminal),
    }
}

/// The number and the level of the binary operator that the next token is, if it is one.
#[inline(always)]
fn binary_next(tokens: &[Lexeme]) -> Option<(u8, u32)>
    ensures { result ≡ next_of binary tokens.now }
{
    match tokens {
        [] => None,
        [first, ..] => binary_of(first.terminal),
    }
}

/// A binary operator of this level that is next.
#[inline(always)]
pub(crate) fn binary_next_at(level: u32, tokens: &[Lexeme]) -> Option<u8>
    ensures { result ≡ binary_at level tokens.now }
{
    match binary_next(tokens) {
        None => None,
        Some((number, found)) => { if found == level { Some(number) } else { None } }
    }
}

/// The level below that of the binary operator that is next, if that is a level past `below` and up to `level`.
#[inline(always)]
pub(crate) fn operator_next(below: u32, level: u32, tokens: &[Lexeme]) -> Option<u32>
    ensures { MatchOption result ((l : ℕ) → below < l → l ≤ level → goes_on_at l tokens.now ≡ false)
        (λ next. (below ≤ next) × (next < level) × (goes_on_at (suc next) tokens.now ≡ true)
        × ((l : ℕ) → below < l → l ≤ next → goes_on_at l tokens.now ≡ false)) }
{
    let (_, found) = binary_next(tokens)?;
    if below < found && found <= level {
        Some(found - 1)
    } else {
        None
    }
}
