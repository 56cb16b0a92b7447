//! The same as in `tables`, of single punctuators and short parts.

ghost use Rattle.std.specs.Prelude.{◌≡◌, true, false, Some, None, MatchOption};
ghost use Rattle.cw_recogniser.specs.Machine.{opening, closing, close_bracket, close_brace, semicolon, while_keyword, name, call, texts, more_arguments, after_long, two_stars, one_star, array, initialiser, initial, more_elements, more_items, params_front, brackets, more_params, ending, maybe_else};

use crate::kinds::TerminalKind;
use crate::symbols::Symbol;

/// `(`
pub fn opening_of(kind: TerminalKind) -> Option<&'static [Symbol]>
    ensures { MatchOption result (opening kind ≡ None) (λ new. opening kind ≡ Some new.now) }
{
    match kind {
        TerminalKind::Open => Some(&[]),
        _ => None,
    }
}

/// `)`
pub fn closing_of(kind: TerminalKind) -> Option<&'static [Symbol]>
    ensures { MatchOption result (closing kind ≡ None) (λ new. closing kind ≡ Some new.now) }
{
    match kind {
        TerminalKind::Close => Some(&[]),
        _ => None,
    }
}

/// `]`
pub fn close_bracket_of(kind: TerminalKind) -> Option<&'static [Symbol]>
    ensures { MatchOption result (close_bracket kind ≡ None) (λ new. close_bracket kind ≡ Some new.now) }
{
    match kind {
        TerminalKind::CloseBracket => Some(&[]),
        _ => None,
    }
}

/// `}`
pub fn close_brace_of(kind: TerminalKind) -> Option<&'static [Symbol]>
    ensures { MatchOption result (close_brace kind ≡ None) (λ new. close_brace kind ≡ Some new.now) }
{
    match kind {
        TerminalKind::CloseBrace => Some(&[]),
        _ => None,
    }
}

/// `;`
pub fn semicolon_of(kind: TerminalKind) -> Option<&'static [Symbol]>
    ensures { MatchOption result (semicolon kind ≡ None) (λ new. semicolon kind ≡ Some new.now) }
{
    match kind {
        TerminalKind::Semicolon => Some(&[]),
        _ => None,
    }
}

/// `while`
pub fn while_of(kind: TerminalKind) -> Option<&'static [Symbol]>
    ensures { MatchOption result (while_keyword kind ≡ None) (λ new. while_keyword kind ≡ Some new.now) }
{
    match kind {
        TerminalKind::While => Some(&[]),
        _ => None,
    }
}

/// A name.
pub fn name_of(kind: TerminalKind) -> Option<&'static [Symbol]>
    ensures { MatchOption result (name kind ≡ None) (λ new. name kind ≡ Some new.now) }
{
    match kind {
        TerminalKind::Name => Some(&[]),
        _ => None,
    }
}

/// The arguments behind a name, with their parentheses.
pub fn call_of(kind: TerminalKind) -> Option<&'static [Symbol]>
    ensures { MatchOption result (call kind ≡ None) (λ new. call kind ≡ Some new.now) }
{
    match kind {
        TerminalKind::Open => Some(&[Symbol::Arguments, Symbol::Close]),
        _ => None,
    }
}

/// Strings behind a string.
pub fn texts_of(kind: TerminalKind) -> Option<&'static [Symbol]>
    ensures { MatchOption result (texts kind ≡ None) (λ new. texts kind ≡ Some new.now) }
{
    match kind {
        TerminalKind::Text => Some(&[Symbol::Texts]),
        _ => None,
    }
}

/// Arguments, each behind a comma.
pub fn more_arguments_of(kind: TerminalKind) -> Option<&'static [Symbol]>
    ensures { MatchOption result (more_arguments kind ≡ None) (λ new. more_arguments kind ≡ Some new.now) }
{
    match kind {
        TerminalKind::Comma => Some(&[Symbol::Expression, Symbol::MoreArguments]),
        _ => None,
    }
}

/// The rest of a type behind `long`.
pub fn after_long_of(kind: TerminalKind) -> Option<&'static [Symbol]>
    ensures { MatchOption result (after_long kind ≡ None) (λ new. after_long kind ≡ Some new.now) }
{
    match kind {
        TerminalKind::Int => Some(&[]),
        _ => None,
    }
}

/// At most two stars.
pub fn two_stars_of(kind: TerminalKind) -> Option<&'static [Symbol]>
    ensures { MatchOption result (two_stars kind ≡ None) (λ new. two_stars kind ≡ Some new.now) }
{
    match kind {
        TerminalKind::Star => Some(&[Symbol::OneStar]),
        _ => None,
    }
}

/// At most one star.
pub fn one_star_of(kind: TerminalKind) -> Option<&'static [Symbol]>
    ensures { MatchOption result (one_star kind ≡ None) (λ new. one_star kind ≡ Some new.now) }
{
    match kind {
        TerminalKind::Star => Some(&[]),
        _ => None,
    }
}

/// An array's brackets.
pub fn array_of(kind: TerminalKind) -> Option<&'static [Symbol]>
    ensures { MatchOption result (array kind ≡ None) (λ new. array kind ≡ Some new.now) }
{
    match kind {
        TerminalKind::OpenBracket => Some(&[Symbol::MaybeExpression, Symbol::CloseBracket]),
        _ => None,
    }
}

/// `=` and what stands behind it.
pub fn initialiser_of(kind: TerminalKind) -> Option<&'static [Symbol]>
    ensures { MatchOption result (initialiser kind ≡ None) (λ new. initialiser kind ≡ Some new.now) }
{
    match kind {
        TerminalKind::Assign => Some(&[Symbol::Initial]),
        _ => None,
    }
}

/// What stands behind `=`.
pub fn initial_of(kind: TerminalKind) -> Option<&'static [Symbol]>
    ensures { MatchOption result (initial kind ≡ None) (λ new. initial kind ≡ Some new.now) }
{
    match kind {
        TerminalKind::OpenBrace => Some(&[
            Symbol::Expression,
            Symbol::MoreElements,
            Symbol::CloseBrace,
        ]),
        TerminalKind::Open => Some(&[Symbol::AfterOpen]),
        TerminalKind::Name => Some(&[Symbol::Call, Symbol::Suffixes, Symbol::Tail(true)]),
        TerminalKind::Constant => Some(&[Symbol::Suffixes, Symbol::Tail(true)]),
        TerminalKind::Text => Some(&[Symbol::Texts, Symbol::Suffixes, Symbol::Tail(true)]),
        TerminalKind::SizeOf => Some(&[Symbol::Measured, Symbol::Tail(true)]),
        TerminalKind::Sign | TerminalKind::Both | TerminalKind::Star => Some(&[
            Symbol::Operand,
            Symbol::Tail(true),
        ]),
        TerminalKind::Step => Some(&[Symbol::Unary, Symbol::Tail(true)]),
        _ => None,
    }
}

/// Elements behind a comma, or a last comma.
pub fn more_elements_of(kind: TerminalKind) -> Option<&'static [Symbol]>
    ensures { MatchOption result (more_elements kind ≡ None) (λ new. more_elements kind ≡ Some new.now) }
{
    match kind {
        TerminalKind::Comma => Some(&[Symbol::Elements]),
        _ => None,
    }
}

/// Items, each behind a comma.
pub fn more_items_of(kind: TerminalKind) -> Option<&'static [Symbol]>
    ensures { MatchOption result (more_items kind ≡ None) (λ new. more_items kind ≡ Some new.now) }
{
    match kind {
        TerminalKind::Comma => Some(&[
            Symbol::TwoStars,
            Symbol::Name,
            Symbol::Array,
            Symbol::Initialiser,
            Symbol::MoreItems,
        ]),
        _ => None,
    }
}

/// Parameters, where they are none or begin with `void`.
pub fn params_front_of(kind: TerminalKind) -> Option<&'static [Symbol]>
    ensures { MatchOption result (params_front kind ≡ None) (λ new. params_front kind ≡ Some new.now) }
{
    match kind {
        TerminalKind::Close => Some(&[Symbol::Ending(true)]),
        TerminalKind::Void => Some(&[Symbol::AfterVoid]),
        _ => None,
    }
}

/// The brackets of a parameter.
pub fn brackets_of(kind: TerminalKind) -> Option<&'static [Symbol]>
    ensures { MatchOption result (brackets kind ≡ None) (λ new. brackets kind ≡ Some new.now) }
{
    match kind {
        TerminalKind::OpenBracket => Some(&[Symbol::CloseBracket]),
        _ => None,
    }
}

/// What stands behind a parameter, where all so far have names.
pub fn more_named_params_of(kind: TerminalKind) -> Option<&'static [Symbol]>
    ensures { MatchOption result (more_params true kind ≡ None) (λ new. more_params true kind ≡ Some new.now) }
{
    match kind {
        TerminalKind::Comma => Some(&[Symbol::Param(true)]),
        TerminalKind::Close => Some(&[Symbol::Ending(true)]),
        _ => None,
    }
}

/// The same, where some parameter has none.
pub fn more_nameless_params_of(kind: TerminalKind) -> Option<&'static [Symbol]>
    ensures { MatchOption result (more_params false kind ≡ None) (λ new. more_params false kind ≡ Some new.now) }
{
    match kind {
        TerminalKind::Comma => Some(&[Symbol::Param(false)]),
        TerminalKind::Close => Some(&[Symbol::Ending(false)]),
        _ => None,
    }
}

/// What stands behind parameters that all have names.
pub fn named_ending_of(kind: TerminalKind) -> Option<&'static [Symbol]>
    ensures { MatchOption result (ending true kind ≡ None) (λ new. ending true kind ≡ Some new.now) }
{
    match kind {
        TerminalKind::Semicolon => Some(&[]),
        TerminalKind::OpenBrace => Some(&[Symbol::Items, Symbol::CloseBrace]),
        _ => None,
    }
}

/// What stands behind parameters of which some has no name.
pub fn ending_of(kind: TerminalKind) -> Option<&'static [Symbol]>
    ensures { MatchOption result (ending false kind ≡ None) (λ new. ending false kind ≡ Some new.now) }
{
    match kind {
        TerminalKind::Semicolon => Some(&[]),
        _ => None,
    }
}

/// `else` and its statement.
pub fn maybe_else_of(kind: TerminalKind) -> Option<&'static [Symbol]>
    ensures { MatchOption result (maybe_else kind ≡ None) (λ new. maybe_else kind ≡ Some new.now) }
{
    match kind {
        TerminalKind::Else => Some(&[Symbol::Statement]),
        _ => None,
    }
}
