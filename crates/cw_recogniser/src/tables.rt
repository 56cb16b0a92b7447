//! What is to come in a symbol's place behind its first token, by the kind of that token: symbols from the front to the
//! back. Where none is said, the token can't be first there.

ghost use Rattle.std.specs.Prelude.{◌≡◌, true, false, Some, None, MatchOption};
ghost use Rattle.cw_recogniser.specs.Machine.{expression, operand, plain_unary, measured, suffixes, operator, assignment, bare_type, after_unsigned, qualified, specifiers, after_declared, after_type, after_void, more_params, keyword, after_name};

use crate::kinds::TerminalKind;
use crate::symbols::Symbol;

/// An expression.
pub fn expression_of(kind: TerminalKind) -> Option<&'static [Symbol]>
    ensures { MatchOption result (expression kind ≡ None) (λ new. expression kind ≡ Some new.now) }
{
    match kind {
        TerminalKind::Open => Some(&[Symbol::AfterOpen]),
        TerminalKind::Name => Some(&[Symbol::Call, Symbol::Suffixes, Symbol::Tail(true)]),
        TerminalKind::Constant => Some(&[Symbol::Suffixes, Symbol::Tail(true)]),
        TerminalKind::Text => Some(&[Symbol::Texts, Symbol::Suffixes, Symbol::Tail(true)]),
        TerminalKind::SizeOf => Some(&[Symbol::Measured, Symbol::Tail(true)]),
        TerminalKind::Sign | TerminalKind::Both | TerminalKind::Star => Some(&[
            Symbol::Operand,
            Symbol::Tail(true),
        ]),
        TerminalKind::Step => Some(&[Symbol::Unary, Symbol::Tail(true)]),
        _ => None,
    }
}

/// A unary, or a cast of one.
pub fn operand_of(kind: TerminalKind) -> Option<&'static [Symbol]>
    ensures { MatchOption result (operand kind ≡ None) (λ new. operand kind ≡ Some new.now) }
{
    match kind {
        TerminalKind::Open => Some(&[Symbol::AfterOpenOperand]),
        TerminalKind::Name => Some(&[Symbol::Call, Symbol::Suffixes]),
        TerminalKind::Constant => Some(&[Symbol::Suffixes]),
        TerminalKind::Text => Some(&[Symbol::Texts, Symbol::Suffixes]),
        TerminalKind::SizeOf => Some(&[Symbol::Measured]),
        TerminalKind::Sign | TerminalKind::Both | TerminalKind::Star => Some(&[Symbol::Operand]),
        TerminalKind::Step => Some(&[Symbol::Unary]),
        _ => None,
    }
}

/// A unary.
pub fn unary_of(kind: TerminalKind) -> Option<&'static [Symbol]>
    ensures { MatchOption result (plain_unary kind ≡ None) (λ new. plain_unary kind ≡ Some new.now) }
{
    match kind {
        TerminalKind::Open => Some(&[Symbol::Expression, Symbol::Close, Symbol::Suffixes]),
        TerminalKind::Name => Some(&[Symbol::Call, Symbol::Suffixes]),
        TerminalKind::Constant => Some(&[Symbol::Suffixes]),
        TerminalKind::Text => Some(&[Symbol::Texts, Symbol::Suffixes]),
        TerminalKind::SizeOf => Some(&[Symbol::Measured]),
        TerminalKind::Sign | TerminalKind::Both | TerminalKind::Star => Some(&[Symbol::Operand]),
        TerminalKind::Step => Some(&[Symbol::Unary]),
        _ => None,
    }
}

/// What `sizeof` stands before.
pub fn measured_of(kind: TerminalKind) -> Option<&'static [Symbol]>
    ensures { MatchOption result (measured kind ≡ None) (λ new. measured kind ≡ Some new.now) }
{
    match kind {
        TerminalKind::Open => Some(&[Symbol::AfterOpenMeasured]),
        TerminalKind::Name => Some(&[Symbol::Call, Symbol::Suffixes]),
        TerminalKind::Constant => Some(&[Symbol::Suffixes]),
        TerminalKind::Text => Some(&[Symbol::Texts, Symbol::Suffixes]),
        TerminalKind::SizeOf => Some(&[Symbol::Measured]),
        TerminalKind::Sign | TerminalKind::Both | TerminalKind::Star => Some(&[Symbol::Operand]),
        TerminalKind::Step => Some(&[Symbol::Unary]),
        _ => None,
    }
}

/// What makes a larger postfix of a postfix.
pub fn suffixes_of(kind: TerminalKind) -> Option<&'static [Symbol]>
    ensures { MatchOption result (suffixes kind ≡ None) (λ new. suffixes kind ≡ Some new.now) }
{
    match kind {
        TerminalKind::OpenBracket => Some(&[
            Symbol::Expression,
            Symbol::CloseBracket,
            Symbol::Suffixes,
        ]),
        TerminalKind::Step => Some(&[Symbol::Suffixes]),
        _ => None,
    }
}

/// The rest of an expression behind an operand that can't be assigned to.
pub fn operator_of(kind: TerminalKind) -> Option<&'static [Symbol]>
    ensures { MatchOption result (operator kind ≡ None) (λ new. operator kind ≡ Some new.now) }
{
    match kind {
        TerminalKind::Star | TerminalKind::Both | TerminalKind::Binary => Some(&[
            Symbol::Operand,
            Symbol::Tail(false),
        ]),
        _ => None,
    }
}

/// The rest of an expression behind a unary.
pub fn assignment_of(kind: TerminalKind) -> Option<&'static [Symbol]>
    ensures { MatchOption result (assignment kind ≡ None) (λ new. assignment kind ≡ Some new.now) }
{
    match kind {
        TerminalKind::Assign | TerminalKind::Update => Some(&[Symbol::Expression]),
        TerminalKind::Star | TerminalKind::Both | TerminalKind::Binary => Some(&[
            Symbol::Operand,
            Symbol::Tail(false),
        ]),
        _ => None,
    }
}

/// A type.
pub fn type_of(kind: TerminalKind) -> Option<&'static [Symbol]>
    ensures { MatchOption result (bare_type kind ≡ None) (λ new. bare_type kind ≡ Some new.now) }
{
    match kind {
        TerminalKind::Void | TerminalKind::Char | TerminalKind::Int => Some(&[]),
        TerminalKind::Long => Some(&[Symbol::AfterLong]),
        TerminalKind::Unsigned => Some(&[Symbol::AfterUnsigned]),
        _ => None,
    }
}

/// The rest of a type behind `unsigned`.
pub fn after_unsigned_of(kind: TerminalKind) -> Option<&'static [Symbol]>
    ensures { MatchOption result (after_unsigned kind ≡ None) (λ new. after_unsigned kind ≡ Some new.now) }
{
    match kind {
        TerminalKind::Char | TerminalKind::Int => Some(&[]),
        TerminalKind::Long => Some(&[Symbol::AfterLong]),
        _ => None,
    }
}

/// A type with or without `const`.
pub fn qualified_of(kind: TerminalKind) -> Option<&'static [Symbol]>
    ensures { MatchOption result (qualified kind ≡ None) (λ new. qualified kind ≡ Some new.now) }
{
    match kind {
        TerminalKind::Const => Some(&[Symbol::Type]),
        TerminalKind::Void | TerminalKind::Char | TerminalKind::Int => Some(&[]),
        TerminalKind::Long => Some(&[Symbol::AfterLong]),
        TerminalKind::Unsigned => Some(&[Symbol::AfterUnsigned]),
        _ => None,
    }
}

/// What stands before the stars of a declared name.
pub fn specifiers_of(kind: TerminalKind) -> Option<&'static [Symbol]>
    ensures { MatchOption result (specifiers kind ≡ None) (λ new. specifiers kind ≡ Some new.now) }
{
    match kind {
        TerminalKind::Storage => Some(&[Symbol::Qualified]),
        TerminalKind::Const => Some(&[Symbol::Type]),
        TerminalKind::Void | TerminalKind::Char | TerminalKind::Int => Some(&[]),
        TerminalKind::Long => Some(&[Symbol::AfterLong]),
        TerminalKind::Unsigned => Some(&[Symbol::AfterUnsigned]),
        _ => None,
    }
}

/// The rest of a part of a file behind its first name.
pub fn after_declared_of(kind: TerminalKind) -> Option<&'static [Symbol]>
    ensures { MatchOption result (after_declared kind ≡ None) (λ new. after_declared kind ≡ Some new.now) }
{
    match kind {
        TerminalKind::Open => Some(&[Symbol::Params]),
        TerminalKind::OpenBracket => Some(&[
            Symbol::MaybeExpression,
            Symbol::CloseBracket,
            Symbol::Initialiser,
            Symbol::MoreItems,
            Symbol::Semicolon,
        ]),
        TerminalKind::Assign => Some(&[Symbol::Initial, Symbol::MoreItems, Symbol::Semicolon]),
        TerminalKind::Comma => Some(&[
            Symbol::TwoStars,
            Symbol::Name,
            Symbol::Array,
            Symbol::Initialiser,
            Symbol::MoreItems,
            Symbol::Semicolon,
        ]),
        TerminalKind::Semicolon => Some(&[]),
        _ => None,
    }
}

/// The rest of a part of a file behind a parameter's type, where all parameters so far have names.
pub fn after_named_type_of(kind: TerminalKind) -> Option<&'static [Symbol]>
    ensures { MatchOption result (after_type true kind ≡ None) (λ new. after_type true kind ≡ Some new.now) }
{
    match kind {
        TerminalKind::Name => Some(&[Symbol::Brackets, Symbol::MoreParams(true)]),
        TerminalKind::OpenBracket => Some(&[Symbol::CloseBracket, Symbol::MoreParams(false)]),
        TerminalKind::Comma => Some(&[Symbol::Param(false)]),
        TerminalKind::Close => Some(&[Symbol::Ending(false)]),
        _ => None,
    }
}

/// The same, where some parameter has none.
pub fn after_nameless_type_of(kind: TerminalKind) -> Option<&'static [Symbol]>
    ensures { MatchOption result (after_type false kind ≡ None) (λ new. after_type false kind ≡ Some new.now) }
{
    match kind {
        TerminalKind::Name => Some(&[Symbol::Brackets, Symbol::MoreParams(false)]),
        TerminalKind::OpenBracket => Some(&[Symbol::CloseBracket, Symbol::MoreParams(false)]),
        TerminalKind::Comma => Some(&[Symbol::Param(false)]),
        TerminalKind::Close => Some(&[Symbol::Ending(false)]),
        _ => None,
    }
}

/// The rest of a part of a file behind `(void`.
pub fn after_void_of(kind: TerminalKind) -> Option<&'static [Symbol]>
    ensures { MatchOption result (after_void kind ≡ None) (λ new. after_void kind ≡ Some new.now) }
{
    match kind {
        TerminalKind::Close => Some(&[Symbol::Ending(true)]),
        TerminalKind::Star => Some(&[Symbol::OneStar, Symbol::AfterType(true)]),
        TerminalKind::Name => Some(&[Symbol::Brackets, Symbol::MoreParams(true)]),
        TerminalKind::OpenBracket => Some(&[Symbol::CloseBracket, Symbol::MoreParams(false)]),
        TerminalKind::Comma => Some(&[Symbol::Param(false)]),
        _ => None,
    }
}

/// A statement that doesn't begin with an expression alone.
pub fn keyword_of(kind: TerminalKind) -> Option<&'static [Symbol]>
    ensures { MatchOption result (keyword kind ≡ None) (λ new. keyword kind ≡ Some new.now) }
{
    match kind {
        TerminalKind::Semicolon => Some(&[]),
        TerminalKind::OpenBrace => Some(&[Symbol::Items, Symbol::CloseBrace]),
        TerminalKind::Name => Some(&[Symbol::AfterName]),
        TerminalKind::If => Some(&[
            Symbol::Open,
            Symbol::Expression,
            Symbol::Close,
            Symbol::Statement,
            Symbol::MaybeElse,
        ]),
        TerminalKind::While => Some(&[
            Symbol::Open,
            Symbol::Expression,
            Symbol::Close,
            Symbol::Statement,
        ]),
        TerminalKind::Do => Some(&[
            Symbol::Statement,
            Symbol::While,
            Symbol::Open,
            Symbol::Expression,
            Symbol::Close,
            Symbol::Semicolon,
        ]),
        TerminalKind::For => Some(&[
            Symbol::Open,
            Symbol::ForInit,
            Symbol::MaybeExpression,
            Symbol::Semicolon,
            Symbol::MaybeExpression,
            Symbol::Close,
            Symbol::Statement,
        ]),
        TerminalKind::Jump => Some(&[Symbol::Semicolon]),
        TerminalKind::Return => Some(&[Symbol::MaybeExpression, Symbol::Semicolon]),
        _ => None,
    }
}

/// The rest of a statement behind a name.
pub fn after_name_of(kind: TerminalKind) -> Option<&'static [Symbol]>
    ensures { MatchOption result (after_name kind ≡ None) (λ new. after_name kind ≡ Some new.now) }
{
    match kind {
        TerminalKind::Colon => Some(&[Symbol::Statement]),
        TerminalKind::Semicolon => Some(&[]),
        TerminalKind::Open => Some(&[
            Symbol::Arguments,
            Symbol::Close,
            Symbol::Suffixes,
            Symbol::Tail(true),
            Symbol::Semicolon,
        ]),
        TerminalKind::OpenBracket => Some(&[
            Symbol::Expression,
            Symbol::CloseBracket,
            Symbol::Suffixes,
            Symbol::Tail(true),
            Symbol::Semicolon,
        ]),
        TerminalKind::Step => Some(&[Symbol::Suffixes, Symbol::Tail(true), Symbol::Semicolon]),
        TerminalKind::Assign | TerminalKind::Update => Some(&[
            Symbol::Expression,
            Symbol::Semicolon,
        ]),
        TerminalKind::Star | TerminalKind::Both | TerminalKind::Binary => {
            Some(&[Symbol::Operand, Symbol::Tail(false), Symbol::Semicolon])
        }
        _ => None,
    }
}
