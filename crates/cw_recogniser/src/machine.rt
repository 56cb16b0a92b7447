//! The stack of what is still to come, and its steps.

ghost use Rattle.std.specs.Prelude.{◌≡◌, ◌++◌, ◌∷◌, [], List, reverse, Some, None, MatchOption, IfOk};
ghost use Rattle.cw_recogniser.specs.declared.symbols.Symbol.{Symbol};
ghost use Rattle.cw_recogniser.specs.declared.symbols.Symbol.TheVariants as s;
ghost use Rattle.cw_recogniser.specs.Machine.{Next, onto, either, after, expression, qualified, may_be_empty, feed, Steps};

use crate::kinds::TerminalKind;
use crate::punctuators::{
    after_long_of, array_of, brackets_of, call_of, close_brace_of, close_bracket_of, closing_of,
    ending_of, initial_of, initialiser_of, maybe_else_of, more_arguments_of, more_elements_of,
    more_items_of, more_named_params_of, more_nameless_params_of, name_of, named_ending_of,
    one_star_of, opening_of, params_front_of, semicolon_of, texts_of, two_stars_of, while_of,
};
use crate::symbols::Symbol;
use crate::tables::{
    after_declared_of, after_name_of, after_named_type_of, after_nameless_type_of,
    after_unsigned_of, after_void_of, assignment_of, expression_of, keyword_of, measured_of,
    operand_of, operator_of, qualified_of, specifiers_of, suffixes_of, type_of, unary_of,
};
use cw_core::NoMemory;

/// What is to come behind a token: the first symbols, and those behind them.
#[derive(Drop)]
struct Coming {
    first: &'static [Symbol],
    second: &'static [Symbol],
}

/// These symbols alone.
#[tactic(auto, using(crate::proofs::Codes::whole_first))]
fn alone(first: Option<&'static [Symbol]>) -> Option<Coming>
    ensures { (next : Next) → MatchOption first.entry (next ≡ None) (λ new. next ≡ Some new.now) → MatchOption result (next ≡ None) (λ new. next ≡ Some (new.first.now ++ new.second.now)) }
{
    match first {
        Some(first) => Some(Coming { first, second: &[] }),
        None => None,
    }
}

/// These symbols, and others behind them.
fn before(first: Option<&'static [Symbol]>, second: &'static [Symbol]) -> Option<Coming>
    ensures { (next : Next) → MatchOption first.entry (next ≡ None) (λ new. next ≡ Some new.now) → MatchOption result (onto next second.now ≡ None) (λ new. onto next second.now ≡ Some (new.first.now ++ new.second.now)) }
{
    match first {
        Some(first) => Some(Coming { first, second }),
        None => None,
    }
}

/// Either a type or an expression, with what is to come behind each.
fn type_or_expression(
    kind: TerminalKind,
    behind_type: &'static [Symbol],
    behind_expression: &'static [Symbol],
) -> Option<Coming>
    ensures { MatchOption result (either (onto (qualified kind) behind_type.now) (onto (expression kind) behind_expression.now) ≡ None) (λ new. either (onto (qualified kind) behind_type.now) (onto (expression kind) behind_expression.now) ≡ Some (new.first.now ++ new.second.now)) }
{
    match qualified_of(kind) {
        Some(first) => Some(Coming {
            first,
            second: behind_type,
        }),
        None => match expression_of(kind) {
            Some(first) => Some(Coming {
                first,
                second: behind_expression,
            }),
            None => None,
        },
    }
}

/// What stands in a block.
#[tactic(auto, using(crate::proofs::Codes::items_are))]
fn items_of(kind: TerminalKind) -> Option<Coming>
    ensures { MatchOption result (after s.Items kind ≡ None) (λ new. after s.Items kind ≡ Some (new.first.now ++ new.second.now)) }
{
    match specifiers_of(kind) {
        Some(first) => Some(Coming {
            first,
            second: &[
                Symbol::TwoStars,
                Symbol::Name,
                Symbol::Array,
                Symbol::Initialiser,
                Symbol::MoreItems,
                Symbol::Semicolon,
                Symbol::Items,
            ],
        }),
        None => match keyword_of(kind) {
            Some(first) => Some(Coming {
                first,
                second: &[Symbol::Items],
            }),
            None => match expression_of(kind) {
                Some(first) => Some(Coming {
                    first,
                    second: &[Symbol::Semicolon, Symbol::Items],
                }),
                None => None,
            },
        },
    }
}

/// The parameters of a function or a prototype, behind the `(`.
#[tactic(auto, using(crate::proofs::Codes::params_are, crate::proofs::Codes::whole_first))]
fn params_of(kind: TerminalKind) -> Option<Coming>
    ensures { MatchOption result (after s.Params kind ≡ None) (λ new. after s.Params kind ≡ Some (new.first.now ++ new.second.now)) }
{
    match params_front_of(kind) {
        Some(first) => Some(Coming { first, second: &[] }),
        None => match qualified_of(kind) {
            Some(first) => Some(Coming {
                first,
                second: &[Symbol::TwoStars, Symbol::AfterType(true)],
            }),
            None => None,
        },
    }
}

/// The first part of a `for`, with its semicolon.
#[tactic(auto, using(crate::proofs::Codes::init_is, crate::proofs::Codes::whole_first))]
fn for_init_of(kind: TerminalKind) -> Option<Coming>
    ensures { MatchOption result (after s.ForInit kind ≡ None) (λ new. after s.ForInit kind ≡ Some (new.first.now ++ new.second.now)) }
{
    match semicolon_of(kind) {
        Some(first) => Some(Coming { first, second: &[] }),
        None => match specifiers_of(kind) {
            Some(first) => Some(Coming {
                first,
                second: &[
                    Symbol::TwoStars,
                    Symbol::Name,
                    Symbol::Array,
                    Symbol::Initialiser,
                    Symbol::MoreItems,
                    Symbol::Semicolon,
                ],
            }),
            None => match expression_of(kind) {
                Some(first) => Some(Coming {
                    first,
                    second: &[Symbol::Semicolon],
                }),
                None => None,
            },
        },
    }
}

/// A statement.
fn statement_of(kind: TerminalKind) -> Option<Coming>
    ensures { MatchOption result (after s.Statement kind ≡ None) (λ new. after s.Statement kind ≡ Some (new.first.now ++ new.second.now)) }
{
    match keyword_of(kind) {
        Some(first) => Some(Coming { first, second: &[] }),
        None => match expression_of(kind) {
            Some(first) => Some(Coming {
                first,
                second: &[Symbol::Semicolon],
            }),
            None => None,
        },
    }
}

/// What is to come in a symbol's place behind its first token, if one of this kind may be first there. It isn't inlined: what each symbol asks of the token would be worked out before it is known which symbol is next.
#[tactic(auto, using(crate::proofs::Codes::whole_first, crate::proofs::Codes::after_open_is, crate::proofs::Codes::after_open_operand_is, crate::proofs::Codes::after_open_measured_is, crate::proofs::Codes::param_is))]
#[inline(never)]
fn after_of(symbol: Symbol, kind: TerminalKind) -> Option<Coming>
    ensures { MatchOption result (after symbol kind ≡ None) (λ new. after symbol kind ≡ Some (new.first.now ++ new.second.now)) }
{
    match symbol {
        Symbol::Open => alone(opening_of(kind)),
        Symbol::Close => alone(closing_of(kind)),
        Symbol::CloseBracket => alone(close_bracket_of(kind)),
        Symbol::CloseBrace => alone(close_brace_of(kind)),
        Symbol::Semicolon => alone(semicolon_of(kind)),
        Symbol::While => alone(while_of(kind)),
        Symbol::Name => alone(name_of(kind)),
        Symbol::Expression | Symbol::MaybeExpression => alone(expression_of(kind)),
        Symbol::Operand => alone(operand_of(kind)),
        Symbol::Unary => alone(unary_of(kind)),
        Symbol::Measured => alone(measured_of(kind)),
        Symbol::AfterOpen => type_or_expression(
            kind,
            &[
                Symbol::TwoStars,
                Symbol::Close,
                Symbol::Operand,
                Symbol::Tail(false),
            ],
            &[Symbol::Close, Symbol::Suffixes, Symbol::Tail(true)],
        ),
        Symbol::AfterOpenOperand => type_or_expression(
            kind,
            &[Symbol::TwoStars, Symbol::Close, Symbol::Operand],
            &[Symbol::Close, Symbol::Suffixes],
        ),
        Symbol::AfterOpenMeasured => type_or_expression(
            kind,
            &[Symbol::TwoStars, Symbol::Close],
            &[Symbol::Close, Symbol::Suffixes],
        ),
        Symbol::Call => alone(call_of(kind)),
        Symbol::Texts => alone(texts_of(kind)),
        Symbol::Suffixes => alone(suffixes_of(kind)),
        Symbol::Tail(true) => alone(assignment_of(kind)),
        Symbol::Tail(false) => alone(operator_of(kind)),
        Symbol::Arguments => before(expression_of(kind), &[Symbol::MoreArguments]),
        Symbol::MoreArguments => alone(more_arguments_of(kind)),
        Symbol::Qualified => alone(qualified_of(kind)),
        Symbol::Type => alone(type_of(kind)),
        Symbol::AfterUnsigned => alone(after_unsigned_of(kind)),
        Symbol::AfterLong => alone(after_long_of(kind)),
        Symbol::TwoStars => alone(two_stars_of(kind)),
        Symbol::OneStar => alone(one_star_of(kind)),
        Symbol::Array => alone(array_of(kind)),
        Symbol::Initialiser => alone(initialiser_of(kind)),
        Symbol::Initial => alone(initial_of(kind)),
        Symbol::MoreElements => alone(more_elements_of(kind)),
        Symbol::Elements => before(expression_of(kind), &[Symbol::MoreElements]),
        Symbol::MoreItems => alone(more_items_of(kind)),
        Symbol::Parts => before(
            specifiers_of(kind),
            &[
                Symbol::TwoStars,
                Symbol::Name,
                Symbol::AfterDeclared,
                Symbol::Parts,
            ],
        ),
        Symbol::AfterDeclared => alone(after_declared_of(kind)),
        Symbol::Params => params_of(kind),
        Symbol::AfterVoid => alone(after_void_of(kind)),
        Symbol::Param(true) => before(
            qualified_of(kind),
            &[Symbol::TwoStars, Symbol::AfterType(true)],
        ),
        Symbol::Param(false) => before(
            qualified_of(kind),
            &[Symbol::TwoStars, Symbol::AfterType(false)],
        ),
        Symbol::AfterType(true) => alone(after_named_type_of(kind)),
        Symbol::AfterType(false) => alone(after_nameless_type_of(kind)),
        Symbol::Brackets => alone(brackets_of(kind)),
        Symbol::MoreParams(true) => alone(more_named_params_of(kind)),
        Symbol::MoreParams(false) => alone(more_nameless_params_of(kind)),
        Symbol::Ending(true) => alone(named_ending_of(kind)),
        Symbol::Ending(false) => alone(ending_of(kind)),
        Symbol::Items => items_of(kind),
        Symbol::Statement => statement_of(kind),
        Symbol::AfterName => alone(after_name_of(kind)),
        Symbol::MaybeElse => alone(maybe_else_of(kind)),
        Symbol::ForInit => for_init_of(kind),
    }
}

/// Puts symbols in front of those that are to come: the stack's last is the first, so the last of them is put first.
fn put(stack: &mut Vec<Symbol>, new: &[Symbol]) -> Result<(), NoMemory>
    ensures { IfOk result (λ done. reverse stack.new.items ≡ new.now ++ reverse stack.old.items) }
{
    let mut at = new.len();
    'symbols: while at > 0 {
        at -= 1;
        stack.push(new[at])?;
    }
    Ok(())
}

/// Puts what comes behind a token in front of what is to come.
#[tactic(auto, using(crate::proofs::Codes::put_both))]
fn put_both(stack: &mut Vec<Symbol>, new: &Coming) -> Result<(), NoMemory>
    ensures { IfOk result (λ done. reverse stack.new.items ≡ (new.now.first.now ++ new.now.second.now) ++ reverse stack.old.items) }
{
    put(stack, new.second)?;
    put(stack, new.first)?;
    Ok(())
}

/// Whether a symbol may be empty.
pub fn is_optional(symbol: Symbol) -> bool
    ensures { result ≡ may_be_empty symbol }
{
    match symbol {
        Symbol::Call
        | Symbol::Texts
        | Symbol::Suffixes
        | Symbol::Tail(_)
        | Symbol::MaybeExpression
        | Symbol::Arguments
        | Symbol::MoreArguments
        | Symbol::AfterUnsigned
        | Symbol::AfterLong
        | Symbol::TwoStars
        | Symbol::OneStar
        | Symbol::Array
        | Symbol::Initialiser
        | Symbol::MoreElements
        | Symbol::Elements
        | Symbol::MoreItems
        | Symbol::Parts
        | Symbol::Brackets
        | Symbol::Items
        | Symbol::MaybeElse => true,
        _ => false,
    }
}

/// Takes one more token. `false`: it can't come.
#[tactic(auto, using(crate::proofs::Codes::feed_some, crate::proofs::Codes::feed_pass, crate::proofs::Codes::feed_none, crate::proofs::Codes::feed_empty))]
pub fn step(stack: &mut Vec<Symbol>, kind: TerminalKind) -> Result<bool, NoMemory>
    ensures { IfOk result (Steps (feed (reverse stack.old.items) kind) stack.new.items) }
{
    while let Some(symbol) = stack.pop() {
        if let Some(new) = after_of(symbol, kind) {
            put_both(stack, &new)?;
            return Ok(true);
        }
        if !is_optional(symbol) {
            return Ok(false);
        }
    }
    Ok(false)
}
