//! Expressions, by recursion on the nesting that is left.

ghost use Rattle.std.specs.Prelude.{◌≡◌, ◌+◌, ◌<◌, ◌≤◌, ℕ, suc, List, length, IfOk, IfSome, Ok, Err};
ghost use Rattle.cw_syntax.specs.Trees.{Tree, tree_of};
ghost use Rattle.cw_grammar.specs.declared.terminals.Lexeme.{Lexeme};
ghost use Rattle.cw_expressions.specs.declared.refusal.Refusal.TheVariants.{Syntax, TooDeep};
ghost use Rattle.cw_expressions.specs.Behind.{is_behind};
ghost use Rattle.cw_expressions.specs.Next.{IsNext, IsEnd, ends, answer, refused, next_expression};
ghost use Rattle.cw_grammar.specs.Expressions.{nesting_limit};
ghost use Rattle.cw_grammar.specs.declared.terminals.Terminal.TheVariants.{Comma};
ghost use Rattle.cw_expressions.specs.Cursor.{Gives, repeat, begins};
ghost use Rattle.cw_expressions.specs.Reading.{rest_of, rest_of_arguments, begins_cast, past_strings, is_suffixed, argument, arguments, named, between, primary, suffixed, postfix, size_of, prefixed, unary, cast, operand, joined, chain, assigned, expression, by_rule, read_at};
ghost use Rattle.cw_expressions.specs.View.{got, got_arguments, seen, IsInRange};

use crate::cursor::{begins_with, first_of, past, take};
use crate::found::{Found, FoundList, begun, call, join, leaf, over};
use crate::operators::{
    assign_next, binary_next_at, is_assign, is_looser, operator_next, sign_of, step_of,
    suffix_next, suffix_of,
};
use crate::refusal::Refusal;
use crate::types::{begins_type, type_between_at};
use cw_core::limits::NESTING;
use cw_grammar::rules::Rule;
use cw_grammar::terminals::{Lexeme, Terminal, is_same};
use cw_syntax::program::{Expr, Name, Op};
use std::alloc::Global;

/// Whether a type in parentheses is next.
#[inline(always)]
fn is_cast_next(tokens: &[Lexeme]) -> bool
    ensures { result ≡ begins_cast tokens.now }
{
    match tokens {
        [] => false,
        [_] => false,
        [open, terminal, ..] => is_same(open.terminal, Terminal::Open)
            && begins_type(terminal.terminal),
    }
}

/// Past strings: the place after the last, and the tokens after it.
fn strings_end(to: u32, tokens: &[Lexeme]) -> (u32, &[Lexeme])
    ensures { (result.0, result.1.now) ≡ past_strings to tokens.now }
{
    let mut end = to;
    let mut rest = tokens;
    'strings: while let [first, after @ ..] = rest {
        if !is_same(first.terminal, Terminal::Text) {
            return (end, rest);
        }
        end = first.to;
        rest = after;
    }
    (end, rest)
}

/// Whether a terminal is one of the punctuators that follow an expression.
#[inline(always)]
fn is_end(terminal: Terminal) -> bool
    ensures { result ≡ ends terminal }
{
    match terminal {
        Terminal::Close
        | Terminal::CloseBracket
        | Terminal::CloseBrace
        | Terminal::Comma
        | Terminal::Semicolon => true,
        _ => false,
    }
}

/// Whether `[`, `++` or `--` is next.
#[inline(always)]
fn has_suffix(tokens: &[Lexeme]) -> bool
    ensures { result ≡ is_suffixed tokens.now }
{
    begins_with(tokens, Terminal::OpenBracket) || suffix_next(tokens).is_some()
}

/// Whether a terminal ends what this rule reads, if an operand stands before it.
#[inline(always)]
fn is_behind(rule: Rule, terminal: Terminal) -> bool
    ensures { result ≡ is_behind rule terminal }
{
    if is_end(terminal) {
        return true;
    }
    match rule {
        Rule::Level(level) => is_assign(terminal) || is_looser(level, terminal),
        _ => false,
    }
}

/// A token that is all of what the rule reads, by the terminal behind it. Most expressions are read so: the rules lead to the
/// same, but by a way through all of them.
#[inline(always)]
fn alone_next<'t>(alloc: Global, rule: Rule, tokens: &'t [Lexeme]) -> Option<Found<'t>>
    ensures gives { IfSome result (λ x. (n : ℕ) → by_rule (read_at n) n rule tokens.now ≡ Ok (got x)) }
    ensures fits { IfSome result (λ x. x.depth ≡ 1) }
{
    let [first, next, ..] = tokens else {
        return None;
    };
    if !is_behind(rule, next.terminal) {
        return None;
    }
    let rest = past(tokens);
    match first.terminal {
        Terminal::Name => Some(leaf(alloc, Op::Name, first.from, first.to, rest)),
        Terminal::Number(value) => {
            let op = Op::Number(value);
            Some(leaf(alloc, op, first.from, first.to, rest))
        }
        Terminal::Character(value) => {
            let op = Op::Char(value);
            Some(leaf(alloc, op, first.from, first.to, rest))
        }
        _ => None,
    }
}

/// What stands at the front by this rule, with at most this nesting. It stands in its callers, so that a token that is all of what is
/// read costs no call.
#[inline(always)]
#[cycle(parser)]
fn read<'t>(
    alloc: Global,
    depth: u32,
    rule: Rule,
    tokens: &'t [Lexeme],
) -> Result<Found<'t>, Refusal>
    requires deep { depth < 65 }
    requires rule { IsInRange rule }
    ensures gives { Gives got result (read_at depth rule tokens.now) }
    ensures fits { IfOk result (λ x. x.depth ≤ depth) }
{
    if depth == 0 {
        return Err(Refusal::TooDeep);
    }
    match alone_next(alloc, rule, tokens) {
        Some(found) => Ok(found),
        None => by_rule_at(alloc, depth - 1, rule, tokens),
    }
}

/// What the tokens begin with by a rule of the grammar, with `depth` nestings left.
#[inline(always)]
#[cycle(parser)]
fn by_rule_at<'t>(
    alloc: Global,
    depth: u32,
    rule: Rule,
    tokens: &'t [Lexeme],
) -> Result<Found<'t>, Refusal>
    requires deep { depth < NESTING }
    requires rule { IsInRange rule }
    ensures gives { Gives got result (by_rule (read_at depth) depth rule tokens.now) }
    ensures fits { IfOk result (λ x. x.depth ≤ depth + 1) }
{
    match rule {
        Rule::Expression => expression_at(alloc, depth, tokens),
        Rule::Level(level) => level_called(alloc, depth, level, tokens),
        Rule::Unary => unary_called(alloc, depth, tokens),
        Rule::Postfix => postfix_called(alloc, depth, tokens),
    }
}

/// `level_at` by a call. It stands itself in its callers, as all do that aren't called by `by_rule_at`.
#[cycle(parser)]
fn level_called<'t>(
    alloc: Global,
    depth: u32,
    level: u32,
    tokens: &'t [Lexeme],
) -> Result<Found<'t>, Refusal>
    requires deep { depth < NESTING }
    requires level { level ≤ 10 }
    ensures gives { Gives got result (chain (read_at depth) depth level tokens.now) }
    ensures fits { IfOk result (λ x. x.depth ≤ depth + 1) }
{
    level_at(alloc, depth, level, tokens)
}

/// `unary_at` by a call.
#[cycle(parser)]
fn unary_called<'t>(alloc: Global, depth: u32, tokens: &'t [Lexeme]) -> Result<Found<'t>, Refusal>
    requires deep { depth < NESTING }
    ensures gives { Gives got result (unary (read_at depth) depth tokens.now) }
    ensures fits { IfOk result (λ x. x.depth ≤ depth + 1) }
{
    unary_at(alloc, depth, tokens)
}

/// `postfix_at` by a call.
#[cycle(parser)]
fn postfix_called<'t>(alloc: Global, depth: u32, tokens: &'t [Lexeme]) -> Result<Found<'t>, Refusal>
    requires deep { depth < NESTING }
    ensures gives { Gives got result (postfix (read_at depth) depth tokens.now) }
    ensures fits { IfOk result (λ x. x.depth ≤ depth + 1) }
{
    postfix_at(alloc, depth, tokens)
}

/// An expression, or an assignment where its target is a unary (ISO C11, 6.5.16).
#[cycle(parser)]
#[tactic(auto, unfolding(crate::specs::Reading::expression, cw_grammar::specs::Expressions::loosest))]
fn expression_at<'t>(alloc: Global, depth: u32, tokens: &'t [Lexeme]) -> Result<Found<'t>, Refusal>
    requires deep { depth < NESTING }
    ensures gives { Gives got result (expression (read_at depth) depth tokens.now) }
    ensures fits { IfOk result (λ x. x.depth ≤ depth + 1) }
{
    let target = level_at(alloc, depth, 10, tokens)?;
    match assign_next(target.rest) {
        Some(number) => {
            if target.unary {
                assigned_at(alloc, depth, number, target)
            } else {
                Ok(target)
            }
        }
        None => Ok(target),
    }
}

/// Behind the target of an assignment.
#[inline(always)]
#[cycle(parser)]
#[tactic(auto, unfolding(crate::specs::Reading::assigned))]
fn assigned_at<'t>(
    alloc: Global,
    depth: u32,
    number: u8,
    target: Found<'t>,
) -> Result<Found<'t>, Refusal>
    requires deep { depth < NESTING }
    requires target { target.depth ≤ depth + 1 }
    ensures gives { Gives got result (assigned (read_at depth) depth number (got target.entry)) }
    ensures fits { IfOk result (λ x. x.depth ≤ depth + 1) }
{
    let value = read(alloc, depth, Rule::Expression, past(target.rest))?;
    if depth < target.depth.max(value.depth) {
        return Err(Refusal::TooDeep);
    }
    join(alloc, Op::Assign(number), false, target, value)
}

/// A chain of binary operators of this level. Behind what was read so far is no operator that binds tighter than the last.
#[inline(always)]
#[cycle(parser)]
fn level_at<'t>(
    alloc: Global,
    depth: u32,
    level: u32,
    tokens: &'t [Lexeme],
) -> Result<Found<'t>, Refusal>
    requires deep { depth < NESTING }
    requires level { level ≤ 10 }
    ensures gives { Gives got result (chain (read_at depth) depth level tokens.now) }
    ensures fits { IfOk result (λ x. x.depth ≤ depth + 1) }
{
    let mut so_far = operand_at(alloc, depth, tokens)?;
    let mut below = 0;
    'operators: while let Some(next) = operator_next(below, level, so_far.rest) {
        below = next;
        so_far = joined_at(alloc, depth, next, so_far)?;
    }
    Ok(so_far)
}

/// Behind the first operand of a binary operator.
#[inline(always)]
#[cycle(parser)]
#[tactic(auto, unfolding(crate::specs::Reading::joined))]
fn joined_at<'t>(
    alloc: Global,
    depth: u32,
    below: u32,
    first: Found<'t>,
) -> Result<Found<'t>, Refusal>
    requires deep { depth < NESTING }
    requires level { below < 10 }
    requires first { first.depth ≤ depth + 1 }
    ensures gives { Gives got result (joined (read_at depth) depth below (got first.entry)) }
    ensures fits { IfOk result (λ x. x.depth ≤ depth + 1) }
{
    let Some(number) = binary_next_at(below + 1, first.rest) else {
        return Err(Refusal::Syntax);
    };
    let second = read(alloc, depth, Rule::Level(below), past(first.rest))?;
    if depth < first.depth.max(second.depth) {
        return Err(Refusal::TooDeep);
    }
    join(alloc, Op::Binary(number), false, first, second)
}

/// A cast, or a unary (ISO C11, 6.5.4).
#[inline(always)]
#[cycle(parser)]
#[tactic(auto, unfolding(crate::specs::Reading::operand))]
fn operand_at<'t>(alloc: Global, depth: u32, tokens: &'t [Lexeme]) -> Result<Found<'t>, Refusal>
    requires deep { depth < NESTING }
    ensures gives { Gives got result (operand (read_at depth) depth tokens.now) }
    ensures fits { IfOk result (λ x. x.depth ≤ depth + 1) }
{
    if let Some(found) = alone_next(alloc, Rule::Level(0), tokens) {
        return Ok(found);
    }
    if is_cast_next(tokens) {
        return cast_called(alloc, depth, tokens);
    }
    unary_at(alloc, depth, tokens)
}

/// `cast_at` by a call. This stands in its callers, as do the next two: so the place of what the call gives is one of its own, and is
/// cleared only where there is a call, while an operand that needs none stays in registers.
#[inline(always)]
#[cycle(parser)]
fn cast_called<'t>(alloc: Global, depth: u32, tokens: &'t [Lexeme]) -> Result<Found<'t>, Refusal>
    requires deep { depth < NESTING }
    ensures gives { Gives got result (cast (read_at depth) depth tokens.now) }
    ensures fits { IfOk result (λ x. x.depth ≤ depth + 1) }
{
    cast_at(alloc, depth, tokens)
}

/// `prefixed_at` by a call.
#[inline(always)]
#[cycle(parser)]
fn prefixed_called<'t>(
    alloc: Global,
    depth: u32,
    number: u8,
    rule: Rule,
    prefix: &Lexeme,
    tokens: &'t [Lexeme],
) -> Result<Found<'t>, Refusal>
    requires deep { depth < NESTING }
    requires rule { IsInRange rule }
    ensures gives { Gives got result (prefixed (read_at depth) depth number rule prefix.now tokens.now) }
    ensures fits { IfOk result (λ x. x.depth ≤ depth + 1) }
{
    prefixed_at(alloc, depth, number, rule, prefix, tokens)
}

/// `size_of_at` by a call.
#[inline(always)]
#[cycle(parser)]
fn size_of_called<'t>(
    alloc: Global,
    depth: u32,
    keyword: &Lexeme,
    tokens: &'t [Lexeme],
) -> Result<Found<'t>, Refusal>
    requires deep { depth < NESTING }
    ensures gives { Gives got result (size_of (read_at depth) depth keyword.now tokens.now) }
    ensures fits { IfOk result (λ x. x.depth ≤ depth + 1) }
{
    size_of_at(alloc, depth, keyword, tokens)
}

/// A type in parentheses and the operand behind it (ISO C11, 6.5.4).
#[cycle(parser)]
#[tactic(auto, unfolding(crate::specs::Reading::cast))]
fn cast_at<'t>(alloc: Global, depth: u32, tokens: &'t [Lexeme]) -> Result<Found<'t>, Refusal>
    requires deep { depth < NESTING }
    ensures gives { Gives got result (cast (read_at depth) depth tokens.now) }
    ensures fits { IfOk result (λ x. x.depth ≤ depth + 1) }
{
    let ((kind, (from, _)), rest) = type_between_at(tokens)?;
    let part = read(alloc, depth, Rule::Level(0), rest)?;
    over(alloc, Op::Cast(kind), false, from, part)
}

/// An operand with the operator before it, if there is one (ISO C11, 6.5.3).
#[inline(always)]
#[cycle(parser)]
#[tactic(auto, unfolding(crate::specs::Reading::unary))]
fn unary_at<'t>(alloc: Global, depth: u32, tokens: &'t [Lexeme]) -> Result<Found<'t>, Refusal>
    requires deep { depth < NESTING }
    ensures gives { Gives got result (unary (read_at depth) depth tokens.now) }
    ensures fits { IfOk result (λ x. x.depth ≤ depth + 1) }
{
    let [first, rest @ ..] = tokens else {
        return Err(Refusal::Syntax);
    };
    if let Some(number) = sign_of(first.terminal) {
        return prefixed_called(alloc, depth, number, Rule::Level(0), first, rest);
    }
    if let Some(number) = step_of(first.terminal) {
        return prefixed_called(alloc, depth, number, Rule::Unary, first, rest);
    }
    if is_same(first.terminal, Terminal::SizeOf) {
        return size_of_called(alloc, depth, first, rest);
    }
    postfix_at(alloc, depth, tokens)
}

/// Behind a prefix.
#[cycle(parser)]
#[tactic(auto, unfolding(crate::specs::Reading::prefixed))]
fn prefixed_at<'t>(
    alloc: Global,
    depth: u32,
    number: u8,
    rule: Rule,
    prefix: &Lexeme,
    tokens: &'t [Lexeme],
) -> Result<Found<'t>, Refusal>
    requires deep { depth < NESTING }
    requires rule { IsInRange rule }
    ensures gives { Gives got result (prefixed (read_at depth) depth number rule prefix.now tokens.now) }
    ensures fits { IfOk result (λ x. x.depth ≤ depth + 1) }
{
    let part = read(alloc, depth, rule, tokens)?;
    over(alloc, Op::Prefix(number), true, prefix.from, part)
}

/// Behind `sizeof`.
#[cycle(parser)]
#[tactic(auto, unfolding(crate::specs::Reading::size_of))]
fn size_of_at<'t>(
    alloc: Global,
    depth: u32,
    keyword: &Lexeme,
    tokens: &'t [Lexeme],
) -> Result<Found<'t>, Refusal>
    requires deep { depth < NESTING }
    ensures gives { Gives got result (size_of (read_at depth) depth keyword.now tokens.now) }
    ensures fits { IfOk result (λ x. x.depth ≤ depth + 1) }
{
    if is_cast_next(tokens) {
        let ((kind, (_, to)), rest) = type_between_at(tokens)?;
        return Ok(leaf(alloc, Op::SizeOfType(kind), keyword.from, to, rest));
    }
    let part = read(alloc, depth, Rule::Unary, tokens)?;
    over(alloc, Op::SizeOf, true, keyword.from, part)
}

/// A primary and what stands behind it (ISO C11, 6.5.2).
#[inline(always)]
#[cycle(parser)]
#[tactic(auto, unfolding(crate::specs::Reading::postfix))]
fn postfix_at<'t>(alloc: Global, depth: u32, tokens: &'t [Lexeme]) -> Result<Found<'t>, Refusal>
    requires deep { depth < NESTING }
    ensures gives { Gives got result (postfix (read_at depth) depth tokens.now) }
    ensures fits { IfOk result (λ x. x.depth ≤ depth + 1) }
{
    let first = primary_at(alloc, depth, tokens)?;
    suffixed_all(alloc, depth, first)
}

/// An operand with all indexes and operators that stand behind it.
#[inline(always)]
#[cycle(parser)]
fn suffixed_all<'t>(alloc: Global, depth: u32, first: Found<'t>) -> Result<Found<'t>, Refusal>
    requires deep { depth < NESTING }
    requires first { first.depth ≤ depth + 1 }
    ensures gives { Gives got result (repeat rest_of is_suffixed (suffixed (read_at depth) depth) (suc (length first.entry.rest.now)) (got first.entry)) }
    ensures fits { IfOk result (λ x. x.depth ≤ depth + 1) }
{
    let mut so_far = first;
    'suffixes: while has_suffix(so_far.rest) {
        so_far = suffixed_at(alloc, depth, so_far)?;
    }
    Ok(so_far)
}

/// Behind a postfix: an index, `++` or `--`.
#[inline(always)]
#[cycle(parser)]
#[tactic(auto, unfolding(crate::specs::Reading::suffixed))]
fn suffixed_at<'t>(alloc: Global, depth: u32, first: Found<'t>) -> Result<Found<'t>, Refusal>
    requires deep { depth < NESTING }
    requires first { first.depth ≤ depth + 1 }
    ensures gives { Gives got result (suffixed (read_at depth) depth (got first.entry)) }
    ensures fits { IfOk result (λ x. x.depth ≤ depth + 1) }
{
    if begins_with(first.rest, Terminal::OpenBracket) {
        let index = read(alloc, depth, Rule::Expression, past(first.rest))?;
        let (close, rest) = take(index.rest, Terminal::CloseBracket)?;
        if depth < first.depth.max(index.depth) {
            return Err(Refusal::TooDeep);
        }
        let to = close.to;
        return join(alloc, Op::Index, true, first, Found { to, rest, ..index });
    }
    let (suffix, rest) = first_of(first.rest)?;
    let Some(number) = suffix_of(suffix.terminal) else {
        return Err(Refusal::Syntax);
    };
    if depth < first.depth {
        return Err(Refusal::TooDeep);
    }
    let from = first.from;
    let to = suffix.to;
    over(
        alloc,
        Op::Suffix(number),
        true,
        from,
        Found { to, rest, ..first },
    )
}

/// A name, a call, a number, a character, strings, or an expression in parentheses (ISO C11, 6.5.1).
#[inline(always)]
#[cycle(parser)]
#[tactic(auto, unfolding(crate::specs::Reading::primary))]
fn primary_at<'t>(alloc: Global, depth: u32, tokens: &'t [Lexeme]) -> Result<Found<'t>, Refusal>
    requires deep { depth < NESTING }
    ensures gives { Gives got result (primary (read_at depth) depth tokens.now) }
    ensures fits { IfOk result (λ x. x.depth ≤ depth + 1) }
{
    let [first, rest @ ..] = tokens else {
        return Err(Refusal::Syntax);
    };
    match first.terminal {
        Terminal::Name => named_at(alloc, depth, *first, rest),
        Terminal::Number(value) => {
            let op = Op::Number(value);
            Ok(leaf(alloc, op, first.from, first.to, rest))
        }
        Terminal::Character(value) => {
            let op = Op::Char(value);
            Ok(leaf(alloc, op, first.from, first.to, rest))
        }
        Terminal::Text => {
            let (to, rest) = strings_end(first.to, rest);
            Ok(leaf(alloc, Op::Text, first.from, to, rest))
        }
        Terminal::Open => between_at(alloc, depth, *first, rest),
        _ => Err(Refusal::Syntax),
    }
}

/// Behind a parenthesis.
#[inline(always)]
#[cycle(parser)]
#[tactic(auto, unfolding(crate::specs::Reading::between))]
fn between_at<'t>(
    alloc: Global,
    depth: u32,
    before: Lexeme,
    tokens: &'t [Lexeme],
) -> Result<Found<'t>, Refusal>
    requires deep { depth < NESTING }
    ensures gives { Gives got result (between (read_at depth) depth before tokens.now) }
    ensures fits { IfOk result (λ x. x.depth ≤ depth + 1) }
{
    let inner = read(alloc, depth, Rule::Expression, tokens)?;
    let (close, rest) = take(inner.rest, Terminal::Close)?;
    Ok(Found {
        tree: inner.tree,
        unary: true,
        depth: inner.depth + 1,
        from: before.from,
        to: close.to,
        rest,
    })
}

/// Behind a name: the name, or a call of it.
#[inline(always)]
#[cycle(parser)]
#[tactic(auto, unfolding(crate::specs::Reading::named))]
fn named_at<'t>(
    alloc: Global,
    depth: u32,
    name: Lexeme,
    tokens: &'t [Lexeme],
) -> Result<Found<'t>, Refusal>
    requires deep { depth < NESTING }
    ensures gives { Gives got result (named (read_at depth) depth name tokens.now) }
    ensures fits { IfOk result (λ x. x.depth ≤ depth + 1) }
{
    if begins_with(tokens, Terminal::Open) {
        let found = arguments_at(alloc, depth, past(tokens))?;
        let (close, rest) = take(found.rest, Terminal::Close)?;
        let called = Name {
            from: name.from,
            to: name.to,
        };
        return Ok(call(called, close.to, found, rest));
    }
    Ok(leaf(alloc, Op::Name, name.from, name.to, tokens))
}

/// Arguments up to a parenthesis.
#[cycle(parser)]
#[tactic(auto, unfolding(crate::specs::Reading::arguments))]
fn arguments_at<'t>(
    alloc: Global,
    depth: u32,
    tokens: &'t [Lexeme],
) -> Result<FoundList<'t>, Refusal>
    requires deep { depth < NESTING }
    ensures gives { Gives got_arguments result (arguments (read_at depth) depth tokens.now) }
    ensures fits { IfOk result (λ x. x.depth ≤ depth) }
{
    if begins_with(tokens, Terminal::Close) {
        return Ok(FoundList {
            list: Vec::new(alloc),
            depth: 0,
            rest: tokens,
        });
    }
    let first = read(alloc, depth, Rule::Expression, tokens)?;
    let list = begun(alloc, first.tree, begins_with(first.rest, Terminal::Comma))?;
    let first = FoundList {
        list,
        depth: first.depth,
        rest: first.rest,
    };
    arguments_all(alloc, depth, first)
}

/// The arguments of a call behind the first.
#[cycle(parser)]
fn arguments_all<'t>(
    alloc: Global,
    depth: u32,
    first: FoundList<'t>,
) -> Result<FoundList<'t>, Refusal>
    requires deep { depth < NESTING }
    requires first { first.depth ≤ depth }
    ensures gives { Gives got_arguments result (repeat rest_of_arguments (begins Comma) (argument (read_at depth) depth) (suc (length first.entry.rest.now)) (got_arguments first.entry)) }
    ensures fits { IfOk result (λ x. x.depth ≤ depth) }
{
    let mut so_far = first;
    'arguments: while begins_with(so_far.rest, Terminal::Comma) {
        so_far = argument_at(alloc, depth, so_far)?;
    }
    // To give back the one place that three arguments leave free costs more than it is worth.
    if so_far.list.len() == 3 {
        return Ok(so_far);
    }
    so_far.list.shrink_to_fit();
    Ok(so_far)
}

/// Behind a comma.
#[cycle(parser)]
#[tactic(auto, unfolding(crate::specs::Reading::argument))]
fn argument_at<'t>(
    alloc: Global,
    depth: u32,
    before: FoundList<'t>,
) -> Result<FoundList<'t>, Refusal>
    requires deep { depth < NESTING }
    requires before { before.depth ≤ depth }
    ensures gives { Gives got_arguments result (argument (read_at depth) depth (got_arguments before.entry)) }
    ensures fits { IfOk result (λ x. x.depth ≤ depth) }
{
    let next = read(alloc, depth, Rule::Expression, past(before.rest))?;
    let mut list = before.list;
    list.push(next.tree)?;
    Ok(FoundList {
        list,
        depth: before.depth.max(next.depth),
        rest: next.rest,
    })
}

/// An expression, nested within the limit.
#[inline(always)]
#[tactic(auto, unfolding(crate::specs::Next::next_expression, cw_grammar::specs::Expressions::nesting_limit))]
fn expression_next<'t>(alloc: Global, tokens: &'t [Lexeme]) -> Result<(Expr, &'t [Lexeme]), Refusal>
    ensures { Gives seen result (next_expression tokens.now) }
{
    let found = read(alloc, NESTING as u32, Rule::Expression, tokens)?;
    Ok((found.tree, found.rest))
}

/// The expression that is next, and the tokens after it. Tokens are any: Syntax comes only where no expression is next,
/// however deep it might nest, and TooDeep where one is next that nests more than 64 deep, and perhaps where none is. A span
/// goes from the first byte of an expression's tokens to the last; parentheses around an expression are none of them, and count
/// as nesting, as does each operator of a chain. How deep calls nest is bounded. Public source: ISO/IEC 9899:2011, 6.5.
pub fn read_expression<'t>(
    alloc: Global,
    tokens: &'t [Lexeme],
) -> Result<(Expr, &'t [Lexeme]), Refusal>
    // What is read is next.
    ensures found { IfOk result (λ x. IsNext nesting_limit tokens.now (tree_of x.0) x.1.now) }
    // What is next is read, unless memory runs out.
    ensures only { (e : Tree) (rest : List Lexeme) → IsNext nesting_limit tokens.now e rest → IsEnd rest
        → Gives seen result (answer e rest) }
    // What is next and nests too deep is refused as such, unless memory runs out.
    ensures deep { (n : ℕ) (e : Tree) (rest : List Lexeme) → IsNext n tokens.now e rest → IsEnd rest
        → ¬ (IsNext nesting_limit tokens.now e rest) → Gives seen result (refused TooDeep) }
    ensures syntax { result ≡ Err Syntax
        → (n : ℕ) (e : Tree) (rest : List Lexeme) → IsNext n tokens.now e rest → IsEnd rest → ⊥ }
    // Which answer comes where no expression is next.
    ensures exact { Gives seen result (next_expression tokens.now) }
{
    expression_next(alloc, tokens)
}

/// Tokens have at most one expression that is next, whatever its nesting.
pub fn fact_one_expression()
    ensures one { (m n : ℕ) (ts : List Lexeme) (e f : Tree) (a b : List Lexeme)
        → IsNext m ts e a → IsEnd a → IsNext n ts f b → IsEnd b → (e ≡ f) × (a ≡ b) }
{}
