//! What was read, and the tokens after it.

ghost use Rattle.std.specs.Prelude.{◌≡◌, ◌+◌, ◌<◌, max, [], ◌∷◌, Ok, true, map, IfOk};
ghost use Rattle.cw_syntax.specs.declared.program.Op.TheVariants as op;
ghost use Rattle.cw_syntax.specs.Trees.{tree_of};
ghost use Rattle.cw_expressions.specs.Cursor.{Gives};
ghost use Rattle.cw_expressions.specs.Reading.{built};
ghost use Rattle.cw_expressions.specs.View.{got};

use crate::refusal::Refusal;
use cw_grammar::terminals::Lexeme;
use cw_syntax::program::{Expr, Name, Op};
use std::alloc::{AllocError, Global};

/// An expression that was read: whether it is a unary, how deep it nests, where its first token begins and its last ends (a
/// parenthesis counts), and the tokens after it.
#[derive(Drop)]
pub struct Found<'t> {
    pub tree: Expr,
    pub unary: bool,
    pub depth: u32,
    pub from: u32,
    pub to: u32,
    pub rest: &'t [Lexeme],
}

/// Expressions between commas, the greatest nesting among them, and the tokens after them.
#[derive(Drop)]
pub struct FoundList<'t> {
    pub list: Vec<Expr>,
    pub depth: u32,
    pub rest: &'t [Lexeme],
}

/// The list of this tree alone, with no room to spare.
#[inline(always)]
fn only(alloc: Global, tree: Expr) -> Result<Vec<Expr>, AllocError>
    ensures items { IfOk result (λ list. list.items ≡ tree ∷ []) }
{
    let mut list = Vec::with_capacity(alloc, 1)?;
    list.push_reserved(tree);
    Ok(list)
}

/// The list of these two trees, with no room to spare. They are moved into it one by one: an array of both would be one more copy.
#[inline(always)]
fn pair(alloc: Global, first: Expr, second: Expr) -> Result<Vec<Expr>, AllocError>
    ensures items { IfOk result (λ list. list.items ≡ first ∷ second ∷ []) }
{
    let mut list = Vec::with_capacity(alloc, 2)?;
    list.push_reserved(first);
    list.push_reserved(second);
    Ok(list)
}

/// The list of this tree. Where more come, there is room for as many as most calls have, and else none to spare.
#[inline(always)]
pub(crate) fn begun(alloc: Global, tree: Expr, more: bool) -> Result<Vec<Expr>, AllocError>
    ensures items { IfOk result (λ list. list.items ≡ tree ∷ []) }
{
    let room = if more { 4 } else { 1 };
    let mut list = Vec::with_capacity(alloc, room)?;
    list.push_reserved(tree);
    Ok(list)
}

/// An expression without parts.
#[inline(always)]
pub(crate) fn leaf(alloc: Global, op: Op, from: u32, to: u32, rest: &[Lexeme]) -> Found<'_>
    ensures { got result ≡ built op [] true 1 from to rest.now }
{
    Found {
        tree: Expr {
            op,
            parts: Vec::new(alloc),
            from,
            to,
        },
        unary: true,
        depth: 1,
        from,
        to,
        rest,
    }
}

/// An expression of one part.
#[inline(always)]
pub(crate) fn over<'t>(
    alloc: Global,
    op: Op,
    unary: bool,
    from: u32,
    part: Found<'t>,
) -> Result<Found<'t>, Refusal>
    requires { part.depth < 65 }
    ensures { Gives got result (Ok (built op (tree_of part.entry.tree ∷ []) unary (part.entry.depth + 1) from part.entry.to part.entry.rest.now)) }
{
    let parts = only(alloc, part.tree)?;
    Ok(Found {
        tree: Expr {
            op,
            parts,
            from,
            to: part.to,
        },
        unary,
        depth: part.depth + 1,
        from,
        to: part.to,
        rest: part.rest,
    })
}

/// An expression of two parts.
#[inline(always)]
pub(crate) fn join<'t>(
    alloc: Global,
    op: Op,
    unary: bool,
    first: Found<'_>,
    second: Found<'t>,
) -> Result<Found<'t>, Refusal>
    requires first { first.depth < 65 }
    requires second { second.depth < 65 }
    ensures { Gives got result (Ok (built op (tree_of first.entry.tree ∷ tree_of second.entry.tree ∷ []) unary (max first.entry.depth second.entry.depth + 1) first.entry.from second.entry.to second.entry.rest.now)) }
{
    let parts = pair(alloc, first.tree, second.tree)?;
    Ok(Found {
        tree: Expr {
            op,
            parts,
            from: first.from,
            to: second.to,
        },
        unary,
        depth: first.depth.max(second.depth) + 1,
        from: first.from,
        to: second.to,
        rest: second.rest,
    })
}

/// A call.
#[inline(always)]
pub(crate) fn call<'t>(
    name: Name,
    to: u32,
    arguments: FoundList<'_>,
    rest: &'t [Lexeme],
) -> Found<'t>
    requires { arguments.depth < 65 }
    ensures { got result ≡ built (op.Call name) (map tree_of arguments.entry.list.items) true (arguments.entry.depth + 1) name.from to rest.now }
{
    Found {
        tree: Expr {
            op: Op::Call(name),
            parts: arguments.list,
            from: name.from,
            to,
        },
        unary: true,
        depth: arguments.depth + 1,
        from: name.from,
        to,
        rest,
    }
}
