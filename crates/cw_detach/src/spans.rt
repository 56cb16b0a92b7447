//! The calls of detached functions: those that are whole statements, and those whose result is taken.

ghost use Rattle.std.specs.Prelude.{◌≡◌, ℕ, Some, None, cond, map, slice_get, IfOk};
ghost use Rattle.std.specs.List.{filter_map};
ghost use Rattle.cw_syntax.specs.Trees.{Node, tree_of, trees_of, statement_of};
ghost use Rattle.cw_scope.specs.Held.{nested_of};
ghost use Rattle.cw_detach.specs.Form.{calls_one, span_of, place_if, result_of, result_in};
ghost use Rattle.cw_resolve.specs.Held.{lists};

use crate::names::is_among;
use cw_core::NoMemory;
use cw_scope::Nested;
use cw_syntax::names::text;
use cw_syntax::program::{Expr, Op, Stmt, What};
use std::alloc::Global;

/// A stretch of the source: the place of its first byte, counted in bytes from 0, and the place after its last.
#[derive(Clone, Copy, Drop)]
pub(crate) struct Span {
    pub from: u32,
    pub to: u32,
}

/// Whether an expression is a call of one of these functions.
pub(crate) fn calls_one(source: &[u8], names: &[Vec<u8>], e: &Expr) -> bool
    ensures { result ≡ calls_one source.now (lists names.now) (tree_of e.now) }
{
    match e.op {
        Op::Call(name) => is_among(names, text(source, name)),
        _ => false,
    }
}

/// A span, where there is one.
fn span_if(there: bool, from: u32, to: u32) -> Option<Span>
    ensures { result ≡ cond there (Some (record { from = from; to = to })) None }
{
    if there { Some(Span { from, to }) } else { None }
}

/// The span of a statement that is a call of one of these functions.
fn span_of(source: &[u8], names: &[Vec<u8>], statement: &Stmt) -> Option<Span>
    ensures { result ≡ span_of source.now (lists names.now) (statement_of statement.now) }
{
    match &statement.what {
        What::Expr(e) => span_if(calls_one(source, names, e), statement.from, statement.to),
        What::Block(_) | What::Label(_, _, _) | What::If(_, _, _) => None,
        What::While(_, _) | What::Do(_, _) => None,
        What::For(_, _) => None,
        What::Decl(_) | What::Empty => None,
        What::Break | What::Continue | What::Return(_) => None,
    }
}

/// The spans of those of these statements that are such calls.
pub(crate) fn spans(
    alloc: Global,
    source: &[u8],
    names: &[Vec<u8>],
    statements: &[Nested],
) -> Result<Vec<Span>, NoMemory>
    ensures { IfOk result (λ spans. spans.items ≡ filter_map (λ p. span_of source.now (lists names.now) p.statement) (map nested_of statements.now)) }
{
    let mut spans = Vec::new(alloc);
    for nested in statements {
        if let Some(span) = span_of(source, names, nested.statement) {
            spans.push(span)?;
        }
    }
    Ok(spans)
}

/// The place of an expression that is a call of one of these functions.
fn place_if(source: &[u8], names: &[Vec<u8>], call: &Expr) -> Option<u32>
    ensures { result ≡ place_if source.now (lists names.now) (tree_of call.now) }
{
    if calls_one(source, names, call) {
        Some(call.from)
    } else {
        None
    }
}

/// The place of such a call on the right of an assignment of these parts by an operator of this number: 0 is `=`.
fn assigned(source: &[u8], names: &[Vec<u8>], by: u8, parts: &[Expr]) -> Option<u32>
    ensures { (from to : ℕ) → result ≡ result_of source.now (lists names.now) (Node (Op.Assign by) (trees_of parts.now) from to) }
{
    if by != 0 {
        return None;
    }
    match parts {
        [] => None,
        [_] => None,
        [_, call] => place_if(source, names, call),
        [_, _, _, ..] => None,
    }
}

/// The place of such a call on the right of an assignment.
fn result_of(source: &[u8], names: &[Vec<u8>], e: &Expr) -> Option<u32>
    ensures { result ≡ result_of source.now (lists names.now) (tree_of e.now) }
{
    match e.op {
        Op::Assign(by) => assigned(source, names, by, &e.parts),
        _ => None,
    }
}

/// The place of such a call whose result a statement takes.
fn result_in(source: &[u8], names: &[Vec<u8>], statement: &Stmt) -> Option<u32>
    ensures { result ≡ result_in source.now (lists names.now) (statement_of statement.now) }
{
    match &statement.what {
        What::Expr(e) => result_of(source, names, e),
        What::Block(_) | What::Label(_, _, _) | What::If(_, _, _) => None,
        What::While(_, _) | What::Do(_, _) => None,
        What::For(_, _) => None,
        What::Decl(_) | What::Empty => None,
        What::Break | What::Continue | What::Return(_) => None,
    }
}

/// The place of the first such call whose result one of these statements takes.
pub(crate) fn first_result(source: &[u8], names: &[Vec<u8>], statements: &[Nested]) -> Option<u32>
    ensures { result ≡ slice_get (filter_map (λ p. result_in source.now (lists names.now) p.statement) (map nested_of statements.now)) 0 }
{
    for nested in statements {
        if let Some(place) = result_in(source, names, nested.statement) {
            return Some(place);
        }
    }
    None
}
