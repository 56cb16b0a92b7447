//! The forms in which calls may stand.

ghost use Rattle.std.specs.Prelude.{◌≡◌, ℕ, None, Some, map, IfOk, slice_get};
ghost use Rattle.std.specs.List.{list_any, filter_map, flat_map};
ghost use Rattle.std.specs.Option.{option_map};
ghost use Rattle.cw_syntax.specs.Trees.{Tree, Node, none, more, tree_of, trees_of, file_of};
ghost use Rattle.cw_scope.specs.Walks.{nodes, nodes_in};
ghost use Rattle.cw_scope.specs.Rules.{is_call, defined_call, external_call, statement_call, standing_call, misplaced, second_external, wrong_form};
ghost use Rattle.cw_resolve.specs.Soonest.{soonest};
ghost use Rattle.cw_scope.specs.Held.{tree_at, whole_of};
ghost use Rattle.cw_scope.specs.Known.{IsKnown};
ghost use Rattle.cw_scope.specs.Mentions.{names_at, calls_at};

use crate::functions::Functions;
use crate::places::defined_calls;
use crate::rules::{defined_call, external_call, is_call};
use crate::walks::{Whole, put_mentions, put_parts};
use cw_resolve::sooner;
use cw_syntax::program::{Expr, Name, Op};
use std::alloc::{AllocError, Global};

/// The call of an assignment of these two parts.
fn assigned_call<'p>(x: &Expr, value: &'p Expr) -> Option<&'p Expr>
    ensures { (from to : ℕ) → option_map tree_at result ≡ statement_call (Node (Op.Assign 0) (more (tree_of x.now) (more (tree_of value.now) none)) from to) }
{
    match x.op {
        Op::Name => match value.op {
            Op::Call(_) => Some(value),
            _ => None,
        },
        _ => None,
    }
}

/// The call of an assignment by an operator of this number: 0 is `=`.
fn assignment_call(by: u8, parts: &[Expr]) -> Option<&Expr>
    ensures { (from to : ℕ) → option_map tree_at result ≡ statement_call (Node (Op.Assign by) (trees_of parts.now) from to) }
{
    if by != 0 {
        return None;
    }
    match parts {
        [] => None,
        [_] => None,
        [x, value] => assigned_call(x, value),
        [_, _, _, ..] => None,
    }
}

/// The call of a whole statement `f(..);` or `x = f(..);`.
fn statement_call(e: &Expr) -> Option<&Expr>
    ensures { option_map tree_at result ≡ statement_call (tree_of e.now) }
{
    match e.op {
        Op::Call(_) => Some(e),
        Op::Assign(by) => assignment_call(by, &e.parts),
        _ => None,
    }
}

/// The call that a statement is, if it is one.
fn standing_call<'p>(whole: Whole<'p>) -> Option<&'p Expr>
    ensures { option_map tree_at result ≡ standing_call (whole_of whole.entry) }
{
    if whole.stands {
        statement_call(whole.tree)
    } else {
        None
    }
}

/// Whether an expression is a call or holds one.
#[cycle(calls)]
fn is_calling(e: &Expr) -> bool
    ensures { result ≡ list_any is_call (nodes (tree_of e.now)) }
{
    is_call(e) || are_calling(&e.parts)
}

/// Whether a call is in these expressions.
#[cycle(calls)]
fn are_calling(parts: &[Expr]) -> bool
    ensures { result ≡ list_any is_call (nodes_in (trees_of parts.now)) }
{
    for e in parts {
        if is_calling(e) {
            return true;
        }
    }
    false
}

/// The soonest place in a statement's call at which a call of a defined function may not stand. Few calls hold another one, and
/// only of these the expressions are listed.
fn misplaced_in(alloc: Global, known: &Functions, call: &Expr) -> Result<Option<u32>, AllocError>
    requires known { IsKnown known.now }
    ensures { (tree : Tree) → IfOk result (λ place. place ≡ soonest (misplaced known.now.source.now (file_of known.now.program.now) (Some (tree_of call.now)) tree)) }
{
    if !are_calling(&call.parts) {
        return Ok(None);
    }
    let mut inner = Vec::new(alloc);
    put_parts(&call.parts, &mut inner)?;
    let own = defined_call(known, call);
    Ok(sooner(own, defined_calls(known, &inner)))
}

/// The soonest place of a call of a defined function that may not stand where it does in a whole expression, whose calls these are.
fn misplaced(
    alloc: Global,
    known: &Functions,
    whole: Whole,
    calls: &[&Expr],
) -> Result<Option<u32>, AllocError>
    requires known { IsKnown known.now }
    requires calls { map tree_at calls.now ≡ calls_at (whole_of whole).tree }
    ensures { IfOk result (λ place. place ≡ soonest (misplaced known.now.source.now (file_of known.now.program.now) (standing_call (whole_of whole.entry)) (whole_of whole.entry).tree)) }
{
    match standing_call(whole) {
        None => Ok(defined_calls(known, calls)),
        Some(call) => misplaced_in(alloc, known, call),
    }
}

/// The place of the second call of an external function among some calls.
fn second_call(known: &Functions, calls: &[&Expr]) -> Option<u32>
    requires known { IsKnown known.now }
    ensures { result ≡ slice_get (filter_map (external_call known.now.source.now (file_of known.now.program.now)) (map tree_at calls.now)) 1 }
{
    let mut seen = false;
    for e in calls {
        if let Some(place) = external_call(known, e) {
            if seen {
                return Some(place);
            }
            seen = true;
        }
    }
    None
}

/// The second call of another name in an expression, whose calls these are.
fn second_external(known: &Functions, _tree: &Expr, calls: &[&Expr]) -> Option<u32>
    requires known { IsKnown known.now }
    requires calls { map tree_at calls.now ≡ calls_at (tree_of _tree.now) }
    ensures { result ≡ second_external known.now.source.now (file_of known.now.program.now) (tree_of _tree.now) }
{
    match calls {
        [] => None,
        [_] => None,
        [_, _, ..] => second_call(known, calls),
    }
}

/// The soonest place at which a whole expression, whose calls these are, breaks the rule on the forms of calls.
fn wrong_form(
    alloc: Global,
    known: &Functions,
    whole: Whole,
    calls: &[&Expr],
) -> Result<Option<u32>, AllocError>
    requires known { IsKnown known.now }
    requires calls { map tree_at calls.now ≡ calls_at (whole_of whole).tree }
    ensures { IfOk result (λ place. place ≡ wrong_form known.now.source.now (file_of known.now.program.now) (whole_of whole.entry)) }
{
    let own = misplaced(alloc, known, whole, calls)?;
    Ok(sooner(own, second_external(known, whole.tree, calls)))
}

/// What a program's expressions mention: plain names and calls, and the soonest place at which a call breaks the rule on their forms.
#[derive(Drop)]
pub(crate) struct Mentioned<'p> {
    pub names: Vec<Name>,
    pub calls: Vec<&'p Expr>,
    pub misformed: Option<u32>,
}

/// What these whole expressions mention.
#[tactic(auto, using(cw_resolve::proofs::Lesser::sooner_assoc))]
pub(crate) fn every_mention<'p>(
    alloc: Global,
    known: &Functions,
    wholes: &[Whole<'p>],
) -> Result<Mentioned<'p>, AllocError>
    requires known { IsKnown known.now }
    ensures names { IfOk result (λ found. found.names.items ≡ flat_map (λ w. names_at w.tree) (map whole_of wholes.now)) }
    ensures calls { IfOk result (λ found. map tree_at found.calls.items ≡ flat_map (λ w. calls_at w.tree) (map whole_of wholes.now)) }
    ensures place { IfOk result (λ found. found.misformed ≡ soonest (map (wrong_form known.now.source.now (file_of known.now.program.now)) (map whole_of wholes.now))) }
{
    let mut names = Vec::new(alloc);
    let mut calls = Vec::new(alloc);
    let mut misformed = None;
    for whole in wholes {
        let from = calls.len();
        put_mentions(whole.tree, &mut names, &mut calls)?;
        let own = wrong_form(alloc, known, *whole, &calls[from..])?;
        misformed = sooner(misformed, own);
    }
    Ok(Mentioned {
        names,
        calls,
        misformed,
    })
}
