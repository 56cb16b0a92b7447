//! The scope rules, each for one thing that stands in a program.

ghost use Rattle.std.specs.Prelude.{◌≡◌, [], true, false, map, IfOk, length, nat_lt, codes};
ghost use Rattle.std.specs.List.{list_any};
ghost use Rattle.std.specs.Option.{option_map};
ghost use Rattle.cw_syntax.specs.Names.{text};
ghost use Rattle.cw_syntax.specs.Trees.{tree_of, definition_of, file_of};
ghost use Rattle.cw_scope.specs.Rules.{at_if, repeated, different, is_main, is_reserved, is_call, defined, has_main, wrong_arity, function_name, defined_call, external_call, main_call, reserved, loose_jump};
ghost use Rattle.cw_resolve.specs.Soonest.{sooner};
ghost use Rattle.cw_scope.specs.Held.{nested_of};
ghost use Rattle.cw_scope.specs.Known.{IsKnown};

use crate::functions::{Functions, found, is_defined};
use crate::walks::Nested;
use cw_syntax::names::text;
use cw_syntax::program::{Expr, Function, Name, Op, Program, What};
use std::alloc::{AllocError, Global};
use std::collections::HashSet;

/// A place, where something fails there.
pub(crate) fn at_if(fails: bool, place: u32) -> Option<u32>
    ensures { result ≡ at_if fails place }
{
    if fails { Some(place) } else { None }
}

/// The first name with the text of one before it. A name that stands alone has none before it.
pub(crate) fn repeated(
    alloc: Global,
    source: &[u8],
    names: &[Name],
) -> Result<Option<Name>, AllocError>
    ensures { IfOk result (λ found. found ≡ repeated source.now [] names.now) }
{
    match names {
        [] => Ok(None),
        [_] => Ok(None),
        [_, _, ..] => repeated_of_many(alloc, source, names),
    }
}

/// The same, by the texts that were seen.
fn repeated_of_many(
    alloc: Global,
    source: &[u8],
    names: &[Name],
) -> Result<Option<Name>, AllocError>
    ensures { IfOk result (λ found. found ≡ repeated source.now [] names.now) }
{
    let mut seen = HashSet::new(alloc);
    for name in names {
        if !seen.insert(text(source, *name))? {
            return Ok(Some(*name));
        }
    }
    Ok(None)
}

/// Whether these names have more than this many different texts.
pub(crate) fn are_more(
    alloc: Global,
    source: &[u8],
    names: &[Name],
    most: usize,
) -> Result<bool, AllocError>
    ensures { IfOk result (λ more. more ≡ nat_lt most (length (different source.now [] names.now))) }
{
    if names.len() <= most {
        return Ok(false);
    }
    let mut seen = HashSet::new(alloc);
    for name in names {
        seen.insert(text(source, *name))?;
        if seen.len() > most {
            return Ok(true);
        }
    }
    Ok(false)
}

/// The definition of the function with this name.
pub(crate) fn defined<'p>(source: &[u8], program: &'p Program, name: &[u8]) -> Option<&'p Function>
    ensures { option_map (λ f. definition_of f.now) result ≡ defined source.now (file_of program.now) name.now }
{
    for function in &program.functions {
        if name == text(source, function.name) {
            return Some(function);
        }
    }
    None
}

/// The name of the first function.
fn main_text() -> &'static [u8]
    ensures { result.now ≡ codes "main" }
{
    b"main"
}

/// Whether `main` is defined.
pub(crate) fn has_main(source: &[u8], program: &Program) -> bool
    ensures { result ≡ has_main source.now (file_of program.now) }
{
    defined(source, program, main_text()).is_some()
}

/// A call of a defined function with another number of arguments than the function has parameters.
pub(crate) fn wrong_arity(known: &Functions, e: &Expr) -> Option<u32>
    requires known { IsKnown known.now }
    ensures { result ≡ wrong_arity known.now.source.now (file_of known.now.program.now) (tree_of e.now) }
{
    match e.op {
        Op::Call(name) => match found(known, text(known.source, name)) {
            None => None,
            Some(function) => at_if(e.parts.len() != function.params.len(), e.from),
        },
        _ => None,
    }
}

/// A name of a defined function.
pub(crate) fn function_name(known: &Functions, name: Name) -> Option<u32>
    requires known { IsKnown known.now }
    ensures { result ≡ function_name known.now.source.now (file_of known.now.program.now) name }
{
    at_if(is_defined(known, name), name.from)
}

/// Whether an expression is a call.
pub(crate) fn is_call(e: &Expr) -> bool
    ensures { result ≡ is_call (tree_of e.now) }
{
    match e.op {
        Op::Call(_) => true,
        _ => false,
    }
}

/// A call of a defined function.
pub(crate) fn defined_call(known: &Functions, e: &Expr) -> Option<u32>
    requires known { IsKnown known.now }
    ensures { result ≡ defined_call known.now.source.now (file_of known.now.program.now) (tree_of e.now) }
{
    match e.op {
        Op::Call(name) => at_if(is_defined(known, name), e.from),
        _ => None,
    }
}

/// A call of any other name.
pub(crate) fn external_call(known: &Functions, e: &Expr) -> Option<u32>
    requires known { IsKnown known.now }
    ensures { result ≡ external_call known.now.source.now (file_of known.now.program.now) (tree_of e.now) }
{
    match e.op {
        Op::Call(name) => at_if(!is_defined(known, name), e.from),
        _ => None,
    }
}

/// Whether a name is `main`.
fn is_main(name: &[u8]) -> bool
    ensures { result ≡ is_main name.now }
{
    name == main_text()
}

/// A call of `main`.
pub(crate) fn main_call(source: &[u8], e: &Expr) -> Option<u32>
    ensures { result ≡ main_call source.now (tree_of e.now) }
{
    match e.op {
        Op::Call(name) => at_if(is_main(text(source, name)), e.from),
        _ => None,
    }
}

/// Whether a name begins with `cw_` or `CW_`.
fn is_reserved(name: &[u8]) -> bool
    ensures { result ≡ is_reserved name.now }
{
    match name {
        [b'c', b'w', b'_', ..] | [b'C', b'W', b'_', ..] => true,
        _ => false,
    }
}

/// Whether a name is shorter than `cw_`.
#[tactic(auto, using(crate::proofs::Beginnings::unreserved))]
fn is_short(_source: &[u8], name: Name) -> bool
    ensures { result ≡ true → is_reserved (text _source.now name) ≡ false }
{
    name.to.saturating_sub(name.from) < 3
}

/// A name that begins with `cw_` or `CW_`.
pub(crate) fn reserved(source: &[u8], name: Name) -> Option<u32>
    ensures { result ≡ reserved source.now name }
{
    at_if(
        !is_short(source, name) && is_reserved(text(source, name)),
        name.from,
    )
}

/// A `break` or `continue` that stands in no loop.
pub(crate) fn loose_jump(nested: Nested) -> Option<u32>
    ensures { result ≡ loose_jump (nested_of nested.entry).looped (nested_of nested.entry).statement }
{
    let statement = nested.statement;
    match &statement.what {
        What::Break | What::Continue => at_if(!nested.looped, statement.from),
        What::Block(_) | What::Label(_, _, _) | What::If(_, _, _) => None,
        What::While(_, _) | What::Do(_, _) => None,
        What::For(_, _) => None,
        What::Empty | What::Decl(_) | What::Expr(_) | What::Return(_) => None,
    }
}
