//! The names that are declared at file scope, and which of them may be a descriptor's variable.

ghost use Rattle.std.specs.Prelude.{◌≡◌, ℕ, ◌∷◌, ◌++◌, ◌&&◌, nat_eq, map, IfOk};
ghost use Rattle.std.specs.List.{flat_map, filter, list_any, list_all};
ghost use Rattle.std.specs.Str.{bytes_eq};
ghost use Rattle.cw_syntax.specs.Names.{text};
ghost use Rattle.cw_syntax.specs.Trees.{Node, tree_of, trees_of, declared_of, declaration_of, definition_of, file_of};
ghost use Rattle.cw_scope.specs.Walks.{listed};
ghost use Rattle.cw_scope.specs.Descriptors.{is_number, is_minus, is_minus_one, is_start, is_int, is_plain_int, is_before, may_be_variable, entry_in, entries_of, entries, is_one, is_declared};
ghost use Rattle.cw_scope.specs.Held.{entry_of};

use cw_syntax::names::text;
use cw_syntax::program::{Base, CType, Decl, Expr, Function, Item, Name, Op, Program};
use std::alloc::{AllocError, Global};

/// A name declared at file scope, and whether it may be a descriptor's variable.
#[derive(Clone, Copy, Drop)]
pub(crate) struct Entry {
    pub name: Name,
    pub fits: bool,
}

/// Whether an operator is this number.
fn is_number(n: u64, op: Op) -> bool
    ensures { result ≡ is_number n op }
{
    match op {
        Op::Number(m) => m == n,
        _ => false,
    }
}

/// Whether an operator is `-` before an operand.
fn is_minus(op: Op) -> bool
    ensures { result ≡ is_minus op }
{
    match op {
        Op::Prefix(n) => n == 1,
        _ => false,
    }
}

/// Whether an expression is `-1`.
fn is_minus_one_of(op: Op, parts: &[Expr]) -> bool
    ensures { (from to : ℕ) → result ≡ is_minus_one (Node op (trees_of parts.now) from to) }
{
    match parts {
        [] => false,
        [operand] => is_minus(op) && is_number(1, operand.op),
        [_, _, ..] => false,
    }
}

/// Whether an expression is `-1`.
fn is_minus_one(e: &Expr) -> bool
    ensures { result ≡ is_minus_one (tree_of e.now) }
{
    is_minus_one_of(e.op, &e.parts)
}

/// Whether there is no initialiser, or `-1` without braces.
fn is_start(braces: bool, init: &[Expr]) -> bool
    ensures { result ≡ is_start braces (listed (trees_of init.now)) }
{
    match init {
        [] => true,
        [e] => !braces && is_minus_one(e),
        [_, _, ..] => false,
    }
}

/// Whether a type's keyword is `int`.
fn is_int(base: Base) -> bool
    ensures { result ≡ is_int base }
{
    match base {
        Base::Int => true,
        Base::Void | Base::Char | Base::Long => false,
    }
}

/// Whether a type is `int`: not `unsigned`, and no pointer.
fn is_plain_int(kind: CType) -> bool
    ensures { result ≡ is_plain_int kind }
{
    is_int(kind.base) && !kind.unsigned && kind.stars == 0
}

/// Whether a place stands before the names of all functions.
fn is_before(place: u32, functions: &[Function]) -> bool
    ensures { result ≡ is_before place (map definition_of functions.now) }
{
    for function in functions {
        if place >= function.name.from {
            return false;
        }
    }
    true
}

/// Whether a declared name may be a descriptor's variable: a plain `int` of file scope, declared before all functions.
fn may_be_variable(program: &Program, declaration: &Decl, item: &Item) -> bool
    ensures { result ≡ may_be_variable (file_of program.now) (declaration_of declaration.now) (declared_of item.now) }
{
    !declaration.external
        && !declaration.constant
        && is_plain_int(item.kind)
        && item.array.is_none()
        && is_start(item.braces, &item.init)
        && is_before(item.name.from, &program.functions)
}

/// A declared name, and whether it may be a descriptor's variable.
fn entry_in(program: &Program, declaration: &Decl, item: &Item) -> Entry
    ensures { entry_of result ≡ entry_in (file_of program.now) (declaration_of declaration.now) (declared_of item.now) }
{
    Entry {
        name: item.name,
        fits: may_be_variable(program, declaration, item),
    }
}

/// Appends the names of a declaration.
fn put_entries(
    program: &Program,
    declaration: &Decl,
    out: &mut Vec<Entry>,
) -> Result<(), AllocError>
    ensures { IfOk result (λ _. map entry_of out.new.items ≡ map entry_of out.old.items ++ entries_of (file_of program.now) (declaration_of declaration.now)) }
{
    for item in &declaration.items {
        out.push(entry_in(program, declaration, item))?;
    }
    Ok(())
}

/// The names that are declared at file scope.
pub(crate) fn entries(alloc: Global, program: &Program) -> Result<Vec<Entry>, AllocError>
    ensures { IfOk result (λ es. map entry_of es.items ≡ entries (file_of program.now)) }
{
    let mut out = Vec::new(alloc);
    for declaration in &program.globals {
        put_entries(program, declaration, &mut out)?;
    }
    Ok(out)
}

/// Whether a name is declared.
fn has_entry(source: &[u8], entries: &[Entry], name: &[u8]) -> bool
    ensures { result ≡ list_any (λ e. bytes_eq name.now (text source.now e.name)) (map entry_of entries.now) }
{
    for entry in entries {
        if name == text(source, entry.name) {
            return true;
        }
    }
    false
}

/// Whether a name's first declaration may be a descriptor's variable, and is the last one.
#[tactic(auto, using(crate::proofs::Once::one_of))]
fn is_only(source: &[u8], entry: Entry, later: &[Entry], name: &[u8]) -> bool
    ensures { result ≡ is_one (entry_of entry ∷ filter (λ e. bytes_eq name.now (text source.now e.name)) (map entry_of later.now)) }
{
    entry.fits && !has_entry(source, later, name)
}

/// Whether a name is declared once, as a descriptor's variable must be.
pub(crate) fn is_declared(source: &[u8], entries: &[Entry], name: &[u8]) -> bool
    ensures { result ≡ is_declared source.now (map entry_of entries.now) name.now }
{
    for (i, entry) in entries.iter().enumerate() {
        if name == text(source, entry.name) {
            return is_only(source, *entry, &entries[i + 1..], name);
        }
    }
    false
}
