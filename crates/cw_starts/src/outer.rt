//! What is declared at file scope.

ghost use Rattle.std.specs.Prelude.{◌≡◌, ◌++◌, ◌&&◌, map, IfOk};
ghost use Rattle.std.specs.List.{flat_map, list_any};
ghost use Rattle.cw_syntax.specs.Trees.{declaration_of, declared_of, file_of, trees_of};
ghost use Rattle.cw_value.specs.Machines.{globals};
ghost use Rattle.cw_value.specs.Starts.{has_list};
ghost use Rattle.cw_starts.specs.Held.{AreListed, begins_with, item_at, named_at, stated_size};

use crate::texts::Texts;
use cw_syntax::names::text;
use cw_syntax::program::{Decl, Expr, Item, Program};
use std::alloc::{AllocError, Global};

/// Appends the names of a declaration.
fn put_items<'s>(items: &'s [Item], out: &mut Vec<&'s Item>) -> Result<(), AllocError>
    ensures { IfOk result (λ _. map item_at out.new.items ≡ map item_at out.old.items ++ map declared_of items.now) }
{
    for item in items {
        out.push(item)?;
    }
    Ok(())
}

/// Appends the names of these declarations.
fn put_declarations<'s>(declarations: &'s [Decl], out: &mut Vec<&'s Item>) -> Result<(), AllocError>
    ensures { IfOk result (λ _. map item_at out.new.items ≡ map item_at out.old.items ++ flat_map (λ d. d.items) (map declaration_of declarations.now)) }
{
    for declaration in declarations {
        put_items(&declaration.items, out)?;
    }
    Ok(())
}

/// The names that are declared at file scope, in the order of the text.
pub fn globals(alloc: Global, program: &Program) -> Result<Vec<&Item>, AllocError>
    ensures globals { IfOk result (λ items. map item_at items.items ≡ globals (file_of program.now)) }
{
    let mut out = Vec::new(alloc);
    put_declarations(&program.globals, &mut out)?;
    Ok(out)
}

/// Whether an item has this name.
pub(crate) fn is_named(source: &[u8], name: &[u8], item: &Item) -> bool
    ensures { result ≡ named_at source.now name.now (declared_of item.now) }
{
    name == text(source, item.name)
}

/// Whether there is an initialiser.
pub(crate) fn has_list(init: &[Expr]) -> bool
    ensures { result ≡ has_list (trees_of init.now) }
{
    match init {
        [] => false,
        [first, ..] => {
            let _ = first;
            true
        }
    }
}

/// Whether a declaration is one of this name and has an initialiser, so that the name is unset up to its turn.
fn begins_unset(source: &[u8], name: &[u8], item: &Item) -> bool
    ensures { result ≡ (named_at source.now name.now (declared_of item.now) && has_list (declared_of item.now).init) }
{
    is_named(source, name, item) && has_list(&item.init)
}

/// Whether some declaration of this name has an initialiser.
fn is_listed(source: &[u8], items: &[&Item], name: &[u8]) -> bool
    ensures { result ≡ list_any (λ i. named_at source.now name.now i && has_list i.init) (map item_at items.now) }
{
    for item in items {
        if begins_unset(source, name, item) {
            return true;
        }
    }
    false
}

/// What a name of file scope begins with: unset where some declaration of it has an initialiser, and else 0.
pub(crate) fn start_cell(source: &[u8], items: &[&Item], name: &[u8]) -> Option<i64>
    ensures { result ≡ begins_with source.now (map item_at items.now) name.now }
{
    if is_listed(source, items, name) {
        None
    } else {
        Some(0)
    }
}

/// The names of those that have an initialiser.
pub(crate) fn listed<'s>(
    alloc: Global,
    source: &'s [u8],
    items: &[&Item],
) -> Result<Texts<'s>, AllocError>
    ensures { IfOk result (λ texts. AreListed source.now (map item_at items.now) texts) }
{
    let mut texts = Texts::new(alloc);
    for item in items {
        if has_list(&item.init) {
            texts.push(text(source, item.name))?;
        }
    }
    Ok(texts)
}

/// What a name of file scope begins with, where these are the names that have an initialiser.
pub(crate) fn cell_by(_source: &[u8], _items: &[&Item], listed: &Texts, name: &[u8]) -> Option<i64>
    requires listed { AreListed _source.now (map item_at _items.now) listed.now }
    ensures { result ≡ begins_with _source.now (map item_at _items.now) name.now }
{
    if listed.contains(name) { None } else { Some(0) }
}

/// Whether a declaration is one of this name and tells how many elements its array has.
fn tells(source: &[u8], name: &[u8], item: &Item) -> bool
    ensures { result ≡ (named_at source.now name.now (declared_of item.now) && stated_size (declared_of item.now)) }
{
    is_named(source, name, item) && has_size(item)
}

/// Whether a declaration tells how many elements its array has.
fn has_size(item: &Item) -> bool
    ensures { result ≡ stated_size (declared_of item.now) }
{
    match &item.array {
        None => item.braces,
        Some(size) => size.is_some() || item.braces,
    }
}

/// Whether one of these declarations has told how many elements the array has.
pub(crate) fn is_stated(source: &[u8], earlier: &[&Item], name: &[u8]) -> bool
    ensures { result ≡ list_any (λ e. named_at source.now name.now e && stated_size e) (map item_at earlier.now) }
{
    for item in earlier {
        if tells(source, name, item) {
            return true;
        }
    }
    false
}
