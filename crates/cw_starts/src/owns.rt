//! What may not be run: a function that declares a name twice, a name of file scope, or a `static` one.

ghost use Rattle.std.specs.Prelude.{◌≡◌, [], ◌++◌, map, IfOk};
ghost use Rattle.std.specs.List.{flat_map, filter_map};
ghost use Rattle.cw_syntax.specs.Names.{text};
ghost use Rattle.cw_syntax.specs.Trees.{declared_of, definition_of, file_of, statement_of};
ghost use Rattle.cw_value.specs.Machines.{globals};
ghost use Rattle.cw_value.specs.Starts.{first_shape, owns, owns_by, shape, shape_in};
ghost use Rattle.cw_slots.specs.Texts.{statement_at};
ghost use Rattle.cw_starts.specs.Held.{item_at};
ghost use Rattle.cw_starts.specs.Owning.{own_in, own_of, param_own};

use crate::outer::globals;
use crate::texts::Texts;
use cw_slots::said;
use cw_syntax::names::text;
use cw_syntax::program::{Function, Item, Name, Param, Program, Stmt, What};
use std::alloc::{AllocError, Global};

/// A name that a function declares, and whether it is `static`.
#[derive(Clone, Copy, Drop)]
pub struct Own {
    pub name: Name,
    pub fixed: bool,
}

/// Appends the names of parameters.
fn put_params(params: &[Param], out: &mut Vec<Own>) -> Result<(), AllocError>
    ensures { IfOk result (λ _. map own_in out.new.items ≡ map own_in out.old.items ++ map param_own (filter_map (λ p. p.name) params.now)) }
{
    for param in params {
        if let Some(name) = param.name {
            out.push(Own { name, fixed: false })?;
        }
    }
    Ok(())
}

/// Appends the names of a declaration.
fn put_items(items: &[Item], fixed: bool, out: &mut Vec<Own>) -> Result<(), AllocError>
    ensures { IfOk result (λ _. map own_in out.new.items ≡ map own_in out.old.items ++ map (own_of fixed) (map declared_of items.now)) }
{
    for item in items {
        let name = item.name;
        out.push(Own { name, fixed })?;
    }
    Ok(())
}

/// Appends the names that a statement itself declares.
fn put_statement(statement: &Stmt, out: &mut Vec<Own>) -> Result<(), AllocError>
    ensures { IfOk result (λ _. map own_in out.new.items ≡ map own_in out.old.items ++ owns_by (statement_of statement.now)) }
{
    match &statement.what {
        What::Decl(declaration) => put_items(&declaration.items, declaration.fixed, out),
        What::Block(_) => Ok(()),
        What::For(_, _) => Ok(()),
        What::Label(_, _, _) | What::If(_, _, _) | What::While(_, _) | What::Do(_, _) => Ok(()),
        What::Empty | What::Break | What::Continue => Ok(()),
        What::Expr(_) | What::Return(_) => Ok(()),
    }
}

/// Appends the names that these statements declare.
fn put_statements(statements: &[&Stmt], out: &mut Vec<Own>) -> Result<(), AllocError>
    ensures { IfOk result (λ _. map own_in out.new.items ≡ map own_in out.old.items ++ flat_map owns_by (map statement_at statements.now)) }
{
    for statement in statements {
        put_statement(statement, out)?;
    }
    Ok(())
}

/// The names that a function declares, its parameters first.
fn owns(alloc: Global, function: &Function) -> Result<Vec<Own>, AllocError>
    ensures { IfOk result (λ found. map own_in found.items ≡ owns (definition_of function.now)) }
{
    let statements = said(alloc, &function.body)?;
    let mut out = Vec::new(alloc);
    put_params(&function.params, &mut out)?;
    put_statements(&statements, &mut out)?;
    Ok(out)
}

/// The first of these names that is `static`, is one of file scope, or stands before.
fn first_shape(
    alloc: Global,
    source: &[u8],
    outer: &Texts,
    owns: &[Own],
) -> Result<Option<u32>, AllocError>
    ensures { IfOk result (λ at. at ≡ first_shape source.now outer.now [] (map own_in owns.now)) }
{
    let mut before = Texts::new(alloc);
    for own in owns {
        let name = text(source, own.name);
        if own.fixed || (outer.contains(name) || before.contains(name)) {
            return Ok(Some(own.name.from));
        }
        before.push(name)?;
    }
    Ok(None)
}

/// The place of the first name of a function that isn't told apart.
fn shape_of(
    alloc: Global,
    source: &[u8],
    outer: &Texts,
    function: &Function,
) -> Result<Option<u32>, AllocError>
    ensures { IfOk result (λ at. at ≡ first_shape source.now outer.now [] (owns (definition_of function.now))) }
{
    let owns = owns(alloc, function)?;
    first_shape(alloc, source, outer, &owns)
}

/// The place of the first name of these functions that isn't told apart, function by function.
fn shape_in(
    alloc: Global,
    source: &[u8],
    outer: &Texts,
    functions: &[Function],
) -> Result<Option<u32>, AllocError>
    ensures { IfOk result (λ at. at ≡ shape_in source.now outer.now (map definition_of functions.now)) }
{
    for function in functions {
        if let Some(at) = shape_of(alloc, source, outer, function)? {
            return Ok(Some(at));
        }
    }
    Ok(None)
}

/// The texts of the names that are declared at file scope.
fn outer_texts<'s>(
    alloc: Global,
    source: &'s [u8],
    items: &[&Item],
) -> Result<Texts<'s>, AllocError>
    ensures { IfOk result (λ texts. texts ≡ map (λ i. text source.now i.name) (map item_at items.now)) }
{
    let mut texts = Texts::new(alloc);
    for item in items {
        texts.push(text(source, item.name))?;
    }
    Ok(texts)
}

/// The place of the first name that may not be declared where it is: in a function a second time, as a name of file scope too, or
/// `static`. Functions come in the order of the text, each with its parameters first.
pub fn shape(alloc: Global, source: &[u8], program: &Program) -> Result<Option<u32>, AllocError>
    ensures shape { IfOk result (λ at. at ≡ shape source.now (file_of program.now)) }
{
    let items = globals(alloc, program)?;
    let outer = outer_texts(alloc, source, &items)?;
    shape_in(alloc, source, &outer, &program.functions)
}
