//! The names that a function declares, and those of a file.

ghost use Rattle.std.specs.Prelude.{◌≡◌, [], ◌∷◌, ◌++◌, map, IfOk};
ghost use Rattle.std.specs.List.{flat_map, filter_map};
ghost use Rattle.cw_syntax.specs.Names.{text};
ghost use Rattle.cw_syntax.specs.Trees.{declaration_of, declared_of, definition_of, file_of, statement_of, statements_of};
ghost use Rattle.cw_value.specs.Deeds.{said_all};
ghost use Rattle.cw_value.specs.Machines.{declared_by, names_of, own_names, parameters, shared_names};
ghost use Rattle.cw_slots.specs.Texts.{of_shape, statement_at, text_at};

use crate::names::Names;
use crate::statements::said;
use cw_syntax::names::text;
use cw_syntax::program::{Decl, Function, Item, Param, Program, Stmt, What};
use std::alloc::{AllocError, Global};

/// Whether an item is an array, or whether it is none.
fn is_of_shape(arrays: bool, item: &Item) -> bool
    ensures { result ≡ of_shape arrays (declared_of item.now) }
{
    if arrays {
        item.array.is_some()
    } else {
        item.array.is_none()
    }
}

/// Appends the name of an item of this shape.
fn put_name<'s>(
    source: &'s [u8],
    arrays: bool,
    item: &Item,
    out: &mut Vec<&'s [u8]>,
) -> Result<(), AllocError>
    ensures { IfOk result (λ _. map text_at out.new.items ≡ map text_at out.old.items ++ names_of source.now (of_shape arrays) (declared_of item.now ∷ [])) }
{
    if is_of_shape(arrays, item) {
        out.push(text(source, item.name))?;
    }
    Ok(())
}

/// Appends the names of the items of this shape.
fn put_items<'s>(
    source: &'s [u8],
    arrays: bool,
    items: &[Item],
    out: &mut Vec<&'s [u8]>,
) -> Result<(), AllocError>
    ensures { IfOk result (λ _. map text_at out.new.items ≡ map text_at out.old.items ++ names_of source.now (of_shape arrays) (map declared_of items.now)) }
{
    for item in items {
        put_name(source, arrays, item, out)?;
    }
    Ok(())
}

/// Appends the names of this shape that a statement itself declares.
fn put_statement<'s>(
    source: &'s [u8],
    arrays: bool,
    statement: &Stmt,
    out: &mut Vec<&'s [u8]>,
) -> Result<(), AllocError>
    ensures { IfOk result (λ _. map text_at out.new.items ≡ map text_at out.old.items ++ names_of source.now (of_shape arrays) (declared_by (statement_of statement.now))) }
{
    match &statement.what {
        What::Decl(declaration) => put_items(source, arrays, &declaration.items, out),
        What::Block(_) => Ok(()),
        What::For(_, _) => Ok(()),
        What::Label(_, _, _) | What::If(_, _, _) | What::While(_, _) | What::Do(_, _) => Ok(()),
        What::Empty | What::Break | What::Continue => Ok(()),
        What::Expr(_) | What::Return(_) => Ok(()),
    }
}

/// Appends the names of this shape that these statements declare.
fn put_statements<'s>(
    source: &'s [u8],
    arrays: bool,
    statements: &[&Stmt],
    out: &mut Vec<&'s [u8]>,
) -> Result<(), AllocError>
    ensures { IfOk result (λ _. map text_at out.new.items ≡ map text_at out.old.items ++ names_of source.now (of_shape arrays) (flat_map declared_by (map statement_at statements.now))) }
{
    for statement in statements {
        put_statement(source, arrays, statement, out)?;
    }
    Ok(())
}

/// Appends the names of these declarations of this shape.
fn put_declarations<'s>(
    source: &'s [u8],
    arrays: bool,
    declarations: &[Decl],
    out: &mut Vec<&'s [u8]>,
) -> Result<(), AllocError>
    ensures { IfOk result (λ _. map text_at out.new.items ≡ map text_at out.old.items ++ names_of source.now (of_shape arrays) (flat_map (λ d. d.items) (map declaration_of declarations.now))) }
{
    for declaration in declarations {
        put_items(source, arrays, &declaration.items, out)?;
    }
    Ok(())
}

/// Appends the names of parameters.
fn put_params<'s>(
    source: &'s [u8],
    params: &[Param],
    out: &mut Vec<&'s [u8]>,
) -> Result<(), AllocError>
    ensures { IfOk result (λ _. map text_at out.new.items ≡ map text_at out.old.items ++ map (text source.now) (filter_map (λ p. p.name) params.now)) }
{
    for param in params {
        if let Some(name) = param.name {
            out.push(text(source, name))?;
        }
    }
    Ok(())
}

/// The names of a function: its parameters, and what its statements declare.
pub fn own_names<'s>(
    alloc: Global,
    source: &'s [u8],
    function: &Function,
) -> Result<Names<'s>, AllocError>
    ensures names { IfOk result (λ names. names ≡ own_names source.now (definition_of function.now)) }
{
    let statements = said(alloc, &function.body)?;
    let mut plain = Vec::new(alloc);
    put_params(source, &function.params, &mut plain)?;
    put_statements(source, false, &statements, &mut plain)?;
    let mut arrays = Vec::new(alloc);
    put_statements(source, true, &statements, &mut arrays)?;
    Names::of(alloc, plain, arrays)
}

/// The names that are declared at file scope.
pub fn shared_names<'s>(
    alloc: Global,
    source: &'s [u8],
    program: &Program,
) -> Result<Names<'s>, AllocError>
    ensures names { IfOk result (λ names. names ≡ shared_names source.now (file_of program.now)) }
{
    let mut plain = Vec::new(alloc);
    put_declarations(source, false, &program.globals, &mut plain)?;
    let mut arrays = Vec::new(alloc);
    put_declarations(source, true, &program.globals, &mut arrays)?;
    Names::of(alloc, plain, arrays)
}
