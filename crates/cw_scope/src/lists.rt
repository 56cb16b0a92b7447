//! The lists of a whole program: its statements and its whole expressions.

ghost use Rattle.std.specs.Prelude.{◌≡◌, [], ◌∷◌, ◌++◌, map, IfOk, Some, None};
ghost use Rattle.std.specs.List.{flat_map};
ghost use Rattle.std.specs.Option.{option_map};
ghost use Rattle.cw_syntax.specs.Trees.{tree_of, trees_of, array_of, statement_of, statements_of, declared_of, declaration_of, definition_of, file_of, perhaps_of};
ghost use Rattle.cw_scope.specs.Walks.{nested_all, body_of, every_statement, given, listed, size_of, item_trees, declaration_trees, init_trees, inner, wholes_of, every_whole};
ghost use Rattle.cw_scope.specs.Held.{nested_of, whole_of, tree_at, head_trees};

use crate::walks::{Nested, Whole, put_statements};
use cw_syntax::program::{Decl, Expr, Function, Head, Item, Program, Stmt, What};
use std::alloc::{AllocError, Global};

/// The statements of a function.
pub fn body_of<'p>(alloc: Global, function: &'p Function) -> Result<Vec<Nested<'p>>, AllocError>
    ensures { IfOk result (λ ps. map nested_of ps.items ≡ body_of (definition_of function.now)) }
{
    let mut statements = Vec::new(alloc);
    put_statements(&function.body, false, &mut statements)?;
    Ok(statements)
}

/// Appends the statements of all functions.
fn put_bodies<'p>(functions: &'p [Function], out: &mut Vec<Nested<'p>>) -> Result<(), AllocError>
    ensures { IfOk result (λ _. map nested_of out.new.items ≡ map nested_of out.old.items ++ flat_map body_of (map definition_of functions.now)) }
{
    for function in functions {
        put_statements(&function.body, false, out)?;
    }
    Ok(())
}

/// The statements of a program.
pub fn every_statement<'p>(
    alloc: Global,
    program: &'p Program,
) -> Result<Vec<Nested<'p>>, AllocError>
    ensures { IfOk result (λ ps. map nested_of ps.items ≡ every_statement (file_of program.now)) }
{
    let mut statements = Vec::new(alloc);
    put_bodies(&program.functions, &mut statements)?;
    Ok(statements)
}

/// Appends an expression that is a part of a statement or of a declaration.
fn put_inner<'p>(tree: &'p Expr, out: &mut Vec<Whole<'p>>) -> Result<(), AllocError>
    ensures { IfOk result (λ _. map whole_of out.new.items ≡ map whole_of out.old.items ++ inner (tree_of tree.now) ∷ []) }
{
    out.push(Whole {
        tree,
        stands: false,
    })?;
    Ok(())
}

/// Appends an expression, if there is one.
fn put_given<'p>(tree: &'p Option<Expr>, out: &mut Vec<Whole<'p>>) -> Result<(), AllocError>
    ensures { IfOk result (λ _. map whole_of out.new.items ≡ map whole_of out.old.items ++ map inner (given (option_map tree_of tree.now))) }
{
    match tree {
        None => Ok(()),
        Some(tree) => put_inner(tree, out),
    }
}

/// Appends the size of an array, if it has one.
fn put_size<'p>(size: &'p Option<Option<Expr>>, out: &mut Vec<Whole<'p>>) -> Result<(), AllocError>
    ensures { IfOk result (λ _. map whole_of out.new.items ≡ map whole_of out.old.items ++ map inner (size_of (array_of size.now))) }
{
    match size {
        None => Ok(()),
        Some(size) => put_given(size, out),
    }
}

/// Appends some expressions.
fn put_list<'p>(trees: &'p [Expr], out: &mut Vec<Whole<'p>>) -> Result<(), AllocError>
    ensures { IfOk result (λ _. map whole_of out.new.items ≡ map whole_of out.old.items ++ map inner (listed (trees_of trees.now))) }
{
    for tree in trees {
        put_inner(tree, out)?;
    }
    Ok(())
}

/// Appends the sizes and the initialisers of declared names.
fn put_items<'p>(items: &'p [Item], out: &mut Vec<Whole<'p>>) -> Result<(), AllocError>
    ensures { IfOk result (λ _. map whole_of out.new.items ≡ map whole_of out.old.items ++ map inner (flat_map item_trees (map declared_of items.now))) }
{
    for item in items {
        put_size(&item.array, out)?;
        put_list(&item.init, out)?;
    }
    Ok(())
}

/// Appends those of all declarations.
fn put_declarations<'p>(
    declarations: &'p [Decl],
    out: &mut Vec<Whole<'p>>,
) -> Result<(), AllocError>
    ensures { IfOk result (λ _. map whole_of out.new.items ≡ map whole_of out.old.items ++ map inner (flat_map declaration_trees (map declaration_of declarations.now))) }
{
    for declaration in declarations {
        put_items(&declaration.items, out)?;
    }
    Ok(())
}

/// Appends the expressions of the init of a `for`, if it has one.
fn put_init<'p>(init: &'p Option<Stmt>, out: &mut Vec<Whole<'p>>) -> Result<(), AllocError>
    ensures { IfOk result (λ _. map whole_of out.new.items ≡ map whole_of out.old.items ++ map inner (init_trees (perhaps_of init.now))) }
{
    match init {
        None => Ok(()),
        Some(init) => match &init.what {
            What::Decl(declaration) => put_items(&declaration.items, out),
            What::Expr(tree) => put_inner(tree, out),
            What::Block(_) | What::Label(_, _, _) | What::If(_, _, _) => Ok(()),
            What::While(_, _) | What::Do(_, _) => Ok(()),
            What::For(_, _) => Ok(()),
            What::Empty | What::Break | What::Continue | What::Return(_) => Ok(()),
        },
    }
}

/// Appends the expressions of the head of a `for`.
fn put_head<'p>(head: &'p Head, out: &mut Vec<Whole<'p>>) -> Result<(), AllocError>
    ensures { IfOk result (λ _. map whole_of out.new.items ≡ map whole_of out.old.items ++ map inner (head_trees head.now)) }
{
    put_init(&head.init, out)?;
    put_given(&head.test, out)?;
    put_given(&head.step, out)
}

/// Appends the whole expressions of a statement, without those of the statements in it.
fn put_wholes<'p>(statement: &'p Stmt, out: &mut Vec<Whole<'p>>) -> Result<(), AllocError>
    ensures { IfOk result (λ _. map whole_of out.new.items ≡ map whole_of out.old.items ++ wholes_of (statement_of statement.now)) }
{
    match &statement.what {
        What::Decl(declaration) => put_items(&declaration.items, out),
        What::Expr(tree) => {
            out.push(Whole { tree, stands: true })?;
            Ok(())
        }
        What::If(test, _, _) => put_inner(test, out),
        What::While(test, _) => put_inner(test, out),
        What::Do(_, test) => put_inner(test, out),
        What::For(head, _) => put_head(head, out),
        What::Return(value) => put_given(value, out),
        What::Block(_) | What::Label(_, _, _) => Ok(()),
        What::Empty | What::Break | What::Continue => Ok(()),
    }
}

/// Appends the whole expressions of some statements.
fn put_all_wholes<'p>(statements: &[Nested<'p>], out: &mut Vec<Whole<'p>>) -> Result<(), AllocError>
    ensures { IfOk result (λ _. map whole_of out.new.items ≡ map whole_of out.old.items ++ flat_map (λ p. wholes_of p.statement) (map nested_of statements.now)) }
{
    for nested in statements {
        put_wholes(nested.statement, out)?;
    }
    Ok(())
}

/// The whole expressions of a program, whose statements these are.
pub(crate) fn every_whole<'p>(
    alloc: Global,
    program: &'p Program,
    statements: &[Nested<'p>],
) -> Result<Vec<Whole<'p>>, AllocError>
    requires { map nested_of statements.now ≡ every_statement (file_of program.now) }
    ensures { IfOk result (λ ws. map whole_of ws.items ≡ every_whole (file_of program.now)) }
{
    let mut wholes = Vec::new(alloc);
    put_declarations(&program.globals, &mut wholes)?;
    put_all_wholes(statements, &mut wholes)?;
    Ok(wholes)
}
