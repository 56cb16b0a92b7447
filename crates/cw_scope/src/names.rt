//! The names of a program, each with its place.

ghost use Rattle.std.specs.Prelude.{◌≡◌, [], ◌∷◌, ◌++◌, map, IfOk};
ghost use Rattle.std.specs.List.{flat_map, filter_map};
ghost use Rattle.std.specs.Option.{option_to_list};
ghost use Rattle.cw_syntax.specs.Trees.{tree_of, statement_of, declared_of, declaration_of, definition_of, prototype_of, file_of, perhaps_of};
ghost use Rattle.cw_scope.specs.Walks.{every_statement, every_node};
ghost use Rattle.cw_scope.specs.Names.{declared_names, param_names, local_names, init_names, globals, locals, label_of, labels_of, plain_name, called_name, uses, function_places, every_name};
ghost use Rattle.cw_scope.specs.Held.{nested_of, tree_at};
ghost use Rattle.cw_scope.specs.Mentions.{every_plain, every_call};
ghost use Rattle.cw_syntax.specs.declared.program.Head.{out-Head};

use crate::walks::Nested;
use cw_syntax::program::{Decl, Expr, Function, Item, Name, Op, Param, Program, Proto, Stmt, What};
use std::alloc::{AllocError, Global};

/// Appends the names of a declaration.
fn put_items(items: &[Item], out: &mut Vec<Name>) -> Result<(), AllocError>
    ensures { IfOk result (λ _. out.new.items ≡ out.old.items ++ map (λ i. i.name) (map declared_of items.now)) }
{
    for item in items {
        out.push(item.name)?;
    }
    Ok(())
}

/// Appends the names of all declarations.
fn put_declarations(declarations: &[Decl], out: &mut Vec<Name>) -> Result<(), AllocError>
    ensures { IfOk result (λ _. out.new.items ≡ out.old.items ++ flat_map declared_names (map declaration_of declarations.now)) }
{
    for declaration in declarations {
        put_items(&declaration.items, out)?;
    }
    Ok(())
}

/// Appends the names of parameters.
fn put_params(params: &[Param], out: &mut Vec<Name>) -> Result<(), AllocError>
    ensures { IfOk result (λ _. out.new.items ≡ out.old.items ++ param_names params.now) }
{
    for param in params {
        if let Some(name) = param.name {
            out.push(name)?;
        }
    }
    Ok(())
}

/// Appends the names of the parameters of all prototypes.
fn put_prototypes(protos: &[Proto], out: &mut Vec<Name>) -> Result<(), AllocError>
    ensures { IfOk result (λ _. out.new.items ≡ out.old.items ++ flat_map (λ p. param_names p.params) (map prototype_of protos.now)) }
{
    for proto in protos {
        put_params(&proto.params, out)?;
    }
    Ok(())
}

/// Appends the names of the parameters of all functions.
fn put_functions(functions: &[Function], out: &mut Vec<Name>) -> Result<(), AllocError>
    ensures { IfOk result (λ _. out.new.items ≡ out.old.items ++ flat_map (λ f. param_names f.params) (map definition_of functions.now)) }
{
    for function in functions {
        put_params(&function.params, out)?;
    }
    Ok(())
}

/// Appends the names that the init of a `for` declares.
fn put_init(init: &Option<Stmt>, out: &mut Vec<Name>) -> Result<(), AllocError>
    ensures { IfOk result (λ _. out.new.items ≡ out.old.items ++ init_names (perhaps_of init.now)) }
{
    match init {
        None => Ok(()),
        Some(init) => match &init.what {
            What::Decl(declaration) => put_items(&declaration.items, out),
            What::Block(_) | What::Label(_, _, _) | What::If(_, _, _) => Ok(()),
            What::While(_, _) | What::Do(_, _) => Ok(()),
            What::For(_, _) => Ok(()),
            What::Empty | What::Break | What::Continue => Ok(()),
            What::Expr(_) | What::Return(_) => Ok(()),
        },
    }
}

/// Appends the names that a statement itself declares.
fn put_local_names(statement: &Stmt, out: &mut Vec<Name>) -> Result<(), AllocError>
    ensures { IfOk result (λ _. out.new.items ≡ out.old.items ++ local_names (statement_of statement.now)) }
{
    match &statement.what {
        What::Decl(declaration) => put_items(&declaration.items, out),
        What::For(head, _) => put_init(&head.init, out),
        What::Block(_) | What::Label(_, _, _) | What::If(_, _, _) => Ok(()),
        What::While(_, _) | What::Do(_, _) => Ok(()),
        What::Empty | What::Break | What::Continue => Ok(()),
        What::Expr(_) | What::Return(_) => Ok(()),
    }
}

/// Appends the names that some statements declare.
fn put_all_local_names(statements: &[Nested], out: &mut Vec<Name>) -> Result<(), AllocError>
    ensures { IfOk result (λ _. out.new.items ≡ out.old.items ++ flat_map (λ p. local_names p.statement) (map nested_of statements.now)) }
{
    for nested in statements {
        put_local_names(nested.statement, out)?;
    }
    Ok(())
}

/// Appends the name of a label, where the statement is one.
fn put_label(statement: &Stmt, out: &mut Vec<Name>) -> Result<(), AllocError>
    ensures { IfOk result (λ _. out.new.items ≡ out.old.items ++ label_of (statement_of statement.now)) }
{
    match &statement.what {
        What::Label(name, _, _) => {
            out.push(*name)?;
            Ok(())
        }
        What::Block(_) | What::If(_, _, _) | What::While(_, _) => Ok(()),
        What::Do(_, _) => Ok(()),
        What::For(_, _) => Ok(()),
        What::Empty | What::Break | What::Continue => Ok(()),
        What::Decl(_) | What::Expr(_) | What::Return(_) => Ok(()),
    }
}

/// Appends the labels of these statements.
pub(crate) fn put_labels(statements: &[Nested], out: &mut Vec<Name>) -> Result<(), AllocError>
    ensures { IfOk result (λ _. out.new.items ≡ out.old.items ++ labels_of (map nested_of statements.now)) }
{
    for nested in statements {
        put_label(nested.statement, out)?;
    }
    Ok(())
}

/// The name that an expression is.
pub(crate) fn plain_name(e: &Expr) -> Option<Name>
    ensures { result ≡ plain_name (tree_of e.now) }
{
    match e.op {
        Op::Name => Some(Name {
            from: e.from,
            to: e.to,
        }),
        _ => None,
    }
}

/// The name that an expression calls.
pub(crate) fn called_name(e: &Expr) -> Option<Name>
    ensures { result ≡ called_name (tree_of e.now) }
{
    match e.op {
        Op::Call(name) => Some(name),
        _ => None,
    }
}

/// Appends the plain names of a program's expressions, which these are.
fn put_plain_names(
    _program: &Program,
    plain: &[Name],
    out: &mut Vec<Name>,
) -> Result<(), AllocError>
    requires plain { plain.now ≡ every_plain (file_of _program.now) }
    ensures { IfOk result (λ _. out.new.items ≡ out.old.items ++ filter_map plain_name (every_node (file_of _program.now))) }
{
    out.extend_from_slice(plain)?;
    Ok(())
}

/// Appends the names of called functions.
fn put_called_names(calls: &[&Expr], out: &mut Vec<Name>) -> Result<(), AllocError>
    ensures { IfOk result (λ _. out.new.items ≡ out.old.items ++ filter_map called_name (map tree_at calls.now)) }
{
    for e in calls {
        if let Some(name) = called_name(e) {
            out.push(name)?;
        }
    }
    Ok(())
}

/// Appends the names that a program calls. These are its calls.
fn put_callees(_program: &Program, calls: &[&Expr], out: &mut Vec<Name>) -> Result<(), AllocError>
    requires calls { map tree_at calls.now ≡ every_call (file_of _program.now) }
    ensures { IfOk result (λ _. out.new.items ≡ out.old.items ++ filter_map called_name (every_node (file_of _program.now))) }
{
    put_called_names(calls, out)
}

/// Appends the names of all prototypes.
fn put_prototype_names(protos: &[Proto], out: &mut Vec<Name>) -> Result<(), AllocError>
    ensures { IfOk result (λ _. out.new.items ≡ out.old.items ++ map (λ p. p.name) (map prototype_of protos.now)) }
{
    for proto in protos {
        out.push(proto.name)?;
    }
    Ok(())
}

/// Appends the names of these functions.
fn put_function_names(functions: &[Function], out: &mut Vec<Name>) -> Result<(), AllocError>
    ensures { IfOk result (λ _. out.new.items ≡ out.old.items ++ map (λ f. f.name) (map definition_of functions.now)) }
{
    for function in functions {
        out.push(function.name)?;
    }
    Ok(())
}

/// The parameters and variables of a program's functions and prototypes. The statements are those of the program.
pub(crate) fn locals(
    alloc: Global,
    program: &Program,
    statements: &[Nested],
) -> Result<Vec<Name>, AllocError>
    requires { map nested_of statements.now ≡ every_statement (file_of program.now) }
    ensures { IfOk result (λ names. names.items ≡ locals (file_of program.now)) }
{
    let mut names = Vec::new(alloc);
    put_prototypes(&program.protos, &mut names)?;
    put_functions(&program.functions, &mut names)?;
    put_all_local_names(statements, &mut names)?;
    Ok(names)
}

/// The labels of these statements.
pub(crate) fn labels(alloc: Global, statements: &[Nested]) -> Result<Vec<Name>, AllocError>
    ensures { IfOk result (λ names. names.items ≡ labels_of (map nested_of statements.now)) }
{
    let mut names = Vec::new(alloc);
    put_labels(statements, &mut names)?;
    Ok(names)
}

/// The names of variables, parameters and labels, where they are declared and where they stand in expressions. The statements and
/// the plain names of expressions are those of the program.
pub(crate) fn uses(
    alloc: Global,
    program: &Program,
    statements: &[Nested],
    plain: &[Name],
) -> Result<Vec<Name>, AllocError>
    requires statements { map nested_of statements.now ≡ every_statement (file_of program.now) }
    requires plain { plain.now ≡ every_plain (file_of program.now) }
    ensures { IfOk result (λ names. names.items ≡ uses (file_of program.now)) }
{
    let mut names = Vec::new(alloc);
    put_declarations(&program.globals, &mut names)?;
    put_prototypes(&program.protos, &mut names)?;
    put_functions(&program.functions, &mut names)?;
    put_all_local_names(statements, &mut names)?;
    put_labels(statements, &mut names)?;
    put_plain_names(program, plain, &mut names)?;
    Ok(names)
}

/// All names of a program. Those of `uses` are there, and these are its calls.
pub(crate) fn every_name(
    program: &Program,
    used: Vec<Name>,
    calls: &[&Expr],
) -> Result<Vec<Name>, AllocError>
    requires uses { used.items ≡ uses (file_of program.now) }
    requires calls { map tree_at calls.now ≡ every_call (file_of program.now) }
    ensures { IfOk result (λ names. names.items ≡ every_name (file_of program.now)) }
{
    let mut names = used;
    put_prototype_names(&program.protos, &mut names)?;
    put_function_names(&program.functions, &mut names)?;
    put_callees(program, calls, &mut names)?;
    Ok(names)
}

/// The names of the functions that are defined.
pub(crate) fn function_names(alloc: Global, program: &Program) -> Result<Vec<Name>, AllocError>
    ensures { IfOk result (λ names. names.items ≡ map (λ f. f.name) (file_of program.now).functions) }
{
    let mut names = Vec::new(alloc);
    put_function_names(&program.functions, &mut names)?;
    Ok(names)
}
