//! The names of a program's functions and labels.

ghost use Rattle.std.specs.Prelude.{◌≡◌, ◌++◌, map, IfOk};
ghost use Rattle.std.specs.List.{flat_map};
ghost use Rattle.cw_syntax.specs.Names.{text};
ghost use Rattle.cw_syntax.specs.Plans.{function_names};
ghost use Rattle.cw_syntax.specs.Trees.{statement_of, statements_of, definition_of, file_of};
ghost use Rattle.cw_resolve.specs.Held.{lists, name_in};
ghost use Rattle.cw_resolve.specs.Labels.{labels_of, labels_of_all, labels_in_file, label_names};

use cw_core::NoMemory;
use cw_syntax::names::text;
use cw_syntax::program::{Function, Name, Program, Stmt, What};
use std::alloc::{AllocError, Global};

/// A label of a source: its name, and the place after its `:`.
#[derive(Clone, Copy, Drop)]
pub struct Labelled {
    pub name: Name,
    pub mark: u32,
}

/// The name with this number; a number without a name has the empty one.
pub fn name_in(names: &[Vec<u8>], number: usize) -> &[u8]
    ensures { result.now ≡ name_in (lists names.now) number }
{
    match names.get(number) {
        Some(name) => name.as_slice(),
        None => &[],
    }
}

/// The bytes of each label's name.
fn texts(alloc: Global, source: &[u8], labels: &[Labelled]) -> Result<Vec<Vec<u8>>, NoMemory>
    ensures { IfOk result (λ texts. lists texts.items ≡ map (λ l. text source.now l.name) labels.now) }
{
    let mut texts = Vec::new(alloc);
    for label in labels {
        let copied = text(source, label.name).to_vec(alloc)?;
        texts.push(copied)?;
    }
    Ok(texts)
}

/// Appends the labels of a statement.
#[cycle(labels)]
#[tactic(auto, using(crate::proofs::LabelShapes::block_labels, crate::proofs::LabelShapes::for_labels))]
fn put_labels(statement: &Stmt, out: &mut Vec<Labelled>) -> Result<(), AllocError>
    ensures { IfOk result (λ _. out.new.items ≡ out.old.items ++ labels_of (statement_of statement.now)) }
{
    match &statement.what {
        What::Block(statements) => put_all_labels(statements, out),
        What::Label(name, mark, body) => {
            out.push(Labelled {
                name: *name,
                mark: *mark,
            })?;
            put_labels(body, out)
        }
        What::If(_, arm, other) => {
            put_labels(arm, out)?;
            match other {
                None => Ok(()),
                Some(other) => put_labels(other, out),
            }
        }
        What::While(_, body) => put_labels(body, out),
        What::Do(body, _) => put_labels(body, out),
        What::For(_, body) => put_labels(body, out),
        What::Decl(_) | What::Expr(_) | What::Empty => Ok(()),
        What::Break | What::Continue | What::Return(_) => Ok(()),
    }
}

/// Appends the labels of these statements.
#[cycle(labels)]
fn put_all_labels(statements: &[Stmt], out: &mut Vec<Labelled>) -> Result<(), AllocError>
    ensures { IfOk result (λ _. out.new.items ≡ out.old.items ++ labels_of_all (statements_of statements.now)) }
{
    for statement in statements {
        put_labels(statement, out)?;
    }
    Ok(())
}

/// Appends the labels of all functions, in the order of the text.
pub(crate) fn put_function_labels(
    functions: &[Function],
    out: &mut Vec<Labelled>,
) -> Result<(), AllocError>
    ensures { IfOk result (λ _. out.new.items ≡ out.old.items ++ flat_map (λ f. labels_of_all f.body) (map definition_of functions.now)) }
{
    for function in functions {
        put_all_labels(&function.body, out)?;
    }
    Ok(())
}

/// The names of all functions, in the order of the text.
fn names_of(alloc: Global, source: &[u8], functions: &[Function]) -> Result<Vec<Vec<u8>>, NoMemory>
    ensures { IfOk result (λ names. lists names.items ≡ map (λ f. text source.now f.name) (map definition_of functions.now)) }
{
    let mut names = Vec::new(alloc);
    for function in functions {
        let name = text(source, function.name).to_vec(alloc)?;
        names.push(name)?;
    }
    Ok(names)
}

/// The names of a program's functions, in the order of definition.
pub fn function_names(
    alloc: Global,
    source: &[u8],
    program: &Program,
) -> Result<Vec<Vec<u8>>, NoMemory>
    ensures names { IfOk result (λ names. lists names.items ≡ function_names source.now (file_of program.now)) }
{
    names_of(alloc, source, &program.functions)
}

/// The labels of a program, in the order of the text.
pub fn labels_in(alloc: Global, program: &Program) -> Result<Vec<Labelled>, NoMemory>
    ensures labels { IfOk result (λ labels. labels.items ≡ labels_in_file (file_of program.now)) }
{
    let mut labels = Vec::new(alloc);
    put_function_labels(&program.functions, &mut labels)?;
    Ok(labels)
}

/// The names of a program's labels in the order of the text, a name that stands in several functions as often as it stands.
pub fn label_names(
    alloc: Global,
    source: &[u8],
    program: &Program,
) -> Result<Vec<Vec<u8>>, NoMemory>
    ensures names { IfOk result (λ names. lists names.items ≡ label_names source.now (file_of program.now)) }
{
    let labels = labels_in(alloc, program)?;
    texts(alloc, source, &labels)
}
