//! Whether a label of a program has a name.

ghost use Rattle.std.specs.Prelude.{◌≡◌, map};
ghost use Rattle.std.specs.List.{list_any, flat_map};
ghost use Rattle.std.specs.Str.{bytes_eq};
ghost use Rattle.cw_syntax.specs.Names.{text};
ghost use Rattle.cw_syntax.specs.Trees.{statement_of, statements_of, definition_of, file_of};
ghost use Rattle.cw_resolve.specs.Labels.{labels_of, labels_of_all, label_names};

use crate::names::is_same;
use cw_syntax::names::text;
use cw_syntax::program::{Function, Program, Stmt, What};

/// Whether a label of a statement has this name.
#[cycle(has_label)]
#[tactic(auto, using(crate::proofs::LabelJoins::any_join, crate::proofs::LabelJoins::any_label, crate::proofs::LabelShapes::block_labels, crate::proofs::LabelShapes::for_labels))]
fn has_label(source: &[u8], name: &[u8], statement: &Stmt) -> bool
    ensures { result ≡ list_any (bytes_eq name.now) (map (λ l. text source.now l.name) (labels_of (statement_of statement.now))) }
{
    match &statement.what {
        What::Block(statements) => has_label_in(source, name, statements),
        What::Label(label, _, body) => {
            is_same(name, text(source, *label)) || has_label(source, name, body)
        }
        What::If(_, arm, other) => match other {
            None => has_label(source, name, arm),
            Some(other) => has_label(source, name, arm) || has_label(source, name, other),
        },
        What::While(_, body) => has_label(source, name, body),
        What::Do(body, _) => has_label(source, name, body),
        What::For(_, body) => has_label(source, name, body),
        What::Decl(_) | What::Expr(_) | What::Empty => false,
        What::Break | What::Continue | What::Return(_) => false,
    }
}

/// Whether a label in some statements has this name.
#[cycle(has_label)]
#[tactic(auto, using(crate::proofs::LabelJoins::any_join, crate::proofs::LabelJoins::any_label))]
fn has_label_in(source: &[u8], name: &[u8], statements: &[Stmt]) -> bool
    ensures { result ≡ list_any (bytes_eq name.now) (map (λ l. text source.now l.name) (labels_of_all (statements_of statements.now))) }
{
    for statement in statements {
        if has_label(source, name, statement) {
            return true;
        }
    }
    false
}

/// Whether a label of some of these functions has this name.
#[tactic(auto, using(crate::proofs::LabelJoins::any_join, crate::proofs::LabelJoins::any_label))]
fn some_has_label(source: &[u8], name: &[u8], functions: &[Function]) -> bool
    ensures { result ≡ list_any (bytes_eq name.now) (map (λ l. text source.now l.name) (flat_map (λ f. labels_of_all f.body) (map definition_of functions.now))) }
{
    for function in functions {
        if has_label_in(source, name, &function.body) {
            return true;
        }
    }
    false
}

/// Whether a label of the program has this name.
pub fn is_label(source: &[u8], name: &[u8], program: &Program) -> bool
    ensures label { result ≡ list_any (bytes_eq name.now) (label_names source.now (file_of program.now)) }
{
    some_has_label(source, name, &program.functions)
}
