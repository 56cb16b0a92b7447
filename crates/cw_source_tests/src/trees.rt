//! Trees as texts: each part in parentheses, with its kind, its place in the source and its own parts.

use cw_syntax::program::{Decl, Expr, Function, Item, Name, Proto, Stmt, What};
use std::alloc::{AllocError, Global};

/// What is still to be written.
#[derive(Clone, Copy)]
pub enum Part<'p> {
    Nothing,
    /// What closes a part.
    End,
    /// How many tokens are left behind a tree.
    Left(usize),
    /// The name of a label, and the place behind its colon.
    Label(Name, u32),
    Prototypes(&'p [Proto]),
    Declarations(&'p [Decl]),
    Functions(&'p [Function]),
    Statements(&'p [Stmt]),
    Expressions(&'p [Expr]),
    Items(&'p [Item]),
    Statement(&'p Stmt),
    Expression(&'p Expr),
}

use Part::{
    Declarations, End, Expression, Expressions, Functions, Items, Label, Left, Nothing, Prototypes,
    Statement, Statements,
};

/// An expression that may be absent.
fn tree_or_none(tree: &Option<Expr>) -> Part<'_> {
    match tree {
        None => Nothing,
        Some(tree) => Expression(tree),
    }
}

/// A statement that may be absent.
fn statement_or_none(statement: &Option<Stmt>) -> Part<'_> {
    match statement {
        None => Nothing,
        Some(statement) => Statement(statement),
    }
}

/// What stands behind `else`.
fn arm_or_none(arm: &Option<Box<Stmt>>) -> Part<'_> {
    match arm {
        None => Nothing,
        Some(arm) => Statement(arm),
    }
}

/// The parts of a statement, in the order of the source, and its end.
fn parts_of_statement(what: &What) -> [Part<'_>; 5] {
    match what {
        What::Block(list) => [Statements(list), End, Nothing, Nothing, Nothing],
        What::Decl(declaration) => [Items(&declaration.items), End, Nothing, Nothing, Nothing],
        What::Expr(tree) => [Expression(tree), End, Nothing, Nothing, Nothing],
        What::Label(name, mark, inner) => {
            [Label(*name, *mark), Statement(inner), End, Nothing, Nothing]
        }
        What::If(test, first, second) => [
            Expression(test),
            Statement(first),
            arm_or_none(second),
            End,
            Nothing,
        ],
        What::While(test, inner) => [Expression(test), Statement(inner), End, Nothing, Nothing],
        What::Do(inner, test) => [Statement(inner), Expression(test), End, Nothing, Nothing],
        What::For(head, inner) => [
            statement_or_none(&head.init),
            tree_or_none(&head.test),
            tree_or_none(&head.step),
            Statement(inner),
            End,
        ],
        What::Return(tree) => [tree_or_none(tree), End, Nothing, Nothing, Nothing],
        What::Empty | What::Break | What::Continue => [End, Nothing, Nothing, Nothing, Nothing],
    }
}

/// The parts of a part, in the order of the source: of a list those of its first, and the rest.
fn parts_of<'p>(part: Part<'p>) -> [Part<'p>; 5] {
    match part {
        Statement(statement) => parts_of_statement(&statement.what),
        Expression(tree) => [Expressions(&tree.parts), End, Nothing, Nothing, Nothing],
        Statements([first, rest @ ..]) => {
            [
                Statement(first),
                Statements(rest),
                Nothing,
                Nothing,
                Nothing,
            ]
        }
        Expressions([first, rest @ ..]) => [
            Expression(first),
            Expressions(rest),
            Nothing,
            Nothing,
            Nothing,
        ],
        Items([first, rest @ ..]) => {
            [Expressions(&first.init), End, Items(rest), Nothing, Nothing]
        }
        Prototypes([_, rest @ ..]) => [End, Prototypes(rest), Nothing, Nothing, Nothing],
        Declarations([first, rest @ ..]) => {
            [
                Items(&first.items),
                End,
                Declarations(rest),
                Nothing,
                Nothing,
            ]
        }
        Functions([first, rest @ ..]) => {
            [
                Statements(&first.body),
                End,
                Functions(rest),
                Nothing,
                Nothing,
            ]
        }
        _ => [Nothing; 5],
    }
}

fn kind_of(what: &What) -> &'static str {
    match what {
        What::Block(_) => "block",
        What::Decl(_) => "declaration",
        What::Expr(_) => "expression",
        What::Empty => "empty",
        What::Label(_, _, _) => "label",
        What::If(_, _, _) => "if",
        What::While(_, _) => "while",
        What::Do(_, _) => "do",
        What::For(_, _) => "for",
        What::Break => "break",
        What::Continue => "continue",
        What::Return(_) => "return",
    }
}

/// Writes what stands before the parts of a part: of a list, what stands before those of its first.
fn open(text: &mut String, part: Part) -> Result<(), AllocError> {
    match part {
        End => text.push_str(")"),
        Left(count) => write!(text, " | {count}"),
        Label(name, mark) => write!(text, ":{}-{},{mark}", name.from, name.to),
        Statement(statement) => {
            let kind = kind_of(&statement.what);
            write!(text, "({kind} {}-{}", statement.from, statement.to)
        }
        Expression(tree) => write!(text, "({:?} {}-{}", tree.op, tree.from, tree.to),
        Items([item, ..]) => {
            write!(text, "({:?} {}-{}", item.kind, item.name.from, item.name.to)
        }
        Prototypes([prototype, ..]) => {
            let name = prototype.name;
            write!(
                text,
                "(prototype {}-{} {}",
                name.from,
                name.to,
                prototype.params.len()
            )
        }
        Declarations([declaration, ..]) => {
            write!(text, "(declaration {}-{}", declaration.from, declaration.to)
        }
        Functions([function, ..]) => {
            write!(
                text,
                "(function {}-{}",
                function.name.from, function.name.to
            )
        }
        _ => Ok(()),
    }
}

/// Puts parts on what waits, the last first.
fn put<'p>(waiting: &mut Vec<Part<'p>>, parts: &[Part<'p>]) -> Result<(), AllocError> {
    for part in parts.iter().rev() {
        waiting.push(*part)?;
    }
    Ok(())
}

/// The text of parts, one behind the other.
pub fn written<'p>(alloc: Global, parts: &[Part<'p>]) -> Result<String, AllocError> {
    let mut text = String::new(alloc);
    let mut waiting = Vec::new(alloc);
    put(&mut waiting, parts)?;
    for _ in 0..2000 {
        match waiting.pop() {
            None => return Ok(text),
            Some(Nothing) => (),
            Some(part) => {
                open(&mut text, part)?;
                put(&mut waiting, &parts_of(part))?;
            }
        }
    }
    Ok(text)
}
