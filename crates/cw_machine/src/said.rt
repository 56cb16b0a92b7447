//! The statements of a function, and which of them begins at a place.

ghost use Rattle.std.specs.Prelude.{◌≡◌, find, map, IfOk, IsTrue};
ghost use Rattle.cw_value.specs.Deeds.{begins_at};
ghost use Rattle.cw_slots.specs.Texts.{statement_at};
ghost use Rattle.cw_machine.specs.Apart.{AreApart};

use cw_core::limits::SOURCE_BYTES;
use cw_syntax::program::Stmt;
use std::alloc::{AllocError, Global};
use std::marker::Model;

/// Statements further than this behind the first are found by a walk.
const MOST_BYTES: u32 = SOURCE_BYTES as u32;

/// The statements of a function, in the order of the text.
///
/// Contracts see the list. Where they begin one behind the other, as in each program that is read, a search takes a constant number of
/// steps; no clause says so.
#[derive(Drop)]
pub struct Said<'s> {
    statements: Vec<&'s Stmt>,
    /// Whether each is known to begin behind the one before.
    apart: bool,
    /// Where the first begins.
    start: u32,
    /// For each place from there on, which statement may begin there: a guess.
    near: Vec<u32>,
}

impl<'s> Model for Said<'s> {
    ghost use Rattle.std.specs.Prelude.{◌≡◌, List, map, true};
    ghost use Rattle.std.specs.Borrow.{Bor};
    ghost use Rattle.cw_syntax.specs.declared.program.Stmt.{Stmt};
    ghost use Rattle.cw_machine.specs.Apart.{AreApart};
    ghost use Rattle.cw_slots.specs.Texts.{statement_at};
    ghost use Rattle.cw_syntax.specs.contracts.program.What as what;
    ghost use Rattle.std.specs.Coded.{codes};

    ghost Value = { List (Bor Stmt) };

    ghost coded = { Prim.hlevel (codes, what.the_row.coded) };

    ghost view = { λ s. s.statements.items };

    ghost invariant = { λ s. s.apart ≡ true → AreApart (map statement_at s.statements.items) };
}

impl<'s> Said<'s> {
    /// These statements.
    pub fn of(alloc: Global, statements: Vec<&'s Stmt>) -> Result<Said<'s>, AllocError>
        ensures said { IfOk result (λ said. said ≡ statements.entry.items) }
    {
        let start = first_start(&statements);
        let near = guesses(alloc, &statements, start)?;
        Ok(Said {
            apart: are_apart(&statements),
            start,
            near,
            statements,
        })
    }

    /// Statements of which the first that begins at this place is that of all.
    pub fn behind(&self, at: u32) -> &[&'s Stmt]
        ensures found { find (begins_at at) (map statement_at result.now) ≡ find (begins_at at) (map statement_at self.now) }
    {
        let number = self.guess(at);
        match self.statements.get(number) {
            Some(statement) if self.apart && statement.from == at => &self.statements[number..],
            _ => &self.statements,
        }
    }

    /// The number of the statement that may begin at this place.
    fn guess(&self, at: u32) -> usize {
        match at.checked_sub(self.start) {
            None => 0,
            Some(offset) => match self.near.get(offset as usize) {
                None => 0,
                Some(number) => *number as usize,
            },
        }
    }
}

/// Where the first of these statements begins.
fn first_start(statements: &[&Stmt]) -> u32 {
    match statements.first() {
        None => 0,
        Some(first) => first.from,
    }
}

/// For each place from this on, which of these statements may begin there.
fn guesses(alloc: Global, statements: &[&Stmt], start: u32) -> Result<Vec<u32>, AllocError> {
    let mut near = Vec::new(alloc);
    let mut number = 0_u32;
    for statement in statements {
        let offset = statement.from.saturating_sub(start);
        if offset < MOST_BYTES {
            let end = offset as usize + 1;
            if near.len() < end {
                near.resize(end, number)?;
            }
        }
        number = number.saturating_add(1);
    }
    Ok(near)
}

/// Whether each of these statements begins behind the one before.
fn are_apart(statements: &[&Stmt]) -> bool
    ensures apart { IsTrue result → AreApart (map statement_at statements.now) }
{
    let mut from = 0_u64;
    for statement in statements {
        if u64::from(statement.from) < from {
            return false;
        }
        from = u64::from(statement.from) + 1;
    }
    true
}
