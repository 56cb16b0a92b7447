//! What passing an item of a frame does beside the step itself.

ghost use Rattle.std.specs.Prelude.{◌≡◌, option_map};
ghost use Rattle.cw_syntax.specs.Trees.{tree_of, trees_of};
ghost use Rattle.cw_value.specs.Deeds.{by_way, decided_by, does, opened_by, value_if, values};
ghost use Rattle.cw_slots.specs.Shown.{scope_of};
ghost use Rattle.cw_scope.specs.Held.{tree_at};
ghost use Rattle.cw_eval.specs.Passings.{deed_in, passing_of, way_in};
ghost use Rattle.cw_eval.specs.Shown.{Shows, as_is, items_in, memory_of};

use crate::declarations::declare;
use crate::expressions::value;
use crate::halt::Halt;
use crate::memory::Memory;
use cw_figures::is_zero;
use cw_slots::Scope;
use cw_syntax::program::{Decl, Expr};

/// What passing an item does: nothing; it evaluates an expression if there is one, makes a declaration, decides by a condition, opens, evaluates a
/// call's arguments, evaluates what is returned.
#[derive(Clone, Copy, Drop)]
pub enum Deed<'s> {
    Rests,
    Computes(Option<&'s Expr>),
    Makes(&'s Decl),
    Decides(Option<&'s Expr>),
    Opens(Option<&'s Expr>),
    Calls(&'s [Expr]),
    Answers(Option<&'s Expr>),
}

/// A way on from an item.
#[derive(Clone, Copy, Drop, Debug, PartialEq, Eq)]
pub enum Way {
    On,
    Left,
    Right,
    Opened,
    Failed,
}

/// What it leads to: the way on; the values of a call's arguments; the value of a `return`.
#[derive(Drop)]
pub struct Passing {
    pub way: Way,
    pub arguments: Vec<i64>,
    pub answer: Option<i64>,
}

/// The value of an expression, if there is one.
#[inline(always)]
fn value_if(scope: &Scope, e: Option<&Expr>, m: &mut Memory) -> Result<Option<i64>, Halt>
    ensures { Shows as_is result (memory_of m.new) (value_if (scope_of scope.now) (option_map tree_at e.entry) (memory_of m.old)) }
{
    match e {
        None => Ok(None),
        Some(e) => {
            let z = value(scope, e, m)?;
            Ok(Some(z))
        }
    }
}

/// The values of expressions, from left to right.
fn values(scope: &Scope, parts: &[Expr], m: &mut Memory) -> Result<Vec<i64>, Halt>
    ensures { Shows items_in result (memory_of m.new) (values (scope_of scope.now) (trees_of parts.now) (memory_of m.old)) }
{
    let mut values = Vec::new(scope.alloc);
    for e in parts {
        values.push(value(scope, e, m)?)?;
    }
    Ok(values)
}

/// A condition that isn't 0 goes left; without one there is one way.
#[inline(always)]
fn decided_by(z: Option<i64>) -> Way
    ensures { way_in result ≡ decided_by z }
{
    match z {
        None => Way::Left,
        Some(z) => { if is_zero(z) { Way::Right } else { Way::Left } }
    }
}

/// An open has succeeded where its value isn't negative.
#[inline(always)]
fn opened_by(z: Option<i64>) -> Way
    ensures { way_in result ≡ opened_by z }
{
    match z {
        None => Way::Opened,
        Some(z) => { if z < 0 { Way::Failed } else { Way::Opened } }
    }
}

/// What a deed leads to that has neither arguments nor an answer.
#[inline(always)]
fn by_way(scope: &Scope, way: Way) -> Passing
    ensures { passing_of result ≡ by_way (way_in way) }
{
    Passing {
        way,
        arguments: Vec::new(scope.alloc),
        answer: None,
    }
}

/// Does what a deed says.
#[inline(always)]
pub fn does(scope: &Scope, deed: Deed, m: &mut Memory) -> Result<Passing, Halt>
    ensures done { Shows passing_of result (memory_of m.new) (does (scope_of scope.now) (deed_in deed.entry) (memory_of m.old)) }
{
    match deed {
        Deed::Rests => Ok(by_way(scope, Way::On)),
        Deed::Computes(e) => {
            value_if(scope, e, m)?;
            Ok(by_way(scope, Way::On))
        }
        Deed::Makes(declaration) => {
            declare(scope, declaration, m)?;
            Ok(by_way(scope, Way::On))
        }
        Deed::Decides(e) => {
            let z = value_if(scope, e, m)?;
            Ok(by_way(scope, decided_by(z)))
        }
        Deed::Opens(e) => {
            let z = value_if(scope, e, m)?;
            Ok(by_way(scope, opened_by(z)))
        }
        Deed::Calls(parts) => {
            let arguments = values(scope, parts, m)?;
            Ok(Passing {
                way: Way::On,
                arguments,
                answer: None,
            })
        }
        Deed::Answers(e) => {
            let answer = value_if(scope, e, m)?;
            Ok(Passing {
                way: Way::On,
                arguments: Vec::new(scope.alloc),
                answer,
            })
        }
    }
}
