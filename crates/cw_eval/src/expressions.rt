//! What expressions give.

ghost use Rattle.std.specs.Prelude.{◌≡◌, ◌++◌, ◌-◌, false};
ghost use Rattle.cw_syntax.specs.Trees.{Node, more, none, tree_of, trees_of, op_of, parts_of};
ghost use Rattle.cw_value.specs.Expressions.{Nothing, ◌and◌, arguments, argued, assigned, base, before_first, binary, by_one, element, first, first_location, from_of, gives, index, is_span, joined, prefixed, second, stepped, target, target_of, to_of, value};
ghost use Rattle.cw_slots.specs.Shown.{location_in, scope_of};
ghost use Rattle.cw_eval.specs.Parts.{argument};
ghost use Rattle.cw_eval.specs.Shown.{Shows, as_is, items_in, memory_of, target_in};

use crate::halt::Halt;
use crate::memory::{Memory, Target};
use crate::operations::{
    answered, by_one, changed, number, operated, put, signed, truth_of, updated,
};
use crate::reads::{
    before_first, cell_read, element_in, first_location, is_array, is_span, name_target, read_name,
};
use cw_figures::{Joint, is_zero, joint_of};
use cw_slots::Scope;
use cw_syntax::program::{Expr, Name, Op};
use cw_value::{Arg, Stop};

/// What an expression gives. A name and a number are read without a further call.
#[cycle(value)]
#[inline(always)]
pub fn value(scope: &Scope, e: &Expr, m: &mut Memory) -> Result<i64, Halt>
    ensures { Shows as_is result (memory_of m.new) (value (scope_of scope.now) (tree_of e.now) (memory_of m.old)) }
{
    match e.op {
        Op::Name => read_name(scope, e.from, e.to, m),
        Op::Number(n) => number(n, e.from, m),
        _ => any_value(scope, e, m),
    }
}

/// What an expression gives, of whatever operator. The forms that loops are made of are inlined.
#[cycle(value)]
fn any_value(scope: &Scope, e: &Expr, m: &mut Memory) -> Result<i64, Halt>
    ensures { Shows as_is result (memory_of m.new) (value (scope_of scope.now) (tree_of e.now) (memory_of m.old)) }
{
    match e.op {
        Op::Binary(n) => binary(scope, n, &e.parts, e.from, m),
        Op::Suffix(n) => suffixed(scope, n, &e.parts, e.from, m),
        Op::Assign(n) => assignment(scope, n, &e.parts, e.from, m),
        _ => node(scope, e.op, &e.parts, e.from, e.to, m),
    }
}

/// What an expression of this operator, these parts and this span gives.
#[cycle(value)]
#[inline(never)]
fn node(
    scope: &Scope,
    op: Op,
    parts: &[Expr],
    from: u32,
    to: u32,
    m: &mut Memory,
) -> Result<i64, Halt>
    ensures { Shows as_is result (memory_of m.new) (value (scope_of scope.now) (Node op (trees_of parts.now) from to) (memory_of m.old)) }
{
    match op {
        Op::Name => read_name(scope, from, to, m),
        Op::Number(n) => number(n, from, m),
        Op::Char(n) => Ok(i64::from(n)),
        Op::Text => Err(Halt::Stop(Stop::Form(from))),
        Op::Call(name) => {
            let args = arguments(scope, parts, m)?;
            answered(name, from, args, m)
        }
        Op::Index => {
            let target = element(scope, from, parts, m)?;
            cell_read(from, m.cell_at(target), m)
        }
        Op::Prefix(n) => prefixed(scope, n, from, parts, m),
        Op::Suffix(n) => suffixed(scope, n, parts, from, m),
        Op::Binary(n) => binary(scope, n, parts, from, m),
        Op::Assign(n) => assignment(scope, n, parts, from, m),
        Op::Cast(_) => first(scope, parts, m),
        Op::SizeOf => {
            first(scope, parts, m)?;
            Err(Halt::Stop(Stop::Form(from)))
        }
        Op::SizeOfType(_) => Err(Halt::Stop(Stop::Form(from))),
    }
}

/// A binary operator between its operands.
#[cycle(value)]
#[inline(always)]
fn binary(scope: &Scope, n: u8, parts: &[Expr], at: u32, m: &mut Memory) -> Result<i64, Halt>
    ensures { Shows as_is result (memory_of m.new) (binary n at (first (scope_of scope.now) (trees_of parts.now)) (second (scope_of scope.now) (trees_of parts.now)) (memory_of m.old)) }
{
    let a = first(scope, parts, m)?;
    joined(scope, joint_of(n), a, parts, at, m)
}

/// `++` or `--` behind its operand.
#[cycle(value)]
#[inline(always)]
fn suffixed(scope: &Scope, n: u8, parts: &[Expr], at: u32, m: &mut Memory) -> Result<i64, Halt>
    ensures { Shows as_is result (memory_of m.new) (target (scope_of scope.now) (trees_of parts.now) (memory_of m.old) and stepped false at (by_one n) (before_first (scope_of scope.now) (trees_of parts.now))) }
{
    let target = target(scope, parts, m)?;
    stepped(scope, false, at, by_one(n), parts, target, m)
}

/// An assignment.
#[cycle(value)]
#[inline(always)]
fn assignment(scope: &Scope, n: u8, parts: &[Expr], at: u32, m: &mut Memory) -> Result<i64, Halt>
    ensures { Shows as_is result (memory_of m.new) (target (scope_of scope.now) (trees_of parts.now) (memory_of m.old) and assigned n at (before_first (scope_of scope.now) (trees_of parts.now)) (second (scope_of scope.now) (trees_of parts.now))) }
{
    let target = target(scope, parts, m)?;
    assigned(scope, n, at, parts, target, m)
}

/// What the first of these parts gives.
#[cycle(value)]
#[inline(always)]
fn first(scope: &Scope, parts: &[Expr], m: &mut Memory) -> Result<i64, Halt>
    ensures { Shows as_is result (memory_of m.new) (first (scope_of scope.now) (trees_of parts.now) (memory_of m.old)) }
{
    match parts {
        [] => Err(Halt::Stop(Stop::Form(0))),
        [e, ..] => value(scope, e, m),
    }
}

/// What the second gives.
#[cycle(value)]
#[inline(always)]
fn second(scope: &Scope, parts: &[Expr], m: &mut Memory) -> Result<i64, Halt>
    ensures { Shows as_is result (memory_of m.new) (second (scope_of scope.now) (trees_of parts.now) (memory_of m.old)) }
{
    match parts {
        [] => Err(Halt::Stop(Stop::Form(0))),
        [_, rest @ ..] => match rest {
            [] => Err(Halt::Stop(Stop::Form(0))),
            [e, ..] => value(scope, e, m),
        },
    }
}

/// `||` and `&&` stop early; every other operator takes both operands.
#[cycle(value)]
#[inline(always)]
fn joined(
    scope: &Scope,
    joint: Joint,
    a: i64,
    parts: &[Expr],
    at: u32,
    m: &mut Memory,
) -> Result<i64, Halt>
    ensures { Shows as_is result (memory_of m.new) (joined at joint a (second (scope_of scope.now) (trees_of parts.now)) (memory_of m.old)) }
{
    match joint {
        Joint::Or => {
            if is_zero(a) {
                Ok(truth_of(second(scope, parts, m)?))
            } else {
                Ok(1)
            }
        }
        Joint::And => {
            if is_zero(a) {
                Ok(0)
            } else {
                Ok(truth_of(second(scope, parts, m)?))
            }
        }
        Joint::By(op) => {
            let b = second(scope, parts, m)?;
            operated(op, a, b, at, m)
        }
        Joint::Nothing => Err(Halt::Stop(Stop::Form(at))),
    }
}

/// The element of an index: its base an array, its index in range.
#[cycle(value)]
#[inline(always)]
fn element(scope: &Scope, at: u32, parts: &[Expr], m: &mut Memory) -> Result<Target, Halt>
    ensures { Shows target_in result (memory_of m.new) (element at (first_location (scope_of scope.now) (trees_of parts.now)) (first (scope_of scope.now) (trees_of parts.now)) (second (scope_of scope.now) (trees_of parts.now)) (memory_of m.old)) }
{
    let location = first_location(scope, parts);
    if is_array(location) {
        let i = second(scope, parts, m)?;
        return element_in(at, location, i, m);
    }
    first(scope, parts, m)?;
    second(scope, parts, m)?;
    Err(Halt::Stop(Stop::Form(at)))
}

/// Where the first of these parts can be changed.
#[cycle(value)]
#[inline(always)]
fn target(scope: &Scope, parts: &[Expr], m: &mut Memory) -> Result<Target, Halt>
    ensures { Shows target_in result (memory_of m.new) (target (scope_of scope.now) (trees_of parts.now) (memory_of m.old)) }
{
    match parts {
        [] => Err(Halt::Stop(Stop::Form(0))),
        [e, ..] => target_of(scope, e, m),
    }
}

/// Where an expression can be changed. A name is looked up without a further call.
#[cycle(value)]
#[inline(always)]
fn target_of(scope: &Scope, e: &Expr, m: &mut Memory) -> Result<Target, Halt>
    ensures { Shows target_in result (memory_of m.new) (target (scope_of scope.now) (more (tree_of e.now) none) (memory_of m.old)) }
{
    match e.op {
        Op::Name => Ok(name_target(scope, e.from, e.to)),
        _ => target_node(scope, e.op, &e.parts, e.from, e.to, m),
    }
}

/// A name and an element of an array can be changed. Another operand is evaluated.
#[cycle(value)]
#[inline(never)]
fn target_node(
    scope: &Scope,
    op: Op,
    parts: &[Expr],
    from: u32,
    to: u32,
    m: &mut Memory,
) -> Result<Target, Halt>
    ensures { Shows target_in result (memory_of m.new) (target (scope_of scope.now) (more (Node op (trees_of parts.now) from to) none) (memory_of m.old)) }
{
    match op {
        Op::Name => Ok(name_target(scope, from, to)),
        Op::Index => element(scope, from, parts, m),
        Op::Number(_) => no_target(scope, op, parts, from, to, m),
        Op::Char(_) => no_target(scope, op, parts, from, to, m),
        Op::Text => no_target(scope, op, parts, from, to, m),
        Op::Call(_) => no_target(scope, op, parts, from, to, m),
        Op::Prefix(_) => no_target(scope, op, parts, from, to, m),
        Op::Suffix(_) => no_target(scope, op, parts, from, to, m),
        Op::Binary(_) => no_target(scope, op, parts, from, to, m),
        Op::Assign(_) => no_target(scope, op, parts, from, to, m),
        Op::Cast(_) => no_target(scope, op, parts, from, to, m),
        Op::SizeOf => no_target(scope, op, parts, from, to, m),
        Op::SizeOfType(_) => no_target(scope, op, parts, from, to, m),
    }
}

/// The target of an assignment whose left side is nothing that can be changed: it is evaluated all the same.
#[cycle(value)]
#[inline(never)]
fn no_target(
    scope: &Scope,
    op: Op,
    parts: &[Expr],
    from: u32,
    to: u32,
    m: &mut Memory,
) -> Result<Target, Halt>
    ensures { Shows target_in result (memory_of m.new) (value (scope_of scope.now) (Node op (trees_of parts.now) from to) (memory_of m.old) and (λ z k. gives Nothing k)) }
{
    node(scope, op, parts, from, to, m)?;
    Ok(Target::Nothing)
}

/// `++` and `--`, by what they change.
#[inline(always)]
fn stepped(
    scope: &Scope,
    after: bool,
    at: u32,
    by: i64,
    parts: &[Expr],
    target: Target,
    m: &mut Memory,
) -> Result<i64, Halt>
    ensures { Shows as_is result (memory_of m.new) (stepped after at by (before_first (scope_of scope.now) (trees_of parts.now)) (target_in target) (memory_of m.old)) }
{
    let old = before_first(scope, parts, target, m)?;
    changed(after, at, by, target, old, m)
}

/// An operator before its operand.
#[cycle(value)]
#[inline(always)]
fn prefixed(scope: &Scope, n: u8, at: u32, parts: &[Expr], m: &mut Memory) -> Result<i64, Halt>
    ensures { Shows as_is result (memory_of m.new) (prefixed n at (before_first (scope_of scope.now) (trees_of parts.now)) (target (scope_of scope.now) (trees_of parts.now)) (first (scope_of scope.now) (trees_of parts.now)) (memory_of m.old)) }
{
    if n == 6 || n == 7 {
        let target = target(scope, parts, m)?;
        return stepped(scope, true, at, by_one(n - 6), parts, target, m);
    }
    let z = first(scope, parts, m)?;
    signed(n, at, z, m)
}

/// An assignment, by its target.
#[cycle(value)]
#[inline(always)]
fn assigned(
    scope: &Scope,
    n: u8,
    at: u32,
    parts: &[Expr],
    target: Target,
    m: &mut Memory,
) -> Result<i64, Halt>
    ensures { Shows as_is result (memory_of m.new) (assigned n at (before_first (scope_of scope.now) (trees_of parts.now)) (second (scope_of scope.now) (trees_of parts.now)) (target_in target) (memory_of m.old)) }
{
    if n == 0 {
        let z = second(scope, parts, m)?;
        return put(at, target, z, m);
    }
    let a = before_first(scope, parts, target, m)?;
    let b = second(scope, parts, m)?;
    updated(n, at, target, a, b, m)
}

/// An argument of an external call.
#[cycle(value)]
fn argument(scope: &Scope, e: &Expr, m: &mut Memory) -> Result<Arg, Halt>
    ensures { Shows as_is result (memory_of m.new) (argument (scope_of scope.now) (tree_of e.now) (memory_of m.old)) }
{
    argument_node(scope, e.op, &e.parts, e.from, e.to, m)
}

/// Its value, or its span where it is passed as that.
#[cycle(value)]
fn argument_node(
    scope: &Scope,
    op: Op,
    parts: &[Expr],
    from: u32,
    to: u32,
    m: &mut Memory,
) -> Result<Arg, Halt>
    ensures { Shows as_is result (memory_of m.new) (argument (scope_of scope.now) (Node op (trees_of parts.now) from to) (memory_of m.old)) }
{
    if is_span(scope, op, from, to) {
        return Ok(Arg::Text(Name { from, to }));
    }
    let z = node(scope, op, parts, from, to, m)?;
    Ok(Arg::Number(z))
}

/// The arguments of an external call, from left to right.
#[cycle(value)]
#[inline(never)]
pub fn arguments(scope: &Scope, parts: &[Expr], m: &mut Memory) -> Result<Vec<Arg>, Halt>
    ensures { Shows items_in result (memory_of m.new) (arguments (scope_of scope.now) (trees_of parts.now) (memory_of m.old)) }
{
    let mut args = Vec::new(scope.alloc);
    for e in parts {
        args.push(argument(scope, e, m)?)?;
    }
    Ok(args)
}
