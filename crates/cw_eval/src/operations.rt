//! What operators do with what their operands give.

ghost use Rattle.std.specs.Prelude.{◌≡◌, pos, not, ◌+ℤ◌};
ghost use Rattle.cw_figures.specs.Figures.{compound_of, fitting, is_zero, operated, truth};
ghost use Rattle.cw_value.specs.Expressions.{after_change, ◌and◌, gives, stored, answered, by_one, changed, combined, figured, put, signed, updated};
ghost use Rattle.cw_eval.specs.Shown.{Shows, as_is, memory_of, target_in};

use crate::halt::Halt;
use crate::memory::{Memory, Target};
use cw_figures::{Operator, Want, compound_of, fitting, is_zero, negated, operate, truth};
use cw_syntax::program::Name;
use cw_value::{Arg, Made, Stop};

/// A figure, or its stop at this place.
#[inline(always)]
pub(crate) fn figured(figure: Result<i64, Want>, at: u32, m: &Memory) -> Result<i64, Halt>
    ensures { Shows as_is result (memory_of m.now) (figured at (memory_of m.now) figure) }
{
    match figure {
        Ok(z) => Ok(z),
        Err(Want::Overflow) => Err(Halt::Stop(Stop::Overflow(at))),
        Err(Want::Division) => Err(Halt::Stop(Stop::Division(at))),
    }
}

/// A number as it is written.
#[inline(always)]
pub(crate) fn number(n: u64, at: u32, m: &Memory) -> Result<i64, Halt>
    ensures { Shows as_is result (memory_of m.now) (figured at (memory_of m.now) (fitting (pos n))) }
{
    figured(fitting(n), at, m)
}

/// Two operands and an operator that takes both.
#[inline(always)]
pub(crate) fn operated(op: Operator, a: i64, b: i64, at: u32, m: &Memory) -> Result<i64, Halt>
    ensures { Shows as_is result (memory_of m.now) (figured at (memory_of m.now) (operated op a b)) }
{
    figured(operate(op, a, b), at, m)
}

/// Two operands and an operator, if there is one.
#[inline(always)]
fn combined(at: u32, op: Option<Operator>, a: i64, b: i64, m: &Memory) -> Result<i64, Halt>
    ensures { Shows as_is result (memory_of m.now) (combined at op a b (memory_of m.now)) }
{
    match op {
        None => Err(Halt::Stop(Stop::Form(at))),
        Some(op) => operated(op, a, b, at, m),
    }
}

/// 1 of what isn't 0.
#[inline(always)]
pub(crate) fn truth_of(z: i64) -> i64
    ensures { result ≡ truth (not (is_zero z)) }
{
    truth(!is_zero(z))
}

/// An operator before its operand that changes nothing.
#[inline(always)]
pub(crate) fn signed(n: u8, at: u32, z: i64, m: &Memory) -> Result<i64, Halt>
    ensures { Shows as_is result (memory_of m.now) (signed n at z (memory_of m.now)) }
{
    match n {
        0 => Ok(z),
        1 => figured(negated(z), at, m),
        2 => Ok(truth(is_zero(z))),
        3 => Ok(!z),
        _ => Err(Halt::Stop(Stop::Form(at))),
    }
}

/// Stores a value, where something can be changed.
#[inline(always)]
pub(crate) fn put(at: u32, target: Target, z: i64, m: &mut Memory) -> Result<i64, Halt>
    ensures { Shows as_is result (memory_of m.new) (put at (target_in target) z (memory_of m.old)) }
{
    match target {
        Target::Own(_) => {
            m.store(target, z)?;
            Ok(z)
        }
        Target::Shared(_) => {
            m.store(target, z)?;
            Ok(z)
        }
        Target::Nothing => Err(Halt::Stop(Stop::Form(at))),
    }
}

/// A compound assignment, by the old value and the right side.
#[inline(always)]
pub(crate) fn updated(
    n: u8,
    at: u32,
    target: Target,
    a: i64,
    b: i64,
    m: &mut Memory,
) -> Result<i64, Halt>
    ensures { Shows as_is result (memory_of m.new) (updated n at (target_in target) a b (memory_of m.old)) }
{
    match target {
        Target::Own(_) => {
            let z = combined(at, compound_of(n), a, b, m)?;
            put(at, target, z, m)
        }
        Target::Shared(_) => {
            let z = combined(at, compound_of(n), a, b, m)?;
            put(at, target, z, m)
        }
        Target::Nothing => Err(Halt::Stop(Stop::Form(at))),
    }
}

/// What `++` adds, and `--`.
#[inline(always)]
pub(crate) fn by_one(n: u8) -> i64
    ensures { result ≡ by_one n }
{
    if n == 0 { 1 } else { -1 }
}

/// Stores the old value with one added, and gives the new one or the old one.
#[inline(always)]
fn put_changed(
    after: bool,
    at: u32,
    by: i64,
    target: Target,
    old: i64,
    m: &mut Memory,
) -> Result<i64, Halt>
    ensures { Shows as_is result (memory_of m.new) (figured at (memory_of m.old) (fitting (old +ℤ by)) and (λ new k. gives (after_change after old new) (stored k (target_in target) new))) }
{
    let new = operated(Operator::Plus, old, by, at, m)?;
    m.store(target, new)?;
    Ok(if after { new } else { old })
}

/// `++` and `--`, by the old value.
#[inline(always)]
pub(crate) fn changed(
    after: bool,
    at: u32,
    by: i64,
    target: Target,
    old: i64,
    m: &mut Memory,
) -> Result<i64, Halt>
    ensures { Shows as_is result (memory_of m.new) (changed after at by (target_in target) old (memory_of m.old)) }
{
    match target {
        Target::Own(_) => put_changed(after, at, by, target, old, m),
        Target::Shared(_) => put_changed(after, at, by, target, old, m),
        Target::Nothing => Err(Halt::Stop(Stop::Form(at))),
    }
}

/// An external call takes the next answer, and has it as its value.
#[inline(never)]
pub(crate) fn answered(name: Name, at: u32, args: Vec<Arg>, m: &mut Memory) -> Result<i64, Halt>
    ensures { Shows as_is result (memory_of m.new) (answered name at args.items (memory_of m.old) (memory_of m.old).calls) }
{
    match m.calls {
        [] => Err(Halt::Stop(Stop::Answers(at))),
        [answer, rest @ ..] => {
            let answer = *answer;
            m.made.push(Made { name, args, answer })?;
            m.calls = rest;
            Ok(answer)
        }
    }
}
