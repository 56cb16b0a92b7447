//! What is read: names, cells, elements.

ghost use Rattle.std.specs.Prelude.{◌≡◌, ◌||◌, option_map};
ghost use Rattle.cw_syntax.specs.Names.{slice};
ghost use Rattle.cw_syntax.specs.Trees.{more, none, tree_of, trees_of};
ghost use Rattle.cw_value.specs.Stores.{array_of};
ghost use Rattle.cw_value.specs.Expressions.{OwnSpot, SharedSpot, bare_at, bare_location, before, before_first, cell_read, element_in, first_location, given_read, indexed, is_array, is_span, is_undeclared, name_if, name_read, name_target, old_value, location_of, read_name, spot_if, target_at};
ghost use Rattle.cw_slots.specs.Shown.{location_in, scope_of};
ghost use Rattle.cw_eval.specs.Shown.{Shows, as_is, memory_of, spot_in, store_of, target_in};

use crate::halt::Halt;
use crate::memory::{Memory, Target};
use crate::store::{Spot, Store};
use cw_slots::{Location, Scope};
use cw_syntax::program::{Expr, Op};
use cw_value::Stop;

/// What stands in a cell.
#[inline(always)]
pub(crate) fn cell_read(at: u32, cell: Option<i64>, m: &Memory) -> Result<i64, Halt>
    ensures { Shows as_is result (memory_of m.now) (cell_read at (memory_of m.now) cell) }
{
    match cell {
        Some(z) => Ok(z),
        None => Err(Halt::Stop(Stop::Unset(at))),
    }
}

/// What is handed in for a name that nothing declares.
fn given_read(at: u32, given: Option<i64>, m: &Memory) -> Result<i64, Halt>
    ensures { Shows as_is result (memory_of m.now) (given_read at (memory_of m.now) given) }
{
    match given {
        Some(z) => Ok(z),
        None => Err(Halt::Stop(Stop::Unknown(at))),
    }
}

/// The value of the name with this span, whose values are kept there.
#[inline(always)]
fn name_read(scope: &Scope, from: u32, to: u32, m: &Memory, location: Location) -> Result<i64, Halt>
    ensures { Shows as_is result (memory_of m.now) (name_read (scope_of scope.now) (slice (scope_of scope.now).source from to) from (memory_of m.now) (location_in location)) }
{
    match location {
        Location::Own(n) => cell_read(from, m.own.get(Spot::Plain(n)), m),
        Location::Shared(n) => cell_read(from, m.shared.get(Spot::Plain(n)), m),
        Location::Nowhere => given_read(from, scope.given(scope.text(from, to)), m),
        Location::OwnArray(_) => Err(Halt::Stop(Stop::Form(from))),
        Location::SharedArray(_) => Err(Halt::Stop(Stop::Form(from))),
    }
}

/// The value of the name with this span.
pub(crate) fn read_name(scope: &Scope, from: u32, to: u32, m: &Memory) -> Result<i64, Halt>
    ensures { Shows as_is result (memory_of m.now) (read_name (scope_of scope.now) from to (memory_of m.now)) }
{
    name_read(scope, from, to, m, scope.location_at(from, to))
}

/// Where a name is changed: nowhere where it isn't declared, or is an array.
#[inline(always)]
fn target_at(location: Location) -> Target
    ensures { target_in result ≡ target_at (location_in location) }
{
    match location {
        Location::Own(n) => Target::Own(Spot::Plain(n)),
        Location::Shared(n) => Target::Shared(Spot::Plain(n)),
        Location::OwnArray(_) => Target::Nothing,
        Location::SharedArray(_) => Target::Nothing,
        Location::Nowhere => Target::Nothing,
    }
}

/// Where the name with this span is changed.
#[inline(always)]
pub fn name_target(scope: &Scope, from: u32, to: u32) -> Target
    ensures target { target_in result ≡ name_target (scope_of scope.now) from to }
{
    target_at(scope.location_at(from, to))
}

/// The location of an expression that is a bare name.
#[inline(always)]
fn bare_at(scope: &Scope, op: Op, from: u32, to: u32) -> Location
    ensures { location_in result ≡ bare_at (scope_of scope.now) op from to }
{
    match op {
        Op::Name => scope.location_at(from, to),
        Op::Number(_) | Op::Char(_) | Op::Text | Op::Call(_) => Location::Nowhere,
        Op::Index | Op::Prefix(_) | Op::Suffix(_) | Op::Binary(_) => Location::Nowhere,
        Op::Assign(_) | Op::Cast(_) | Op::SizeOf | Op::SizeOfType(_) => Location::Nowhere,
    }
}

/// The location of an expression that is a name alone; nowhere for any other.
#[inline(always)]
fn bare_location(scope: &Scope, e: &Expr) -> Location
    ensures { location_in result ≡ bare_location (scope_of scope.now) (tree_of e.now) }
{
    bare_at(scope, e.op, e.from, e.to)
}

/// The location of the first of these parts, where it is a bare name.
#[inline(always)]
pub(crate) fn first_location(scope: &Scope, parts: &[Expr]) -> Location
    ensures { location_in result ≡ first_location (scope_of scope.now) (trees_of parts.now) }
{
    match parts {
        [] => Location::Nowhere,
        [e, ..] => bare_location(scope, e),
    }
}

/// Whether an array's elements are kept there.
#[inline(always)]
pub(crate) fn is_array(location: Location) -> bool
    ensures { result ≡ is_array (location_in location) }
{
    match location {
        Location::OwnArray(_) => true,
        Location::SharedArray(_) => true,
        Location::Own(_) | Location::Shared(_) | Location::Nowhere => false,
    }
}

/// An element, where the number is one of the array's.
#[inline(always)]
fn spot_if(store: &Store, i: i64, array: usize) -> Option<Spot>
    ensures { option_map spot_in result ≡ spot_if (array_of (store_of store.now) array) i array }
{
    if 0 <= i && (i as u64) < store.count(array) as u64 {
        Some(Spot::Element(array, i as usize))
    } else {
        None
    }
}

/// The element of the array that is kept there.
#[inline(always)]
pub(crate) fn element_in(at: u32, location: Location, i: i64, m: &Memory) -> Result<Target, Halt>
    ensures { Shows target_in result (memory_of m.now) (element_in at (location_in location) i (memory_of m.now)) }
{
    match location {
        Location::OwnArray(n) => match spot_if(&m.own, i, n) {
            Some(spot) => Ok(Target::Own(spot)),
            None => Err(Halt::Stop(Stop::Index(at))),
        },
        Location::SharedArray(n) => match spot_if(&m.shared, i, n) {
            Some(spot) => Ok(Target::Shared(spot)),
            None => Err(Halt::Stop(Stop::Index(at))),
        },
        Location::Own(_) => Err(Halt::Stop(Stop::Form(at))),
        Location::Shared(_) => Err(Halt::Stop(Stop::Form(at))),
        Location::Nowhere => Err(Halt::Stop(Stop::Form(at))),
    }
}

/// Whether an undeclared name has no value.
fn is_undeclared(scope: &Scope, name: &[u8], location: Location) -> bool
    ensures { result ≡ is_undeclared (scope_of scope.now) name.now (location_in location) }
{
    match location {
        Location::Nowhere => scope.given(name).is_none(),
        Location::Own(_) => false,
        Location::OwnArray(_) => false,
        Location::Shared(_) => false,
        Location::SharedArray(_) => false,
    }
}

/// Whether a name alone is passed as its span: an array, or a name that nothing declares and for which no value is handed in.
fn is_bare(scope: &Scope, name: &[u8]) -> bool
    ensures { result ≡ (is_array (location_of (scope_of scope.now) name.now) || is_undeclared (scope_of scope.now) name.now (location_of (scope_of scope.now) name.now)) }
{
    let location = scope.location(name);
    is_array(location) || is_undeclared(scope, name, location)
}

/// Whether an argument is passed as its span.
pub(crate) fn is_span(scope: &Scope, op: Op, from: u32, to: u32) -> bool
    ensures { result ≡ is_span (scope_of scope.now) op from to }
{
    match op {
        Op::Text => true,
        Op::Prefix(n) => n == 5,
        Op::Name => is_bare(scope, scope.text(from, to)),
        Op::Number(_) | Op::Char(_) | Op::Call(_) | Op::Index => false,
        Op::Suffix(_) | Op::Binary(_) | Op::Assign(_) => false,
        Op::Cast(_) | Op::SizeOf | Op::SizeOfType(_) => false,
    }
}

/// The value of an expression that is a name, before a change that can't be made; 0 of what is no name.
fn name_if(scope: &Scope, op: Op, from: u32, to: u32, m: &Memory) -> Result<i64, Halt>
    ensures { Shows as_is result (memory_of m.now) (name_if (scope_of scope.now) op from to (memory_of m.now)) }
{
    match op {
        Op::Name => read_name(scope, from, to, m),
        Op::Number(_) | Op::Char(_) | Op::Text | Op::Call(_) => Ok(0),
        Op::Index | Op::Prefix(_) | Op::Suffix(_) | Op::Binary(_) => Ok(0),
        Op::Assign(_) | Op::Cast(_) | Op::SizeOf | Op::SizeOfType(_) => Ok(0),
    }
}

/// The value before a change.
#[inline(always)]
fn old_value(
    scope: &Scope,
    op: Op,
    from: u32,
    to: u32,
    target: Target,
    m: &Memory,
) -> Result<i64, Halt>
    ensures { Shows as_is result (memory_of m.now) (before (scope_of scope.now) op from to (target_in target) (memory_of m.now)) }
{
    match target {
        Target::Own(_) => cell_read(from, m.cell_at(target), m),
        Target::Shared(_) => cell_read(from, m.cell_at(target), m),
        Target::Nothing => name_if(scope, op, from, to, m),
    }
}

/// The value of an expression before it is changed.
#[inline(always)]
fn before_change(scope: &Scope, e: &Expr, target: Target, m: &Memory) -> Result<i64, Halt>
    ensures { Shows as_is result (memory_of m.now) (before_first (scope_of scope.now) (more (tree_of e.now) none) (target_in target) (memory_of m.now)) }
{
    old_value(scope, e.op, e.from, e.to, target, m)
}

/// The value of the first part before it is changed.
#[inline(always)]
pub(crate) fn before_first(
    scope: &Scope,
    parts: &[Expr],
    target: Target,
    m: &Memory,
) -> Result<i64, Halt>
    ensures { Shows as_is result (memory_of m.now) (before_first (scope_of scope.now) (trees_of parts.now) (target_in target) (memory_of m.now)) }
{
    match parts {
        [] => Err(Halt::Stop(Stop::Form(0))),
        [e, ..] => before_change(scope, e, target, m),
    }
}
