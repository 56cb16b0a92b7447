//! What declarations do: they make arrays, and give names their first values.

ghost use Rattle.std.specs.Prelude.{◌≡◌, [], ◌++◌, ◌-◌, None, Some, false, OnOk, map, nat_lt, pos, replicate, slice_get, slice_set, take, unwrap_or};
ghost use Rattle.cw_syntax.specs.Names.{text};
ghost use Rattle.cw_syntax.specs.Trees.{array_of, declaration_of, declared_of, more, none, tree_of, trees_of, count};
ghost use Rattle.cw_value.specs.Expressions.{◌and◌, from_of, location_of, value};
ghost use Rattle.cw_value.specs.Declarations.{by_location, element_target, declares, declares_all, filled, listed, listed_array, listed_one, made_array, made_plain, new_array, new_plain, rest_stops, size_if, size_in, sized, with_list, with_zeros};
ghost use Rattle.cw_slots.specs.Shown.{location_in, scope_of};
ghost use Rattle.cw_eval.specs.Parts.{declared_one, listed_at};
ghost use Rattle.cw_eval.specs.Shown.{Shows, as_done, as_is, memory_of, target_in};

use crate::expressions::value;
use crate::halt::Halt;
use crate::memory::{Memory, Target};
use crate::store::Spot;
use cw_cells::Cells;
use cw_core::NoMemory;
use cw_slots::{Location, Scope};
use cw_syntax::program::{Decl, Expr, Item};
use cw_value::Stop;
use std::alloc::Global;

/// The most elements of an array.
const MOST_ELEMENTS: usize = 65_536;

/// Makes an array anew: so many elements that hold the same.
fn renew(arrays: &mut Vec<Cells>, array: usize, size: usize, cell: Option<i64>)
    ensures { arrays.new.items ≡ slice_set arrays.old.items array (replicate size cell) }
{
    if let Some(cells) = arrays.get_mut(array) {
        cells.renew(size, cell);
    }
}

/// Makes the array anew that is kept there.
pub fn make_array(location: Location, size: usize, cell: Option<i64>, m: &mut Memory)
    ensures made { memory_of m.new ≡ made_array (memory_of m.old) (location_in location) (replicate size cell) }
{
    match location {
        Location::OwnArray(n) => renew(&mut m.own.arrays, n, size, cell),
        Location::SharedArray(n) => renew(&mut m.shared.arrays, n, size, cell),
        Location::Own(_) => {}
        Location::Shared(_) => {}
        Location::Nowhere => {}
    }
}

/// Leaves so many of an array's first elements, and makes those behind them 0.
fn zero_behind(
    alloc: Global,
    arrays: &mut Vec<Cells>,
    array: usize,
    size: usize,
    count: usize,
) -> Result<(), NoMemory>
    ensures { OnOk result (arrays.new.items ≡ slice_set arrays.old.items array (take count (unwrap_or (slice_get arrays.old.items array) []) ++ replicate (size - count) (Some (pos 0)))) }
{
    match arrays.get_mut(array) {
        Some(cells) => cells.renew_from(alloc, count, size, Some(0)),
        None => Ok(()),
    }
}

/// The elements past those of the list are 0.
fn with_zeros(
    scope: &Scope,
    location: Location,
    size: usize,
    count: usize,
    m: &mut Memory,
) -> Result<(), NoMemory>
    ensures { OnOk result (memory_of m.new ≡ with_zeros (scope_of scope.now) (location_in location) size count (memory_of m.old)) }
{
    match location {
        Location::OwnArray(n) => zero_behind(scope.alloc, &mut m.own.arrays, n, size, count),
        Location::SharedArray(n) => zero_behind(scope.alloc, &mut m.shared.arrays, n, size, count),
        Location::Own(_) => Ok(()),
        Location::Shared(_) => Ok(()),
        Location::Nowhere => Ok(()),
    }
}

/// Gives the name its first value that is kept there.
fn make_plain(location: Location, cell: Option<i64>, m: &mut Memory) -> Result<(), NoMemory>
    ensures { OnOk result (memory_of m.new ≡ made_plain (memory_of m.old) (location_in location) cell) }
{
    match location {
        Location::Own(n) => m.own.set(Spot::Plain(n), cell),
        Location::Shared(n) => m.shared.set(Spot::Plain(n), cell),
        Location::OwnArray(_) => Ok(()),
        Location::SharedArray(_) => Ok(()),
        Location::Nowhere => Ok(()),
    }
}

/// The element of the array that is kept there.
fn element_target(location: Location, i: usize) -> Target
    ensures { target_in result ≡ element_target (location_in location) i }
{
    match location {
        Location::OwnArray(n) => Target::Own(Spot::Element(n, i)),
        Location::SharedArray(n) => Target::Shared(Spot::Element(n, i)),
        Location::Own(_) => Target::Nothing,
        Location::Shared(_) => Target::Nothing,
        Location::Nowhere => Target::Nothing,
    }
}

/// The start of an expression.
fn start(e: &Expr) -> u32
    ensures { result ≡ from_of (tree_of e.now) }
{
    e.from
}

/// How many elements an array gets by its size.
fn size_if(at: u32, n: i64, m: &Memory) -> Result<usize, Halt>
    ensures { Shows as_is result (memory_of m.now) (size_if at n (memory_of m.now)) }
{
    if 0 <= n && n <= MOST_ELEMENTS as i64 {
        Ok(n as usize)
    } else {
        Err(Halt::Stop(Stop::Form(at)))
    }
}

/// How many expressions there are.
fn count(init: &[Expr]) -> usize
    ensures { result ≡ count (trees_of init.now) }
{
    init.len()
}

/// How many elements an array gets by its list.
fn listed(braces: bool, init: &[Expr]) -> usize
    ensures { result ≡ listed braces (trees_of init.now) }
{
    if !braces {
        return 0;
    }
    let count = count(init);
    if count < MOST_ELEMENTS {
        count
    } else {
        MOST_ELEMENTS
    }
}

/// How many elements an array gets, by the expression in its brackets.
fn sized_by(scope: &Scope, e: &Expr, m: &mut Memory) -> Result<usize, Halt>
    ensures { Shows as_is result (memory_of m.new) (value (scope_of scope.now) (tree_of e.now) (memory_of m.old) and size_if (from_of (tree_of e.now))) }
{
    let n = value(scope, e, m)?;
    size_if(start(e), n, m)
}

/// How many elements an array gets: by its size, or, in empty brackets, by its list.
pub fn sized(
    scope: &Scope,
    array: &Option<Option<Expr>>,
    braces: bool,
    init: &[Expr],
    m: &mut Memory,
) -> Result<usize, Halt>
    ensures sized { Shows as_is result (memory_of m.new) (sized (scope_of scope.now) (size_in (array_of array.now)) braces (trees_of init.now) (memory_of m.old)) }
{
    match array {
        None => Ok(listed(braces, init)),
        Some(size) => match size {
            None => Ok(listed(braces, init)),
            Some(e) => sized_by(scope, e, m),
        },
    }
}

/// Stores an expression of a braced list, where the array has such an element.
fn fill_one(
    scope: &Scope,
    location: Location,
    size: usize,
    i: usize,
    e: &Expr,
    m: &mut Memory,
) -> Result<(), Halt>
    ensures { Shows as_done result (memory_of m.new) (listed_at (scope_of scope.now) (location_in location) size i (tree_of e.now) (memory_of m.old)) }
{
    if i < size {
        let z = value(scope, e, m)?;
        m.store(element_target(location, i), z)?;
        Ok(())
    } else {
        Err(Halt::Stop(Stop::Form(start(e))))
    }
}

/// Stores the expressions of a braced list, one after the other.
fn fill(
    scope: &Scope,
    location: Location,
    size: usize,
    init: &[Expr],
    m: &mut Memory,
) -> Result<(), Halt>
    ensures { Shows as_done result (memory_of m.new) (filled (scope_of scope.now) (location_in location) size 0 (trees_of init.now) (memory_of m.old)) }
{
    for (i, e) in init.iter().enumerate() {
        fill_one(scope, location, size, i, e, m)?;
    }
    Ok(())
}

/// An array of a braced list.
fn list_array(
    scope: &Scope,
    location: Location,
    init: &[Expr],
    size: usize,
    m: &mut Memory,
) -> Result<(), Halt>
    ensures { Shows as_done result (memory_of m.new) (listed_array (scope_of scope.now) (location_in location) (trees_of init.now) size (memory_of m.old)) }
{
    make_array(location, size, None, m);
    fill(scope, location, size, init, m)?;
    with_zeros(scope, location, size, count(init), m)?;
    Ok(())
}

/// An array without a list, whose initialiser isn't evaluated.
fn bare_array(
    _scope: &Scope,
    location: Location,
    init: &[Expr],
    size: usize,
    m: &mut Memory,
) -> Result<(), Halt>
    ensures { Shows as_done result (memory_of m.new) (with_list (scope_of _scope.now) (location_in location) false (trees_of init.now) size (memory_of m.old)) }
{
    match init {
        [] => {
            make_array(location, size, None, m);
            Ok(())
        }
        [e, ..] => Err(Halt::Stop(Stop::Form(start(e)))),
    }
}

/// Makes an array, with its list.
pub fn new_array(scope: &Scope, location: Location, item: &Item, m: &mut Memory) -> Result<(), Halt>
    ensures made { Shows as_done result (memory_of m.new) (new_array (scope_of scope.now) (location_in location) (size_in (declared_of item.now).array) (declared_of item.now).braces (declared_of item.now).init (memory_of m.old)) }
{
    let size = sized(scope, &item.array, item.braces, &item.init, m)?;
    if item.braces {
        list_array(scope, location, &item.init, size, m)
    } else {
        bare_array(scope, location, &item.init, size, m)
    }
}

/// A second expression of a list for a name that is no array is past its last element.
fn rest_stops(_scope: &Scope, rest: &[Expr], m: &Memory) -> Result<(), Halt>
    ensures { Shows as_done result (memory_of m.now) (rest_stops (scope_of _scope.now) (trees_of rest.now) (memory_of m.now)) }
{
    match rest {
        [] => Ok(()),
        [e, ..] => Err(Halt::Stop(Stop::Form(start(e)))),
    }
}

/// Gives a name that is no array its first value.
pub fn new_plain(
    scope: &Scope,
    location: Location,
    init: &[Expr],
    m: &mut Memory,
) -> Result<(), Halt>
    ensures made { Shows as_done result (memory_of m.new) (new_plain (scope_of scope.now) (location_in location) (trees_of init.now) (memory_of m.old)) }
{
    match init {
        [] => {
            make_plain(location, None, m)?;
            Ok(())
        }
        [e, rest @ ..] => {
            let z = value(scope, e, m)?;
            make_plain(location, Some(z), m)?;
            rest_stops(scope, rest, m)
        }
    }
}

/// Makes what is kept there.
fn declare_at(scope: &Scope, location: Location, item: &Item, m: &mut Memory) -> Result<(), Halt>
    ensures { Shows as_done result (memory_of m.new) (by_location (scope_of scope.now) (location_in location) (declared_of item.now) (memory_of m.old)) }
{
    match location {
        Location::OwnArray(_) => new_array(scope, location, item, m),
        Location::Own(_) => new_plain(scope, location, &item.init, m),
        Location::Shared(_) => Ok(()),
        Location::SharedArray(_) => Ok(()),
        Location::Nowhere => Ok(()),
    }
}

/// Declares one name of a declaration.
fn declare_one(scope: &Scope, item: &Item, m: &mut Memory) -> Result<(), Halt>
    ensures { Shows as_done result (memory_of m.new) (declared_one (scope_of scope.now) (declared_of item.now) (memory_of m.old)) }
{
    let name = scope.text(item.name.from, item.name.to);
    declare_at(scope, scope.location(name), item, m)
}

/// Declares the names of a declaration, from left to right.
fn declare_all(scope: &Scope, items: &[Item], m: &mut Memory) -> Result<(), Halt>
    ensures { Shows as_done result (memory_of m.new) (declares_all (scope_of scope.now) (map declared_of items.now) (memory_of m.old)) }
{
    for item in items {
        declare_one(scope, item, m)?;
    }
    Ok(())
}

/// Passes a declaration in a function.
#[inline(never)]
pub fn declare(scope: &Scope, declaration: &Decl, m: &mut Memory) -> Result<(), Halt>
    ensures declared { Shows as_done result (memory_of m.new) (declares (scope_of scope.now) (declaration_of declaration.now) (memory_of m.old)) }
{
    declare_all(scope, &declaration.items, m)
}
