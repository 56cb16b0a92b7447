//! The turns of the declarations at file scope.

ghost use Rattle.std.specs.Prelude.{◌≡◌, [], map};
ghost use Rattle.cw_syntax.specs.Names.{text};
ghost use Rattle.cw_syntax.specs.Trees.{declared_of, trees_of};
ghost use Rattle.cw_value.specs.Machines.{globals, scope_in};
ghost use Rattle.cw_value.specs.Starts.{array_turn, plain_turn, turn_at, turns};
ghost use Rattle.cw_slots.specs.Shown.{location_in, scope_of};
ghost use Rattle.cw_eval.specs.Shown.{Shows, as_done, memory_of};
ghost use Rattle.cw_starts.specs.Held.{item_at};
ghost use Rattle.cw_starts.specs.Sources.{source_in};
ghost use Rattle.cw_starts.specs.Turning.{Turns, bare_turn, one_turn};

use crate::outer::{is_stated, start_cell};
use crate::sizes::Source;
use cw_eval::{Halt, Memory, make_array, new_array, new_plain, sized};
use cw_slots::{Location, Scope};
use cw_syntax::program::{Expr, Item};

/// What the turns of a file's declarations go by: the source, its scope, all that is declared.
#[derive(Clone, Copy, Drop)]
pub struct Turning<'a, 's> {
    pub source: Source<'s>,
    pub scope: Scope<'a, 's>,
    pub items: &'a [&'s Item],
}

/// A name that is no array takes its turn only where it has an initialiser.
fn plain_turn(
    turning: &Turning,
    location: Location,
    init: &[Expr],
    m: &mut Memory,
) -> Result<(), Halt>
    requires turns { Turns turning.now }
    ensures { Shows as_done result (memory_of m.new) (plain_turn (source_in turning.now.source) (location_in location) (trees_of init.now) (memory_of m.old)) }
{
    match init {
        [] => Ok(()),
        [first, ..] => {
            let _ = first;
            new_plain(&turning.scope, location, init, m)
        }
    }
}

/// An array without an initialiser is made of its size, unless an earlier declaration has told one.
fn bare_turn(
    turning: &Turning,
    earlier: &[&Item],
    location: Location,
    name: &[u8],
    item: &Item,
    m: &mut Memory,
) -> Result<(), Halt>
    requires turns { Turns turning.now }
    ensures { Shows as_done result (memory_of m.new) (bare_turn (source_in turning.now.source) (map item_at earlier.now) (location_in location) name.now (declared_of item.now) (memory_of m.old)) }
{
    let n = sized(&turning.scope, &item.array, item.braces, &item.init, m)?;
    if !is_stated(turning.source.bytes, earlier, name) {
        let cell = start_cell(turning.source.bytes, turning.items, name);
        make_array(location, n, cell, m);
    }
    Ok(())
}

/// An array's turn, by its initialisers.
fn array_turn(
    turning: &Turning,
    earlier: &[&Item],
    location: Location,
    name: &[u8],
    item: &Item,
    init: &[Expr],
    m: &mut Memory,
) -> Result<(), Halt>
    requires turns { Turns turning.now }
    ensures { Shows as_done result (memory_of m.new) (array_turn (source_in turning.now.source) (map item_at earlier.now) (location_in location) name.now (declared_of item.now) (trees_of init.now) (memory_of m.old)) }
{
    match init {
        [] => bare_turn(turning, earlier, location, name, item, m),
        [first, ..] => {
            let _ = first;
            new_array(&turning.scope, location, item, m)
        }
    }
}

/// The turn of a declared name.
fn turn_at(
    turning: &Turning,
    earlier: &[&Item],
    name: &[u8],
    item: &Item,
    location: Location,
    m: &mut Memory,
) -> Result<(), Halt>
    requires turns { Turns turning.now }
    ensures { Shows as_done result (memory_of m.new) (turn_at (source_in turning.now.source) (map item_at earlier.now) name.now (declared_of item.now) (location_in location) (memory_of m.old)) }
{
    match location {
        Location::Shared(_) => plain_turn(turning, location, &item.init, m),
        Location::SharedArray(_) => array_turn(
            turning, earlier, location, name, item, &item.init, m,
        ),
        Location::Own(_) => Ok(()),
        Location::OwnArray(_) => Ok(()),
        Location::Nowhere => Ok(()),
    }
}

/// The turn of one declared name at file scope, behind the earlier ones.
fn turn(turning: &Turning, earlier: &[&Item], item: &Item, m: &mut Memory) -> Result<(), Halt>
    requires turns { Turns turning.now }
    ensures { Shows as_done result (memory_of m.new) (one_turn (source_in turning.now.source) (map item_at earlier.now) (declared_of item.now) (memory_of m.old)) }
{
    let name = turning.scope.text(item.name.from, item.name.to);
    turn_at(
        turning,
        earlier,
        name,
        item,
        turning.scope.location(name),
        m,
    )
}

/// The turns of all declarations at file scope, in the order of the text.
pub fn begin(turning: &Turning, m: &mut Memory) -> Result<(), Halt>
    requires turns { Turns turning.now }
    ensures begun { Shows as_done result (memory_of m.new) (turns (source_in turning.now.source) [] (globals (source_in turning.now.source).file) (memory_of m.old)) }
{
    for (i, item) in turning.items.iter().enumerate() {
        turn(turning, &turning.items[..i], item, m)?;
    }
    Ok(())
}
