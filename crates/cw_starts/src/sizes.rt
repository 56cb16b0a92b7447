//! How many elements arrays have from the beginning, and the values with which a run begins.

ghost use Rattle.std.specs.Prelude.{◌≡◌, map, IfOk};
ghost use Rattle.cw_syntax.specs.Trees.{array_of, declared_of, trees_of};
ghost use Rattle.cw_value.specs.Declarations.{size_in, sized};
ghost use Rattle.cw_value.specs.Machines.{globals, shared_names};
ghost use Rattle.cw_value.specs.Starts.{blank, first_stated, known_size, no_memory, no_store, number_of, start_store, stated};
ghost use Rattle.cw_eval.specs.Shown.{store_of};
ghost use Rattle.cw_starts.specs.Held.{begins_with, item_at};
ghost use Rattle.cw_starts.specs.Sources.{array_with, source_in};

use crate::outer::{cell_by, is_named, listed, start_cell};
use cw_cells::Cells;
use cw_core::NoMemory;
use cw_eval::{Halt, Memory, Store, sized};
use cw_slots::{Names, NamesAt, Scope};
use cw_syntax::program::{Item, Program};
use std::alloc::Global;

/// A source with its program, and the values that are handed in for names.
#[derive(Clone, Copy, Drop)]
pub struct Source<'s> {
    pub alloc: Global,
    pub bytes: &'s [u8],
    pub program: &'s Program,
    pub given: &'s [(Vec<u8>, i64)],
}

/// No values.
pub fn no_store(alloc: Global) -> Store
    ensures store { store_of result ≡ no_store }
{
    Store {
        cells: Cells::new(alloc, 0, None),
        arrays: Vec::new(alloc),
    }
}

/// How many elements an array has by an expression that needs no names.
fn sized_blank(source: &Source, item: &Item) -> Result<Option<usize>, NoMemory>
    ensures { IfOk result (λ n. n ≡ number_of (sized (blank source.now.bytes.now) (size_in (array_of item.now.array)) item.now.braces (trees_of item.now.init.items) no_memory)) }
{
    let none = Names::none(source.alloc);
    let standing = NamesAt::none(source.alloc, source.bytes, &none, &none);
    let scope = Scope {
        alloc: source.alloc,
        source: source.bytes,
        own: &none,
        shared: &none,
        given: &[],
        standing: &standing,
    };
    let mut m = Memory {
        own: no_store(source.alloc),
        shared: no_store(source.alloc),
        calls: &[],
        made: Vec::new(source.alloc),
    };
    match sized(&scope, &item.array, item.braces, &item.init, &mut m) {
        Ok(n) => Ok(Some(n)),
        Err(Halt::Stop(_)) => Ok(None),
        Err(Halt::NoMemory) => Err(NoMemory),
    }
}

/// The size that a declaration tells by its list, or by an expression of numbers alone.
fn known_size(source: &Source, item: &Item) -> Result<Option<usize>, NoMemory>
    ensures { IfOk result (λ n. n ≡ known_size (source_in source.now) (size_in (array_of item.now.array)) item.now.braces (trees_of item.now.init.items)) }
{
    let has_size = match &item.array {
        None => false,
        Some(size) => size.is_some(),
    };
    if has_size || item.braces {
        sized_blank(source, item)
    } else {
        Ok(None)
    }
}

/// The size that a declaration of this name tells.
fn stated(source: &Source, name: &[u8], item: &Item) -> Result<Option<usize>, NoMemory>
    ensures { IfOk result (λ n. n ≡ stated (source_in source.now) name.now (declared_of item.now)) }
{
    if is_named(source.bytes, name, item) {
        known_size(source, item)
    } else {
        Ok(None)
    }
}

/// The first size that a declaration of this name tells.
fn first_stated(source: &Source, name: &[u8], items: &[&Item]) -> Result<Option<usize>, NoMemory>
    ensures { IfOk result (λ n. n ≡ first_stated (source_in source.now) name.now (map item_at items.now)) }
{
    for item in items {
        if let Some(n) = stated(source, name, item)? {
            return Ok(Some(n));
        }
    }
    Ok(None)
}

/// What an array begins with.
fn start_array(source: &Source, name: &[u8], items: &[&Item]) -> Result<Cells, NoMemory>
    ensures { IfOk result (λ cells. cells ≡ array_with (source_in source.now) (map item_at items.now) name.now) }
{
    let size = first_stated(source, name, items)?;
    Ok(Cells::new(
        source.alloc,
        size.unwrap_or(0),
        start_cell(source.bytes, items, name),
    ))
}

/// What the names begin with that are no arrays.
fn start_cells(source: &Source, names: &Names, items: &[&Item]) -> Result<Cells, NoMemory>
    ensures { IfOk result (λ cells. cells ≡ map (begins_with source.now.bytes.now (map item_at items.now)) names.now.plain) }
{
    let listed = listed(source.alloc, source.bytes, items)?;
    let mut cells = Vec::new(source.alloc);
    for n in 0..names.plain_count() {
        cells.push(cell_by(source.bytes, items, &listed, names.plain_text(n)))?;
    }
    Cells::of(source.alloc, &cells, 0, None)
}

/// What the arrays begin with.
fn start_arrays(source: &Source, names: &Names, items: &[&Item]) -> Result<Vec<Cells>, NoMemory>
    ensures { IfOk result (λ arrays. arrays.items ≡ map (array_with (source_in source.now) (map item_at items.now)) names.now.arrays) }
{
    let mut arrays = Vec::new(source.alloc);
    for n in 0..names.array_count() {
        arrays.push(start_array(source, names.array_text(n), items)?)?;
    }
    Ok(arrays)
}

/// The values at file scope before the first turn. These are its names, and what is declared there.
pub fn start_store(source: &Source, names: &Names, items: &[&Item]) -> Result<Store, NoMemory>
    requires names { names.now ≡ shared_names source.now.bytes.now (source_in source.now).file }
    requires items { map item_at items.now ≡ globals (source_in source.now).file }
    ensures store { IfOk result (λ store. store_of store ≡ start_store (source_in source.now)) }
{
    let cells = start_cells(source, names, items)?;
    let arrays = start_arrays(source, names, items)?;
    Ok(Store { cells, arrays })
}
