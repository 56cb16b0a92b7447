//! The values of a run, and the calls that wait.

ghost use Rattle.std.specs.Prelude.{◌≡◌, [], ◌++◌, ◌-◌, length, replicate, None, IfOk};
ghost use Rattle.cw_value.specs.Machines.{own_if, unset_store, with_first};
ghost use Rattle.cw_eval.specs.Shown.{store_of};

use cw_cells::Cells;
use cw_core::{NoMemory, PointId};
use cw_eval::{Memory, Store};
use cw_slots::Names;
use cw_syntax::program::Name;
use std::alloc::Global;
use std::collections::VecDeque;

/// A call that waits: the point to which it returns, its place, the name that takes its result; the caller's function, the values of
/// its names, and what it has returned so far.
#[derive(Drop)]
pub struct Wait {
    pub back: PointId,
    pub at: u32,
    pub result: Option<Name>,
    pub function: usize,
    pub own: Store,
    pub answer: Option<i64>,
}

/// The values of a run: what expressions read and change, with the values of the top frame's names; its function, and what it has
/// returned; the calls that wait, the innermost first.
#[derive(Drop)]
pub struct Machine<'c> {
    pub memory: Memory<'c>,
    pub function: usize,
    pub answer: Option<i64>,
    pub waits: VecDeque<Wait>,
}

/// So many arrays without elements.
fn no_elements(alloc: Global, count: usize) -> Result<Vec<Cells>, NoMemory>
    ensures { IfOk result (λ arrays. arrays.items ≡ replicate count []) }
{
    let mut arrays = Vec::new(alloc);
    for made in 0..count {
        let _ = made;
        arrays.push(Cells::new(alloc, 0, None))?;
    }
    Ok(arrays)
}

/// The values of a new frame with these names: the first have these values, all else is unset.
pub fn new_store(alloc: Global, names: &Names, first: &[Option<i64>]) -> Result<Store, NoMemory>
    ensures store { IfOk result (λ store. store_of store ≡ with_first first.now (unset_store names.now)) }
{
    let cells = Cells::of(alloc, first, names.plain_count(), None)?;
    let arrays = no_elements(alloc, names.array_count())?;
    Ok(Store { cells, arrays })
}
