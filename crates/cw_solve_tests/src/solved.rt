//! What is told of a solved game.

ghost use Rattle.std.specs.Prelude.{◌≡◌, ◌<◌, Some, length, slice_get};

use crate::drawn::{pairs_of, parts_of, returns_of};
use crate::slow::{Drawn, height, needed_contexts, promises_of, tables};
use crate::told::Answer;
use cw_core::{PosId, StateId, StateSet};
use cw_solve::{SolveFault, Solved};
use std::alloc::{AllocError, Global};

/// The height of a pair under a promise; none where the game was solved without it, or the position isn't the function's.
fn height_at(
    solved: &Solved,
    function: u16,
    promise: &StateSet,
    pos: u32,
    state: u16,
) -> Option<Option<u32>> {
    let game = solved.game();
    let Some(number) = solved.find(function, promise) else {
        return None;
    };
    if (function as usize) < game.graph().parts.len()
        && game.entry(function).0 <= pos
        && pos <= game.exit(function).0
        && state < game.states()
    {
        Some(solved.height(number, PosId(pos), StateId(state)))
    } else {
        None
    }
}

/// The function and the promise of a context, how many pairs are lost, and the sum of their heights; none where the game was solved without it, or the slow
/// body has another height.
fn row_of(
    solved: &Solved,
    game: &Drawn,
    tables: &[bool],
    function: u16,
    promise: usize,
) -> Option<[u64; 4]> {
    let set = StateSet::from_bits(promise as u64);
    let mut cells: u64 = 0;
    let mut lost: u64 = 0;
    let mut sum: u64 = 0;
    for p in 0..solved.game().positions() {
        for x in 0..solved.game().states() {
            if let Some(ours) = height_at(solved, function, &set, p, x) {
                if ours != height(game, tables, p, x, promise) {
                    return None;
                }
                cells = cells.saturating_add(1);
                if let Some(height) = ours {
                    lost = lost.saturating_add(1);
                    sum = sum.saturating_add(u64::from(height));
                }
            }
        }
    }
    if cells == 0 {
        return None;
    }
    Some([u64::from(function), promise as u64, lost, sum])
}

/// Whether the first context has the program's start under this promise, and the number past the last has not.
fn is_first_at_start(solved: &Solved, function: u16, promise: usize) -> bool {
    let (start, _) = solved.game().start();
    let promise = StateSet::from_bits(promise as u64);
    let past = solved.contexts();
    solved.find(function, &promise) == Some(0)
        && solved.has_position(0, start, &promise)
        && !solved.has_position(past, start, &promise)
}

/// What is told of a small game, whose numbers are these: the contexts that are wanted begin with the first.
fn beside(
    alloc: Global,
    solved: &Solved,
    game: &Drawn,
    wanted: &[[u64; 4]],
) -> Result<Answer, AllocError> {
    let tables = tables(alloc, game)?;
    let needed = needed_contexts(alloc, game, &tables)?;
    let contexts = solved.contexts();
    if needed.len() != contexts as usize || wanted.len() != contexts as usize {
        return Ok(("other contexts", u64::from(contexts), needed.len() as u64));
    }
    for (i, (function, promise)) in needed.iter().enumerate() {
        let Some(row) = row_of(solved, game, &tables, *function, *promise) else {
            return Ok(("other heights", i as u64, 0));
        };
        if !wanted.contains(&row) {
            return Ok(("other heights", i as u64, 1));
        }
        if i == 0
            && (wanted.first() != Some(&row) || !is_first_at_start(solved, *function, *promise))
        {
            return Ok(("other contexts", 0, 0));
        }
    }
    Ok(("solved", u64::from(contexts), u64::from(solved.cells())))
}

/// What is told of a small game beside the slow body.
pub fn small(alloc: Global, solved: &Solved, wanted: &[[u64; 4]]) -> Result<Answer, AllocError> {
    let game = solved.game();
    let pairs = pairs_of(alloc, game)?;
    let returns = returns_of(alloc, game)?;
    let parts = parts_of(alloc, game)?;
    let drawn = Drawn {
        states: game.states() as usize,
        promises: promises_of(game.states()),
        main: game.main(),
        pairs: &pairs,
        returns: &returns,
        parts: &parts,
    };
    beside(alloc, solved, &drawn, wanted)
}

/// What is told where two solvers have the same contexts and heights.
pub fn both(a: &Solved, b: &Solved) -> Answer {
    if a.contexts() != b.contexts() {
        return (
            "other contexts",
            u64::from(a.contexts()),
            u64::from(b.contexts()),
        );
    }
    let mut cells: u32 = 0;
    for i in 0..a.contexts() {
        let context = a.context(i);
        for p in 0..a.game().positions() {
            for x in 0..a.game().states() {
                let ours = height_at(a, context.function, &context.promise, p, x);
                if ours != height_at(b, context.function, &context.promise, p, x) {
                    return ("other heights", u64::from(i), 0);
                }
                if ours.is_some() {
                    cells = cells.saturating_add(1);
                }
            }
        }
    }
    if cells != a.cells() {
        return ("other contexts", u64::from(cells), u64::from(a.cells()));
    }
    ("solved", u64::from(a.contexts()), u64::from(cells))
}

/// What is told of the solver by linked cells alone: the first context is of `main`, and has the start.
pub fn linked(solved: &Solved) -> Answer {
    let (pos, state) = solved.game().start();
    if solved.contexts() == 0 {
        return ("other contexts", 0, 0);
    }
    let context = solved.context(0);
    if context.function != solved.game().main() {
        return ("other contexts", 1, 0);
    }
    match height_at(solved, context.function, &context.promise, pos.0, state.0) {
        Some(Some(height)) => ("linked", u64::from(solved.cells()), u64::from(height)),
        _ => ("other heights", u64::from(solved.cells()), 0),
    }
}

/// What is told where a game isn't solved.
pub fn unsolved(fault: &SolveFault) -> Answer {
    match fault {
        SolveFault::NoMemory => ("no memory", 0, 0),
        SolveFault::TooManyCells(contexts) => ("too many cells", contexts.len() as u64, 0),
    }
}
