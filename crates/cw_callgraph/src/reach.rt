//! What is reached along the rows of a table.

ghost use Rattle.std.specs.Prelude.{◌≡◌, ◌<◌, length, IfOk};
ghost use Rattle.std.specs.List.{All};
ghost use Rattle.cw_callgraph.specs.Finding.{AreBelow, lists_of, next_in, IsFound, AreReached, IsReach};

use crate::found::{Found, find_all, nothing};
use cw_core::NoMemory;
use std::alloc::Global;

/// What each function calls, by their numbers.
#[derive(Drop)]
pub(crate) struct Calls {
    pub rows: Vec<Vec<u16>>,
}

/// What a function calls.
fn row(calls: &Calls, function: usize) -> &[u16]
    requires within { function < length calls.now.rows.items }
    requires below { All (AreBelow (length calls.now.rows.items)) (lists_of calls.now.rows.items) }
    ensures row { result.now ≡ next_in calls.now.rows.items function }
    ensures below { AreBelow (length calls.now.rows.items) result.now }
{
    &calls.rows[function]
}

/// All that a function leads to, each once, in the order in which a walk comes to it.
pub(crate) fn walked(alloc: Global, calls: &Calls, function: usize) -> Result<Found, NoMemory>
    requires within { function < length calls.now.rows.items }
    requires below { All (AreBelow (length calls.now.rows.items)) (lists_of calls.now.rows.items) }
    ensures reached { IfOk result (λ found. AreReached (next_in calls.now.rows.items) function found.numbers.items) }
    ensures sound { IfOk result IsFound }
    ensures within { IfOk result (λ found. AreBelow (length calls.now.rows.items) found.numbers.items) }
{
    let mut found = nothing(alloc, calls.rows.len())?;
    find_all(&mut found, row(calls, function))?;
    let mut at: usize = 0;
    'walk: while at < found.numbers.len() {
        let next = found.numbers[at];
        find_all(&mut found, row(calls, next as usize))?;
        at += 1;
    }
    Ok(found)
}

/// All that a function leads to, ascending.
pub(crate) fn reach(alloc: Global, calls: &Calls, function: usize) -> Result<Vec<u16>, NoMemory>
    requires within { function < length calls.now.rows.items }
    requires below { All (AreBelow (length calls.now.rows.items)) (lists_of calls.now.rows.items) }
    ensures reach { IfOk result (λ numbers. IsReach (next_in calls.now.rows.items) function numbers.items) }
    ensures within { IfOk result (λ numbers. AreBelow (length calls.now.rows.items) numbers.items) }
{
    let found = walked(alloc, calls, function)?;
    let mut numbers = found.numbers;
    numbers.sort_unstable();
    Ok(numbers)
}
