//! Numbers that are found one after the other, each kept once.

ghost use Rattle.std.specs.Prelude.{◌≡◌, ◌<◌, [], ◌∷◌, length, IfOk};
ghost use Rattle.cw_callgraph.specs.Finding.{IsFound, Finds, AreBelow};

use cw_core::NoMemory;
use std::alloc::Global;

/// Numbers in the order in which they were first found; and beside them a flag at the place of each.
#[derive(Drop)]
pub(crate) struct Found {
    pub flags: Vec<bool>,
    pub numbers: Vec<u16>,
}

/// No number is found. Those below this count may be.
pub(crate) fn nothing(alloc: Global, count: usize) -> Result<Found, NoMemory>
    ensures { IfOk result (λ found. (found.numbers.items ≡ []) × IsFound found × (length found.flags.items ≡ count)) }
{
    Ok(Found {
        flags: vec![in alloc; false; count]?,
        numbers: Vec::new(alloc),
    })
}

/// A number is found.
pub(crate) fn find(found: &mut Found, number: u16) -> Result<(), NoMemory>
    requires within { number < length found.old.flags.items }
    requires sound { IsFound found.old }
    ensures { IfOk result (λ _. Finds (number ∷ []) found.old found.new) }
{
    let place = number as usize;
    if found.flags[place] {
        return Ok(());
    }
    found.flags[place] = true;
    found.numbers.push(number)?;
    Ok(())
}

/// Numbers are found, one after the other.
pub(crate) fn find_all(found: &mut Found, numbers: &[u16]) -> Result<(), NoMemory>
    requires within { AreBelow (length found.old.flags.items) numbers.now }
    requires sound { IsFound found.old }
    ensures { IfOk result (λ _. Finds numbers.now found.old found.new) }
{
    for number in numbers {
        find(found, *number)?;
    }
    Ok(())
}
