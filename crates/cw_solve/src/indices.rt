//! Where a context may stand among others.

ghost use Rattle.std.specs.Prelude.{◌≡◌, ℕ, ◌+◌, ◌++◌, [], ◌∷◌, ◌&&◌, nat_eq, true, false, Some, slice_get, Contains, IfSome, IfNone, OnOk};
ghost use Rattle.cw_solve.specs.Contexts.{context};
ghost use Rattle.cw_solve.specs.Indexed.{AreListed, AreOthers, numbers_of};

use crate::contexts::Context;
use crate::table::index_of;
use cw_core::StateSet;
use std::alloc::{AllocError, Global};

/// The numbers of contexts, from 0 in the order in which they are added, in lists by their functions. What is found here is tested,
/// so nothing is asked of it.
#[derive(Drop)]
pub struct Indices {
    lists: Vec<Vec<u32>>,
    count: u32,
    alloc: Global,
}

/// Whether a context is that of this function and this promise.
fn is_context(context: &Context, function: u16, promise: &StateSet) -> bool
    ensures { result ≡ (nat_eq context.now.function function && nat_eq context.now.promise promise.now) }
{
    context.function == function && context.promise == *promise
}

/// Whether the context of a number has this function and this promise.
fn is_at(contexts: &[Context], number: u32, function: u16, promise: &StateSet) -> bool
    ensures there { result ≡ true → slice_get contexts.now number ≡ Some (context function promise.now) }
    ensures other { result ≡ false → slice_get contexts.now number ≡ Some (context function promise.now) → ⊥ }
{
    match contexts.get(number as usize) {
        None => false,
        Some(context) => is_context(context, function, promise),
    }
}

/// The last of the numbers whose context has this function and this promise.
fn find_among(
    contexts: &[Context],
    numbers: &[u32],
    function: u16,
    promise: &StateSet,
) -> Option<u32>
    ensures some { IfSome result (λ n. slice_get contexts.now n ≡ Some (context function promise.now)) }
    ensures none { IfNone result (AreOthers contexts.now (context function promise.now) numbers.now 0) }
{
    let mut at = numbers.len();
    while at > 0 {
        at -= 1;
        if is_at(contexts, numbers[at], function, promise) {
            return Some(numbers[at]);
        }
    }
    None
}

impl Indices {
    /// No contexts: each list is empty.
    pub fn make(alloc: Global) -> Indices
        ensures lists { (f : ℕ) → numbers_of result f ≡ [] }
        ensures count { result.count ≡ 0 }
    {
        Indices {
            lists: Vec::new(alloc),
            count: 0,
            alloc,
        }
    }

    /// Adds the next context, which is one of this function: its number stands at the end of that function's list. The one error
    /// is want of memory, or of a number in 32 bits.
    pub fn push(&mut self, function: u16) -> Result<(), AllocError>
        ensures here { OnOk result (numbers_of self.new function ≡ numbers_of self.old function ++ self.old.count ∷ []) }
        ensures others { OnOk result ((f : ℕ) → nat_eq function f ≡ false → numbers_of self.new f ≡ numbers_of self.old f) }
        ensures count { OnOk result (self.new.count ≡ self.old.count + 1) }
    {
        let number = self.count;
        let Some(count) = number.checked_add(1) else {
            return Err(AllocError);
        };
        let function = function as usize;
        while self.lists.len() <= function {
            self.lists.push(Vec::new(self.alloc))?;
        }
        self.lists[function].push(number)?;
        self.count = count;
        Ok(())
    }

    // The list of a function.
    fn list(&self, function: u16) -> &[u32]
        ensures { result.now ≡ numbers_of self.now function }
    {
        match self.lists.get(function as usize) {
            Some(numbers) => numbers,
            None => &[],
        }
    }

    /// The number of the context of a function with this promise, where it is found in the list of the function. Where the lists
    /// have all contexts it is found, or isn't there.
    pub fn find(&self, contexts: &[Context], function: u16, promise: &StateSet) -> Option<u32>
        ensures some { IfSome result (λ n. slice_get contexts.now n ≡ Some (context function promise.now)) }
        ensures none { IfNone result (AreListed self.now contexts.now → Contains contexts.now (context function promise.now) → ⊥) }
    {
        find_among(contexts, self.list(function), function, promise)
    }

    /// The number of a context; none where it isn't there, whatever the lists have.
    pub fn index_of(&self, contexts: &[Context], function: u16, promise: &StateSet) -> Option<usize>
        ensures some { IfSome result (λ i. slice_get contexts.now i ≡ Some (context function promise.now)) }
        ensures none { IfNone result (Contains contexts.now (context function promise.now) → ⊥) }
    {
        match self.find(contexts, function, promise) {
            Some(number) => Some(number as usize),
            None => index_of(contexts, function, promise),
        }
    }
}
