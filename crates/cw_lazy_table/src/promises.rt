//! The promises that a solved game needs, and their numbers.

ghost use Rattle.std.specs.Prelude.{◌≡◌, true, Some, slice_get, IfOk, OnOk};
ghost use Rattle.std.specs.List.Sorted.{IsStrictlySortedBy};
ghost use Rattle.std.specs.Ordering.{nat_cmp};
ghost use Rattle.cw_fixpoint.specs.Numbers.{number_in};
ghost use Rattle.cw_product.specs.Product.{game_of};
ghost use Rattle.cw_lazy_table.specs.Choices.{IsReady};
ghost use Rattle.cw_lazy_table.specs.Numbered.{ArePromises};
ghost use Rattle.cw_lazy_table.specs.SeamKeys.{IsPut};

use cw_core::StateSet;
use cw_fixpoint::{number_of, ordered};
use cw_product::Game;
use cw_solve::Solved;
use std::alloc::{AllocError, Global};

/// Whether a promise stands at an index.
fn stands(promises: &[StateSet], at: usize, promise: &StateSet) -> bool
    ensures { result ≡ true → slice_get promises.now at ≡ Some promise.now }
{
    match promises.get(at) {
        None => false,
        Some(there) => there == promise,
    }
}

/// Appends a promise, but where it is the first one or the last already: most contexts have one of these. The index at which it stands.
fn put_promise(promises: &mut Vec<StateSet>, promise: &StateSet) -> Result<usize, AllocError>
    ensures { OnOk result (IsPut promises.old.items promise.now promises.new.items) }
{
    let last = promises.len().saturating_sub(1);
    if stands(promises, 0, promise) {
        return Ok(0);
    }
    if stands(promises, last, promise) {
        return Ok(last);
    }
    let index = promises.len();
    promises.push(*promise)?;
    Ok(index)
}

/// The promises of all contexts, ascending, each once. Appends for each context where its promise stands among them in the order in which they come
/// for the first time.
pub(crate) fn promises_of(
    alloc: Global,
    game: &Game,
    solved: &Solved,
    orders: &mut Vec<usize>,
) -> Result<Vec<StateSet>, AllocError>
    requires ready { IsReady game.now solved.now }
    ensures { IfOk result (λ v. ArePromises (game_of game.now) v.items) }
{
    let _ = game;
    let mut all = Vec::new(alloc);
    for number in 0..solved.contexts() {
        let order = put_promise(&mut all, &solved.context(number).promise)?;
        orders.push(order)?;
    }
    ordered(alloc, &all)
}

/// The number of a promise, and how many they are where it is none of them.
pub(crate) fn promise_number(promises: &[StateSet], promise: &StateSet) -> usize
    requires order { IsStrictlySortedBy nat_cmp promises.now }
    ensures { result ≡ number_in nat_cmp promises.now promise.now }
{
    number_of(promises, promise)
}

/// The same, where the promise mostly stands at an index.
pub(crate) fn promise_number_near(promises: &[StateSet], near: usize, promise: &StateSet) -> usize
    requires order { IsStrictlySortedBy nat_cmp promises.now }
    ensures { result ≡ number_in nat_cmp promises.now promise.now }
{
    if stands(promises, near, promise) {
        near
    } else {
        promise_number(promises, promise)
    }
}
