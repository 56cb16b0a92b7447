//! The keys that the start's names, taken from the greatest down, and what is done at each.

ghost use Rattle.std.specs.Prelude.{◌≡◌, ◌≤◌, ◌++◌, ◌∷◌, [], length, slice_index, IsTrue, IfOk, OnOk, IfSome, IfNone};
ghost use Rattle.std.specs.List.{All};
ghost use Rattle.std.specs.declared.cmp.Ordering.TheVariants.{Less};
ghost use Rattle.cw_fixpoint.specs.Closures.{Reached, Exactly, HasMore};
ghost use Rattle.cw_least_strategy.specs.Descents.{Joins};
ghost use Rattle.cw_product.specs.Product.{game_of};
ghost use Rattle.cw_least_strategy.specs.Acts.{IsIn};
ghost use Rattle.cw_least_strategy.specs.Numbered.{AreNumbered};
ghost use Rattle.cw_least_strategy.specs.Parts.{AreDone, IsDone};
ghost use Rattle.cw_least_strategy.specs.Small.{small_cmp, small_named, CanTake};

use crate::acts::{Act, act_at};
use crate::aims::whole;
use crate::contexts::Entries;
use crate::key::SmallKey;
use crate::named::put_keys;
use cw_core::{PosId, StateId, StateSet};
use cw_solve::Solved;
use std::alloc::{AllocError, Global};
use std::collections::BTreeSet;

/// Lets keys wait.
fn wait_for(waiting: &mut BTreeSet<SmallKey>, keys: &[SmallKey]) -> Result<(), AllocError>
    ensures { OnOk result (Joins waiting.old.keys keys.now waiting.new.keys) }
{
    for key in keys {
        waiting.insert(*key)?;
    }
    Ok(())
}

/// Whether all keys that wait are less than one.
fn are_below(waiting: &BTreeSet<SmallKey>, key: &SmallKey) -> bool
    ensures { IsTrue result → All (λ q. small_cmp q key.now ≡ Less) waiting.now.keys }
{
    match waiting.last() {
        None => true,
        Some(last) => *last < *key,
    }
}

/// Takes the greatest of the keys that wait in a set or a list, and lets those of the list wait in the set. A key that is alone in
/// the list and greater than all of the set is taken as it is: where each key is followed by one, the set stays as it was.
fn greatest(
    waiting: &mut BTreeSet<SmallKey>,
    keys: &mut Vec<SmallKey>,
) -> Result<Option<SmallKey>, AllocError>
    ensures empty { OnOk result (keys.new.items ≡ []) }
    ensures taken { IfOk result (λ taken. IfSome taken (λ k. Joins waiting.old.keys keys.old.items (waiting.new.keys ++ k ∷ []))) }
    ensures below { IfOk result (λ taken. IfSome taken (λ k. All (λ q. small_cmp q k ≡ Less) waiting.new.keys)) }
    ensures none { IfOk result (λ taken. IfNone taken (Joins waiting.old.keys keys.old.items [])) }
{
    if keys.len() == 1 && are_below(waiting, &keys[0]) {
        return Ok(keys.pop());
    }
    wait_for(waiting, keys)?;
    keys.clear();
    match waiting.pop_last() {
        None => Ok(None),
        Some(key) => Ok(Some(key)),
    }
}

/// The number of the context of a key. A number is looked at first that it may have: keys that follow one another are mostly of
/// one context.
#[inline(always)]
fn context_at(
    solved: &Solved,
    entries: &Entries,
    aims: &[StateSet],
    key: &SmallKey,
    guess: u32,
) -> u32
    requires numbered { AreNumbered solved.now aims.now entries.now.numbers.items }
    requires can { CanTake solved.now aims.now key.now }
    ensures { IsIn solved.now result (slice_index aims.now key.now.aim) key.now.pos key.now.state }
{
    if entries.has(solved, aims, guess, key) {
        return guess;
    }
    let lent = whole(aims, key);
    entries.context_of(
        solved,
        PosId(lent.pos),
        StateId(lent.state),
        lent.aim,
        key.aim,
    )
}

/// What is done at a key of a context; the keys that it names are put behind others.
fn put_named(
    alloc: Global,
    solved: &Solved,
    entries: &Entries,
    aims: &[StateSet],
    key: &SmallKey,
    number: u32,
    keys: &mut Vec<SmallKey>,
) -> Result<Act, AllocError>
    requires can { CanTake solved.now aims.now key.now }
    requires here { IsIn solved.now number (slice_index aims.now key.now.aim) key.now.pos key.now.state }
    ensures after { OnOk result (keys.new.items ≡ keys.old.items ++ small_named (game_of solved.now.game) aims.now key.now) }
    ensures done { IfOk result (λ a. IsDone (game_of solved.now.game) aims.now key.now a) }
{
    let lent = whole(aims, key);
    let act = act_at(alloc, solved, entries, &lent, key.aim, number)?;
    put_keys(aims, lent.aim, key.aim, &act, keys)?;
    Ok(act)
}

/// All keys that are reached from one, ascending, each once, and what is done at each, the last one's first; none where they are
/// more than so many. What a key names is below it, so that no key is kept but those that are taken and those that wait.
pub(crate) fn done_up_to(
    alloc: Global,
    solved: &Solved,
    entries: &Entries,
    aims: &[StateSet],
    start: SmallKey,
    most: usize,
) -> Result<Option<(Vec<SmallKey>, Vec<Act>)>, AllocError>
    requires numbered { AreNumbered solved.now aims.now entries.now.numbers.items }
    requires can { CanTake solved.now aims.now start }
    ensures reached { IfOk result (λ o. IfSome o (λ (keys, acts). Exactly small_cmp (Reached (small_named (game_of solved.now.game) aims.now) (start ∷ [])) keys.items)) }
    ensures done { IfOk result (λ o. IfSome o (λ (keys, acts). AreDone (game_of solved.now.game) aims.now keys.items acts.items)) }
    ensures few { IfOk result (λ o. IfSome o (λ (keys, acts). length keys.items ≤ most)) }
    ensures many { IfOk result (λ o. IfNone o (HasMore small_cmp (Reached (small_named (game_of solved.now.game) aims.now) (start ∷ [])) most)) }
{
    // They are at least as many as the start is high, and mostly few more.
    let room = most.min(2 * start.height as usize);
    let mut taken = Vec::with_capacity(alloc, room)?;
    let mut acts = Vec::with_capacity(alloc, room)?;
    let mut waiting = BTreeSet::new(alloc);
    let mut keys = Vec::new(alloc);
    keys.push(start)?;
    let mut number = 0;
    'keys: while let Some(key) = greatest(&mut waiting, &mut keys)? {
        if taken.len() == most {
            return Ok(None);
        }
        number = context_at(solved, entries, aims, &key, number);
        let act = put_named(alloc, solved, entries, aims, &key, number, &mut keys)?;
        taken.push(key)?;
        acts.push(act)?;
    }
    taken.reverse();
    acts.reverse();
    Ok(Some((taken, acts)))
}
