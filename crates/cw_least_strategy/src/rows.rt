//! What the rows of a strategy do.

ghost use Rattle.std.specs.Prelude.{◌≡◌, ◌+◌, ◌<◌, ◌≤◌, map, length, slice_get, sum_by, IsTrue, IfOk, IfSome, IfNone, Some};
ghost use Rattle.std.specs.List.Sorted.{IsStrictlySortedBy};
ghost use Rattle.std.specs.Ordering.{nat_cmp};
ghost use Rattle.cw_certs.specs.Strategies.{how_of};
ghost use Rattle.cw_fixpoint.specs.Numbers.{number_in};
ghost use Rattle.cw_product.specs.Product.{game_of};
ghost use Rattle.cw_least_strategy.specs.Acts.{act_of, key_at};
ghost use Rattle.cw_least_strategy.specs.Small.{small_cmp, wholes, backs_for, AreRanked};
ghost use Rattle.cw_least_strategy.specs.Parts.{how_in, AreDone, IsDone};
ghost use Rattle.cw_least_strategy.specs.Strategies.{number, how_by, backs_in};

use crate::acts::Act;
use crate::aims::small;
use crate::heights::Lower;
use crate::key::{Key, SmallKey};
use cw_certs::How;
use cw_core::limits::ROWS;
use cw_core::{StateId, StateSet};
use cw_fixpoint::number_of;
use cw_solve::Solved;
use std::alloc::{AllocError, Global};

/// Whether a key stands at an index.
#[inline(always)]
fn stands_at(keys: &[SmallKey], index: usize, wanted: &SmallKey) -> bool
    ensures { IsTrue result → slice_get keys.now index ≡ Some wanted.now }
{
    match keys.get(index) {
        None => false,
        Some(key) => {
            key.height == wanted.height
                && key.pos == wanted.pos
                && key.state == wanted.state
                && key.aim == wanted.aim
        }
    }
}

/// The index of a small key among the keys, and how many they are where it is none of them.
#[tactic(auto, using(crate::proofs::Small::small_exact))]
#[cold]
#[inline(never)]
fn searched(keys: &[SmallKey], wanted: &SmallKey) -> usize
    requires order { IsStrictlySortedBy small_cmp keys.now }
    ensures is { result ≡ number_in small_cmp keys.now wanted.now }
    ensures within { result ≤ length keys.now }
{
    number_of(keys, wanted)
}

/// The same. The key before an index is looked at first, as most rows name the row before them.
#[inline(always)]
fn index_of(keys: &[SmallKey], wanted: &SmallKey, index: usize) -> usize
    requires order { IsStrictlySortedBy small_cmp keys.now }
    ensures is { result ≡ number_in small_cmp keys.now wanted.now }
    ensures within { result ≤ length keys.now }
{
    let before = index.wrapping_sub(1);
    if stands_at(keys, before, wanted) {
        before
    } else {
        searched(keys, wanted)
    }
}

/// The index of a key among the keys, and how many they are where it is none of them.
#[tactic(auto, using(crate::proofs::Small::small_exact))]
fn number(aims: &[StateSet], keys: &[SmallKey], key: &Key) -> u32
    requires ranked { AreRanked aims.now keys.now }
    ensures { result ≡ number (wholes aims.now keys.now) key.now }
{
    number_of(keys, &small(aims, key)) as u32
}

/// The same of a pair, for an aim that has this number, named at the key of an index.
#[inline(always)]
fn lower_number(
    aims: &[StateSet],
    keys: &[SmallKey],
    aim: &StateSet,
    near: u32,
    index: usize,
    to: Lower,
) -> u32
    requires ranked { AreRanked aims.now keys.now }
    requires near { number_in nat_cmp aims.now aim.now ≡ near }
    ensures { result ≡ number (wholes aims.now keys.now) (key_at aim.now to) }
{
    index_of(keys, &to.small(aims, aim, near), index) as u32
}

/// The rows for the returns by their numbers among all keys.
fn numbered(
    alloc: Global,
    aims: &[StateSet],
    keys: &[SmallKey],
    backs: &[(StateId, Key)],
) -> Result<Vec<(StateId, u32)>, AllocError>
    requires ranked { AreRanked aims.now keys.now }
    ensures { IfOk result (λ v. v.items ≡ map (λ b. (b.0, number (wholes aims.now keys.now) b.1)) backs.now) }
{
    let mut numbers = Vec::new(alloc);
    for back in backs {
        numbers.push((back.0, number(aims, keys, &back.1)))?;
    }
    Ok(numbers)
}

/// What a row says, by the indices of the keys that it names, at the key of an index whose aim has this number.
fn how_by(
    alloc: Global,
    aims: &[StateSet],
    keys: &[SmallKey],
    aim: &StateSet,
    near: u32,
    index: usize,
    act: &Act,
) -> Result<How, AllocError>
    requires ranked { AreRanked aims.now keys.now }
    requires near { number_in nat_cmp aims.now aim.now ≡ near }
    ensures { IfOk result (λ h. how_of h ≡ how_by (wholes aims.now keys.now) (act_of aim.now act.now)) }
{
    match act {
        Act::Bad => Ok(How::Bad),
        Act::Out => Ok(How::Out),
        Act::Both { skip, tried } => Ok(How::Both {
            skip: lower_number(aims, keys, aim, near, index, *skip),
            tried: lower_number(aims, keys, aim, near, index, *tried),
        }),
        Act::Go(lead) => Ok(How::Go {
            by: lead.by,
            row: lower_number(aims, keys, aim, near, index, lead.to),
        }),
        Act::Into { callee, backs } => {
            let backs = numbered(alloc, aims, keys, backs)?;
            Ok(How::Into {
                callee: number(aims, keys, callee),
                backs,
            })
        }
    }
}

/// What the row of a key of an index does, at which this is done.
fn how_at(
    alloc: Global,
    solved: &Solved,
    aims: &[StateSet],
    keys: &[SmallKey],
    key: &SmallKey,
    index: usize,
    act: &Act,
) -> Result<How, AllocError>
    requires ranked { AreRanked aims.now keys.now }
    requires within { key.now.aim < length aims.now }
    requires done { IsDone (game_of solved.now.game) aims.now key.now act.now }
    ensures { IfOk result (λ h. how_of h ≡ how_in (game_of solved.now.game) aims.now keys.now key.now) }
{
    let _ = solved;
    let aim = &aims[key.aim as usize];
    how_by(alloc, aims, keys, aim, key.aim, index, act)
}

/// How many backs a row has.
fn backs_in(how: &How) -> usize
    ensures { result ≡ backs_in (how_of how.now) }
{
    match how {
        How::Into { callee: _, backs } => backs.len(),
        _ => 0,
    }
}

/// What the rows of the keys do, at which this is done; none where they and their backs are more than 65,536.
pub(crate) fn hows_within(
    alloc: Global,
    solved: &Solved,
    aims: &[StateSet],
    keys: &[SmallKey],
    acts: &[Act],
) -> Result<Option<Vec<How>>, AllocError>
    requires ranked { AreRanked aims.now keys.now }
    requires done { AreDone (game_of solved.now.game) aims.now keys.now acts.now }
    ensures hows { IfOk result (λ o. IfSome o (λ v. map how_of v.items ≡ map (how_in (game_of solved.now.game) aims.now keys.now) keys.now)) }
    ensures few { IfOk result (λ o. IfSome o (λ _. length keys.now + sum_by (backs_for (game_of solved.now.game) aims.now keys.now) keys.now ≤ ROWS)) }
    ensures many { IfOk result (λ o. IfNone o (ROWS < length keys.now + sum_by (backs_for (game_of solved.now.game) aims.now keys.now) keys.now)) }
{
    let mut hows = Vec::with_capacity(alloc, keys.len())?;
    let mut left = ROWS - keys.len();
    let mut index = 0;
    for key in keys {
        let how = how_at(alloc, solved, aims, keys, key, index, &acts[index])?;
        let backs = backs_in(&how);
        if left < backs {
            return Ok(None);
        }
        left -= backs;
        hows.push(how)?;
        index += 1;
    }
    Ok(Some(hows))
}
