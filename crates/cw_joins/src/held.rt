//! Keys that are held for groups, in chains.

ghost use Rattle.std.specs.Prelude.{◌≡◌, ◌+◌, ◌++◌, ◌∷◌, ◌<◌, [], List, Some, cond, map, length, nat_lt, slice_get, slice_set, OnOk, IfOk};
ghost use Rattle.std.specs.FinMap.{IsAntisymmetric};
ghost use Rattle.std.specs.Ordering.{eq_by_cmp};
ghost use Rattle.cw_joins.specs.Chains.{keys_in, chain_of, Chain, IsLinked, Holds, HoldsMore};
ghost use Rattle.cw_joins.specs.Working.{held_if, met_by};

use crate::indices::Indices;
use std::alloc::{AllocError, Global};
use std::cmp::Ordering;

/// There are no more chains than these: 8 MB.
const MOST_CHAINS: usize = 1_048_576;

/// A key that is held for a group, and the number of the next link of its chain, counted from 1; 0 where it is the last.
#[derive(Clone, Copy, Drop)]
pub(crate) struct Link<K, G> {
    pub(crate) group: G,
    pub(crate) key: K,
    pub(crate) next: usize,
}

/// Keys that are held for groups. The keys of a group stand in the chain of its index, beside those of other groups with this index. The head of a
/// chain is the number of its first link, counted from 1; 0 where it has none.
#[derive(Drop)]
pub(crate) struct Held<K: Copy + Drop, G: Copy + Drop> {
    pub(crate) heads: Vec<usize>,
    pub(crate) links: Vec<Link<K, G>>,
}

/// How many chains there are for so many indices: one at least.
fn chains_for(count: usize) -> usize
    ensures some { 0 < result }
{
    if 0 < count && count <= MOST_CHAINS {
        count
    } else {
        1
    }
}

/// Nothing is held, and there is a chain for each of so many indices, or one alone where they are too many.
pub(crate) fn none_held<K: Copy + Drop, G: Ord + Copy + Drop, I: Indices<G>>(
    alloc: Global,
    indices: &I,
) -> Result<Held<K, G>, AllocError>
    ensures none { IfOk result (λ held. Holds G.cmp (I.index indices.now) held (λ _. [])) }
{
    let chains = chains_for(indices.count());
    Ok(Held {
        heads: vec![in alloc; 0_usize; chains]?,
        links: Vec::new(alloc),
    })
}

/// The chain of an index: the first where there is none of its own.
#[inline(always)]
fn chain_of(chains: usize, index: usize) -> usize
    ensures { result ≡ chain_of chains index }
{
    if index < chains { index } else { 0 }
}

/// Holds a key for a group, in a chain.
#[inline(always)]
fn hold<K: Copy + Drop, G: Copy + Drop>(
    held: &mut Held<K, G>,
    at: usize,
    group: G,
    key: K,
) -> Result<(), AllocError>
    requires within { at < length held.old.heads.items }
    ensures links { OnOk result (IsLinked held.old at group key held.new) }
    ensures heads { OnOk result (held.new.heads.items ≡ slice_set held.old.heads.items at (length held.old.links.items + 1)) }
{
    let next = held.heads[at];
    held.links.push(Link { group, key, next })?;
    held.heads[at] = held.links.len();
    Ok(())
}

/// Holds a key for its group, if it has one.
#[inline(always)]
pub(crate) fn hold_in<K: Copy + Drop, G: Ord + Copy + Drop, I: Indices<G>>(
    indices: &I,
    held: &mut Held<K, G>,
    group: Option<G>,
    key: K,
) -> Result<(), AllocError>
    requires exact { IsAntisymmetric G.cmp }
    requires some { 0 < length held.old.heads.items }
    ensures puts { OnOk result ((old : G → List K) → Holds G.cmp (I.index indices.now) held.old old
        → HoldsMore G.cmp (I.index indices.now) held.new old group key) }
{
    match group {
        None => Ok(()),
        Some(group) => {
            let at = chain_of(held.heads.len(), indices.index_of(group));
            hold(held, at, group, key)?;
            Ok(())
        }
    }
}

/// Whether two groups are the same.
#[inline(always)]
fn is_same<G: Ord + Copy + Drop>(a: G, b: G) -> bool
    ensures { result ≡ eq_by_cmp G.cmp a b }
{
    match a.cmp(&b) {
        Ordering::Equal => true,
        Ordering::Less | Ordering::Greater => false,
    }
}

/// Appends a key where it is one of those that are asked for.
#[inline(always)]
fn put_if<K: Copy + Drop>(asked: bool, key: K, keys: &mut Vec<K>) -> Result<(), AllocError>
    ensures { OnOk result (keys.new.items ≡ keys.old.items ++ cond asked (key ∷ []) []) }
{
    if asked {
        keys.push(key)?;
    }
    Ok(())
}

/// Appends the keys of a group that stand in a chain.
#[inline(never)]
fn put_chain<K: Copy + Drop, G: Ord + Copy + Drop>(
    held: &Held<K, G>,
    at: usize,
    group: G,
    keys: &mut Vec<K>,
) -> Result<(), AllocError>
    requires chain { (list : List (Link K G)) × Chain held.now at list }
    ensures put { OnOk result ((list : List (Link K G)) → Chain held.now at list → keys.new.items ≡ keys.old.items ++ keys_in G.cmp group list) }
{
    let mut number = held.heads[at];
    'links: while number > 0 {
        let link = held.links[number - 1];
        put_if(is_same(link.group, group), link.key, keys)?;
        number = link.next;
    }
    Ok(())
}

/// Appends the keys of a group, if there is one.
#[inline(always)]
fn put_group<K: Copy + Drop, G: Ord + Copy + Drop, I: Indices<G>>(
    indices: &I,
    held: &Held<K, G>,
    group: Option<G>,
    keys: &mut Vec<K>,
) -> Result<(), AllocError>
    requires holds { (h : G → List K) × Holds G.cmp (I.index indices.now) held.now h }
    ensures put { OnOk result ((h : G → List K) → Holds G.cmp (I.index indices.now) held.now h → keys.new.items ≡ keys.old.items ++ held_if h group) }
{
    match group {
        None => Ok(()),
        Some(group) => {
            let at = chain_of(held.heads.len(), indices.index_of(group));
            put_chain(held, at, group, keys)?;
            Ok(())
        }
    }
}

/// Appends the pairs of a key with all that have ended.
fn put_ended<K: Copy + Drop>(met: &mut Vec<(K, K)>, key: K, ended: &[K]) -> Result<(), AllocError>
    ensures put { OnOk result (met.new.items ≡ met.old.items ++ map (λ b. (key, b)) ended.now) }
{
    for b in ended {
        met.push((key, *b))?;
    }
    Ok(())
}

/// Appends the pairs of all that wait with a key that ends.
fn put_waiting<K: Copy + Drop>(
    met: &mut Vec<(K, K)>,
    key: K,
    waiting: &[K],
) -> Result<(), AllocError>
    ensures put { OnOk result (met.new.items ≡ met.old.items ++ map (λ a. (a, key)) waiting.now) }
{
    for a in waiting {
        met.push((*a, key))?;
    }
    Ok(())
}

/// Leaves in `met` the pairs of a key with what ended the group that it waits for, and with what waits for the group that it ends. Before that
/// `keys` and `met` may have anything.
#[inline(always)]
pub(crate) fn meet<K: Copy + Drop, G: Ord + Copy + Drop, I: Indices<G>>(
    indices: &I,
    waiting: &Held<K, G>,
    ended: &Held<K, G>,
    waits: Option<G>,
    ends: Option<G>,
    key: K,
    keys: &mut Vec<K>,
    met: &mut Vec<(K, K)>,
) -> Result<(), AllocError>
    requires waiting { (w : G → List K) × Holds G.cmp (I.index indices.now) waiting.now w }
    requires ended { (e : G → List K) × Holds G.cmp (I.index indices.now) ended.now e }
    ensures met { OnOk result ((w e : G → List K) → Holds G.cmp (I.index indices.now) waiting.now w → Holds G.cmp (I.index indices.now) ended.now e
        → met.new.items ≡ met_by w e waits ends key) }
{
    met.clear();
    keys.clear();
    put_group(indices, ended, waits, keys)?;
    put_ended(met, key, keys)?;
    keys.clear();
    put_group(indices, waiting, ends, keys)?;
    put_waiting(met, key, keys)?;
    Ok(())
}
