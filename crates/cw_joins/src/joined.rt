//! The least set that has a key, is closed under steps, and has the join of each two members of one group.

ghost use Rattle.std.specs.Prelude.{◌≡◌, ◌+◌, ◌<◌, ◌≤◌, ◌++◌, List, length, map, nat_lt, IfOk, OnOk, IfSome, IfNone};
ghost use Rattle.std.specs.FinMap.{IsAntisymmetric};
ghost use Rattle.std.specs.List.{Contains};
ghost use Rattle.cw_fixpoint.specs.Closures.{Exactly};
ghost use Rattle.cw_joins.specs.Members.{IsMember, IsPair, HaveMore, pair_cmp};
ghost use Rattle.cw_joins.specs.Working.{join_of};
ghost use Rattle.cw_joins.specs.Searching.{Keeps, Searched};

use crate::held::{Held, hold_in, meet, none_held};
use crate::indices::Indices;
use crate::joins::Joins;
use crate::seen::{Seen, in_order, none_seen, see, see_all, sorted};
use std::alloc::{AllocError, Global};

/// The members, ascending, and the pairs of a member that waits for a group and one that ends it, ascending by the first,
/// then by the second.
#[derive(Drop)]
pub struct Joined<K> {
    pub members: Vec<K>,
    pub pairs: Vec<(K, K)>,
}

/// What a search saw: keys and pairs, and what waits for a group and ended it among the keys that were worked off.
#[derive(Drop)]
pub(crate) struct Search<K: Ord + Copy + Drop, G: Copy + Drop> {
    pub(crate) seen: Seen<K>,
    pub(crate) pairs: Seen<(K, K)>,
    pub(crate) waiting: Held<K, G>,
    pub(crate) ended: Held<K, G>,
}

/// The members and the pairs, each once and in order; none where they are together more than so many. The indices are those of keys, of pairs and
/// of groups. The one error is want of memory.
pub fn joined_up_to<
    K: Ord + Copy + Drop,
    G: Ord + Copy + Drop,
    J: Joins<K, G>,
    I: Indices<K>,
    P: Indices<(K, K)>,
    Q: Indices<G>,
>(
    alloc: Global,
    joins: &J,
    indices: &I,
    of_pairs: &P,
    of_groups: &Q,
    start: K,
    most: usize,
) -> Result<Option<Joined<K>>, AllocError>
    requires exact { IsAntisymmetric K.cmp }
    requires groups { IsAntisymmetric G.cmp }
    requires can { J.can_follow joins.now start }
    ensures members { IfOk result (λ joined. IfSome joined
        (λ j. Exactly K.cmp (IsMember (J.rules joins.now) start) j.members.items)) }
    ensures pairs { IfOk result (λ joined. IfSome joined
        (λ j. Exactly (pair_cmp K.cmp) (IsPair (J.rules joins.now) start) j.pairs.items)) }
    ensures few { IfOk result (λ joined. IfSome joined (λ j. length j.members.items + length j.pairs.items ≤ most)) }
    ensures many { IfOk result (λ joined. IfNone joined (HaveMore K.cmp (J.rules joins.now) start most)) }
{
    let search = search_all(alloc, joins, indices, of_pairs, of_groups, start, most)?;
    if are_more(&search.seen.keys, &search.pairs.keys, most) {
        return Ok(None);
    }
    let members = in_order(alloc, search.seen)?;
    let pairs = sorted(alloc, search.pairs)?;
    Ok(Some(Joined { members, pairs }))
}

/// Whether keys and pairs are together more than so many.
fn are_more<K>(keys: &Vec<K>, pairs: &Vec<(K, K)>, most: usize) -> bool
    ensures more { result ≡ nat_lt most (length keys.now.items + length pairs.now.items) }
{
    most < keys.len() || most - keys.len() < pairs.len()
}

/// Works off what is seen, until that and its pairs are more than so many.
fn search_all<
    K: Ord + Copy + Drop,
    G: Ord + Copy + Drop,
    J: Joins<K, G>,
    I: Indices<K>,
    P: Indices<(K, K)>,
    Q: Indices<G>,
>(
    alloc: Global,
    joins: &J,
    indices: &I,
    of_pairs: &P,
    of_groups: &Q,
    start: K,
    most: usize,
) -> Result<Search<K, G>, AllocError>
    requires exact { IsAntisymmetric K.cmp }
    requires groups { IsAntisymmetric G.cmp }
    requires can { J.can_follow joins.now start }
    ensures searched { IfOk result (λ search. Searched K.cmp G.cmp (J.rules joins.now) (I.index indices.now) (P.index of_pairs.now) (Q.index of_groups.now) start search most) }
{
    let mut search = begun(alloc, joins, indices, of_pairs, of_groups, start)?;
    let mut next = Vec::new(alloc);
    let mut keys = Vec::new(alloc);
    let mut met = Vec::new(alloc);
    let mut at: usize = 0;
    'keys: while at < search.seen.keys.len()
        && !are_more(&search.seen.keys, &search.pairs.keys, most)
    {
        work(
            joins,
            indices,
            of_pairs,
            of_groups,
            start,
            &mut search,
            at,
            &mut next,
            &mut keys,
            &mut met,
        )?;
        at += 1;
    }
    Ok(search)
}

/// The start alone is seen.
fn begun<
    K: Ord + Copy + Drop,
    G: Ord + Copy + Drop,
    J: Joins<K, G>,
    I: Indices<K>,
    P: Indices<(K, K)>,
    Q: Indices<G>,
>(
    alloc: Global,
    joins: &J,
    indices: &I,
    of_pairs: &P,
    of_groups: &Q,
    start: K,
) -> Result<Search<K, G>, AllocError>
    requires exact { IsAntisymmetric K.cmp }
    ensures keeps { IfOk result (λ search. Keeps K.cmp G.cmp (J.rules joins.now) (I.index indices.now) (P.index of_pairs.now) (Q.index of_groups.now) start search 0) }
{
    let mut seen = none_seen(alloc, indices)?;
    see(indices, &mut seen, start)?;
    let pairs = none_seen(alloc, of_pairs)?;
    let waiting = none_held(alloc, of_groups)?;
    let ended = none_held(alloc, of_groups)?;
    Ok(Search {
        seen,
        pairs,
        waiting,
        ended,
    })
}

/// Works off the next key: holds it for its groups, and sees what follows it, its pairs and their joins. Before that
/// `next`, `keys` and `met` may have anything.
#[inline(always)]
fn work<
    K: Ord + Copy + Drop,
    G: Ord + Copy + Drop,
    J: Joins<K, G>,
    I: Indices<K>,
    P: Indices<(K, K)>,
    Q: Indices<G>,
>(
    joins: &J,
    indices: &I,
    of_pairs: &P,
    of_groups: &Q,
    start: K,
    search: &mut Search<K, G>,
    at: usize,
    next: &mut Vec<K>,
    keys: &mut Vec<K>,
    met: &mut Vec<(K, K)>,
) -> Result<(), AllocError>
    requires exact { IsAntisymmetric K.cmp }
    requires groups { IsAntisymmetric G.cmp }
    requires can { J.can_follow joins.now start }
    requires keeps { Keeps K.cmp G.cmp (J.rules joins.now) (I.index indices.now) (P.index of_pairs.now) (Q.index of_groups.now) start search.old at }
    requires within { at < length search.old.seen.keys.items }
    ensures keeps { OnOk result (Keeps K.cmp G.cmp (J.rules joins.now) (I.index indices.now) (P.index of_pairs.now) (Q.index of_groups.now) start search.new (at + 1)) }
{
    let key = search.seen.keys[at];
    next.clear();
    let groups = joins.put_after(key, next)?;
    hold_in(of_groups, &mut search.waiting, groups.waits, key)?;
    hold_in(of_groups, &mut search.ended, groups.ends, key)?;
    meet(
        of_groups,
        &search.waiting,
        &search.ended,
        groups.waits,
        groups.ends,
        key,
        keys,
        met,
    )?;
    put_joins(joins, met, next)?;
    see_all(indices, &mut search.seen, next)?;
    see_all(of_pairs, &mut search.pairs, met)?;
    Ok(())
}

/// Appends the join of each of some pairs.
fn put_joins<K: Copy + Drop, G: Copy + Drop, J: Joins<K, G>>(
    joins: &J,
    met: &[(K, K)],
    next: &mut Vec<K>,
) -> Result<(), AllocError>
    requires can { (ab : K × K) → Contains met.now ab → J.can_follow joins.now ab.0 × J.can_follow joins.now ab.1 }
    ensures put { OnOk result (next.new.items ≡ next.old.items ++ map (join_of (J.rules joins.now)) met.now) }
{
    for pair in met {
        next.push(joins.join(pair.0, pair.1))?;
    }
    Ok(())
}
