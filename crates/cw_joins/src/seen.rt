//! What was seen, each once: in the order in which it came, and by index.

ghost use Rattle.std.specs.Prelude.{◌≡◌, ◌++◌, ◌+◌, ◌<◌, [], ◌∷◌, ℕ, Some, true, false, filter_map, length, replicate, slice_set, Contains, IfOk, OnOk};
ghost use Rattle.std.specs.BTreeSet.{contains, Updates};
ghost use Rattle.std.specs.FinMap.{IsAntisymmetric};
ghost use Rattle.std.specs.List.{cons_option};
ghost use Rattle.cw_fixpoint.specs.Closures.{Exactly};
ghost use Rattle.cw_fixpoint.specs.Seen.{Adds};
ghost use Rattle.cw_joins.specs.Seeing.{named, Tells, Sees};

use crate::indices::Indices;
use cw_fixpoint::ascending;
use std::alloc::{AllocError, Global};
use std::cmp::Ordering;
use std::collections::BTreeSet;

/// More hints than these are not kept: 8 MB.
const MOST_HINTS: usize = 1_048_576;

/// The hint at an index that no key has. Keys are counted from the number behind it.
const NONE: usize = 1;

/// There is room for a key at the start for so many hints.
const ROOM: usize = 8;

/// Where there are more hints than so many for each key, not all are read.
const SPARSE: usize = 16;

/// Keys, each once, in the order in which they came. The hint at an index is the number of a key that has it, counted from 2, and 1 where
/// none has. The others are those to which no hint leads.
#[derive(Drop)]
pub(crate) struct Seen<K: Ord + Copy + Drop> {
    pub(crate) keys: Vec<K>,
    pub(crate) hints: Vec<usize>,
    pub(crate) others: BTreeSet<K>,
}

/// What the hint at its index tells of a key: that none has come with this index, that the key has come, or nothing.
#[derive(Clone, Copy, Drop)]
pub(crate) enum Recalled {
    New,
    Old,
    Nothing,
}

/// Nothing is seen, and there is a hint for each of so many indices, but for none where they are too many.
pub(crate) fn none_seen<K: Ord + Copy + Drop, I: Indices<K>>(
    alloc: Global,
    indices: &I,
) -> Result<Seen<K>, AllocError>
    ensures keys { IfOk result (λ seen. seen.keys.items ≡ []) }
    ensures same { IfOk result (Sees K.cmp (I.index indices.now)) }
{
    let count = indices.count();
    let hints = if count <= MOST_HINTS { count } else { 0 };
    Ok(Seen {
        keys: Vec::with_capacity(alloc, hints / ROOM)?,
        hints: vec![in alloc; NONE; hints]?,
        others: BTreeSet::new(alloc),
    })
}

/// The key that a hint names.
#[inline(always)]
fn key_at<K: Copy>(keys: &[K], hint: usize) -> Option<K>
    ensures { result ≡ named keys.now hint }
{
    if hint <= NONE {
        return None;
    }
    keys.get(hint - 2).copied()
}

/// Whether a hint names a key.
#[inline(always)]
fn names<K: Ord + Copy + Drop>(keys: &[K], hint: usize, key: K) -> bool
    requires exact { IsAntisymmetric K.cmp }
    ensures yes { result ≡ true → named keys.now hint ≡ Some key }
    ensures no { result ≡ false → named keys.now hint ≡ Some key → ⊥ }
{
    match key_at(keys, hint) {
        None => false,
        Some(there) => match there.cmp(&key) {
            Ordering::Equal => true,
            Ordering::Less | Ordering::Greater => false,
        },
    }
}

/// What the hint at an index tells of a key.
#[inline(always)]
fn tell<K: Ord + Copy + Drop>(seen: &Seen<K>, at: usize, key: K) -> Recalled
    requires exact { IsAntisymmetric K.cmp }
    ensures { Tells seen.now.keys.items seen.now.hints.items at key result }
{
    match seen.hints.get(at) {
        None => Recalled::Nothing,
        Some(hint) => {
            if *hint == NONE {
                Recalled::New
            } else if names(&seen.keys, *hint, key) {
                Recalled::Old
            } else {
                Recalled::Nothing
            }
        }
    }
}

/// Puts a key, and at its index the hint to it.
#[inline(always)]
fn put_hinted<K: Ord + Copy + Drop>(seen: &mut Seen<K>, at: usize, key: K) -> Result<(), AllocError>
    requires within { at < length seen.old.hints.items }
    ensures keys { OnOk result (seen.new.keys.items ≡ seen.old.keys.items ++ key ∷ []) }
    ensures hints { OnOk result (seen.new.hints.items ≡ slice_set seen.old.hints.items at (length seen.old.keys.items + 2)) }
    ensures others { OnOk result (seen.new.others.keys ≡ seen.old.others.keys) }
{
    seen.keys.push(key)?;
    let hint = seen.keys.len() + NONE;
    seen.hints[at] = hint;
    Ok(())
}

/// Puts a key, where it is none of the others, and then it is one of them.
#[inline(never)]
fn put_other<K: Ord + Copy + Drop>(seen: &mut Seen<K>, key: K) -> Result<(), AllocError>
    ensures new { OnOk result (contains K.cmp seen.old.others key ≡ false → seen.new.keys.items ≡ seen.old.keys.items ++ key ∷ []) }
    ensures old { OnOk result (contains K.cmp seen.old.others key ≡ true → seen.new.keys.items ≡ seen.old.keys.items) }
    ensures hints { OnOk result (seen.new.hints.items ≡ seen.old.hints.items) }
    ensures others { OnOk result (Updates K.cmp seen.old.others seen.new.others key true) }
{
    if seen.others.insert(key)? {
        seen.keys.push(key)?;
    }
    Ok(())
}

/// Sees a key, where it is new.
#[inline(always)]
pub(crate) fn see<K: Ord + Copy + Drop, I: Indices<K>>(
    indices: &I,
    seen: &mut Seen<K>,
    key: K,
) -> Result<(), AllocError>
    requires exact { IsAntisymmetric K.cmp }
    requires seen { Sees K.cmp (I.index indices.now) seen.old }
    ensures more { OnOk result (Adds seen.old.keys.items seen.new.keys.items (key ∷ [])) }
    ensures same { OnOk result (Sees K.cmp (I.index indices.now) seen.new) }
{
    let at = indices.index_of(key);
    match tell(seen, at, key) {
        Recalled::New => {
            put_hinted(seen, at, key)?;
            Ok(())
        }
        Recalled::Old => Ok(()),
        Recalled::Nothing => {
            put_other(seen, key)?;
            Ok(())
        }
    }
}

/// Sees keys, each where it is new.
pub(crate) fn see_all<K: Ord + Copy + Drop, I: Indices<K>>(
    indices: &I,
    seen: &mut Seen<K>,
    keys: &[K],
) -> Result<(), AllocError>
    requires exact { IsAntisymmetric K.cmp }
    requires seen { Sees K.cmp (I.index indices.now) seen.old }
    ensures more { OnOk result (Adds seen.old.keys.items seen.new.keys.items keys.now) }
    ensures same { OnOk result (Sees K.cmp (I.index indices.now) seen.new) }
{
    for key in keys {
        see(indices, seen, *key)?;
    }
    Ok(())
}

/// Appends a key, if there is one.
#[inline(always)]
fn put_some<K: Copy + Drop>(key: Option<K>, keys: &mut Vec<K>) -> Result<(), AllocError>
    ensures { OnOk result (keys.new.items ≡ keys.old.items ++ cons_option key []) }
{
    if let Some(key) = key {
        keys.push(key)?;
    }
    Ok(())
}

/// Appends the key that a hint names.
#[inline(always)]
fn put_hint<K: Copy + Drop>(there: &[K], hint: usize, keys: &mut Vec<K>) -> Result<(), AllocError>
    ensures { OnOk result (keys.new.items ≡ keys.old.items ++ cons_option (named there.now hint) []) }
{
    put_some(key_at(there, hint), keys)
}

/// Appends the key that a hint names, if it names one. The call that reads the key stands in a function of its own, so nothing is cleared for it
/// where there is none.
#[inline(always)]
fn put_named<K: Copy + Drop>(there: &[K], hint: usize, keys: &mut Vec<K>) -> Result<(), AllocError>
    ensures { OnOk result (keys.new.items ≡ keys.old.items ++ cons_option (named there.now hint) []) }
{
    if hint <= NONE {
        Ok(())
    } else {
        put_hint(there, hint, keys)
    }
}

/// Appends the keys that four hints name.
#[inline(always)]
fn put_four<K: Copy + Drop>(
    there: &[K],
    first: usize,
    second: usize,
    third: usize,
    fourth: usize,
    keys: &mut Vec<K>,
) -> Result<(), AllocError>
    ensures put { OnOk result (keys.new.items ≡ keys.old.items ++ filter_map (named there.now) (first ∷ second ∷ third ∷ fourth ∷ [])) }
{
    put_named(there, first, keys)?;
    put_named(there, second, keys)?;
    put_named(there, third, keys)?;
    put_named(there, fourth, keys)?;
    Ok(())
}

/// Appends the keys that hints name, one after the other.
fn put_each<K: Copy + Drop>(
    there: &[K],
    hints: &[usize],
    keys: &mut Vec<K>,
) -> Result<(), AllocError>
    ensures put { OnOk result (keys.new.items ≡ keys.old.items ++ filter_map (named there.now) hints.now) }
{
    for hint in hints {
        put_named(there, *hint, keys)?;
    }
    Ok(())
}

/// Appends the keys that hints name. Most hints name none, so four are read at a time.
fn put_all<K: Copy + Drop>(
    there: &[K],
    hints: &[usize],
    keys: &mut Vec<K>,
) -> Result<(), AllocError>
    ensures put { OnOk result (keys.new.items ≡ keys.old.items ++ filter_map (named there.now) hints.now) }
{
    let mut rest = hints;
    'fours: while let [first, second, third, fourth, behind @ ..] = rest {
        put_four(there, *first, *second, *third, *fourth, keys)?;
        rest = behind;
    }
    put_each(there, rest, keys)?;
    Ok(())
}

/// The keys that hints name, by index.
fn hinted<K: Ord + Copy + Drop>(alloc: Global, seen: &Seen<K>) -> Result<Vec<K>, AllocError>
    ensures { IfOk result (λ v. v.items ≡ filter_map (named seen.now.keys.items) seen.now.hints.items) }
{
    let mut keys = Vec::with_capacity(alloc, seen.keys.len())?;
    put_all(&seen.keys, &seen.hints, &mut keys)?;
    Ok(keys)
}

/// The items of a set.
fn items<K: Ord + Copy + Drop>(alloc: Global, set: BTreeSet<K>) -> Result<Vec<K>, AllocError>
    ensures { IfOk result (λ v. v.items ≡ set.keys) }
{
    set.into_iter().collect(alloc)
}

/// All keys, ascending, in whatever order they came.
pub(crate) fn sorted<K: Ord + Copy + Drop>(
    alloc: Global,
    seen: Seen<K>,
) -> Result<Vec<K>, AllocError>
    requires exact { IsAntisymmetric K.cmp }
    ensures { IfOk result (λ v. Exactly K.cmp (Contains seen.keys.items) v.items) }
{
    let mut keys = seen.keys;
    keys.sort()?;
    let found = ascending(alloc, keys)?;
    Ok(found)
}

/// All keys, ascending. By index they mostly do.
pub(crate) fn in_order<K: Ord + Copy + Drop>(
    alloc: Global,
    seen: Seen<K>,
) -> Result<Vec<K>, AllocError>
    requires exact { IsAntisymmetric K.cmp }
    requires seen { (index : K → ℕ) × Sees K.cmp index seen }
    ensures { IfOk result (λ v. Exactly K.cmp (Contains seen.keys.items) v.items) }
{
    if seen.keys.len() < seen.hints.len() / SPARSE {
        return sorted(alloc, seen);
    }
    let mut keys = hinted(alloc, &seen)?;
    let others = items(alloc, seen.others)?;
    keys.extend_from_slice(&others)?;
    let found = ascending(alloc, keys)?;
    Ok(found)
}
