//! The least set that has some keys and is closed under steps.

ghost use Rattle.std.specs.Prelude.{◌≡◌, ◌<◌, ◌≤◌, [], ◌∷◌, List, length, IfOk, OnOk, IfSome, IfNone};
ghost use Rattle.std.specs.FinMap.{IsAntisymmetric};
ghost use Rattle.std.specs.List.{Contains};
ghost use Rattle.std.specs.List.Sorted.{IsStrictlySortedBy};
ghost use Rattle.cw_fixpoint.specs.Closures.{Reached, Exactly, AtMost, HasMore};
ghost use Rattle.cw_fixpoint.specs.Seen.{SeenIs, Searched};

use crate::sees::{in_order, see_all};
use crate::steps::Steps;
use std::alloc::{AllocError, Global};
use std::collections::BTreeSet;

/// All keys that are reached from some, ascending, each once, where no more than so many are. The one error is want
/// of memory.
pub fn closed_within<K: Ord + Copy + Drop, S: Steps<K>>(
    alloc: Global,
    steps: &S,
    starts: &[K],
    most: usize,
) -> Result<Vec<K>, AllocError>
    requires exact { IsAntisymmetric K.cmp }
    requires can { (k : K) → Contains starts.now k → S.can_follow steps.now k }
    requires few { AtMost K.cmp (Reached (S.after steps.now) starts.now) most }
    ensures reached { IfOk result (λ v. Exactly K.cmp (Reached (S.after steps.now) starts.now) v.items) }
{
    let mut seen = Vec::new(alloc);
    let mut set = BTreeSet::new(alloc);
    search(alloc, steps, starts, most, &mut seen, &mut set)?;
    let keys = in_order(alloc, set)?;
    Ok(keys)
}

/// All keys that are reached from some, ascending, each once; none where they are more than so many. The one error is
/// want of memory.
pub fn closed_up_to<K: Ord + Copy + Drop, S: Steps<K>>(
    alloc: Global,
    steps: &S,
    starts: &[K],
    most: usize,
) -> Result<Option<Vec<K>>, AllocError>
    requires exact { IsAntisymmetric K.cmp }
    requires can { (k : K) → Contains starts.now k → S.can_follow steps.now k }
    ensures reached { IfOk result (λ keys. IfSome keys
        (λ v. Exactly K.cmp (Reached (S.after steps.now) starts.now) v.items)) }
    ensures few { IfOk result (λ keys. IfSome keys (λ v. length v.items ≤ most)) }
    ensures many { IfOk result (λ keys. IfNone keys
        (HasMore K.cmp (Reached (S.after steps.now) starts.now) most)) }
{
    let mut seen = Vec::new(alloc);
    let mut set = BTreeSet::new(alloc);
    search(alloc, steps, starts, most, &mut seen, &mut set)?;
    if most < seen.len() {
        return Ok(None);
    }
    let keys = in_order(alloc, set)?;
    Ok(Some(keys))
}

/// Sees what is reached, and goes on from so many keys at most.
fn search<K: Ord + Copy + Drop, S: Steps<K>>(
    alloc: Global,
    steps: &S,
    starts: &[K],
    most: usize,
    seen: &mut Vec<K>,
    set: &mut BTreeSet<K>,
) -> Result<(), AllocError>
    requires exact { IsAntisymmetric K.cmp }
    requires can { (k : K) → Contains starts.now k → S.can_follow steps.now k }
    requires none_seen { seen.old.items ≡ [] }
    requires none_in { set.old.keys ≡ [] }
    ensures searched { OnOk result
        (Searched K.cmp (S.after steps.now) starts.now seen.new.items set.new.keys most) }
{
    see_all(seen, set, starts)?;
    let mut keys = Vec::new(alloc);
    let mut at: usize = 0;
    'keys: while at < most && at < seen.len() {
        let key = seen[at];
        keys.clear();
        steps.put_after(key, &mut keys)?;
        see_all(seen, set, &keys)?;
        at += 1;
    }
    Ok(())
}
