//! What was seen, each once: in the order in which it came, and in a set.

ghost use Rattle.std.specs.Prelude.{◌≡◌, [], ◌∷◌, OnOk, IfOk};
ghost use Rattle.std.specs.FinMap.{IsAntisymmetric};
ghost use Rattle.std.specs.List.Sorted.{IsStrictlySortedBy};
ghost use Rattle.cw_fixpoint.specs.Seen.{SeenIs, Adds};

use std::alloc::{AllocError, Global};
use std::collections::BTreeSet;

/// Sees keys, each where it is new.
pub(crate) fn see_all<K: Ord + Copy + Drop>(
    seen: &mut Vec<K>,
    set: &mut BTreeSet<K>,
    keys: &[K],
) -> Result<(), AllocError>
    requires exact { IsAntisymmetric K.cmp }
    requires seen { SeenIs K.cmp seen.old.items set.old.keys }
    ensures more { OnOk result (Adds seen.old.items seen.new.items keys.now) }
    ensures same { OnOk result (SeenIs K.cmp seen.new.items set.new.keys) }
{
    for key in keys {
        see(seen, set, *key)?;
    }
    Ok(())
}

/// Sees a key, where it is new.
pub(crate) fn see<K: Ord + Copy + Drop>(
    seen: &mut Vec<K>,
    set: &mut BTreeSet<K>,
    key: K,
) -> Result<(), AllocError>
    requires exact { IsAntisymmetric K.cmp }
    requires seen { SeenIs K.cmp seen.old.items set.old.keys }
    ensures more { OnOk result (Adds seen.old.items seen.new.items (key ∷ [])) }
    ensures same { OnOk result (SeenIs K.cmp seen.new.items set.new.keys) }
{
    if set.insert(key)? {
        seen.push(key)?;
    }
    Ok(())
}

/// The items of a set, ascending.
pub(crate) fn in_order<K: Ord + Copy + Drop>(
    alloc: Global,
    set: BTreeSet<K>,
) -> Result<Vec<K>, AllocError>
    ensures items { IfOk result (λ v. v.items ≡ set.keys) }
    ensures order { IfOk result (λ v. IsStrictlySortedBy K.cmp v.items) }
{
    set.into_iter().collect(alloc)
}
