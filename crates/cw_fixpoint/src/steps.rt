//! What follows a key.

ghost use Rattle.std.specs.Prelude.{◌≡◌, ◌++◌, List, OnOk};
ghost use Rattle.std.specs.List.{Contains};

use std::alloc::AllocError;

/// The keys that follow a key. A key may be asked for where `can_follow` holds of it, which every key that follows it
/// keeps.
pub trait Steps<K: Copy + Drop> {
    ghost after: { Self → K → List K };

    ghost can_follow: { Self → K → Type 0 };

    /// Appends the keys that follow one. The one error is want of memory.
    fn put_after(&self, key: K, keys: &mut Vec<K>) -> Result<(), AllocError>
        requires can { can_follow self.now key }
        ensures after { OnOk result (keys.new.items ≡ keys.old.items ++ after self.now key) };

    ghost keeps: { (s : Self) (k q : K) → can_follow s k → Contains (after s k) q → can_follow s q };
}
