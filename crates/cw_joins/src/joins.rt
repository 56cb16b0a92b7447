//! What follows a key, and which keys are joined.

ghost use Rattle.std.specs.Prelude.{◌≡◌, ◌++◌, List, Option, Some, IfOk, OnOk};
ghost use Rattle.std.specs.List.{Contains};
ghost use Rattle.cw_joins.specs.Members.{Rules};

use std::alloc::AllocError;

/// The group that a key waits for, and the group that it ends.
#[derive(Clone, Copy, Drop)]
pub struct Groups<G> {
    pub waits: Option<G>,
    pub ends: Option<G>,
}

/// The keys that follow a key, the group that a key waits for, the group that a key ends, and the join of two keys of one
/// group. A key may be asked for where `can_follow` holds of it, which every key that follows and every join keeps.
pub trait Joins<K: Copy + Drop, G: Copy + Drop> {
    ghost rules: { Self → Rules K G };

    ghost can_follow: { Self → K → Type 0 };

    /// Appends the keys that follow one, and tells its groups. The one error is want of memory.
    fn put_after(&self, key: K, keys: &mut Vec<K>) -> Result<Groups<G>, AllocError>
        requires can { can_follow self.now key }
        ensures after { OnOk result (keys.new.items ≡ keys.old.items ++ (rules self.now).after key) }
        ensures waits { IfOk result (λ groups. groups.waits ≡ (rules self.now).waits key) }
        ensures ends { IfOk result (λ groups. groups.ends ≡ (rules self.now).ends key) };

    /// The join of a key that waits for a group and one that ends it.
    fn join(&self, waiting: K, ending: K) -> K
        requires waiting { can_follow self.now waiting }
        requires ending { can_follow self.now ending }
        ensures join { result ≡ (rules self.now).join waiting ending };

    ghost keeps: { (s : Self) (k q : K) → can_follow s k → Contains ((rules s).after k) q → can_follow s q };

    ghost joins_keep: { (s : Self) (a b : K) (g : G) → can_follow s a → can_follow s b → (rules s).waits a ≡ Some g → (rules s).ends b ≡ Some g
        → can_follow s ((rules s).join a b) };
}
