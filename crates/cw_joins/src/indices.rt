//! The indices of keys.

ghost use Rattle.std.specs.Prelude.{◌≡◌, ℕ};

/// The index of each key. Nothing rests on it but how long a look-up takes: keys below `count` that share none are
/// looked up at once, all others in a set.
pub trait Indices<K: Copy + Drop> {
    ghost index: { Self → K → ℕ };

    /// The index of a key.
    fn index_of(&self, key: K) -> usize
        ensures { result ≡ index self.now key };

    /// How many indices there are.
    fn count(&self) -> usize;
}
