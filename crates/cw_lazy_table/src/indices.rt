//! The indices of keys.

use crate::key::Key;
use crate::looked::Looked;
use cw_core::StateSet;
use cw_joins::Indices;
use cw_product::Game;

/// There are no more indices of pairs or groups.
const MOST: usize = 1_048_575;

/// What the index of a pair's first key is multiplied with: more than keys have indices.
const SPREAD: usize = 1_048_573;

/// The odd number nearest to 2 to the power 64 over the golden ratio: the high bits of a product with it are spread evenly.
const MIXER: usize = 0x9e37_79b9_7f4a_7c15;

/// The indices of all keys of a game, by position, then by state, then by promise, as keys ascend.
#[derive(Drop)]
pub(crate) struct KeyIndices {
    pub positions: usize,
    pub states: usize,
    pub promises: usize,
}

impl Indices<Key> for KeyIndices {
    ghost use Rattle.cw_lazy_table.specs.Indexed.{key_index};

    ghost index = { λ s k. key_index s.states s.promises k };

    fn index_of(&self, key: Key) -> usize {
        (key.pos as usize)
            .wrapping_mul(self.states)
            .wrapping_add(key.state as usize)
            .wrapping_mul(self.promises)
            .wrapping_add(key.promise)
    }

    fn count(&self) -> usize {
        self.positions
            .saturating_mul(self.states)
            .saturating_mul(self.promises)
    }
}

/// The indices of the keys of a game with promises.
pub(crate) fn key_indices(game: &Game, promises: &[StateSet]) -> KeyIndices {
    KeyIndices {
        positions: game.positions() as usize,
        states: game.states() as usize,
        promises: promises.len(),
    }
}

/// The indices of pairs of keys: those of their keys, mixed. There are fewer than pairs may be.
#[derive(Drop)]
pub(crate) struct PairIndices<'i> {
    pub keys: &'i KeyIndices,
    pub last: usize,
}

impl<'i> Indices<(Key, Key)> for PairIndices<'i> {
    ghost use Rattle.cw_lazy_table.specs.Indexed.{pair_index};

    ghost index = { λ s k. pair_index s.keys.now.states s.keys.now.promises s.last k };

    fn index_of(&self, pair: (Key, Key)) -> usize {
        let first = self.keys.index_of(pair.0);
        let second = self.keys.index_of(pair.1);
        let mixed = first
            .wrapping_mul(SPREAD)
            .wrapping_add(second)
            .wrapping_mul(MIXER);
        (mixed >> 32) & self.last
    }

    fn count(&self) -> usize {
        self.last.saturating_add(1)
    }
}

/// The indices of groups: where a call's function ends, and what is promised to it.
#[derive(Drop)]
pub(crate) struct GroupIndices {
    pub promises: usize,
    pub last: usize,
}

impl Indices<(u32, usize)> for GroupIndices {
    ghost use Rattle.cw_lazy_table.specs.Indexed.{group_index};

    ghost index = { λ s g. group_index s.promises s.last g };

    fn index_of(&self, group: (u32, usize)) -> usize {
        (group.0 as usize)
            .wrapping_mul(self.promises)
            .wrapping_add(group.1)
            & self.last
    }

    fn count(&self) -> usize {
        self.last.saturating_add(1)
    }
}

/// The greatest index where there are at least so many, as a number of ones.
fn last_of(count: usize) -> usize {
    let mut last: usize = 1;
    while last < count && last < MOST {
        last = last * 2 + 1;
    }
    last
}

/// The indices of pairs of these keys.
pub(crate) fn pair_indices(keys: &KeyIndices) -> PairIndices<'_> {
    PairIndices {
        keys,
        last: last_of(keys.positions),
    }
}

/// The indices of the groups of a game with so many contexts.
pub(crate) fn group_indices(solved: &Looked, promises: &[StateSet]) -> GroupIndices {
    GroupIndices {
        promises: promises.len(),
        last: last_of(solved.contexts() as usize),
    }
}
