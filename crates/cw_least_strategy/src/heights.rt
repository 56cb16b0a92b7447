//! Where a pair's height is found.

ghost use Rattle.std.specs.Prelude.{◌≡◌, ◌-◌, ◌<◌, length};
ghost use Rattle.std.specs.Ordering.{nat_cmp};
ghost use Rattle.cw_fixpoint.specs.Numbers.{number_in};
ghost use Rattle.cw_product.specs.Product.{game_of};
ghost use Rattle.cw_product.specs.Routed.{AreRouted};
ghost use Rattle.cw_game.specs.Pairs.{has};
ghost use Rattle.cw_least_strategy.specs.Acts.{IsIn, key_at, key_of};
ghost use Rattle.cw_least_strategy.specs.Heights.{others, height_within};
ghost use Rattle.cw_least_strategy.specs.Small.{small};
ghost use Rattle.cw_least_strategy.specs.Strategies.{below};

use crate::key::{Key, LentKey, SmallKey};
use cw_core::{PosId, StateId, StateSet};
use cw_product::Game;
use cw_solve::Solved;

/// All states but those of a set.
pub(crate) fn others(game: &Game, set: &StateSet) -> StateSet
    requires routed { AreRouted (game_of game.now) (length game.now.graph.parts.items) }
    ensures { result ≡ others (game_of game.now) set.now }
{
    set.complement_in(game.states())
}

/// The height of a pair in a context, where it is at most so many; else 0.
fn height_within(
    solved: &Solved,
    number: u32,
    most: u32,
    pos: PosId,
    state: StateId,
    aim: &StateSet,
) -> u32
    requires routed { AreRouted (game_of solved.now.game) (length solved.now.game.graph.parts.items) }
    requires here { IsIn solved.now number aim.now pos.0 state.0 }
    ensures { result ≡ height_within (game_of solved.now.game) most pos.0 state.0 (has (others (game_of solved.now.game) aim.now)) }
{
    let _ = aim;
    match solved.height(number, pos, state) {
        None => 0,
        Some(height) => { if height <= most { height } else { 0 } }
    }
}

/// The key of a pair below a key, one move later.
pub(crate) fn below(
    solved: &Solved,
    number: u32,
    key: &LentKey,
    pos: PosId,
    state: StateId,
    aim: StateSet,
) -> Key
    requires routed { AreRouted (game_of solved.now.game) (length solved.now.game.graph.parts.items) }
    requires here { IsIn solved.now number aim pos.0 state.0 }
    requires positive { 0 < key.now.height }
    ensures { result ≡ below (game_of solved.now.game) (key_of key.now) pos.0 state.0 aim }
{
    Key {
        height: height_within(solved, number, key.height - 1, pos, state, &aim),
        pos: pos.0,
        state: state.0,
        aim,
    }
}

/// A pair one move below a key, with its height.
#[derive(Clone, Copy, Drop)]
pub(crate) struct Lower {
    pub pos: PosId,
    pub state: StateId,
    pub height: u32,
}

impl Lower {
    /// Its small key, for an aim that has this number among all.
    pub(crate) fn small(self, aims: &[StateSet], aim: &StateSet, number: u32) -> SmallKey
        requires number { number_in nat_cmp aims.now aim.now ≡ number }
        ensures { result ≡ small aims.now (key_at aim.now self) }
    {
        let _ = aims;
        let _ = aim;
        SmallKey {
            height: self.height,
            pos: self.pos.0,
            state: self.state.0,
            aim: number,
        }
    }

    /// Its key for an aim.
    pub(crate) fn key(self, aim: StateSet) -> Key
        ensures { result ≡ key_at aim self }
    {
        Key {
            height: self.height,
            pos: self.pos.0,
            state: self.state.0,
            aim,
        }
    }
}

/// A pair one move below a key, with its height for the key's aim.
pub(crate) fn lower_pair(
    solved: &Solved,
    number: u32,
    key: &LentKey,
    pos: PosId,
    state: StateId,
) -> Lower
    requires routed { AreRouted (game_of solved.now.game) (length solved.now.game.graph.parts.items) }
    requires here { IsIn solved.now number key.now.aim.now pos.0 state.0 }
    requires positive { 0 < key.now.height }
    ensures { key_at key.now.aim.now result ≡ below (game_of solved.now.game) (key_of key.now) pos.0 state.0 key.now.aim.now }
{
    Lower {
        pos,
        state,
        height: height_within(solved, number, key.height - 1, pos, state, key.aim),
    }
}
