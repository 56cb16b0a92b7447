//! The strategy by least heights, as it is kept until it is written.

use crate::key::SmallKey;
use cw_certs::How;
use cw_core::{PosId, StateId, StateSet};
use std::marker::Model;

/// A row of a strategy as it is lent: where it stands, the exit states at which it aims in its function, and what it does.
#[derive(Clone, Copy, Drop)]
pub struct LeastRow<'s> {
    pub pos: PosId,
    pub state: StateId,
    pub aim: &'s StateSet,
    pub how: &'s How,
}

/// A strategy by least heights, whose rows share their aims: those of all contexts stand beside them, ascending, each once. A
/// contract sees it as a strategy.
#[derive(Drop)]
pub struct LeastStrategy {
    states: u16,
    aims: Vec<StateSet>,
    keys: Vec<SmallKey>,
    hows: Vec<How>,
}

impl Model for LeastStrategy {
    ghost use Rattle.cw_certs.specs.Strategies.{Strategy};
    ghost use Rattle.cw_least_strategy.specs.Parts.{strategy_by, ArePaired};

    ghost Value = { Strategy };

    ghost view = { λ s. strategy_by s.states s.aims.items s.keys.items s.hows.items };

    ghost invariant = { λ s. ArePaired s.aims.items s.keys.items s.hows.items };
}

impl LeastStrategy {
    ghost use Rattle.std.specs.Prelude.{◌≡◌, ◌<◌, Some, length, slice_get};
    ghost use Rattle.cw_certs.specs.Strategies.{how_of};
    ghost use Rattle.cw_least_strategy.specs.Parts.{strategy_by, ArePaired};

    /// The strategy of so many states with these keys, at each of which this is done.
    pub(crate) fn of(
        states: u16,
        aims: Vec<StateSet>,
        keys: Vec<SmallKey>,
        hows: Vec<How>,
    ) -> LeastStrategy
        requires paired { ArePaired aims.items keys.items hows.items }
        ensures { result ≡ strategy_by states aims.items keys.items hows.items }
    {
        LeastStrategy {
            states,
            aims,
            keys,
            hows,
        }
    }

    /// How many states the policy has for this source.
    pub fn states(&self) -> u16
        ensures { result ≡ self.now.states }
    {
        self.states
    }

    /// How many rows there are.
    pub fn count(&self) -> usize
        ensures { result ≡ length self.now.rows }
    {
        self.keys.len()
    }

    /// The row of a number.
    pub fn row(&self, number: usize) -> LeastRow<'_>
        requires within { number < length self.now.rows }
        ensures { slice_get self.now.rows number ≡ Some (record { pos = result.pos.0; state = result.state.0; aim = result.aim.now; how = how_of result.how.now }) }
    {
        let key = &self.keys[number];
        LeastRow {
            pos: PosId(key.pos),
            state: StateId(key.state),
            aim: &self.aims[key.aim as usize],
            how: &self.hows[number],
        }
    }
}
