//! The aims of a solved game's contexts, and keys by their numbers.

ghost use Rattle.std.specs.Prelude.{◌≡◌, ◌<◌, length, IfOk};
ghost use Rattle.std.specs.Ordering.{nat_cmp};
ghost use Rattle.cw_fixpoint.specs.Numbers.{number_in};
ghost use Rattle.cw_product.specs.Product.{game_of};
ghost use Rattle.cw_product.specs.Routed.{AreRouted};
ghost use Rattle.cw_least_strategy.specs.Acts.{key_of};
ghost use Rattle.cw_least_strategy.specs.Small.{whole, small, Ascend, AreAims};

use crate::heights::others;
use crate::key::{Key, LentKey, SmallKey};
use cw_core::StateSet;
use cw_fixpoint::{number_of, ordered};
use cw_solve::Solved;
use std::alloc::{AllocError, Global};

/// What the promises of all contexts leave out, ascending, each once.
pub(crate) fn aims_of(alloc: Global, solved: &Solved) -> Result<Vec<StateSet>, AllocError>
    requires routed { AreRouted (game_of solved.now.game) (length solved.now.game.graph.parts.items) }
    ensures { IfOk result (λ v. AreAims solved.now v.items) }
{
    solved.fact_contexts_are_needed();
    let mut all = Vec::new(alloc);
    for number in 0..solved.contexts() {
        let aim = others(solved.game(), &solved.context(number).promise);
        all.push(aim)?;
    }
    ordered(alloc, &all)
}

/// The number of an aim, and how many they are where it is none of them.
pub(crate) fn aim_number(aims: &[StateSet], aim: &StateSet) -> u32
    requires ascend { Ascend aims.now }
    ensures { result ≡ number_in nat_cmp aims.now aim.now }
{
    number_of(aims, aim) as u32
}

/// The small key of a key.
pub(crate) fn small(aims: &[StateSet], key: &Key) -> SmallKey
    requires ascend { Ascend aims.now }
    ensures { result ≡ small aims.now key.now }
{
    SmallKey {
        height: key.height,
        pos: key.pos,
        state: key.state,
        aim: aim_number(aims, &key.aim),
    }
}

/// The key that a small one stands for.
pub(crate) fn whole<'a>(aims: &'a [StateSet], key: &SmallKey) -> LentKey<'a>
    requires within { key.now.aim < length aims.now }
    ensures { key_of result ≡ whole aims.now key.now }
{
    LentKey {
        height: key.height,
        pos: key.pos,
        state: key.state,
        aim: &aims[key.aim as usize],
    }
}
