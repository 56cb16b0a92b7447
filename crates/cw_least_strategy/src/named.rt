//! The keys that a key names.

ghost use Rattle.std.specs.Prelude.{◌≡◌, ◌++◌, map, OnOk};
ghost use Rattle.std.specs.Ordering.{nat_cmp};
ghost use Rattle.cw_fixpoint.specs.Numbers.{number_in};
ghost use Rattle.cw_least_strategy.specs.Acts.{act_of};
ghost use Rattle.cw_least_strategy.specs.Small.{small, small_of_back, Ascend};
ghost use Rattle.cw_least_strategy.specs.Strategies.{keys_in};

use crate::acts::Act;
use crate::aims::small;
use crate::key::{Key, SmallKey};
use cw_core::{StateId, StateSet};
use std::alloc::AllocError;

/// Appends the keys that are named for returns.
fn put_backs(
    aims: &[StateSet],
    backs: &[(StateId, Key)],
    keys: &mut Vec<SmallKey>,
) -> Result<(), AllocError>
    requires ascend { Ascend aims.now }
    ensures { OnOk result (keys.new.items ≡ keys.old.items ++ map (small_of_back aims.now) backs.now) }
{
    for back in backs {
        keys.push(small(aims, &back.1))?;
    }
    Ok(())
}

/// Appends the keys that an act names, at a key whose aim has this number.
pub(crate) fn put_keys(
    aims: &[StateSet],
    aim: &StateSet,
    number: u32,
    act: &Act,
    keys: &mut Vec<SmallKey>,
) -> Result<(), AllocError>
    requires ascend { Ascend aims.now }
    requires number { number_in nat_cmp aims.now aim.now ≡ number }
    ensures { OnOk result (keys.new.items ≡ keys.old.items ++ map (small aims.now) (keys_in (act_of aim.now act.now))) }
{
    match act {
        Act::Bad | Act::Out => {}
        Act::Both { skip, tried } => {
            keys.push(skip.small(aims, aim, number))?;
            keys.push(tried.small(aims, aim, number))?;
        }
        Act::Go(lead) => keys.push(lead.to.small(aims, aim, number))?,
        Act::Into { callee, backs } => {
            keys.push(small(aims, callee))?;
            put_backs(aims, backs, keys)?;
        }
    }
    Ok(())
}
