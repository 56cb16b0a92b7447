//! Sets of states, as the conditions of a strategy ask for them.

ghost use Rattle.std.specs.Prelude.{◌≡◌, ◌<◌, ◌^◌, ◌||◌, ℕ, not, is_some, nat_lt};
ghost use Rattle.std.specs.List.{list_all, range_with_len};
ghost use Rattle.cw_certs.specs.Strategies.{back_of};
ghost use Rattle.cw_game.specs.Pairs.{has};
ghost use Rattle.cw_echeck.specs.Checks.{backs_of};

use cw_core::limits::PRODUCT_STATES_IN_FORMAT_2;
use cw_core::{StateId, StateSet};

/// The numbers that a set can have.
const MEMBERS: u16 = PRODUCT_STATES_IN_FORMAT_2 as u16;

/// Whether a set has a state.
pub(crate) fn has_state(set: &StateSet, state: StateId) -> bool
    ensures { result ≡ has set.now state.0 }
{
    set.fact_members_are_below_1024();
    state.0 < MEMBERS && set.contains(state)
}

/// Whether a set has numbers below this one alone.
pub(crate) fn is_below(set: &StateSet, count: u16) -> bool
    ensures { result ≡ nat_lt set.now (2 ^ count) }
{
    set.fact_members_are_below_1024();
    let all = StateSet::empty().complement_in(count.min(MEMBERS));
    set.is_subset(&all)
}

// The exit states of backs, as far as a set can have them.
fn exits_of(backs: &[(StateId, u32)]) -> StateSet
    ensures { (x : ℕ) → x < 1024 → has result x ≡ is_some (back_of (backs_of backs.now) x) }
{
    let mut exits = StateSet::empty();
    for back in backs {
        if back.0.0 < MEMBERS {
            exits.insert(back.0);
        }
    }
    exits
}

/// Whether each member below the count has a back.
pub(crate) fn are_covered(aim: &StateSet, backs: &[(StateId, u32)], count: u16) -> bool
    ensures { result ≡ list_all (λ x. not (has aim.now x) || is_some (back_of (backs_of backs.now) x)) (range_with_len 0 count) }
{
    aim.fact_members_are_below_1024();
    let count = count.min(MEMBERS);
    let left_out = exits_of(backs).complement_in(count);
    left_out.is_subset(&aim.complement_in(count))
}
