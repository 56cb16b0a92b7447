//! The least of some places.

ghost use Rattle.std.specs.Prelude.{◌≡◌, ◌<◌, map, length};
ghost use Rattle.std.specs.List.{All};
ghost use Rattle.cw_callgraph.specs.Lowest.{lowest, at};
ghost use Rattle.cw_resolve.specs.Soonest.{sooner, soonest};

use cw_resolve::sooner;

/// The least of some places; None of none.
#[tactic(auto, using(cw_resolve::proofs::Lesser::sooner_assoc))]
pub(crate) fn lowest(places: &[u32]) -> Option<u32>
    ensures { result ≡ lowest places.now }
{
    let mut least = None;
    for place in places {
        least = sooner(least, Some(*place));
    }
    least
}

/// The least of the places at these numbers.
#[tactic(auto, using(cw_resolve::proofs::Lesser::sooner_assoc))]
pub(crate) fn soonest_among(places: &[Option<u32>], numbers: &[u16]) -> Option<u32>
    requires within { All (λ number. number < length places.now) numbers.now }
    ensures { result ≡ soonest (map (at places.now) numbers.now) }
{
    let mut least = None;
    for number in numbers {
        least = sooner(least, places[*number as usize]);
    }
    least
}
