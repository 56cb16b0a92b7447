//! The lesser of two places.

ghost use Rattle.std.specs.Prelude.{◌≡◌};
ghost use Rattle.cw_resolve.specs.Soonest.{sooner};

/// The lesser of two places, where there is one.
pub fn sooner(place: Option<u32>, other: Option<u32>) -> Option<u32>
    ensures { result ≡ sooner place other }
{
    match place {
        None => other,
        Some(a) => match other {
            None => Some(a),
            Some(b) => Some(a.min(b)),
        },
    }
}
