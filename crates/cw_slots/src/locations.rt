//! Where the value of a name is kept.
ghost use Rattle.std.specs.Prelude.{◌≡◌};
ghost use Rattle.cw_slots.specs.Locations.{own_kept, location_in, shared_if_kept};
ghost use Rattle.cw_slots.specs.Standing.{location_among};

use crate::names::Names;
use crate::numbers::Kept;
use crate::scope::Location;

/// Where the value of a name of the function is kept.
#[inline(always)]
fn own_location(kept: Kept) -> Location
    ensures { location_in result ≡ own_kept kept }
{
    match kept {
        Kept::Plain(n) => Location::Own(n),
        Kept::Array(n) => Location::OwnArray(n),
    }
}

/// Where the value of a name is kept that is none of the function's.
#[inline(always)]
fn shared_location(kept: Option<Kept>) -> Location
    ensures { location_in result ≡ shared_if_kept kept }
{
    match kept {
        None => Location::Nowhere,
        Some(kept) => match kept {
            Kept::Plain(n) => Location::Shared(n),
            Kept::Array(n) => Location::SharedArray(n),
        },
    }
}

/// Where the value of a name is kept. A name of the function hides one of the file.
#[inline(always)]
pub(crate) fn location_among(own: &Names, shared: &Names, name: &[u8]) -> Location
    ensures { location_in result ≡ location_among own.now shared.now name.now }
{
    match own.find(name) {
        Some(kept) => own_location(kept),
        None => shared_location(shared.find(name)),
    }
}
