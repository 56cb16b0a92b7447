//! What a name stands for where it is used.
ghost use Rattle.std.specs.Prelude.{◌≡◌, Some};

use crate::locations::location_among;
use crate::names::Names;
use crate::names_at::NamesAt;
use cw_syntax::names::slice;
use std::alloc::Global;

/// Where the value of a name is kept: among those of its function or of the file, by its number there, or nowhere.
#[derive(Clone, Copy, Drop, Debug, PartialEq, Eq)]
pub enum Location {
    Own(usize),
    OwnArray(usize),
    Shared(usize),
    SharedArray(usize),
    Nowhere,
}

/// What is known of names where an expression stands: the bytes of the source, the names of its function and those of the file, and
/// the values that are handed in for names that nothing declares.
#[derive(Clone, Copy, Drop)]
pub struct Scope<'a, 's> {
    pub alloc: Global,
    pub source: &'a [u8],
    pub own: &'a Names<'s>,
    pub shared: &'a Names<'s>,
    pub given: &'a [(Vec<u8>, i64)],
    /// Where the names are kept that stand in the function, as far as they were looked up before.
    pub standing: &'a NamesAt<'s>,
    ghost stand_here: { standing.now ≡ record { source = source.now; own = own.now; shared = shared.now } },
}

impl<'a, 's> Scope<'a, 's> {
    ghost use Rattle.cw_syntax.specs.Names.{slice};
    ghost use Rattle.cw_value.specs.Expressions.{given_for, location_of};
    ghost use Rattle.cw_slots.specs.Shown.{location_in, scope_of};

    /// The bytes of a span.
    #[inline(always)]
    pub fn text(&self, from: u32, to: u32) -> &'a [u8]
        ensures bytes { result.now ≡ slice (scope_of self.now).source from to }
    {
        slice(self.source, from, to)
    }

    /// Where the value of a name is kept. A name of the function hides one of the file.
    #[inline(never)]
    pub fn location(&self, name: &[u8]) -> Location
        ensures location { location_in result ≡ location_of (scope_of self.now) name.now }
    {
        location_among(self.own, self.shared, name)
    }

    /// Where the value of the name with this span is kept.
    #[inline(always)]
    pub fn location_at(&self, from: u32, to: u32) -> Location
        ensures location { location_in result ≡ location_of (scope_of self.now) (slice (scope_of self.now).source from to) }
    {
        match self.standing.find(from, to) {
            Some(location) => location,
            None => self.location(self.text(from, to)),
        }
    }

    /// The value that is handed in for a name.
    pub fn given(&self, name: &[u8]) -> Option<i64>
        ensures value { result ≡ given_for (scope_of self.now) name.now }
    {
        for given in self.given {
            if name == name_of(given) {
                return value_of(given);
            }
        }
        None
    }
}

/// The name of a value that is handed in.
fn name_of(given: &(Vec<u8>, i64)) -> &[u8]
    ensures { result.now ≡ given.now.0.items }
{
    &given.0
}

/// The value itself.
fn value_of(given: &(Vec<u8>, i64)) -> Option<i64>
    ensures { result ≡ Some given.now.1 }
{
    Some(given.1)
}
