//! Where the memory of a key may stand.

use std::alloc::{AllocError, Global};

/// More places than these are not kept: 8 MB.
const MOST: usize = 1_048_576;

/// Where the memory of each state and promise may stand. Nothing rests on it but how long a look-up takes.
#[derive(Drop)]
pub(crate) struct Places {
    places: Vec<usize>,
    promises: usize,
}

impl Places {
    /// Nothing is told, of so many states and promises.
    pub(crate) fn make(
        alloc: Global,
        states: usize,
        promises: usize,
    ) -> Result<Places, AllocError> {
        let count = states.saturating_mul(promises);
        let count = if count <= MOST { count } else { 0 };
        Ok(Places {
            places: vec![in alloc; 0_usize; count]?,
            promises,
        })
    }

    /// Where a memory would have its place.
    #[inline(always)]
    fn at(&self, state: u16, promise: usize) -> usize {
        (state as usize)
            .wrapping_mul(self.promises)
            .wrapping_add(promise)
    }

    /// Where a memory may stand.
    #[inline(always)]
    pub(crate) fn guess(&self, state: u16, promise: usize) -> usize {
        match self.places.get(self.at(state, promise)) {
            None => 0,
            Some(place) => *place,
        }
    }

    /// Tells where a memory stands.
    #[inline(always)]
    pub(crate) fn tell(&mut self, state: u16, promise: usize, place: usize) {
        let at = self.at(state, promise);
        if let Some(there) = self.places.get_mut(at) {
            *there = place;
        }
    }
}
