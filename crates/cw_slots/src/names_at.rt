//! Names that stand in a source, looked up once.
ghost use Rattle.std.specs.Prelude.{◌≡◌, IfOk, IfSome};
ghost use Rattle.cw_syntax.specs.Names.{slice};
ghost use Rattle.cw_slots.specs.Locations.{location_in};
ghost use Rattle.cw_slots.specs.Standing.{location_among, seen, AreNamesAt, IsNameAt};

use crate::locations::location_among;
use crate::names::Names;
use crate::scope::Location;
use cw_syntax::names::slice;
use std::alloc::{AllocError, Global};
use std::marker::Model;
use std::snapshot::Snapshot;

/// The most slots: so many bytes of a function have a slot each.
const MOST_SLOTS: usize = 8_192;

/// A name that stands in a source: the place of its first byte, the place after its last, and where its value is kept.
#[derive(Clone, Copy, Drop)]
pub(crate) struct NameAt {
    from: u32,
    to: u32,
    location: Location,
}

/// Where the names are kept that stand in a function, looked up before it runs. Each has the slot of its place, which another one far
/// behind it may take.
///
/// Contracts see the source, the names of the function and those of the file.
#[derive(Drop)]
pub struct NamesAt<'s> {
    source: &'s [u8],
    own: Snapshot<Names<'s>>,
    shared: Snapshot<Names<'s>>,
    slots: Vec<NameAt>,
}

impl<'s> Model for NamesAt<'s> {
    ghost use Rattle.cw_slots.specs.Standing.{seen, AreNamesAt, Seen};

    ghost Value = { Seen };

    ghost view = { λ n. seen n.source.now n.own.value n.shared.value };

    ghost invariant = { λ n. AreNamesAt (seen n.source.now n.own.value n.shared.value) n.slots.items };
}

impl<'s> NamesAt<'s> {
    /// The names that stand between two places of a source, where a function and its file have these names.
    pub fn of(
        alloc: Global,
        source: &'s [u8],
        own: &Names<'s>,
        shared: &Names<'s>,
        from: u32,
        to: u32,
    ) -> Result<NamesAt<'s>, AllocError>
        ensures is { IfOk result (λ names. names ≡ seen source.now own.now shared.now) }
    {
        let mut slots = empty_slots(
            alloc,
            source,
            own,
            shared,
            count_for(to.saturating_sub(from)),
        )?;
        put_names(source, own, shared, from, to, &mut slots);
        Ok(NamesAt {
            source,
            own: Snapshot::of(own),
            shared: Snapshot::of(shared),
            slots,
        })
    }

    /// No name is looked up.
    pub fn none(alloc: Global, source: &'s [u8], own: &Names<'s>, shared: &Names<'s>) -> NamesAt<'s>
        ensures is { result ≡ seen source.now own.now shared.now }
    {
        NamesAt {
            source,
            own: Snapshot::of(own),
            shared: Snapshot::of(shared),
            slots: Vec::new(alloc),
        }
    }

    /// Where the name with this span is kept, if it was looked up.
    #[inline(always)]
    pub(crate) fn find(&self, from: u32, to: u32) -> Option<Location>
        ensures { IfSome result (λ location. location_in location ≡ location_among self.now.own self.now.shared (slice self.now.source from to)) }
    {
        let slot = slot_of(from, self.slots.len());
        if slot < self.slots.len() {
            let name = self.slots[slot];
            if name.from == from && name.to == to {
                return Some(name.location);
            }
        }
        None
    }
}

/// The slot of a place, where the slots are a power of two. Nothing rests on it.
#[inline(always)]
fn slot_of(from: u32, count: usize) -> usize {
    from as usize & count.wrapping_sub(1)
}

/// How many slots there are for so many bytes: a power of two.
fn count_for(bytes: u32) -> usize {
    for bits in 0_u32..13 {
        if bytes <= 1_u32 << bits {
            return 1_usize << bits;
        }
    }
    MOST_SLOTS
}

/// Where the name with this span is kept.
fn name_at(source: &[u8], own: &Names, shared: &Names, from: u32, to: u32) -> NameAt
    ensures { IsNameAt (seen source.now own.now shared.now) result }
{
    NameAt {
        from,
        to,
        location: location_among(own, shared, slice(source, from, to)),
    }
}

/// So many slots, in each of which the empty name stands at the front of the source.
fn empty_slots(
    alloc: Global,
    source: &[u8],
    own: &Names,
    shared: &Names,
    count: usize,
) -> Result<Vec<NameAt>, AllocError>
    ensures { IfOk result (λ slots. AreNamesAt (seen source.now own.now shared.now) slots.items) }
{
    let empty = name_at(source, own, shared, 0, 0);
    let mut slots = Vec::new(alloc);
    for _ in 0..count {
        slots.push(empty)?;
    }
    Ok(slots)
}

/// Whether a word may be a name: it isn't empty, and no number.
fn is_name(word: &[u8]) -> bool {
    match word {
        [] => false,
        [first, ..] => !first.is_ascii_digit(),
    }
}

/// Puts the word with this span in its slot, where it may be a name.
fn put_name(source: &[u8], own: &Names, shared: &Names, from: u32, to: u32, slots: &mut Vec<NameAt>)
    requires names { AreNamesAt (seen source.now own.now shared.now) slots.old.items }
    ensures { AreNamesAt (seen source.now own.now shared.now) slots.new.items }
{
    let slot = slot_of(from, slots.len());
    if slot < slots.len() && is_name(slice(source, from, to)) {
        slots[slot] = name_at(source, own, shared, from, to);
    }
}

/// Puts the words between two places in their slots.
fn put_names(
    source: &[u8],
    own: &Names,
    shared: &Names,
    from: u32,
    to: u32,
    slots: &mut Vec<NameAt>,
)
    requires names { AreNamesAt (seen source.now own.now shared.now) slots.old.items }
    ensures { AreNamesAt (seen source.now own.now shared.now) slots.new.items }
{
    let mut start = from;
    let mut at = from;
    for byte in slice(source, from, to) {
        let next = at.saturating_add(1);
        if !byte.is_ascii_alphanumeric() && *byte != b'_' {
            put_name(source, own, shared, start, at, slots);
            start = next;
        }
        at = next;
    }
    put_name(source, own, shared, start, at, slots);
}
