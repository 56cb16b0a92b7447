//! Names by their numbers.
ghost use Rattle.std.specs.Prelude.{◌≡◌, ◌<◌, length, map, slice_index_or, IfOk};
ghost use Rattle.cw_syntax.specs.Names.{number_in};
ghost use Rattle.cw_value.specs.Machines.{no_names};
ghost use Rattle.cw_slots.specs.Numbers.{kept_by};
ghost use Rattle.cw_slots.specs.Texts.{named_of, text_at};

use crate::numbers::{Kept, Numbers};
use std::alloc::{AllocError, Global};
use std::marker::Model;

/// Up to so many names of a shape are found sooner by a walk.
const FEW: usize = 6;

/// Names by their numbers: those that are no arrays, and the arrays.
///
/// Contracts see both lists of texts.
#[derive(Drop)]
pub struct Names<'s> {
    plain: Vec<&'s [u8]>,
    arrays: Vec<&'s [u8]>,
    /// Where each of both is kept.
    numbers: Numbers<'s>,
}

impl<'s> Model for Names<'s> {
    ghost use Rattle.cw_value.specs.Expressions.{Named};
    ghost use Rattle.cw_slots.specs.Numbers.{HaveNames};
    ghost use Rattle.cw_slots.specs.Texts.{named_of};

    ghost Value = { Named };

    ghost view = { λ n. named_of n.plain.items n.arrays.items };

    ghost invariant = { λ n. HaveNames n.numbers n.plain.items n.arrays.items };
}

impl<'s> Names<'s> {
    /// These names.
    pub(crate) fn of(
        alloc: Global,
        plain: Vec<&'s [u8]>,
        arrays: Vec<&'s [u8]>,
    ) -> Result<Names<'s>, AllocError>
        ensures names { IfOk result (λ names. names ≡ named_of plain.entry.items arrays.entry.items) }
    {
        let numbers = Numbers::of(alloc, &plain, &arrays)?;
        Ok(Names {
            plain,
            arrays,
            numbers,
        })
    }

    /// No names.
    pub fn none(alloc: Global) -> Names<'s>
        ensures none { result ≡ no_names }
    {
        Names {
            plain: Vec::new(alloc),
            arrays: Vec::new(alloc),
            numbers: Numbers::none(alloc),
        }
    }

    /// How many names there are that are no arrays.
    pub fn plain_count(&self) -> usize
        ensures { result ≡ length self.now.plain }
    {
        self.plain.len()
    }

    /// How many arrays there are.
    pub fn array_count(&self) -> usize
        ensures { result ≡ length self.now.arrays }
    {
        self.arrays.len()
    }

    /// The text of an array's name, by its number.
    pub fn array_text(&self, number: usize) -> &[u8]
        requires within { number < length self.now.arrays }
        ensures text { result.now ≡ slice_index_or self.now.arrays number result.now }
    {
        self.arrays[number]
    }

    /// The text of a name that is no array, by its number.
    pub fn plain_text(&self, number: usize) -> &[u8]
        requires within { number < length self.now.plain }
        ensures text { result.now ≡ slice_index_or self.now.plain number result.now }
    {
        self.plain[number]
    }

    /// Where a name is kept. An array hides a name that is none.
    #[inline(always)]
    pub fn find(&self, name: &[u8]) -> Option<Kept>
        ensures kept { result ≡ kept_by (number_in self.now.arrays name.now) (number_in self.now.plain name.now) }
    {
        if self.plain.len() <= FEW && self.arrays.len() <= FEW {
            walk(&self.arrays, &self.plain, name)
        } else {
            self.numbers.find(name)
        }
    }
}

/// Where a name is kept, by a walk over both lists.
#[inline(always)]
fn walk(arrays: &[&[u8]], plain: &[&[u8]], name: &[u8]) -> Option<Kept>
    ensures { result ≡ kept_by (number_in (map text_at arrays.now) name.now) (number_in (map text_at plain.now) name.now) }
{
    match number_in(arrays, name) {
        Some(n) => Some(Kept::Array(n)),
        None => match number_in(plain, name) {
            Some(n) => Some(Kept::Plain(n)),
            None => None,
        },
    }
}

/// The place of a text in a list.
#[inline(always)]
fn number_in(texts: &[&[u8]], name: &[u8]) -> Option<usize>
    ensures { result ≡ number_in (map text_at texts.now) name.now }
{
    for (i, text) in texts.iter().enumerate() {
        if name == *text {
            return Some(i);
        }
    }
    None
}
