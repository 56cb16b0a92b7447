//! Where names are kept, by their bytes.

ghost use Rattle.std.specs.Prelude.{◌≡◌, ℕ, List, [], cond, IfOk, OnOk, Some, None};
ghost use Rattle.std.specs.Option.{option_or};
ghost use Rattle.std.specs.Str.{bytes_eq};
ghost use Rattle.cw_slots.specs.Numbers.{AreGuesses, HaveNames, found, kept_from, kept_of};

use indexmap::IndexMap;
use std::alloc::{AllocError, Global};
use std::marker::Model;

/// How many slots for guesses there are for a name.
const SLOTS: usize = 4;

/// Where a name is kept: among those that are no arrays, or among the arrays, by its number there.
#[derive(Clone, Copy, Drop, Debug, PartialEq, Eq)]
pub enum Kept {
    Plain(usize),
    Array(usize),
}

/// A name with where it is kept.
#[derive(Clone, Copy, Drop)]
pub(crate) struct Guess<'s> {
    text: &'s [u8],
    kept: Kept,
}

/// Where names are kept.
///
/// Contracts see a list of pairs.
#[derive(Drop)]
pub(crate) struct Numbers<'s> {
    all: IndexMap<&'s [u8], Kept>,
    /// Some of them, each in the slot of its key, which other names may have too.
    guesses: Vec<Option<Guess<'s>>>,
}

impl<'s> Model for Numbers<'s> {
    ghost use Rattle.std.specs.Prelude.{ℕ, List};
    ghost use Rattle.std.specs.Borrow.{Bor};
    ghost use Rattle.cw_slots.specs.declared.numbers.Kept.{Kept};
    ghost use Rattle.cw_slots.specs.Numbers.{AreGuesses};

    ghost Value = { List (Bor (List ℕ) × Kept) };

    ghost view = { λ n. n.all.entries };

    ghost invariant = { λ n. AreGuesses n.all.entries n.guesses.items };
}

impl<'s> Numbers<'s> {
    /// Where these names are kept, of which those that are arrays hide the others.
    pub(crate) fn of(
        alloc: Global,
        plain: &[&'s [u8]],
        arrays: &[&'s [u8]],
    ) -> Result<Numbers<'s>, AllocError>
        ensures names { IfOk result (λ numbers. HaveNames numbers plain.now arrays.now) }
    {
        let all = numbers_of(alloc, plain, arrays)?;
        let guesses = guesses_of(alloc, &all, plain, arrays)?;
        Ok(Numbers { all, guesses })
    }

    /// No names.
    pub(crate) fn none(alloc: Global) -> Numbers<'s>
        ensures none { result ≡ [] }
    {
        Numbers {
            all: IndexMap::new(alloc),
            guesses: Vec::new(alloc),
        }
    }

    /// Where a name is kept.
    #[inline(always)]
    pub(crate) fn find(&self, name: &[u8]) -> Option<Kept>
        ensures kept { result ≡ found name.now self.now }
    {
        find_near(&self.all, &self.guesses, name)
    }
}

/// The slot of a name's key. Nothing rests on it.
fn slot_of(name: &[u8], slots: usize) -> usize {
    let mut key: u32 = 0;
    for byte in name {
        key = key.wrapping_mul(31).wrapping_add(u32::from(*byte));
    }
    let spread = u64::from(key.wrapping_mul(2_654_435_769));
    (spread.wrapping_mul(slots as u64) >> 32) as usize
}

/// Where a name is kept: it is looked for in its slot first.
#[inline(always)]
fn find_near(all: &IndexMap<&[u8], Kept>, guesses: &[Option<Guess>], name: &[u8]) -> Option<Kept>
    requires guesses { AreGuesses all.now.entries guesses.now }
    ensures { result ≡ found name.now all.now.entries }
{
    let slot = slot_of(name, guesses.len());
    if slot < guesses.len() {
        if let Some(guess) = guesses[slot] {
            if guess.text == name {
                return Some(guess.kept);
            }
        }
    }
    find(all, name)
}

/// Where a name is kept, whatever stands in its slot. It stands apart, so that a name that stands in its slot is found without a call.
#[cold]
#[inline(never)]
fn find(all: &IndexMap<&[u8], Kept>, name: &[u8]) -> Option<Kept>
    ensures { result ≡ found name.now all.now.entries }
{
    all.get(name).copied()
}

/// Adds a name, unless it is there.
fn put<'s>(
    numbers: &mut IndexMap<&'s [u8], Kept>,
    text: &'s [u8],
    kept: Kept,
) -> Result<(), AllocError>
    ensures { OnOk result ((name : List ℕ) → found name numbers.new.entries ≡ option_or (found name numbers.old.entries) (cond (bytes_eq name text.now) (Some kept) None)) }
{
    if find(numbers, text).is_none() {
        numbers.insert(text, kept)?;
    }
    Ok(())
}

/// The number as one of an array, or of a name that is none.
fn kept_of(arrays: bool, number: usize) -> Kept
    ensures { result ≡ kept_of arrays number }
{
    if arrays {
        Kept::Array(number)
    } else {
        Kept::Plain(number)
    }
}

/// Adds names, each by its number in this list.
fn put_all<'s>(
    numbers: &mut IndexMap<&'s [u8], Kept>,
    arrays: bool,
    texts: &[&'s [u8]],
) -> Result<(), AllocError>
    ensures { OnOk result ((name : List ℕ) → found name numbers.new.entries ≡ option_or (found name numbers.old.entries) (kept_from arrays name 0 texts.now)) }
{
    for (i, text) in texts.iter().enumerate() {
        put(numbers, *text, kept_of(arrays, i))?;
    }
    Ok(())
}

/// Where these names are kept, of which those that are arrays hide the others.
fn numbers_of<'s>(
    alloc: Global,
    plain: &[&'s [u8]],
    arrays: &[&'s [u8]],
) -> Result<IndexMap<&'s [u8], Kept>, AllocError>
    ensures { IfOk result (λ numbers. HaveNames numbers.entries plain.now arrays.now) }
{
    let mut numbers = IndexMap::new(alloc);
    put_all(&mut numbers, true, arrays)?;
    put_all(&mut numbers, false, plain)?;
    Ok(numbers)
}

/// Puts a name in its slot, where nothing is there.
fn put_guess<'s>(
    all: &IndexMap<&'s [u8], Kept>,
    text: &'s [u8],
    guesses: &mut Vec<Option<Guess<'s>>>,
)
    requires guesses { AreGuesses all.now.entries guesses.old.items }
    ensures { AreGuesses all.now.entries guesses.new.items }
{
    let slot = slot_of(text, guesses.len());
    if slot < guesses.len() && guesses[slot].is_none() {
        if let Some(kept) = find(all, text) {
            guesses[slot] = Some(Guess { text, kept });
        }
    }
}

/// Puts names in their slots.
fn put_guesses<'s>(
    all: &IndexMap<&'s [u8], Kept>,
    texts: &[&'s [u8]],
    guesses: &mut Vec<Option<Guess<'s>>>,
)
    requires guesses { AreGuesses all.now.entries guesses.old.items }
    ensures { AreGuesses all.now.entries guesses.new.items }
{
    for text in texts {
        put_guess(all, *text, guesses);
    }
}

/// So many slots with nothing in them.
fn no_guesses<'s>(
    alloc: Global,
    all: &IndexMap<&'s [u8], Kept>,
    slots: usize,
) -> Result<Vec<Option<Guess<'s>>>, AllocError>
    ensures { IfOk result (λ guesses. AreGuesses all.now.entries guesses.items) }
{
    let mut guesses = Vec::new(alloc);
    for _ in 0..slots {
        guesses.push(None)?;
    }
    Ok(guesses)
}

/// The slots of these names.
fn guesses_of<'s>(
    alloc: Global,
    all: &IndexMap<&'s [u8], Kept>,
    plain: &[&'s [u8]],
    arrays: &[&'s [u8]],
) -> Result<Vec<Option<Guess<'s>>>, AllocError>
    ensures { IfOk result (λ guesses. AreGuesses all.now.entries guesses.items) }
{
    let slots = plain
        .len()
        .saturating_add(arrays.len())
        .saturating_mul(SLOTS);
    let mut guesses = no_guesses(alloc, all, slots)?;
    put_guesses(all, plain, &mut guesses);
    put_guesses(all, arrays, &mut guesses);
    Ok(guesses)
}
