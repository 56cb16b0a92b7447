//! Names in an order, looked up by their bytes.

ghost use Rattle.std.specs.Prelude.{◌≡◌, ◌<◌, [], ℕ, List, length, map, IfOk};
ghost use Rattle.std.specs.List.{list_any};
ghost use Rattle.std.specs.Str.{bytes_eq};
ghost use Rattle.cw_syntax.specs.Names.{number_in};
ghost use Rattle.cw_resolve.specs.Listed.{HaveNumbers, found, text_at};

use crate::names::is_same;
use indexmap::IndexMap;
use std::alloc::{AllocError, Global};
use std::marker::Model;

/// Among up to so many names one is found sooner by a walk.
const FEW: usize = 6;

/// Names in an order, each with its number there.
///
/// Contracts see the list of their bytes.
#[derive(Drop)]
pub(crate) struct NameList<'s> {
    names: Vec<&'s [u8]>,
    /// Of names that are the same, the number of the first; none where there are few.
    numbers: IndexMap<&'s [u8], usize>,
}

impl<'s> Model for NameList<'s> {
    ghost use Rattle.std.specs.Prelude.{ℕ, List, length, map, ◌<◌};
    ghost use Rattle.cw_resolve.specs.Listed.{HaveNumbers, text_at};

    ghost Value = { List (List ℕ) };

    ghost view = { λ l. map text_at l.names.items };

    // More than `FEW`.
    ghost invariant = { λ l. 6 < length l.names.items → HaveNumbers l.numbers.entries l.names.items };
}

impl<'s> NameList<'s> {
    /// These names.
    pub(crate) fn of(alloc: Global, names: Vec<&'s [u8]>) -> Result<NameList<'s>, AllocError>
        ensures names { IfOk result (λ list. list ≡ map text_at names.entry.items) }
    {
        let numbers = numbers_of(alloc, &names)?;
        Ok(NameList { names, numbers })
    }

    /// How many names there are.
    pub(crate) fn count(&self) -> usize
        ensures count { result ≡ length self.now }
    {
        self.names.len()
    }

    /// The number of the first name with these bytes.
    pub(crate) fn number(&self, name: &[u8]) -> Option<usize>
        ensures number { result ≡ number_in self.now name.now }
    {
        if self.names.len() <= FEW {
            index_of(&self.names, name)
        } else {
            find(&self.numbers, name)
        }
    }

    /// Whether a name has these bytes.
    pub(crate) fn has(&self, name: &[u8]) -> bool
        ensures has { result ≡ list_any (bytes_eq name.now) self.now }
    {
        self.number(name).is_some()
    }
}

/// The index of a name in a list, by a walk.
fn index_of(names: &[&[u8]], name: &[u8]) -> Option<usize>
    ensures { result ≡ number_in (map text_at names.now) name.now }
{
    for (i, other) in names.iter().enumerate() {
        if is_same(name, *other) {
            return Some(i);
        }
    }
    None
}

/// The number of a name in a map.
fn find(numbers: &IndexMap<&[u8], usize>, name: &[u8]) -> Option<usize>
    ensures { result ≡ found name.now numbers.now.entries }
{
    numbers.get(name).copied()
}

/// The numbers of these names. Who asks for few names walks over them, and these have none. The later names are put first, so that of names
/// that are the same the first has the last word, and none is looked for before it is put.
fn numbers_of<'s>(
    alloc: Global,
    names: &[&'s [u8]],
) -> Result<IndexMap<&'s [u8], usize>, AllocError>
    ensures { IfOk result (λ numbers. FEW < length names.now → HaveNumbers numbers.entries names.now) }
{
    if names.len() <= FEW {
        return Ok(IndexMap::new(alloc));
    }
    let mut numbers = IndexMap::with_capacity(alloc, names.len())?;
    put_all(&mut numbers, names)?;
    Ok(numbers)
}

/// Puts names into a map without any, each with its index in this list.
fn put_all<'s>(
    numbers: &mut IndexMap<&'s [u8], usize>,
    names: &[&'s [u8]],
) -> Result<(), AllocError>
    requires { numbers.old.entries ≡ [] }
    ensures { IfOk result (λ _. HaveNumbers numbers.new.entries names.now) }
{
    let mut at = names.len();
    while at > 0 {
        at -= 1;
        numbers.insert(names[at], at)?;
    }
    Ok(())
}
