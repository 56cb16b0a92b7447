//! Texts of which it is soon told whether one is among them.

ghost use Rattle.std.specs.Prelude.{◌≡◌, [], ◌∷◌, ◌++◌, OnOk};
ghost use Rattle.std.specs.List.{list_any};
ghost use Rattle.std.specs.Str.{bytes_eq};

use std::alloc::{AllocError, Global};
use std::collections::HashSet;
use std::marker::Model;

/// Texts. Contracts see the list of them.
#[derive(Drop)]
pub(crate) struct Texts<'s> {
    list: Vec<&'s [u8]>,
    /// The same, each once.
    set: HashSet<&'s [u8]>,
}

impl<'s> Model for Texts<'s> {
    ghost use Rattle.std.specs.Prelude.{ℕ, List, map};
    ghost use Rattle.cw_slots.specs.Texts.{text_at};
    ghost use Rattle.cw_starts.specs.Alike.{AreAlike};

    ghost Value = { List (List ℕ) };

    ghost view = { λ t. map text_at t.list.items };

    ghost invariant = { λ t. AreAlike (map text_at t.set.keys) (map text_at t.list.items) };
}

impl<'s> Texts<'s> {
    /// No texts.
    pub(crate) fn new(alloc: Global) -> Texts<'s>
        ensures none { result ≡ [] }
    {
        Texts {
            list: Vec::new(alloc),
            set: HashSet::new(alloc),
        }
    }

    /// Whether a text is among them.
    pub(crate) fn contains(&self, text: &[u8]) -> bool
        ensures among { result ≡ list_any (bytes_eq text.now) self.now }
    {
        self.set.contains(text)
    }

    /// Puts a text behind them. The one error is want of memory, after which nothing is known of them.
    pub(crate) fn push(&mut self, text: &'s [u8]) -> Result<(), AllocError>
        ensures pushed { OnOk result (self.new ≡ self.old ++ text.now ∷ []) }
    {
        self.list.reserve(1)?;
        self.set.insert(text)?;
        self.list.push(text)?;
        Ok(())
    }
}
