//! A text that only clauses read.
ghost use Rattle.std.specs.Prelude.{◌≡◌, ℕ, List, [], ◌++◌};
ghost use Rattle.std.specs.Borrow.{ftrue};

use std::marker::Model;

/// What was to be put so far. It has no bytes, and its calls do nothing when they run.
#[derive(Drop)]
pub(crate) struct Said {
    pub ghost text: { List ℕ },
}

impl Model for Said {
    ghost also_owns = { λ _. ftrue };
}

impl Said {
    /// The empty text.
    pub(crate) fn nothing() -> Said
        ensures empty { result.text ≡ [] }
    {
        Said {}
    }

    /// The text goes on with a piece.
    pub(crate) fn more(&mut self, _piece: &[u8])
        ensures text { self.new.text ≡ self.old.text ++ _piece.now }
    {}
}
