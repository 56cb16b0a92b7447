//! What a run goes by: a source, its names, its statements by place.

ghost use Rattle.std.specs.Prelude.{◌≡◌, map, option_map, slice_get, unwrap_or};
ghost use Rattle.cw_value.specs.Expressions.{Named};
ghost use Rattle.cw_value.specs.Machines.{call_from, form_in, function, scope_in, whole_from};
ghost use Rattle.cw_slots.specs.Shown.{scope_of};
ghost use Rattle.cw_slots.specs.Texts.{statement_at};
ghost use Rattle.cw_eval.specs.Passings.{deed_in};
ghost use Rattle.cw_starts.specs.Sources.{source_in};
ghost use Rattle.cw_machine.specs.Knowing.{IsKnown, deed_for, names_for, said_in, standing_for};

use crate::said::Said;
use crate::tasks::{Task, deed_of};
use cw_deeds::{Row, call_start, statement_start};
use cw_eval::Deed;
use cw_slots::{Names, NamesAt, Scope};
use cw_starts::Source;

/// What a run goes by: the source, the names of its file and of its functions, the statements of each function, what is to be done at
/// each point, and where the names are kept that stand in each function.
#[derive(Clone, Copy, Drop)]
pub struct Known<'a, 's> {
    pub source: Source<'s>,
    pub shared: &'a Names<'s>,
    pub none: &'a Names<'s>,
    pub own: &'a [Names<'s>],
    pub said: &'a [Said<'s>],
    pub tasks: &'a [Task<'s>],
    pub standing: &'a [NamesAt<'s>],
    pub nowhere: &'a NamesAt<'s>,
}

impl<'a, 's> Known<'a, 's> {
    /// The names of a function; none where there is none with this number.
    pub fn names(&self, number: usize) -> &'a Names<'s>
        requires known { IsKnown self.now }
        ensures names { result.now ≡ names_for (source_in self.now.source) number }
    {
        if number >= self.own.len() {
            return self.none;
        }
        &self.own[number]
    }

    /// Where the names are kept that stand in a function; none is known where there is none with this number.
    pub fn names_at(&self, number: usize) -> &'a NamesAt<'s>
        requires known { IsKnown self.now }
        ensures standing { result.now ≡ standing_for (source_in self.now.source) number }
    {
        if number >= self.standing.len() {
            return self.nowhere;
        }
        &self.standing[number]
    }

    /// The scope of a function.
    pub fn scope(&self, number: usize) -> Scope<'a, 's>
        requires known { IsKnown self.now }
        ensures scope { scope_of result ≡ scope_in (source_in self.now.source) (function (source_in self.now.source) number) }
    {
        Scope {
            alloc: self.source.alloc,
            source: self.source.bytes,
            own: self.names(number),
            shared: self.shared,
            given: self.source.given,
            standing: self.names_at(number),
        }
    }

    /// What passing a row does in a function.
    pub fn deed(&self, number: usize, row: Row) -> Deed<'s>
        requires known { IsKnown self.now }
        ensures deed { deed_in result ≡ deed_for (function (source_in self.now.source) number) row }
    {
        deed_of(self.said, number, row)
    }

    /// The start of the call whose statement stands at this place in a function.
    pub fn call_start(&self, number: usize, at: u32) -> u32
        requires known { IsKnown self.now }
        ensures start { result ≡ call_from at (form_in (function (source_in self.now.source) number) at) }
    {
        if number >= self.said.len() {
            return at;
        }
        call_start(self.said[number].behind(at), at)
    }

    /// The start of the expression whose statement stands at this place in a function.
    pub fn whole_start(&self, number: usize, at: u32) -> u32
        requires known { IsKnown self.now }
        ensures start { result ≡ whole_from at (form_in (function (source_in self.now.source) number) at) }
    {
        if number >= self.said.len() {
            return at;
        }
        statement_start(self.said[number].behind(at), at)
    }
}
