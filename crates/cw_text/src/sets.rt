//! Sets in a text of a format.

ghost use Rattle.std.specs.Prelude.{◌≡◌, ◌++◌};
ghost use Rattle.cw_io.specs.Written.{Follows};
ghost use Rattle.cw_text.specs.Lines.{set_text};

use cw_core::StateSet;
use cw_io::{Sink, Writer};

/// Appends a set as a text of this format spells it.
#[tactic(auto, unfolding(crate::specs::Lines::set_text))]
pub fn put_set<S: Sink>(set: &StateSet, format: u8, writer: &mut Writer<S>, out: &mut S)
    requires follows { Follows S.taken S.faults S.refused writer.old out.old }
    ensures text { writer.new.text ≡ writer.old.text ++ set_text format set.now }
    ensures begun { writer.new.begun ≡ writer.old.begun }
    ensures follows { Follows S.taken S.faults S.refused writer.new out.new }
{
    if format == 2 {
        writer.put_ranges(set, out);
    } else {
        writer.put_mask(set, out);
    }
}
