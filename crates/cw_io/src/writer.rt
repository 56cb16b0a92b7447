//! A text that goes to a sink piece by piece.
ghost use Rattle.std.specs.Prelude.{◌≡◌, ℕ, ◌+◌, ◌<◌, ◌≤◌, ◌++◌, [], List, Option, IsTrue, false, length};
ghost use Rattle.std.specs.Option.{is_some};
ghost use Rattle.std.specs.Fmt.{decimal};
ghost use Rattle.cw_core.specs.Numerals.{hexadecimal};
ghost use Rattle.cw_core.specs.Ranges.{set_spelling};
ghost use Rattle.cw_io.specs.Causes.{HasCause};
ghost use Rattle.cw_io.specs.Pieces.{Puts};
ghost use Rattle.cw_io.specs.declared.fault.SinkFault.TheVariants as SinkFault;
ghost use Rattle.cw_io.specs.Written.{Follows};

use crate::said::Said;
use crate::{Sink, SinkFault};
use cw_core::{Line, StateSet, mask_length};
use itoa::Buffer;
use std::marker::Model;
use std::snapshot::Snapshot;

/// Puts a text into a sink, in pieces of 1,024 bytes and a last one that is shorter. No call takes memory but
/// the sink's own.
///
/// A fault of the sink stays in the writer: nothing is put after it, and `finish` answers it. `text` is what was
/// to be put since `begin`, whether or not a fault came; it is there for clauses alone, as `begun` is, which is
/// the sink as it was at `begin`.
#[derive(Drop)]
pub struct Writer<S: Sink> {
    line: Line,
    fault: Option<SinkFault>,
    said: Said,
    begun: Snapshot<S>,
}

impl<S: Sink> Model for Writer<S> {
    ghost use Rattle.cw_io.specs.Written.{Written};

    ghost Value = { Written S };

    ghost view = { λ w. record {
      text = w.said.text;
      begun = w.begun.value;
      waiting = w.line;
      fault = w.fault;
    } };
}

impl<S: Sink> Writer<S> {
    /// A writer of the empty text, for this sink.
    pub fn begin(out: &S) -> Writer<S>
        ensures text { result.text ≡ [] }
        ensures begun { result.begun ≡ out.now }
        ensures follows { Follows S.taken S.faults S.refused result out.now }
    {
        Writer {
            line: Line::new(),
            fault: None,
            said: Said::nothing(),
            begun: Snapshot::of(out),
        }
    }

    /// Appends a piece to the text. What is full of it is put.
    #[inline]
    pub fn put(&mut self, piece: &[u8], out: &mut S)
        requires follows { Follows S.taken S.faults S.refused self.old out.old }
        ensures text { self.new.text ≡ self.old.text ++ piece.now }
        ensures begun { self.new.begun ≡ self.old.begun }
        ensures follows { Follows S.taken S.faults S.refused self.new out.new }
    {
        if !self.has_room_for(piece.len()) {
            self.put_in_fronts(piece, out);
            return;
        }
        self.said.more(piece);
        self.line.put_text(piece);
    }

    /// Appends a piece, as much at a time as there is room for.
    #[cold]
    #[inline(never)]
    fn put_in_fronts(&mut self, piece: &[u8], out: &mut S)
        requires follows { Follows S.taken S.faults S.refused self.old out.old }
        ensures text { self.new.text ≡ self.old.text ++ piece.now }
        ensures begun { self.new.begun ≡ self.old.begun }
        ensures follows { Follows S.taken S.faults S.refused self.new out.new }
    {
        let mut at: usize = 0;
        'fronts: while at < piece.len() {
            let end = piece.len().min(at + self.line.room());
            self.fill(&piece[at..end], out);
            at = end;
        }
    }

    /// Appends the decimal of a number, without leading zeros.
    #[inline]
    pub fn put_number(&mut self, n: u64, out: &mut S)
        requires follows { Follows S.taken S.faults S.refused self.old out.old }
        ensures text { self.new.text ≡ self.old.text ++ decimal n }
        ensures begun { self.new.begun ≡ self.old.begun }
        ensures follows { Follows S.taken S.faults S.refused self.new out.new }
    {
        if !self.has_room_for(20) {
            self.put_number_apart(n, out);
            return;
        }
        let from = self.line.bytes().len();
        self.line.put_number(n);
        self.said.more(&self.line.bytes()[from..]);
    }

    /// Appends the same where the line may be too short for it.
    #[cold]
    #[inline(never)]
    fn put_number_apart(&mut self, n: u64, out: &mut S)
        requires follows { Follows S.taken S.faults S.refused self.old out.old }
        ensures text { self.new.text ≡ self.old.text ++ decimal n }
        ensures begun { self.new.begun ≡ self.old.begun }
        ensures follows { Follows S.taken S.faults S.refused self.new out.new }
    {
        let mut digits = Buffer::new();
        self.put(digits.format(n).as_bytes(), out);
    }

    /// Appends `0x` and the shortest lower-case hexadecimal of a set's number.
    pub fn put_mask(&mut self, set: &StateSet, out: &mut S)
        requires follows { Follows S.taken S.faults S.refused self.old out.old }
        ensures text { self.new.text ≡ self.old.text ++ hexadecimal set.now }
        ensures begun { self.new.begun ≡ self.old.begun }
        ensures follows { Follows S.taken S.faults S.refused self.new out.new }
    {
        if !self.has_room_for(258) {
            self.put_mask_apart(set, out);
            return;
        }
        set.fact_members_are_below_1024();
        let from = self.line.bytes().len();
        self.line.put_mask(set);
        self.said.more(&self.line.bytes()[from..]);
    }

    /// Whether no fault came, and there is more room than so many bytes need.
    #[inline(always)]
    fn has_room_for(&self, count: usize) -> bool
        ensures room { IsTrue result → length self.now.waiting + count < 1024 }
        ensures none { IsTrue result → is_some self.now.fault ≡ false }
    {
        self.fault.is_none() && count < self.line.room()
    }

    /// Appends the same where the line may be too short for it.
    #[cold]
    #[inline(never)]
    fn put_mask_apart(&mut self, set: &StateSet, out: &mut S)
        requires follows { Follows S.taken S.faults S.refused self.old out.old }
        ensures text { self.new.text ≡ self.old.text ++ hexadecimal set.now }
        ensures begun { self.new.begun ≡ self.old.begun }
        ensures follows { Follows S.taken S.faults S.refused self.new out.new }
    {
        if self.has_room_for(mask_length(set)) {
            let from = self.line.bytes().len();
            self.line.put_fitting_mask(set);
            self.said.more(&self.line.bytes()[from..]);
            return;
        }
        let mut spelling = Line::new();
        spelling.put_mask(set);
        self.put(spelling.bytes(), out);
    }

    /// Appends a set as format 2 spells it: as ranges, where that text is shorter than the hexadecimal, and as
    /// hexadecimal otherwise.
    pub fn put_ranges(&mut self, set: &StateSet, out: &mut S)
        requires follows { Follows S.taken S.faults S.refused self.old out.old }
        ensures text { self.new.text ≡ self.old.text ++ set_spelling set.now }
        ensures begun { self.new.begun ≡ self.old.begun }
        ensures follows { Follows S.taken S.faults S.refused self.new out.new }
    {
        if !self.has_room_for(258) {
            self.put_ranges_apart(set, out);
            return;
        }
        set.fact_members_are_below_1024();
        let from = self.line.bytes().len();
        self.line.put_ranges(set);
        self.said.more(&self.line.bytes()[from..]);
    }

    /// Appends the same where the line may be too short for it.
    #[cold]
    #[inline(never)]
    fn put_ranges_apart(&mut self, set: &StateSet, out: &mut S)
        requires follows { Follows S.taken S.faults S.refused self.old out.old }
        ensures text { self.new.text ≡ self.old.text ++ set_spelling set.now }
        ensures begun { self.new.begun ≡ self.old.begun }
        ensures follows { Follows S.taken S.faults S.refused self.new out.new }
    {
        let mut spelling = Line::new();
        spelling.put_ranges(set);
        self.put(spelling.bytes(), out);
    }

    /// Appends a piece for which there is room.
    fn fill(&mut self, piece: &[u8], out: &mut S)
        requires room { length self.old.waiting + length piece.now ≤ 1024 }
        requires follows { Follows S.taken S.faults S.refused self.old out.old }
        ensures text { self.new.text ≡ self.old.text ++ piece.now }
        ensures begun { self.new.begun ≡ self.old.begun }
        ensures follows { Follows S.taken S.faults S.refused self.new out.new }
    {
        self.said.more(piece);
        if self.fault.is_some() {
            return;
        }
        self.line.put_text(piece);
        if self.line.room() == 0 {
            self.fault = out.put(self.line.bytes()).err();
            self.line.clear();
        }
    }

    /// Puts what waits, maybe nothing, where no fault came, and answers the fault.
    pub fn finish(self, out: &mut S) -> Result<(), SinkFault>
        requires follows { Follows S.taken S.faults S.refused self out.old }
        ensures bytes { Puts (S.taken self.begun) (S.taken out.new) self.text result }
        ensures failed { HasCause SinkFault.Failed (S.faults self.begun) (S.faults out.new) result }
        ensures refused { HasCause SinkFault.NoMemory (S.refused self.begun) (S.refused out.new) result }
    {
        match self.fault {
            Some(fault) => Err(fault),
            None => out.put(self.line.bytes()),
        }
    }
}
