//! Sets of states as ranges of numbers.

ghost use Rattle.std.specs.Prelude.{◌≡◌, ℕ, ◌+◌, ◌<◌, ◌≤◌, ◌⊎◌, ◌↔◌, ◌||◌, ◌&&◌, ◌==◌, ◌++◌, [], List, true, false, not, nat_lt, if◌then◌else◌, length, drop, codes, IsTrue, IsNone, IfSome, OnOk, OnErr, Some};
ghost use Rattle.std.specs.Fmt.{decimal};
ghost use Rattle.std.specs.List.{prefix_len, take_while};
ghost use Rattle.cw_core.specs.Numerals.{hexadecimal};
ghost use Rattle.cw_core.specs.Ranges.{is_spelling_byte, ranges, run_text, set_spelling, IsSpellingAt, Run};
ghost use Rattle.cw_core.specs.StateSet.{has, IsBelow};

use crate::ids::StateId;
use crate::line::Line;
use crate::memory::NoMemory;
use crate::state_set::StateSet;

/// How many bytes the hexadecimal of a set of numbers below 1,024 has at the most: `0x` and 256 digits.
const LONGEST_MASK: usize = 258;

/// Appends a set as format 2 spells it: as ranges, where that text is shorter than the hexadecimal, and as
/// hexadecimal otherwise. Where the text can't grow, it is as before.
pub fn put_ranges(set: &StateSet, text: &mut Vec<u8>) -> Result<(), NoMemory>
    ensures ok { OnOk result (text.new.items ≡ text.old.items ++ set_spelling set.now) }
    ensures err { OnErr result (text.new.items ≡ text.old.items) }
{
    let mut spelling = Line::new();
    spelling.put_ranges(set);
    text.extend_from_slice(spelling.bytes())?;
    Ok(())
}

impl Line {
    /// Appends a set as format 2 spells it, as `put_ranges` of this crate does.
    pub fn put_ranges(&mut self, set: &StateSet)
        requires room { length self.old + 258 ≤ 1024 }
        ensures text { self.new ≡ self.old ++ set_spelling set.now }
    {
        let mut runs = Line::new();
        runs.put_runs(set);
        set.fact_members_are_below_1024();
        if is_shorter(set, runs.bytes()) {
            self.put_text(runs.bytes());
        } else {
            self.put_mask(set);
        }
    }

    /// Puts the maximal runs of a set into an empty text, or the first of them, as many bytes as the longest hexadecimal of a set or more.
    fn put_runs(&mut self, set: &StateSet)
        requires empty { self.old ≡ [] }
        ensures text { (self.new ≡ ranges set.now)
            ⊎ ((258 ≤ length self.new) × (length self.new ≤ length (ranges set.now))) }
    {
        set.fact_members_are_below_1024();
        let bound = set.bit_count() as u16;
        let mut at: u16 = 0;
        'numbers: while at < bound {
            if self.bytes().len() >= LONGEST_MASK {
                return;
            }
            if set.contains(StateId(at)) {
                let greatest = greatest_of_run(set, at);
                self.put_run(at, greatest);
                at = greatest + 2;
            } else {
                at += 1;
            }
        }
    }

    /// Appends a run, after `+` where something stands there.
    fn put_run(&mut self, least: u16, greatest: u16)
        requires room { length self.old + 46 ≤ 1024 }
        requires up { least ≤ greatest }
        requires below { greatest < 1024 }
        ensures text { self.new
            ≡ self.old ++ ((if length self.old == 0 then [] else codes "+")
            ++ run_text (record { least = least; greatest = greatest })) }
    {
        self.put_plus();
        self.put_number(u64::from(least));
        if least < greatest {
            self.put_text(b"-");
            self.put_number(u64::from(greatest));
        }
    }

    /// Appends `+` where something stands there.
    fn put_plus(&mut self)
        requires room { length self.old < 1024 }
        ensures text { self.new ≡ self.old ++ (if length self.old == 0 then [] else codes "+") }
    {
        if self.room() < 1024 {
            self.put_text(b"+");
        }
    }
}

/// Whether a set has a member and its ranges are shorter than its hexadecimal.
fn is_shorter(set: &StateSet, runs: &[u8]) -> bool
    ensures shorter { result ≡ (not (set.now == 0) && nat_lt (length runs.now) (length (hexadecimal set.now))) }
{
    *set != StateSet::empty() && runs.len() < mask_length(set)
}

/// How long the hexadecimal of a set is: `0x` and a byte for each digit.
pub fn mask_length(set: &StateSet) -> usize
    ensures length { result ≡ length (hexadecimal set.now) }
{
    2 + set.digit_count()
}

/// The greatest number of the maximal run of a set that a number is in, above that number.
fn greatest_of_run(set: &StateSet, least: u16) -> u16
    requires in_range { least < 1024 }
    requires member { has set.now least ≡ true }
    ensures within { least ≤ result × result < 1024 }
    ensures members { (s : ℕ) → least ≤ s → s ≤ result → has set.now s ≡ true }
    ensures end { has set.now (result + 1) ≡ false }
{
    set.fact_members_are_below_1024();
    let mut greatest = least;
    'more: while greatest < 1023 && set.contains(StateId(greatest + 1)) {
        greatest += 1;
    }
    greatest
}
