//! Sets of states read as format 2 spells them.

ghost use Rattle.std.specs.Prelude.{◌≡◌, ◌≢◌, ℕ, ◌+◌, ◌<◌, ◌≤◌, ◌^◌, ◌↔◌, ◌⊎◌, ◌++◌, ◌∷◌, List, length, take, drop, codes, slice_index_or, IsTrue, IsNone, IfSome, Some};
ghost use Rattle.std.specs.Fmt.{decimal};
ghost use Rattle.std.specs.List.{prefix_len, take_while};
ghost use Rattle.cw_core.specs.Ranges.{is_spelling_byte, ranges, run_text, set_spelling, IsSpellingAt, Run};
ghost use Rattle.cw_core.specs.StateSet.{has, IsBelow};

use crate::decimal::{read_dec, text_from};
use crate::hexadecimal::{has_prefix, read_hex};
use crate::ids::StateId;
use crate::line::Line;
use crate::state_set::StateSet;

/// The set that is spelled at a place as format 2 does, by the longest run of digits, letters, `+` and `-`,
/// and the index after the spelling. There is none where that run is no such spelling, as where its ranges
/// aren't the maximal runs, ascending, or aren't shorter than the hexadecimal.
pub fn read_ranges(text: &[u8], at: usize) -> Option<(StateSet, usize)>
    requires in_range { at ≤ length text.now }
    ensures some { IfSome result (λ (set, end).
        IsSpellingAt text.now at set × (end ≡ at + length (set_spelling set))) }
    ensures found { (set : ℕ) → IsSpellingAt text.now at set
        → result ≡ Some (set, at + length (set_spelling set)) }
    ensures within { IfSome result (λ (set, end). (at < end) × (end ≤ length text.now)) }
    ensures none { IsNone result ↔ ((set : ℕ) → ¬ (IsSpellingAt text.now at set)) }
{
    let spelling = leading_spelling(text_from(text, at));
    let set = set_of(spelling)?;
    set.fact_members_are_below_1024();
    if !is_spelled(&set, spelling) {
        return None;
    }
    Some((set, at + spelling.len()))
}

/// The longest run of digits, letters, `+` and `-` at the front.
fn leading_spelling(text: &[u8]) -> &[u8]
    ensures run { result.now ≡ take_while is_spelling_byte text.now }
    ensures within { length result.now ≤ length text.now }
{
    &text[..spelling_length(text)]
}

/// The length of the longest run of digits, letters, `+` and `-` at the front.
fn spelling_length(text: &[u8]) -> usize
    ensures count { result ≡ prefix_len is_spelling_byte text.now }
    ensures within { result ≤ length text.now }
{
    text.iter().take_while(|b| is_of_spelling(**b)).count()
}

/// Whether the byte is a digit, a letter, `+` or `-`.
fn is_of_spelling(byte: u8) -> bool
    ensures spelling { result ≡ is_spelling_byte byte }
{
    byte.is_ascii_alphanumeric() || byte == b'+' || byte == b'-'
}

/// Whether a text is how the set is spelled.
fn is_spelled(set: &StateSet, spelling: &[u8]) -> bool
    ensures spelled { IsTrue result ↔ (set_spelling set.now ≡ spelling.now) }
{
    let mut line = Line::new();
    line.put_ranges(set);
    line.bytes() == spelling
}

/// The set that a text spells, if it spells one; any set or none where it doesn't.
fn set_of(spelling: &[u8]) -> Option<StateSet>
    ensures found { (set : ℕ) → IsBelow 1024 set → set_spelling set ≡ spelling.now
        → result ≡ Some set }
{
    if has_prefix(spelling) {
        let (set, _) = read_hex(spelling, 0)?;
        Some(set)
    } else {
        set_of_runs(spelling)
    }
}

/// The set whose ranges a text is, if there is one; any set or none where there isn't.
fn set_of_runs(text: &[u8]) -> Option<StateSet>
    ensures found { (set : ℕ) → IsBelow 1024 set → set ≢ 0 → ranges set ≡ text.now
        → result ≡ Some set }
{
    let mut set = StateSet::empty();
    let mut at = 0;
    'runs: loop {
        let (least, greatest, end) = run_at(text, at)?;
        insert_run(&mut set, least, greatest);
        if end == text.len() {
            return Some(set);
        }
        if text[end] != b'+' {
            return None;
        }
        at = end + 1;
    }
}

/// The run that stands at a place where `+` or nothing is behind it, and the index after it. What else it
/// answers has its numbers in order and below 1,024.
fn run_at(text: &[u8], at: usize) -> Option<(u16, u16, usize)>
    requires in_range { at ≤ length text.now }
    ensures found { (run : Run) (rest : List ℕ) → run.least ≤ run.greatest → run.greatest < 1024
        → drop at text.now ≡ run_text run ++ rest → slice_index_or rest 0 43 ≡ 43
        → result ≡ Some (run.least, run.greatest, at + length (run_text run)) }
    ensures within { IfSome result (λ (least, greatest, end).
        (least ≤ greatest) × (greatest < 1024) × (at < end) × (end ≤ length text.now)) }
{
    let (least, after) = read_dec(text, at)?;
    let (greatest, end) = greatest_at(text, least, after)?;
    if least > greatest || greatest >= 1024 {
        return None;
    }
    Some((least as u16, greatest as u16, end))
}

/// The number after `-` at a place, and otherwise the least number of the run, with the index after it.
fn greatest_at(text: &[u8], least: u64, at: usize) -> Option<(u64, usize)>
    requires in_range { at ≤ length text.now }
    ensures lone { slice_index_or (drop at text.now) 0 43 ≡ 43 → result ≡ Some (least, at) }
    ensures long { (number : ℕ) (rest : List ℕ) → number < 1024
        → drop at text.now ≡ 45 ∷ (decimal number ++ rest) → slice_index_or rest 0 43 ≡ 43
        → result ≡ Some (number, at + 1 + length (decimal number)) }
    ensures within { IfSome result (λ (greatest, end). (at ≤ end) × (end ≤ length text.now)) }
{
    if at < text.len() && text[at] == b'-' {
        read_dec(text, at + 1)
    } else {
        Some((least, at))
    }
}

/// Puts every number of a run in.
fn insert_run(set: &mut StateSet, least: u16, greatest: u16)
    requires up { least ≤ greatest }
    requires below { greatest < 1024 }
    ensures members { (s : ℕ) → IsTrue (has set.new s)
        ↔ (((least ≤ s) × (s ≤ greatest)) ⊎ IsTrue (has set.old s)) }
{
    for number in least..greatest + 1 {
        set.insert(StateId(number));
    }
}
