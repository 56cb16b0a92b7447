//! What may follow what in an expression, found in one pass (Glushkov 1961).

ghost use Rattle.std.specs.Prelude.{false, ◌≡◌, ◌+◌, ◌<◌, ◌≤◌, ◌^◌, ◌&&◌, ◌||◌, ℕ, cond, length, slice_index, IfSome, IfNone};
ghost use Rattle.std.specs.Int.RustNames.{bit_or};
ghost use Rattle.cw_rights.specs.Trees.{tree_of, seq_of, alt_of, count};
ghost use Rattle.cw_dfa.specs.Sets.{has};
ghost use Rattle.cw_dfa.specs.Tables.{linked, Gains, unite, first_met};
ghost use Rattle.cw_dfa.specs.Parts.{IsPart, IsTables};
ghost use Rattle.cw_dfa.specs.Positions.{bad_of};
ghost use Rattle.cw_dfa.specs.Verdicts.{rules_of};

use cw_core::limits::{RULE_POSITIONS, RULES};
use cw_rights::{Regex, Rule};

/// Of an expression whose literals are numbered: the number after its last, whether it matches the empty word, and
/// the literals that may stand first and last.
#[derive(Clone, Copy, Drop)]
pub struct Part {
    pub next: u32,
    pub skips: bool,
    pub first: u64,
    pub last: u64,
}

/// Whether a set has a position.
pub fn has(set: u64, position: u32) -> bool
    requires { position < 64 }
    ensures { result ≡ has set position }
{
    set >> position & 1 == 1
}

/// The set of one position, below 64.
#[tactic(auto, using(crate::proofs::Sums::one_shl))]
pub fn single(position: u32) -> u64
    requires { position < 64 }
    ensures { result ≡ 2 ^ position }
{
    1 << position
}

/// The set where it is wanted, else the empty set.
fn only_if(wanted: bool, set: u64) -> u64
    ensures { result ≡ cond wanted set 0 }
{
    if wanted { set } else { 0 }
}

/// Lets each position of `to` follow each position of `from`.
fn link(follow: &mut [u64], from: u64, to: u64)
    requires { length follow.old ≡ RULE_POSITIONS }
    ensures { (p : ℕ) → p < RULE_POSITIONS →
        slice_index follow.new p ≡ bit_or (slice_index follow.old p) (linked from to p) }
{
    for p in 0..RULE_POSITIONS {
        follow[p] |= only_if(has(from, p as u32), to);
    }
}

/// A literal at position `k`: it is the first, the last, and not skipped.
fn literal(k: u32) -> Part
    requires { k < RULE_POSITIONS }
    ensures next { result.next ≡ k + 1 }
    ensures skips { result.skips ≡ false }
    ensures first { result.first ≡ 2 ^ k }
    ensures last { result.last ≡ 2 ^ k }
{
    Part {
        next: k + 1,
        skips: false,
        first: single(k),
        last: single(k),
    }
}

/// One part and then another: what may stand first and last in both together.
fn sequence(p: Part, q: Part) -> Part
    ensures next { result.next ≡ q.next }
    ensures skips { result.skips ≡ (p.skips && q.skips) }
    ensures first { result.first ≡ bit_or p.first (cond p.skips q.first 0) }
    ensures last { result.last ≡ bit_or (cond q.skips p.last 0) q.last }
{
    Part {
        next: q.next,
        skips: p.skips && q.skips,
        first: p.first | only_if(p.skips, q.first),
        last: only_if(q.skips, p.last) | q.last,
    }
}

/// One part or another.
fn alternative(p: Part, q: Part) -> Part
    ensures next { result.next ≡ q.next }
    ensures skips { result.skips ≡ (p.skips || q.skips) }
    ensures first { result.first ≡ bit_or p.first q.first }
    ensures last { result.last ≡ bit_or p.last q.last }
{
    Part {
        next: q.next,
        skips: p.skips || q.skips,
        first: p.first | q.first,
        last: p.last | q.last,
    }
}

/// Reads off an expression whose first literal has the number k, and adds to the row of each literal those that may
/// follow it there.
#[cycle(part)]
#[tactic(auto, using(cw_rights::proofs::Rows::cat_of, cw_rights::proofs::Rows::or_of))]
pub fn add_part(r: &Regex, k: u32, follow: &mut [u64]) -> Part
    requires room { k + count (tree_of r.now) ≤ RULE_POSITIONS }
    requires rows { length follow.old ≡ RULE_POSITIONS }
    ensures is { IsPart (tree_of r.now) k result }
    ensures gains { Gains (tree_of r.now) k follow.old follow.new }
{
    match r {
        Regex::Lit(_) => literal(k),
        Regex::Cat(parts) => sequence_of(parts, k, follow),
        Regex::Or(parts) => alternative_of(parts, k, follow),
        Regex::Star(body) => {
            let p = add_part(body, k, follow);
            link(follow, p.last, p.first);
            Part { skips: true, ..p }
        }
        Regex::Plus(body) => {
            let p = add_part(body, k, follow);
            link(follow, p.last, p.first);
            p
        }
        Regex::Maybe(body) => {
            let p = add_part(body, k, follow);
            Part { skips: true, ..p }
        }
    }
}

/// Parts one after the other, the first literal at position `k`; what may follow what is added to `follow`.
#[cycle(part)]
fn sequence_of(parts: &[Regex], k: u32, follow: &mut [u64]) -> Part
    requires room { k + count (seq_of parts.now) ≤ RULE_POSITIONS }
    requires rows { length follow.old ≡ RULE_POSITIONS }
    ensures is { IsPart (seq_of parts.now) k result }
    ensures gains { Gains (seq_of parts.now) k follow.old follow.new }
{
    match parts {
        [] => Part {
            next: k,
            skips: true,
            first: 0,
            last: 0,
        },
        [first, rest @ ..] => {
            let p = add_part(first, k, follow);
            let q = sequence_of(rest, p.next, follow);
            link(follow, p.last, q.first);
            sequence(p, q)
        }
    }
}

/// Parts of which one is taken, the first literal at position `k`; what may follow what is added to `follow`.
#[cycle(part)]
fn alternative_of(parts: &[Regex], k: u32, follow: &mut [u64]) -> Part
    requires room { k + count (alt_of parts.now) ≤ RULE_POSITIONS }
    requires rows { length follow.old ≡ RULE_POSITIONS }
    ensures is { IsPart (alt_of parts.now) k result }
    ensures gains { Gains (alt_of parts.now) k follow.old follow.new }
{
    match parts {
        [] => Part {
            next: k,
            skips: false,
            first: 0,
            last: 0,
        },
        [first, rest @ ..] => {
            let p = add_part(first, k, follow);
            let q = alternative_of(rest, p.next, follow);
            alternative(p, q)
        }
    }
}

/// Of all rules, whose literals are numbered from 1, rule by rule and from left to right: the literals that may read
/// a first letter, for each literal those that may read the letter after it, and for each rule its last ones.
#[derive(Drop)]
pub struct Tables {
    pub first: u64,
    pub follow: [u64; RULE_POSITIONS],
    pub last: [u64; RULES],
}

/// Makes the tables.
pub fn make_tables(rules: &[Rule]) -> Tables
    requires room { count (bad_of (rules_of rules.now)) < RULE_POSITIONS }
    requires few { length rules.now ≤ RULES }
    ensures { IsTables (rules_of rules.now) result }
{
    let mut follow = [0; RULE_POSITIONS];
    let mut last = [0; RULES];
    let mut first = 0;
    let mut at = 1;
    for (i, rule) in rules.iter().enumerate() {
        let part = add_part(&rule.bad, at, &mut follow);
        first |= part.first;
        last[i] = part.last;
        at = part.next;
    }
    Tables {
        first,
        follow,
        last,
    }
}

/// The literals that may read the letter after those of a set; where the set has 0, those that may read a first one, too.
pub fn following(tables: &Tables, set: u64) -> u64
    ensures { result ≡ bit_or (cond (has set 0) tables.now.first 0) (unite (slice_index tables.now.follow) 64 set) }
{
    let mut next = only_if(has(set, 0), tables.first);
    for p in 0..RULE_POSITIONS {
        next |= only_if(has(set, p as u32), tables.follow[p]);
    }
    next
}

/// The number of the first row that has a member of the set.
pub fn first_met(last: &[u64], set: u64) -> Option<u8>
    requires { length last.now ≤ RULES }
    ensures { result ≡ first_met last.now 0 set }
{
    for (i, row) in last.iter().enumerate() {
        if set & *row != 0 {
            return Some(i as u8);
        }
    }
    None
}
