//! The literals of an expression that name a label, and those whose tests hold.

ghost use Rattle.std.specs.Prelude.{◌≡◌, ◌+◌, ◌<◌, ◌≤◌, ◌^◌, cond, IfSome, IfNone};
ghost use Rattle.cw_rights.specs.Trees.{tree_of, seq_of, literal_of, count};
ghost use Rattle.cw_rights.specs.Words.{label_fits, tests_hold};
ghost use Rattle.cw_dfa.specs.Tables.{picks, picked};
ghost use Rattle.cw_dfa.specs.Positions.{bad_of};
ghost use Rattle.cw_dfa.specs.Verdicts.{rules_of};

use crate::tables::single;
use cw_core::limits::RULE_POSITIONS;
use cw_rights::{Caps, Letter, Lit, Regex, Rule, lit_matches};

/// What is left of a budget after the literals of an expression, where they fit.
#[cycle(spare)]
#[tactic(auto, using(cw_rights::proofs::Rows::cat_count, crate::proofs::Rows::or_count))]
pub fn spare(r: &Regex, budget: u32) -> Option<u32>
    ensures some { IfSome result (λ left. left + count (tree_of r.now) ≡ budget) }
    ensures none { IfNone result (budget < count (tree_of r.now)) }
{
    match r {
        Regex::Lit(_) => budget.checked_sub(1),
        Regex::Cat(parts) | Regex::Or(parts) => spare_row(parts, budget),
        Regex::Star(body) | Regex::Plus(body) | Regex::Maybe(body) => spare(body, budget),
    }
}

/// What is left of a budget of literals after all parts, and None where they are more.
#[cycle(spare)]
fn spare_row(parts: &[Regex], budget: u32) -> Option<u32>
    ensures some { IfSome result (λ left. left + count (seq_of parts.now) ≡ budget) }
    ensures none { IfNone result (budget < count (seq_of parts.now)) }
{
    let mut left = budget;
    for part in parts {
        left = spare(part, left)?;
    }
    Some(left)
}

/// What is asked of a literal: that it names a label, or that its tests hold of capabilities.
#[derive(Clone, Copy, Drop)]
pub enum Sought {
    Label(u16),
    Tests(Caps),
}

// Whether a literal names no label, or this one.
fn label_fits(lit: &Lit, label: u16) -> bool
    ensures { result ≡ label_fits lit.now.label label }
{
    match lit.label {
        None => true,
        Some(own) => own == label,
    }
}

// Whether a literal's tests hold: whether it matches a letter of a label that it names.
#[tactic(auto, using(crate::proofs::Picked::own_label))]
fn tests_hold(lit: &Lit, caps: Caps) -> bool
    ensures { result ≡ tests_hold caps lit.now.tests.items }
{
    let label = lit.label.unwrap_or(0);
    lit_matches(lit, &Letter { label, caps })
}

/// Whether a literal is sought: it may stand for the label, or its tests hold of what is held.
fn picks(lit: &Lit, sought: Sought) -> bool
    ensures { result ≡ picks sought (literal_of lit.now) }
{
    match sought {
        Sought::Label(label) => label_fits(lit, label),
        Sought::Tests(caps) => tests_hold(lit, caps),
    }
}

/// The literals of an expression that are as sought, and the number after its last literal.
#[derive(Clone, Copy, Drop)]
pub struct PickedLiterals {
    pub next: u32,
    pub set: u64,
}

/// The set of a literal's own position `k` where it is sought, else the empty set.
fn literal(lit: &Lit, k: u32, sought: Sought) -> u64
    requires { k < RULE_POSITIONS }
    ensures { result ≡ cond (picks sought (literal_of lit.now)) (2 ^ k) 0 }
{
    if picks(lit, sought) { single(k) } else { 0 }
}

/// The literals of an expression that are sought, as a set of positions, where its first literal has position `k`,
/// and the position after its last one. Positions are below 64.
#[cycle(picked)]
#[tactic(auto, using(cw_rights::proofs::Rows::cat_of, crate::proofs::Rows::or_picked, crate::proofs::Rows::or_count))]
pub fn picked(r: &Regex, k: u32, sought: Sought) -> PickedLiterals
    requires { k + count (tree_of r.now) ≤ RULE_POSITIONS }
    ensures next { result.next ≡ k + count (tree_of r.now) }
    ensures set { result.set ≡ picked (picks sought) (tree_of r.now) k }
{
    match r {
        Regex::Lit(lit) => PickedLiterals {
            next: k + 1,
            set: literal(lit, k, sought),
        },
        Regex::Cat(parts) | Regex::Or(parts) => picked_row(parts, k, sought),
        Regex::Star(body) | Regex::Plus(body) | Regex::Maybe(body) => picked(body, k, sought),
    }
}

/// The same for parts that stand one after the other.
#[cycle(picked)]
fn picked_row(parts: &[Regex], k: u32, sought: Sought) -> PickedLiterals
    requires { k + count (seq_of parts.now) ≤ RULE_POSITIONS }
    ensures next { result.next ≡ k + count (seq_of parts.now) }
    ensures set { result.set ≡ picked (picks sought) (seq_of parts.now) k }
{
    let mut next = k;
    let mut set = 0;
    for part in parts {
        let found = picked(part, next, sought);
        next = found.next;
        set |= found.set;
    }
    PickedLiterals { next, set }
}

/// The literals of all rules, numbered from 1, that are as sought.
pub fn picked_rules(rules: &[Rule], sought: Sought) -> u64
    requires { count (bad_of (rules_of rules.now)) < RULE_POSITIONS }
    ensures { result ≡ picked (picks sought) (bad_of (rules_of rules.now)) 1 }
{
    let mut next = 1;
    let mut set = 0;
    for rule in rules {
        let found = picked(&rule.bad, next, sought);
        next = found.next;
        set |= found.set;
    }
    set
}

/// What is left of a budget after the literals of all rules, where they fit.
pub fn spare_rules(rules: &[Rule], budget: u32) -> Option<u32>
    ensures some { IfSome result (λ left. left + count (bad_of (rules_of rules.now)) ≡ budget) }
    ensures none { IfNone result (budget < count (bad_of (rules_of rules.now))) }
{
    let mut left = budget;
    for rule in rules {
        left = spare(&rule.bad, left)?;
    }
    Some(left)
}
