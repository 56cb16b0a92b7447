//! The rules of a policy with their tables, and the sets of positions of words.

ghost use Rattle.std.specs.Prelude.{◌≡◌, ◌+◌, ◌<◌, ◌≤◌, List, [], ◌∷◌, ◌++◌, length, IfOk, IfErr};
ghost use Rattle.cw_rights.specs.Trees.{count};
ghost use Rattle.cw_rights.specs.Words.{Word};
ghost use Rattle.cw_dfa.specs.Sets.{has};
ghost use Rattle.cw_dfa.specs.Tables.{goes, matching, named, tested};
ghost use Rattle.cw_dfa.specs.Positions.{bad_of, IsSetOf};
ghost use Rattle.cw_dfa.specs.Verdicts.{rules_of, IsVerdict, verdict, next_of, walk};

use crate::matching::{Sought, picked_rules, spare_rules};
use crate::tables::{Tables, first_met, following, make_tables};
use cw_core::limits::{RULE_POSITIONS, RULES};
use cw_rights::{Caps, Letter, Rule};
use std::marker::Model;
use thiserror::Error;

/// Why no rules or no states are given.
#[derive(Debug, Drop, Error)]
pub enum DfaFault {
    #[error("the literals of the rules and the start are more than 64")]
    TooManyPositions,
    #[error("the policy states are more than 64")]
    TooManyStates,
    #[error("no memory is left")]
    NoMemory,
}

/// Rules whose literals, numbered from 1, rule by rule and from left to right, are at most 63; contracts see the rules.
#[derive(Drop)]
pub struct Rules<'r> {
    rules: &'r [Rule],
    tables: Tables,
}

impl<'r> Model for Rules<'r> {
    ghost use Rattle.std.specs.Prelude.{List};
    ghost use Rattle.std.specs.Coded.{codes};
    ghost use Rattle.cw_rights.specs.declared.policy.Rule.{Rule};
    ghost use Rattle.cw_rights.specs.contracts.words.Regex as e;

    ghost Value = { List Rule };

    ghost coded = { Prim.hlevel (codes, e.the_row.coded) };

    ghost use Rattle.cw_dfa.specs.Parts.{IsReady};

    ghost view = { λ r. r.rules.now };

    ghost invariant = { λ r. IsReady r.rules.now r.tables };
}

impl<'r> Rules<'r> {
    /// Makes the tables of rules: they keep the reference and take no memory.
    ///
    /// The contract asks nothing of how deep the expressions nest, nor of the numbers and rights in their tests. The
    /// calls here and in `step` go as deep as the expressions do; in a valid policy at most 64 parts that need
    /// parentheses stand each within the one before.
    pub fn make(rules: &'r [Rule]) -> Result<Rules<'r>, DfaFault>
        requires { length rules.now ≤ RULES }
        ensures kept { IfOk result (λ r. r ≡ rules.now) }
        ensures few { IfOk result (λ _. count (bad_of (rules_of rules.now)) + 1 ≤ RULE_POSITIONS) }
        ensures many { IfErr result (λ _. RULE_POSITIONS < count (bad_of (rules_of rules.now)) + 1) }
        ensures fault { IfErr result (λ e. e ≡ DfaFault.TooManyPositions) }
    {
        match spare_rules(rules, 63) {
            None => Err(DfaFault::TooManyPositions),
            Some(_) => Ok(Rules {
                rules,
                tables: make_tables(rules),
            }),
        }
    }

    /// The literals that may read a letter after those of a set, whatever the letter is.
    pub fn ahead(&self, set: u64) -> u64
        ensures { result ≡ goes (bad_of (rules_of self.now)) 1 (has set 0) set }
    {
        following(&self.tables, set)
    }

    /// The literals that name a label, or none.
    pub fn named(&self, label: u16) -> u64
        ensures { result ≡ named (rules_of self.now) label }
    {
        picked_rules(self.rules, Sought::Label(label))
    }

    /// The literals whose tests hold of capabilities.
    pub fn tested(&self, caps: &Caps) -> u64
        ensures { result ≡ tested (rules_of self.now) caps.now }
    {
        picked_rules(self.rules, Sought::Tests(*caps))
    }

    /// The literals that match a letter.
    #[tactic(auto, using(crate::proofs::Picked::matching_both))]
    pub fn mask(&self, letter: &Letter) -> u64
        ensures { result ≡ matching (bad_of (rules_of self.now)) 1 letter.now }
    {
        self.named(letter.label) & self.tested(&letter.caps)
    }

    /// The first rule that may end after a literal of a set.
    pub fn ended(&self, set: u64) -> Option<u8>
        ensures { result ≡ verdict (rules_of self.now) 0 1 set }
    {
        first_met(&self.tables.last[..self.rules.len()], set)
    }
}

/// The set of the empty word.
#[tactic(auto, using(crate::proofs::Whole::start_set))]
pub fn start(rules: &Rules) -> u64
    ensures one { result ≡ 1 }
    ensures empty { IsSetOf (rules_of rules.now) [] result }
{
    1
}

/// The set of a word with one letter more.
#[tactic(auto, using(crate::proofs::Following::next_masked))]
pub fn step(rules: &Rules, set: u64, letter: &Letter) -> u64
    ensures next { result ≡ next_of (rules_of rules.now) set letter.now }
    ensures longer { (w : Word) → IsSetOf (rules_of rules.now) w set →
        IsSetOf (rules_of rules.now) (w ++ letter.now ∷ []) result }
{
    rules.ahead(set) & rules.mask(letter)
}

/// The least rule that a word breaks, by its set: it isn't empty, and the rule matches it whole.
pub fn violated(rules: &Rules, set: u64) -> Option<u8>
    ensures same { result ≡ verdict (rules_of rules.now) 0 1 set }
    ensures least { (w : Word) → IsSetOf (rules_of rules.now) w set →
        IsVerdict (rules_of rules.now) w result }
{
    rules.ended(set)
}

/// What is violated after the letters of a word, from the start, is the least rule that it breaks.
#[tactic(auto, using(crate::proofs::Whole::judged))]
pub fn fact_words_are_judged(rules: &Rules)
    ensures { (w : Word) →
        IsVerdict (rules_of rules.now) w (verdict (rules_of rules.now) 0 1 (walk (rules_of rules.now) 1 w)) }
{}
