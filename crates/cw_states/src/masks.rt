//! The letters of a policy by the literals that name their labels, and those whose tests hold of their capabilities.

ghost use Rattle.std.specs.Prelude.{◌≡◌, ◌+◌, ◌≤◌, ◌++◌, length, map, IfOk, OnOk};
ghost use Rattle.std.specs.Int.RustNames.{bit_and};
ghost use Rattle.cw_dfa.specs.States.{AreMasks};
ghost use Rattle.cw_dfa.specs.Tables.{named, tested};
ghost use Rattle.cw_dfa.specs.Verdicts.{rules_of as rules_in};
ghost use Rattle.cw_states.specs.Growing.{all_caps};
ghost use Rattle.cw_states.specs.Masks.{HaveSame, ahead_of, met};
ghost use Rattle.cw_states.specs.States.{letters_below};
ghost use Rattle.cw_states.specs.Tables.{tabled};

use crate::order::Ranked;
use cw_dfa::Rules;
use std::alloc::{AllocError, Global};

/// What may follow each policy state, whatever the letter is, and the literals whose tests hold of each rights state.
#[derive(Drop)]
pub(crate) struct Masks {
    pub aheads: Vec<u64>,
    pub tested: Vec<u64>,
}

/// What may follow each of some sets of positions.
pub(crate) fn aheads(alloc: Global, rules: &Rules, sets: &[u64]) -> Result<Vec<u64>, AllocError>
    ensures { IfOk result (λ v. v.items ≡ map (ahead_of (rules_in rules.now)) sets.now) }
{
    sets.iter().map(|set| rules.ahead(*set)).collect(alloc)
}

/// The literals whose tests hold of each rights state.
pub(crate) fn tested(
    alloc: Global,
    rules: &Rules,
    rights: &[Ranked],
) -> Result<Vec<u64>, AllocError>
    ensures { IfOk result (λ v. v.items ≡ map (tested (rules_in rules.now)) (all_caps rights.now)) }
{
    let mut tested = Vec::new(alloc);
    for state in rights {
        tested.push(rules.tested(&state.caps))?;
    }
    Ok(tested)
}

// The literals that name each of the first labels.
fn named(alloc: Global, rules: &Rules, labels: usize) -> Result<Vec<u64>, AllocError>
    requires { labels ≤ 65536 }
    ensures { IfOk result (λ v. v.items ≡ tabled (named (rules_in rules.now)) labels) }
{
    let mut named = Vec::new(alloc);
    for label in 0..labels {
        named.push(rules.named(label as u16))?;
    }
    Ok(named)
}

// The numbers, each once.
fn distinct(numbers: Vec<u64>) -> Vec<u64>
    ensures { HaveSame result.items numbers.items }
{
    let mut numbers = numbers;
    numbers.sort_unstable();
    numbers.dedup();
    numbers
}

// A set with each of others.
fn put_met(set: u64, others: &[u64], masks: &mut Vec<u64>) -> Result<(), AllocError>
    ensures { OnOk result (masks.new.items ≡ masks.old.items ++ map (bit_and set) others.now) }
{
    for other in others {
        masks.push(set & *other)?;
    }
    Ok(())
}

// Each of some sets with each of others.
fn put_all_met(sets: &[u64], others: &[u64], masks: &mut Vec<u64>) -> Result<(), AllocError>
    ensures { OnOk result (masks.new.items ≡ masks.old.items ++ met sets.now others.now) }
{
    match sets {
        [] => Ok(()),
        [first, rest @ ..] => {
            put_met(*first, others, masks)?;
            put_all_met(rest, others, masks)?;
            Ok(())
        }
    }
}

/// The masks of the letters of the first labels with each rights state, most of them once.
#[tactic(auto, using(crate::proofs::Letters::are_masks))]
pub(crate) fn masks_below(
    alloc: Global,
    rules: &Rules,
    labels: usize,
    rights: &[Ranked],
) -> Result<Vec<u64>, AllocError>
    requires { labels ≤ 65536 }
    ensures { IfOk result (λ v. AreMasks (rules_in rules.now) (letters_below labels (all_caps rights.now)) v.items) }
{
    let named = distinct(named(alloc, rules, labels)?);
    let tested = distinct(tested(alloc, rules, rights)?);
    let mut masks = Vec::new(alloc);
    put_all_met(&named, &tested, &mut masks)?;
    Ok(masks)
}
