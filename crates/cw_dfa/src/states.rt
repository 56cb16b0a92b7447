//! The policy states: the sets of positions of the words that keep the rules all along.

ghost use Rattle.std.specs.Prelude.{◌≡◌, ◌+◌, ◌<◌, ◌≤◌, ◌^◌, ◌++◌, [], ◌∷◌, ℕ, List, Some, Ok, Err, length, map, IfOk, OnOk, IfSome, IfNone};
ghost use Rattle.std.specs.List.{filter_map};
ghost use Rattle.std.specs.Option.{option_to_list};
ghost use Rattle.cw_dfa.specs.Positions.{bad_of};
ghost use Rattle.cw_dfa.specs.Tables.{matching};
ghost use Rattle.cw_dfa.specs.Verdicts.{rules_of};
ghost use Rattle.cw_dfa.specs.States.{AreReached, AreMany, Exactly, HasMore, after_mask, Reached};

use crate::rules::{DfaFault, Rules, start};
use cw_core::limits::POLICY_STATES;
use cw_fixpoint::{Steps, closed_up_to};
use cw_rights::Letter;
use std::alloc::{AllocError, Global};

/// For each letter the set of positions whose literals match it.
fn masks(alloc: Global, rules: &Rules, letters: &[Letter]) -> Result<Vec<u64>, AllocError>
    ensures { IfOk result (λ v. v.items ≡ map (matching (bad_of (rules_of rules.now)) 1) letters.now) }
{
    letters
        .iter()
        .map(|letter| rules.mask(letter))
        .collect(alloc)
}

// The set after a letter, where it breaks no rule.
fn after_mask(rules: &Rules, ahead: u64, mask: u64) -> Option<u64>
    ensures { result ≡ after_mask (rules_of rules.now) ahead mask }
{
    let next = ahead & mask;
    match rules.ended(next) {
        None => Some(next),
        Some(_) => None,
    }
}

// What may follow a set: the rules, and the masks of the letters.
#[derive(Drop)]
struct Following<'a, 'r> {
    rules: &'a Rules<'r>,
    masks: &'a [u64],
}

impl<'a, 'r> Steps<u64> for Following<'a, 'r> {
    ghost use Rattle.cw_dfa.specs.Verdicts.{rules_of};
    ghost use Rattle.cw_dfa.specs.States.{after_masks};

    ghost after = { λ following set. after_masks (rules_of following.rules.now) following.masks.now set };

    ghost can_follow = { λ following set. Unit {0} };

    fn put_after(&self, key: u64, keys: &mut Vec<u64>) -> Result<(), AllocError> {
        put_after_all(self.rules, self.rules.ahead(key), self.masks, keys)
    }

    ghost keeps = { λ following set next can follows. tt };
}

// Appends the set after each letter, where it breaks no rule.
fn put_after_all(
    rules: &Rules,
    ahead: u64,
    masks: &[u64],
    keys: &mut Vec<u64>,
) -> Result<(), AllocError>
    ensures { OnOk result
        (keys.new.items ≡ keys.old.items ++ filter_map (after_mask (rules_of rules.now) ahead) masks.now) }
{
    for mask in masks {
        put_some(keys, after_mask(rules, ahead, *mask))?;
    }
    Ok(())
}

/// Appends a set, if there is one.
fn put_some(keys: &mut Vec<u64>, next: Option<u64>) -> Result<(), AllocError>
    ensures { OnOk result (keys.new.items ≡ keys.old.items ++ option_to_list next) }
{
    if let Some(next) = next {
        keys.push(next)?;
    }
    Ok(())
}

// The policy states in order, where they are at most 64.
fn reach(alloc: Global, rules: &Rules, masks: &[u64]) -> Result<Option<Vec<u64>>, AllocError>
    ensures some { IfOk result (λ keys. IfSome keys (λ v. AreReached (rules_of rules.now) masks.now v.items)) }
    ensures few { IfOk result (λ keys. IfSome keys (λ v. length v.items ≤ POLICY_STATES)) }
    ensures none { IfOk result (λ keys. IfNone keys (AreMany (rules_of rules.now) masks.now)) }
{
    let following = Following { rules, masks };
    let keys = closed_up_to(alloc, &following, &[start(rules)], POLICY_STATES)?;
    Ok(keys)
}

/// The policy states over letters, by their masks: the sets without violation that are reached from the start over the
/// letters, through sets without violation, ascending as numbers. The masks may stand in any order, each once or more.
pub fn states_by_masks(alloc: Global, rules: &Rules, masks: &[u64]) -> Result<Vec<u64>, DfaFault>
    ensures states { IfOk result (λ v. AreReached (rules_of rules.now) masks.now v.items) }
    ensures few { IfOk result (λ v. length v.items ≤ POLICY_STATES) }
    ensures many { result ≡ Err DfaFault.TooManyStates → AreMany (rules_of rules.now) masks.now }
    ensures positions { result ≡ Err DfaFault.TooManyPositions → ⊥ }
{
    match reach(alloc, rules, masks) {
        Err(_) => Err(DfaFault::NoMemory),
        Ok(None) => Err(DfaFault::TooManyStates),
        Ok(Some(states)) => Ok(states),
    }
}

/// The policy states: the sets without violation that are reached from the start over letters, through sets without
/// violation, ascending as numbers.
pub fn all_states(alloc: Global, rules: &Rules, letters: &[Letter]) -> Result<Vec<u64>, DfaFault>
    ensures states { IfOk result (λ v. Exactly (Reached (rules_of rules.now) letters.now) v.items) }
    ensures few { IfOk result (λ v. length v.items ≤ POLICY_STATES) }
    ensures many { result ≡ Err DfaFault.TooManyStates → HasMore (Reached (rules_of rules.now) letters.now) POLICY_STATES }
    ensures positions { result ≡ Err DfaFault.TooManyPositions → ⊥ }
{
    match masks(alloc, rules, letters) {
        Err(_) => Err(DfaFault::NoMemory),
        Ok(masks) => states_by_masks(alloc, rules, &masks),
    }
}
