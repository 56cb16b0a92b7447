//! The pairs of a policy state and a rights state, by number.

ghost use Rattle.std.specs.Prelude.{◌≡◌, ◌<◌, ◌≤◌, length, nat_eq, position, slice_get, unwrap_or, Some, Contains, IfOk, IfErr, IfSome};
ghost use Rattle.std.specs.Ordering.{eq_by_cmp};
ghost use Rattle.cw_rights.specs.Policies.{policy_of};
ghost use Rattle.cw_rights.specs.Valid.{IsValid};
ghost use Rattle.cw_dfa.specs.States.{AreReached};
ghost use Rattle.cw_dfa.specs.Verdicts.{rules_of as rules_in};
ghost use Rattle.cw_states.specs.Kept.{IsManyWords, is_limit};
ghost use Rattle.cw_states.specs.Growing.{all_caps};
ghost use Rattle.cw_states.specs.Rights.{caps_cmp};
ghost use Rattle.cw_states.specs.States.{label_count};

use crate::acts::{Act, after_act};
use crate::fault::StatesFault;
use crate::growth::{may_grant, rights_states};
use crate::masks::{Masks, aheads, masks_below, tested};
use crate::order::Ranked;
use crate::uses::Uses;
use cw_core::limits::POLICY_STATES;
use cw_core::{Quantity, StateId};
use cw_dfa::{DfaFault, Rules, start, states_by_masks, step, violated};
use cw_rights::policy::start_caps;
use cw_rights::{Caps, Letter, Limit, Policy, Primitive};
use std::alloc::{AllocError, Global};
use std::marker::Model;

/// All pairs of a policy state and a rights state, by number, with no table: each call looks its answer up in the lists
/// of both. A contract sees them as these lists.
#[derive(Drop)]
pub(crate) struct Pairs<'p> {
    policy: &'p Policy,
    rules: Rules<'p>,
    rights: Vec<Ranked>,
    sets: Vec<u64>,
}

impl<'p> Model for Pairs<'p> {
    ghost use Rattle.std.specs.Coded.{codes};
    ghost use Rattle.cw_rights.specs.contracts.words.Regex as e;
    ghost use Rattle.cw_states.specs.Growing.{all_caps};
    ghost use Rattle.cw_states.specs.States.{Held};
    ghost use Rattle.cw_states.specs.Kept.{IsKept, held};

    ghost Value = { Held };

    ghost coded = { Prim.hlevel (codes, e.the_row.coded) };

    ghost view = { λ s. held s.policy.now s.rights.items s.sets.items };

    ghost invariant = { λ s. IsKept (held s.policy.now s.rights.items s.sets.items) s.rules };
}

// A set of positions with its index.
#[derive(Clone, Copy, Drop)]
struct Indexed {
    set: u64,
    index: u8,
}

// Where a set of positions stands.
fn find_set(sets: &[u64], set: u64) -> Option<usize>
    ensures index { result ≡ position (λ x. nat_eq x set) sets.now }
    ensures within { IfSome result (λ i. i < length sets.now) }
{
    sets.iter().position(|x| *x == set)
}

// Where capabilities stand.
fn find_ranked(rights: &[Ranked], sought: Ranked) -> Option<usize>
    ensures index { result ≡ position (λ x. eq_by_cmp caps_cmp x.caps sought.caps) rights.now }
    ensures within { IfSome result (λ i. i < length rights.now) }
{
    rights.iter().position(|x| *x == sought)
}

/// The number of capabilities among the rights states.
#[tactic(auto, using(crate::proofs::Listed::position_caps))]
fn find_caps(rights: &[Ranked], caps: Caps) -> Option<usize>
    ensures index { result ≡ position (λ x. eq_by_cmp caps_cmp x caps) (all_caps rights.now) }
    ensures within { IfSome result (λ i. i < length rights.now) }
{
    find_ranked(rights, Ranked { caps })
}

impl<'p> Pairs<'p> {
    ghost use Rattle.std.specs.Prelude.{◌≡◌, ◌<◌, ◌≤◌, ◌/◌, ◌%◌, ◌++◌, Some, true, length, slice_get, slice_index_or, Contains, IfOk, IfErr, OnOk};
    ghost use Rattle.cw_rights.specs.Policies.{policy_of, primitives, start_caps};
    ghost use Rattle.cw_rights.specs.Valid.{IsValid};
    ghost use Rattle.cw_model.specs.Boards.{may_grant};
    ghost use Rattle.cw_states.specs.States.{lists_of, AreLists, AreFew, IsCause, count, pair, caps_at, caps_index, set_after, set_index, states_of, violated_in};
    ghost use Rattle.cw_states.specs.Masks.{IsMasks, row, rows};
    ghost use Rattle.cw_states.specs.Tables.{IsActBelow, index_after, indices_after, index_of, entries};
    ghost use Rattle.cw_states.specs.Growing.{IsNarrow};

    /// The states of a policy for what a source has.
    ///
    /// The rights states are the least set of capabilities that has the start and is closed under enter, each allowed
    /// limit, each open and each close of a variable, and each close of a number that the source closes. The letters
    /// are the policy's labels, and one more where the source has another, each with each rights state; the policy
    /// states are the sets without violation that are reached over them. TooManyCaps comes exactly where the rights
    /// states are more than 128, then TooManyWords where the policy states are more than 64, then TooManyStates where
    /// the pairs are more than 512, or 1,024 in format 2.
    pub(crate) fn make(
        alloc: Global,
        policy: &'p Policy,
        uses: Uses,
    ) -> Result<Pairs<'p>, StatesFault>
        requires valid { IsValid (policy_of policy.now) }
        ensures policy { IfOk result (λ s. s.policy ≡ policy.now) }
        ensures lists { IfOk result (λ s. AreLists uses (lists_of s)) }
        ensures few { IfOk result (λ s. AreFew (lists_of s)) }
        ensures cause { IfErr result (λ fault. IsCause (policy_of policy.now) uses fault) }
    {
        let Some(rights) = rights_states(alloc, policy, uses)? else {
            return Err(StatesFault::TooManyCaps);
        };
        let rules = rules_of(policy);
        let masks = masks_below(alloc, &rules, label_count(policy, uses), &rights)?;
        let sets = sets_over(alloc, &rules, &masks)?;
        let most = Quantity::ProductStates.limit_in(policy.format);
        if (sets.len() * rights.len()) as u64 > most {
            return Err(StatesFault::TooManyStates);
        }
        Ok(Pairs {
            policy,
            rules,
            rights,
            sets,
        })
    }

    /// How many states there are.
    pub(crate) fn count(&self) -> u16
        ensures { result ≡ (states_of (lists_of self.now)).count }
    {
        (self.sets.len() * self.rights.len()) as u16
    }

    /// The index of a state's rights state.
    pub(crate) fn column(&self, state: StateId) -> usize
        requires state { state.0 < count (lists_of self.now) }
        ensures is { result ≡ state.0 % length self.now.rights }
        ensures within { result < length self.now.rights }
    {
        state.0 as usize % self.rights.len()
    }

    // The index of a state's policy state.
    fn row(&self, state: StateId) -> u8
        requires state { state.0 < count (lists_of self.now) }
        ensures is { result ≡ state.0 / length self.now.rights }
        ensures within { result < length self.now.sets }
    {
        (state.0 as usize / self.rights.len()) as u8
    }

    // The state of the policy state and the rights state at these indices.
    fn at(&self, row: u8, column: u8) -> StateId
        ensures { result.0 ≡ pair (lists_of self.now) row column }
    {
        StateId(row as u16 * self.rights.len() as u16 + column as u16)
    }

    /// The state with the rights state at an index.
    pub(crate) fn moved(&self, state: StateId, column: u8) -> StateId
        requires state { state.0 < count (lists_of self.now) }
        ensures { result.0 ≡ pair (lists_of self.now) (state.0 / length self.now.rights) column }
    {
        self.at(self.row(state), column)
    }

    /// The state with the policy state at an index.
    pub(crate) fn turned(&self, state: StateId, row: u8) -> StateId
        requires state { state.0 < count (lists_of self.now) }
        ensures { result.0 ≡ pair (lists_of self.now) row (state.0 % length self.now.rights) }
    {
        self.fact_is_few();
        self.at(row, self.column(state) as u8)
    }

    /// The lists are within the limits.
    pub(crate) fn fact_is_few(&self)
        ensures { AreFew (lists_of self.now) }
    {
        let _ = &self.policy;
    }

    /// The capabilities of a state.
    pub(crate) fn caps(&self, state: StateId) -> &Caps
        requires state { state.0 < count (lists_of self.now) }
        ensures { result.now ≡ caps_at (lists_of self.now) state.0 }
    {
        self.caps_in(self.column(state))
    }

    // The rights state at an index.
    fn caps_in(&self, column: usize) -> &Caps
        requires column { column < length self.now.rights }
        ensures { result.now ≡ slice_index_or self.now.rights column (start_caps (policy_of self.now.policy)) }
    {
        &self.rights[column].caps
    }

    // The index of a set of positions, 0 for one that is no policy state.
    fn set_index(&self, set: u64) -> u8
        ensures { result ≡ set_index (lists_of self.now) set }
    {
        match find_set(&self.sets, set) {
            None => 0,
            Some(index) => index as u8,
        }
    }

    // The index of capabilities, 0 for such as are no rights state.
    fn caps_index(&self, caps: Caps) -> u8
        ensures { result ≡ caps_index (lists_of self.now) caps }
    {
        match find_caps(&self.rights, caps) {
            None => 0,
            Some(index) => index as u8,
        }
    }

    /// The numbers of the policy are those of holds.
    #[tactic(auto, using(crate::proofs::Narrow::narrow))]
    pub(crate) fn fact_is_narrow(&self)
        ensures { IsNarrow (policy_of self.now.policy) }
    {
        let _ = &self.policy;
    }

    // The index of the rights state that an act makes of the one at an index.
    fn index_after(&self, act: Act, column: usize) -> u8
        requires act { IsActBelow 8 act }
        requires column { column < length self.now.rights }
        ensures { result ≡ index_after (lists_of self.now) act column }
    {
        let caps = *self.caps_in(column);
        self.caps_index(after_act(self.policy, act, caps))
    }

    /// How many rights states there are.
    fn columns(&self) -> usize
        ensures { result ≡ length self.now.rights }
    {
        self.rights.len()
    }

    /// For each rights state the index of the one that an act makes of it.
    pub(crate) fn indices_after(&self, alloc: Global, act: Act) -> Result<Vec<u8>, AllocError>
        requires act { IsActBelow 8 act }
        ensures { IfOk result (λ v. v.items ≡ indices_after (lists_of self.now) act) }
    {
        let mut indices = Vec::new(alloc);
        for column in 0..self.columns() {
            indices.push(self.index_after(act, column))?;
        }
        Ok(indices)
    }

    /// The state of the empty word and the start's capabilities.
    pub(crate) fn start(&self) -> StateId
        ensures { result.0 ≡ (states_of (lists_of self.now)).start }
    {
        let row = self.set_index(start(&self.rules));
        self.at(row, self.caps_index(start_caps(self.policy)))
    }

    /// Whether a primitive of the policy may be granted: a limit only where it is allowed.
    pub(crate) fn may_grant(&self, state: StateId, prim: Primitive) -> bool
        requires state { state.0 < count (lists_of self.now) }
        requires primitive { Contains (primitives (policy_of self.now.policy) true) prim }
        ensures { result ≡ (states_of (lists_of self.now)).may_grant state.0 prim }
    {
        self.fact_is_narrow();
        may_grant(self.caps(state), prim)
    }

    /// The least rule that is broken after a label's letter.
    pub(crate) fn violated(&self, state: StateId, label: u16) -> Option<u8>
        requires state { state.0 < count (lists_of self.now) }
        ensures { result ≡ violated_in (lists_of self.now) state.0 label }
    {
        violated(&self.rules, self.set_after(state, label))
    }

    // The set of positions after a label's letter.
    fn set_after(&self, state: StateId, label: u16) -> u64
        requires state { state.0 < count (lists_of self.now) }
        ensures { result ≡ set_after (lists_of self.now) state.0 label }
    {
        let letter = Letter {
            label,
            caps: *self.caps(state),
        };
        step(&self.rules, self.sets[self.row(state) as usize], &letter)
    }

    // The index of a policy state, 255 for a set that breaks a rule.
    fn index_of(&self, set: u64) -> u8
        ensures { result ≡ index_of (lists_of self.now) set }
    {
        match violated(&self.rules, set) {
            Some(_) => 255,
            None => self.set_index(set),
        }
    }

    // The index of a set: as before, where it is the set before.
    fn index_after_another(&self, before: Indexed, set: u64) -> Indexed
        requires { before.index ≡ index_of (lists_of self.now) before.set }
        ensures set { result.set ≡ set }
        ensures index { result.index ≡ index_of (lists_of self.now) set }
    {
        if set == before.set {
            before
        } else {
            Indexed {
                set,
                index: self.index_of(set),
            }
        }
    }

    // The indices after the letters that name what follows a set, by rights state.
    fn put_row(&self, ahead: u64, tested: &[u64], indices: &mut Vec<u8>) -> Result<(), AllocError>
        ensures { OnOk result (indices.new.items ≡ indices.old.items ++ row (lists_of self.now) ahead tested.now) }
    {
        let mut last = Indexed {
            set: ahead,
            index: self.index_of(ahead),
        };
        for mask in tested {
            last = self.index_after_another(last, ahead & *mask);
            indices.push(last.index)?;
        }
        Ok(())
    }

    // The same for each of some sets.
    fn put_rows(
        &self,
        named: u64,
        aheads: &[u64],
        tested: &[u64],
        indices: &mut Vec<u8>,
    ) -> Result<(), AllocError>
        ensures { OnOk result (indices.new.items ≡ indices.old.items ++ rows (lists_of self.now) named aheads.now tested.now) }
    {
        match aheads {
            [] => Ok(()),
            [first, rest @ ..] => {
                self.put_row(*first & named, tested, indices)?;
                self.put_rows(named, rest, tested, indices)?;
                Ok(())
            }
        }
    }

    /// What may follow each policy state, and the literals whose tests hold of each rights state.
    pub(crate) fn masks(&self, alloc: Global) -> Result<Masks, AllocError>
        ensures { IfOk result (λ masks. IsMasks (lists_of self.now) masks) }
    {
        Ok(Masks {
            aheads: aheads(alloc, &self.rules, &self.sets)?,
            tested: tested(alloc, &self.rules, &self.rights)?,
        })
    }

    /// For each state the index of the policy state after a label's letter, 255 where it breaks a rule.
    pub(crate) fn entries(
        &self,
        alloc: Global,
        masks: &Masks,
        label: u16,
    ) -> Result<Vec<u8>, AllocError>
        requires { IsMasks (lists_of self.now) masks.now }
        ensures { IfOk result (λ v. v.items ≡ entries (lists_of self.now) label) }
    {
        let mut indices = Vec::new(alloc);
        let named = self.rules.named(label);
        self.put_rows(named, &masks.aheads, &masks.tested, &mut indices)?;
        Ok(indices)
    }

    /// The index of a limit among the policy's.
    pub(crate) fn limit_index(&self, limit: Limit) -> usize
        requires { Contains (policy_of self.now.policy).limits limit }
        ensures { slice_get (policy_of self.now.policy).limits result ≡ Some limit }
    {
        limit_index(&self.policy.limits, limit)
    }

    /// The state after the return of a split call: the word of the state at the callee's end, with the capabilities of
    /// the state at the call.
    pub(crate) fn with_rights(&self, exit: StateId, call: StateId) -> StateId
        requires exit { exit.0 < count (lists_of self.now) }
        requires call { call.0 < count (lists_of self.now) }
        ensures { result.0 ≡ (states_of (lists_of self.now)).with_rights exit.0 call.0 }
    {
        self.fact_is_few();
        self.at(self.row(exit), self.column(call) as u8)
    }
}

// The labels of the policy, and one more where the source has a label that the policy doesn't name.
fn label_count(policy: &Policy, uses: Uses) -> usize
    ensures { result ≡ label_count (policy_of policy.now) uses }
{
    policy.labels.len() + if uses.has_other { 1 } else { 0 }
}

// Where a limit stands.
fn find_limit(limits: &[Limit], limit: Limit) -> Option<usize>
    ensures { result ≡ position (is_limit limit) limits.now }
{
    limits.iter().position(|x| x.descriptor == limit.descriptor && x.keep.0 == limit.keep.0)
}

// The index of a limit among some.
fn limit_index(limits: &[Limit], limit: Limit) -> usize
    requires { Contains limits.now limit }
    ensures { slice_get limits.now result ≡ Some limit }
{
    match find_limit(limits, limit) {
        Some(index) => index,
        None => unreachable!(),
    }
}

// The rules of a valid policy.
fn rules_of<'p>(policy: &'p Policy) -> Rules<'p>
    requires { IsValid (policy_of policy.now) }
    ensures { result ≡ policy.now.rules.items }
{
    match Rules::make(&policy.rules) {
        Ok(rules) => rules,
        Err(_) => unreachable!(),
    }
}

// The policy states over letters, by their masks.
fn sets_over(alloc: Global, rules: &Rules, masks: &[u64]) -> Result<Vec<u64>, StatesFault>
    ensures all { IfOk result (λ v. AreReached (rules_in rules.now) masks.now v.items) }
    ensures few { IfOk result (λ v. length v.items ≤ POLICY_STATES) }
    ensures many { IfErr result (λ fault. IsManyWords (rules_in rules.now) masks.now fault) }
{
    match states_by_masks(alloc, rules, masks) {
        Ok(sets) => Ok(sets),
        Err(DfaFault::TooManyStates) => Err(StatesFault::TooManyWords),
        Err(DfaFault::NoMemory) => Err(StatesFault::NoMemory),
        Err(DfaFault::TooManyPositions) => unreachable!(),
    }
}
