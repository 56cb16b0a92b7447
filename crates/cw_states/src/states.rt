//! The states of a policy for a source.

use crate::fault::StatesFault;
use crate::pairs::Pairs;
use crate::tables::{Tables, look, read, tables_of};
use crate::uses::Uses;
use cw_core::StateId;
use cw_rights::{Caps, Limit, Policy, Primitive};
use std::alloc::Global;
use std::marker::Model;

/// The states of a policy for what a source has: all pairs of a policy state and a rights state, by number. A contract
/// sees them as the lists of both. Where a state leads is tabled.
#[derive(Drop)]
pub struct States<'p> {
    pairs: Pairs<'p>,
    tables: Tables,
}

impl<'p> Model for States<'p> {
    ghost use Rattle.std.specs.Coded.{codes};
    ghost use Rattle.cw_rights.specs.contracts.words.Regex as e;
    ghost use Rattle.cw_states.specs.States.{Held, lists_of};
    ghost use Rattle.cw_states.specs.Tables.{AreTables};

    ghost Value = { Held };

    ghost coded = { Prim.hlevel (codes, e.the_row.coded) };

    ghost view = { λ s. s.pairs };

    ghost invariant = { λ s. AreTables (lists_of s.pairs) s.tables };
}

impl<'p> States<'p> {
    ghost use Rattle.std.specs.Prelude.{◌≡◌, ◌<◌, ◌≤◌, ◌%◌, false, is_some, length, true, Contains, IfOk, IfErr};
    ghost use Rattle.cw_rights.specs.Policies.{policy_of, primitives};
    ghost use Rattle.cw_rights.specs.Valid.{IsValid};
    ghost use Rattle.cw_states.specs.States.{lists_of, AreLists, AreFew, IsCause, count, caps_at, states_of, violated_in};
    ghost use Rattle.cw_states.specs.declared.acts.Act.TheVariants as act;
    ghost use Rattle.cw_rights.specs.declared.capabilities.Primitive.TheVariants.{Enter, Limit as ALimit, Split};
    ghost use Rattle.cw_states.specs.Tables.{index_after, entry};

    /// The states of a policy for what a source has.
    ///
    /// The rights states are the least set of capabilities that has the start and is closed under enter, each allowed
    /// limit, each open and each close of a variable, and each close of a number that the source closes. The letters
    /// are the policy's labels, and one more where the source has another, each with each rights state; the policy
    /// states are the sets without violation that are reached over them. TooManyCaps comes exactly where the rights
    /// states are more than 128, then TooManyWords where the policy states are more than 64, then TooManyStates where
    /// the pairs are more than 512, or 1,024 in format 2.
    pub fn make(alloc: Global, policy: &'p Policy, uses: Uses) -> Result<States<'p>, StatesFault>
        requires valid { IsValid (policy_of policy.now) }
        ensures policy { IfOk result (λ s. s.policy ≡ policy.now) }
        ensures lists { IfOk result (λ s. AreLists uses (lists_of s)) }
        ensures few { IfOk result (λ s. AreFew (lists_of s)) }
        ensures cause { IfErr result (λ fault. IsCause (policy_of policy.now) uses fault) }
    {
        let pairs = Pairs::make(alloc, policy, uses)?;
        pairs.fact_is_narrow();
        let tables = tables_of(alloc, policy, &pairs)?;
        Ok(States { pairs, tables })
    }

    // The index of a state's rights state.
    fn column(&self, state: StateId) -> usize
        requires state { state.0 < count (lists_of self.now) }
        ensures is { result ≡ state.0 % length self.now.rights }
        ensures within { result < length self.now.rights }
    {
        self.pairs.column(state)
    }

    // The index of the rights state after a granted primitive.
    fn granted_index(&self, prim: Primitive, column: usize) -> u8
        requires primitive { Contains (primitives (policy_of self.now.policy) true) prim }
        requires column { column < length self.now.rights }
        ensures { result ≡ index_after (lists_of self.now) (act.Granted prim) column }
    {
        match prim {
            Primitive::Enter => self.entered_index(column),
            Primitive::Split => self.split_index(column),
            Primitive::Limit(limit) => self.limited_index(limit, column),
        }
    }

    /// The number of the rights state after cap_enter.
    fn entered_index(&self, column: usize) -> u8
        requires column { column < length self.now.rights }
        ensures { result ≡ index_after (lists_of self.now) (act.Granted Enter) column }
    {
        read(&self.tables.entered, column)
    }

    /// The number of the rights state after a split, which changes none.
    fn split_index(&self, column: usize) -> u8
        requires column { column < length self.now.rights }
        ensures { result ≡ index_after (lists_of self.now) (act.Granted Split) column }
    {
        read(&self.tables.split, column)
    }

    /// The number of the rights state after a limit of the policy.
    fn limited_index(&self, limit: Limit, column: usize) -> u8
        requires limit { Contains (policy_of self.now.policy).limits limit }
        requires column { column < length self.now.rights }
        ensures { result ≡ index_after (lists_of self.now) (act.Granted (ALimit limit)) column }
    {
        let index = self.pairs.limit_index(limit);
        look(&self.tables.limited, index, column)
    }

    // The index of the rights state after an open of a descriptor.
    fn opened_index(&self, descriptor: u8, column: usize) -> u8
        requires descriptor { descriptor < length self.now.policy.descriptors.items }
        requires column { column < length self.now.rights }
        ensures { result ≡ index_after (lists_of self.now) (act.Opened descriptor) column }
    {
        look(&self.tables.opened, descriptor as usize, column)
    }

    // The index of the rights state after a close of a descriptor.
    fn closed_index(&self, descriptor: u8, column: usize) -> u8
        requires descriptor { descriptor < length self.now.policy.descriptors.items }
        requires column { column < length self.now.rights }
        ensures { result ≡ index_after (lists_of self.now) (act.Closed descriptor) column }
    {
        look(&self.tables.closed, descriptor as usize, column)
    }

    // The index of the policy state after the letter of a label, 255 where it breaks a rule.
    fn entry(&self, state: StateId, label: u16) -> u8
        requires state { state.0 < count (lists_of self.now) }
        requires label { label ≤ length self.now.policy.labels.items }
        ensures { result ≡ entry (lists_of self.now) label state.0 }
    {
        look(&self.tables.lettered, label as usize, state.0 as usize)
    }

    /// How many states there are.
    pub fn count(&self) -> u16
        ensures { result ≡ (states_of (lists_of self.now)).count }
    {
        self.pairs.count()
    }

    /// The state of the empty word and the start's capabilities.
    pub fn start(&self) -> StateId
        ensures { result.0 ≡ (states_of (lists_of self.now)).start }
    {
        self.pairs.start()
    }

    /// The capabilities of a state.
    pub fn caps(&self, state: StateId) -> &Caps
        requires state { state.0 < count (lists_of self.now) }
        ensures { result.now ≡ caps_at (lists_of self.now) state.0 }
    {
        self.pairs.caps(state)
    }

    /// Whether a primitive of the policy may be granted: a limit only where it is allowed.
    pub fn may_grant(&self, state: StateId, prim: Primitive) -> bool
        requires state { state.0 < count (lists_of self.now) }
        requires primitive { Contains (primitives (policy_of self.now.policy) true) prim }
        ensures { result ≡ (states_of (lists_of self.now)).may_grant state.0 prim }
    {
        self.pairs.may_grant(state, prim)
    }

    /// The state after a primitive of the policy was granted.
    pub fn granted(&self, state: StateId, prim: Primitive) -> StateId
        requires state { state.0 < count (lists_of self.now) }
        requires primitive { Contains (primitives (policy_of self.now.policy) true) prim }
        ensures { result.0 ≡ (states_of (lists_of self.now)).granted state.0 prim }
    {
        let index = self.granted_index(prim, self.column(state));
        self.pairs.moved(state, index)
    }

    /// The state after an open of a descriptor of the policy that gave it.
    pub fn opened(&self, state: StateId, descriptor: u8) -> StateId
        requires state { state.0 < count (lists_of self.now) }
        requires descriptor { descriptor < length self.now.policy.descriptors.items }
        ensures { result.0 ≡ (states_of (lists_of self.now)).opened state.0 descriptor }
    {
        let index = self.opened_index(descriptor, self.column(state));
        self.pairs.moved(state, index)
    }

    /// The state after a close of a descriptor of the policy, or an open of it that failed.
    pub fn closed(&self, state: StateId, descriptor: u8) -> StateId
        requires state { state.0 < count (lists_of self.now) }
        requires descriptor { descriptor < length self.now.policy.descriptors.items }
        ensures { result.0 ≡ (states_of (lists_of self.now)).closed state.0 descriptor }
    {
        let index = self.closed_index(descriptor, self.column(state));
        self.pairs.moved(state, index)
    }

    /// Whether the letter of a label breaks a rule. The labels of the policy have their numbers, any other has the
    /// number of these.
    pub fn bad(&self, state: StateId, label: u16) -> bool
        requires state { state.0 < count (lists_of self.now) }
        requires label { label ≤ length self.now.policy.labels.items }
        ensures { result ≡ (states_of (lists_of self.now)).bad state.0 label }
    {
        self.pairs.fact_is_few();
        self.entry(state, label) == 255
    }

    /// The number of the least rule that the letter of a label breaks: None where it breaks none. It takes a step of the
    /// policy's rules.
    pub fn violated(&self, state: StateId, label: u16) -> Option<u8>
        requires state { state.0 < count (lists_of self.now) }
        ensures is { result ≡ violated_in (lists_of self.now) state.0 label }
        ensures bad { is_some result ≡ (states_of (lists_of self.now)).bad state.0 label }
    {
        self.pairs.violated(state, label)
    }

    /// The state after the letter of a label, where it breaks no rule.
    pub fn lettered(&self, state: StateId, label: u16) -> StateId
        requires state { state.0 < count (lists_of self.now) }
        requires label { label ≤ length self.now.policy.labels.items }
        requires good { (states_of (lists_of self.now)).bad state.0 label ≡ false }
        ensures { result.0 ≡ (states_of (lists_of self.now)).lettered state.0 label }
    {
        self.pairs.turned(state, self.entry(state, label))
    }

    /// The state after the return of a split call: the word of the state at the callee's end, with the capabilities of
    /// the state at the call.
    pub fn with_rights(&self, exit: StateId, call: StateId) -> StateId
        requires exit { exit.0 < count (lists_of self.now) }
        requires call { call.0 < count (lists_of self.now) }
        ensures { result.0 ≡ (states_of (lists_of self.now)).with_rights exit.0 call.0 }
    {
        self.pairs.with_rights(exit, call)
    }
}
