//! Policies, read from their texts.

ghost use Rattle.std.specs.Prelude.{◌≡◌, ◌≤◌, None, map, length, nat_lt, IfOk, IfErr, OnOk};
ghost use Rattle.toml.specs.View.{table_view};
ghost use Rattle.indexmap.specs.IndexSet.{index_set_len};
ghost use Rattle.cw_core.specs.Quantities.{limit_of};
ghost use Rattle.cw_rights.specs.Policies.{descriptor_of, policy_of, rule_of};
ghost use Rattle.cw_rights.specs.Valid.{IsValid};
ghost use Rattle.cw_regex.specs.Labels.{names_in};
ghost use Rattle.cw_regex.specs.Meaning.{names_of};
ghost use Rattle.cw_policy.specs.Form as form;
ghost use Rattle.cw_policy.specs.Names as names;
ghost use Rattle.cw_policy.specs.Parts as parts;
ghost use Rattle.cw_policy.specs.Rules.{OrMemory, HaveRules, FirstRefused, rule_texts};
ghost use Rattle.cw_policy.specs.Answer as spec;

use crate::fault::PolicyFault;
use crate::form::{array_at, format_of};
use crate::keys::Key;
use crate::names::{count, early_fault};
use crate::parts::{descriptors_in, labels_of, limits_in, listed, names_of, refuses, stops};
use crate::rules::read_rules;
use crate::sources::sources;
use cw_core::{Quantity, limits};
use cw_dfa::Rules;
use cw_rights::{Descriptor, Limit, Policy, Rule};
use indexmap::IndexSet;
use std::alloc::Global;
use std::mem::forget;
use toml::Table;

/// Whether the rules have more literals than 64 in all.
fn has_many_positions(rules: &[Rule]) -> bool
    requires { length rules.now ≤ limit_of Quantity.Rules }
    ensures { result ≡ nat_lt (limit_of Quantity.RulePositions) (spec.positions (map rule_of rules.now)) }
{
    match Rules::make(rules) {
        Ok(_) => false,
        Err(_) => true,
    }
}

/// The first quantity that is over its limit: limits, rules, literals of rules.
fn quantity_fault(count: usize, rules: &[Rule]) -> Option<PolicyFault>
    ensures { result ≡ spec.quantity_fault count (map rule_of rules.now) }
{
    if count > limits::LIMITS {
        return Some(PolicyFault::Limit(Quantity::Limits));
    }
    if rules.len() > limits::RULES {
        return Some(PolicyFault::Limit(Quantity::Rules));
    }
    if has_many_positions(rules) {
        return Some(PolicyFault::Limit(Quantity::RulePositions));
    }
    None
}

/// The labels of the tables `at`, numbered in their order.
fn labels_from(alloc: Global, table: &Table) -> Result<IndexSet<Vec<u8>>, PolicyFault>
    ensures labels { IfOk result (λ labels. names_in labels.keys ≡ spec.at_labels (table_view table.now)) }
    ensures few { IfOk result (λ labels. index_set_len labels ≤ 65535) }
    ensures fault { IfErr result (λ f. f ≡ PolicyFault.NoMemory) }
{
    match labels_of(alloc, array_at(table, Key::Ats)) {
        Ok(labels) => {
            if labels.len() > 65535 {
                Err(PolicyFault::NoMemory)
            } else {
                Ok(labels)
            }
        }
        Err(_) => Err(PolicyFault::NoMemory),
    }
}

/// The rules of a policy: its tests, and then its expressions, whose labels are numbered on.
fn rules_from(
    alloc: Global,
    table: &Table,
    descriptors: &[Descriptor],
    labels: &mut IndexSet<Vec<u8>>,
) -> Result<Vec<Rule>, PolicyFault>
    requires few { length descriptors.now ≤ limit_of Quantity.Descriptors }
    requires names { index_set_len labels.old ≤ 65535 }
    ensures rules { IfOk result (λ list. HaveRules (form.format_of (table_view table.now)) (names_of descriptors.now)
        (names_in labels.old.keys) (rule_texts (table_view table.now)) (map rule_of list.items) (names_in labels.new.keys)) }
    ensures names { OnOk result (index_set_len labels.new ≤ 65535) }
    ensures fault { IfErr result (OrMemory (FirstRefused (form.format_of (table_view table.now)) (names_of descriptors.now) (names_in labels.old.keys) (rule_texts (table_view table.now)))) }
{
    match sources(alloc, table) {
        Ok(list) => read_rules(alloc, format_of(table), &list, descriptors, labels),
        Err(_) => Err(PolicyFault::NoMemory),
    }
}

/// The policy of a tree, given its descriptors, labels and rules.
#[tactic(auto, using(crate::proofs::Whole::names_are))]
fn policy_with(
    alloc: Global,
    table: &Table,
    descriptors: Vec<Descriptor>,
    labels: &IndexSet<Vec<u8>>,
    rules: Vec<Rule>,
) -> Result<Policy, PolicyFault>
    requires descriptors { map descriptor_of descriptors.items ≡ parts.descriptors_in (form.format_of (table_view table.now)) (form.array_at Key.Descriptors (table_view table.now)) }
    requires few { length descriptors.items ≤ limit_of Quantity.Descriptors }
    ensures policy { IfOk result (λ p. policy_of p ≡ spec.policy_with (table_view table.now) (names_in labels.now.keys) (map rule_of rules.items)) }
    ensures splits { IfOk result (λ p. length p.split.items ≤ 65535) }
    ensures detached { IfOk result (λ p. length p.detached.items ≤ 65535) }
    ensures fault { IfErr result (λ f. f ≡ PolicyFault.NoMemory) }
{
    let format = format_of(table);
    let limits = limits_in(alloc, format, &descriptors, array_at(table, Key::Limits)).map_err(
        |_| PolicyFault::NoMemory,
    )?;
    let split = names_of(alloc, array_at(table, Key::Split)).map_err(|_| PolicyFault::NoMemory)?;
    if split.len() > 65535 {
        return Err(PolicyFault::NoMemory);
    }
    let detached = names_of(alloc, array_at(table, Key::Detached)).map_err(
        |_| PolicyFault::NoMemory,
    )?;
    if detached.len() > 65535 {
        return Err(PolicyFault::NoMemory);
    }
    let labels = listed(alloc, labels).map_err(|_| PolicyFault::NoMemory)?;
    Ok(Policy {
        descriptors,
        limits,
        refuse_limit: refuses(table, "limit"),
        refuse_enter: refuses(table, "enter"),
        refuse_split: refuses(table, "split"),
        split,
        labels,
        rules,
        stop: stops(table),
        format,
        detached,
    })
}

/// The same, where no quantity is over its limit.
fn judged(
    alloc: Global,
    table: &Table,
    descriptors: Vec<Descriptor>,
    labels: &IndexSet<Vec<u8>>,
    rules: Vec<Rule>,
) -> Result<Policy, PolicyFault>
    requires early { names.early_fault (table_view table.now) ≡ None }
    requires descriptors { map descriptor_of descriptors.items ≡ parts.descriptors_in (form.format_of (table_view table.now)) (form.array_at Key.Descriptors (table_view table.now)) }
    requires few { length descriptors.items ≤ limit_of Quantity.Descriptors }
    requires rules { HaveRules (form.format_of (table_view table.now)) (spec.descriptor_names (table_view table.now))
        (spec.at_labels (table_view table.now)) (rule_texts (table_view table.now)) (map rule_of rules.items) (names_in labels.now.keys) }
    ensures policy { IfOk result (λ p. spec.HasPolicy (table_view table.now) (policy_of p)) }
    ensures splits { IfOk result (λ p. length p.split.items ≤ 65535) }
    ensures detached { IfOk result (λ p. length p.detached.items ≤ 65535) }
    ensures labels { IfOk result (λ p. map (λ name. name.items) p.labels.items ≡ names_in labels.now.keys) }
    ensures fault { IfErr result (OrMemory (spec.IsLateFault (table_view table.now))) }
{
    if let Some(fault) = quantity_fault(count(array_at(table, Key::Limits)), &rules) {
        return Err(fault);
    }
    match policy_with(alloc, table, descriptors, labels, rules) {
        Ok(policy) => Ok(policy),
        Err(_) => Err(PolicyFault::NoMemory),
    }
}

/// The policy of a tree that has the form and names what is known.
fn policy_from(alloc: Global, table: &Table) -> Result<Policy, PolicyFault>
    requires early { names.early_fault (table_view table.now) ≡ None }
    ensures policy { IfOk result (λ p. spec.HasPolicy (table_view table.now) (policy_of p)) }
    ensures splits { IfOk result (λ p. length p.split.items ≤ 65535) }
    ensures detached { IfOk result (λ p. length p.detached.items ≤ 65535) }
    ensures labels { IfOk result (λ p. length p.labels.items ≤ 65535) }
    ensures fault { IfErr result (OrMemory (spec.IsLateFault (table_view table.now))) }
{
    let Ok(descriptors) = descriptors_in(alloc, format_of(table), array_at(table, Key::Descriptors))
    else {
        return Err(PolicyFault::NoMemory);
    };
    let mut labels = labels_from(alloc, table)?;
    match rules_from(alloc, table, &descriptors, &mut labels) {
        Err(fault) => Err(fault),
        Ok(rules) => match judged(alloc, table, descriptors, &labels, rules) {
            Ok(policy) => Ok(policy),
            Err(fault) => Err(fault),
        },
    }
}

/// The policy of a tree, or what is wrong first.
fn read_table(alloc: Global, table: &Table) -> Result<Policy, PolicyFault>
    ensures policy { IfOk result (λ p. spec.HasPolicy (table_view table.now) (policy_of p)) }
    ensures splits { IfOk result (λ p. length p.split.items ≤ 65535) }
    ensures detached { IfOk result (λ p. length p.detached.items ≤ 65535) }
    ensures labels { IfOk result (λ p. length p.labels.items ≤ 65535) }
    ensures fault { IfErr result (OrMemory (spec.IsFaultOf (table_view table.now))) }
{
    match early_fault(table) {
        Some(fault) => Err(fault),
        None => match policy_from(alloc, table) {
            Ok(policy) => Ok(policy),
            Err(fault) => Err(fault),
        },
    }
}

/// Reads a policy from its text.
///
/// The text is UTF-8 and TOML, and its tree is written as its format, 1 or 2, says: see the crate's page. The policy
/// that is handed over is valid. A refusal is the first in this order:
///
/// 1. `Toml`: the text isn't UTF-8 or isn't TOML.
/// 2. Table by table, the root first and then the arrays `descriptor`, `limit`, `at` and `rule`: `Missing` for the
///    required keys in order, `Unknown` where a key isn't listed (`detached` is listed in format 2 alone), `Kind` for
///    each key in order whose value has another form.
/// 3. `Unknown` for the name of a right or a descriptor that isn't known, table by table. Which rights have a name is a
///    matter of the format.
/// 4. `Twice` for a descriptor's name, then a split function, then a detached function, then a rule's name that stands
///    twice.
/// 5. `Limit` of the descriptors.
/// 6. Rule by rule, the tests of the tables `at` first: `Kind` of a test that is none or has an unknown name; `Regex` of
///    an expression, with the number of its table, or `Limit` of nesting where its parentheses nest too deep.
/// 7. `Limit` of the limits, the rules and the rule positions, in this order.
///
/// Want of memory may be answered at any time.
pub fn read_policy(alloc: Global, text: &[u8]) -> Result<Policy, PolicyFault>
    ensures policy { IfOk result (λ p. spec.Spells text.now (policy_of p)) }
    ensures valid { IfOk result (λ p. IsValid (policy_of p)) }
    ensures fault { IfErr result (spec.IsFault text.now) }
{
    let Ok(text) = str::from_utf8(text) else {
        return Err(PolicyFault::Toml);
    };
    match toml::table_from_str(alloc, text) {
        Ok(table) => match read_table(alloc, &table) {
            Ok(policy) => {
                // The end of the process gives the blocks of the tree back at once.
                forget(table);
                Ok(policy)
            }
            Err(fault) => Err(fault),
        },
        Err(fault) => {
            if fault.is_memory() {
                Err(PolicyFault::NoMemory)
            } else {
                Err(PolicyFault::Toml)
            }
        }
    }
}
