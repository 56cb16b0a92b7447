//! Tables of where states lead.

ghost use Rattle.std.specs.Prelude.{◌≡◌, ◌+◌, ◌<◌, ◌≤◌, [], length, map, slice_index, slice_index_or, IfOk};
ghost use Rattle.cw_rights.specs.declared.capabilities.Primitive.TheVariants.{Limit as ALimit};
ghost use Rattle.cw_rights.specs.Policies.{policy_of};
ghost use Rattle.cw_states.specs.declared.acts.Act.TheVariants as act;
ghost use Rattle.cw_states.specs.Growing.{AreHolds, IsNarrow};
ghost use Rattle.cw_states.specs.States.{lists_of};
ghost use Rattle.cw_states.specs.Tables.{AreTables, all_items, entries, indices_after, tabled};

use crate::acts::Act;
use crate::pairs::Pairs;
use cw_rights::{Limit, Policy, Primitive};
use std::alloc::{AllocError, Global};

/// For each rights state the index of the one after enter, after a split, after each limit and after an open and a
/// close of each descriptor; for each label, and one more, and for each state the index of the policy state after the
/// letter, 255 where it breaks a rule.
#[derive(Drop)]
pub(crate) struct Tables {
    pub entered: Vec<u8>,
    pub split: Vec<u8>,
    pub limited: Vec<Vec<u8>>,
    pub opened: Vec<Vec<u8>>,
    pub closed: Vec<Vec<u8>>,
    pub lettered: Vec<Vec<u8>>,
}

/// For each limit where each rights state leads.
fn limited(alloc: Global, pairs: &Pairs, limits: &[Limit]) -> Result<Vec<Vec<u8>>, AllocError>
    requires { AreHolds limits.now }
    ensures { IfOk result (λ v. all_items v.items ≡ map (λ limit. indices_after (lists_of pairs.now) (act.Granted (ALimit limit))) limits.now) }
{
    let mut columns = Vec::new(alloc);
    for limit in limits {
        let act = Act::Granted(Primitive::Limit(*limit));
        columns.push(pairs.indices_after(alloc, act)?)?;
    }
    Ok(columns)
}

/// For each descriptor where each rights state leads when it is opened.
fn opened(alloc: Global, pairs: &Pairs, descriptors: usize) -> Result<Vec<Vec<u8>>, AllocError>
    requires { descriptors ≤ 8 }
    ensures { IfOk result (λ v. all_items v.items ≡ tabled (λ d. indices_after (lists_of pairs.now) (act.Opened d)) descriptors) }
{
    let mut columns = Vec::new(alloc);
    for descriptor in 0..descriptors {
        columns.push(pairs.indices_after(alloc, Act::Opened(descriptor as u8))?)?;
    }
    Ok(columns)
}

/// For each descriptor where each rights state leads when it is closed.
fn closed(alloc: Global, pairs: &Pairs, descriptors: usize) -> Result<Vec<Vec<u8>>, AllocError>
    requires { descriptors ≤ 8 }
    ensures { IfOk result (λ v. all_items v.items ≡ tabled (λ d. indices_after (lists_of pairs.now) (act.Closed d)) descriptors) }
{
    let mut columns = Vec::new(alloc);
    for descriptor in 0..descriptors {
        columns.push(pairs.indices_after(alloc, Act::Closed(descriptor as u8))?)?;
    }
    Ok(columns)
}

/// For each label where each state leads.
fn lettered(alloc: Global, pairs: &Pairs, labels: usize) -> Result<Vec<Vec<u8>>, AllocError>
    requires { labels ≤ 65536 }
    ensures { IfOk result (λ v. all_items v.items ≡ tabled (entries (lists_of pairs.now)) labels) }
{
    let masks = pairs.masks(alloc)?;
    let mut columns = Vec::new(alloc);
    for label in 0..labels {
        columns.push(pairs.entries(alloc, &masks, label as u16)?)?;
    }
    Ok(columns)
}

/// The tables of the pairs of a policy.
pub(crate) fn tables_of(alloc: Global, policy: &Policy, pairs: &Pairs) -> Result<Tables, AllocError>
    requires narrow { IsNarrow (policy_of policy.now) }
    requires labels { length policy.now.labels.items ≤ 65535 }
    requires policy { pairs.now.policy ≡ policy.now }
    ensures { IfOk result (λ t. AreTables (lists_of pairs.now) t) }
{
    let entered = pairs.indices_after(alloc, Act::Granted(Primitive::Enter))?;
    let split = pairs.indices_after(alloc, Act::Granted(Primitive::Split))?;
    let limited = limited(alloc, pairs, &policy.limits)?;
    let opened = opened(alloc, pairs, policy.descriptors.len())?;
    let closed = closed(alloc, pairs, policy.descriptors.len())?;
    let lettered = lettered(alloc, pairs, policy.labels.len() + 1)?;
    Ok(Tables {
        entered,
        split,
        limited,
        opened,
        closed,
        lettered,
    })
}

/// What stands at an index.
pub(crate) fn read(indices: &[u8], index: usize) -> u8
    requires { index < length indices.now }
    ensures { result ≡ slice_index indices.now index }
{
    indices[index]
}

/// What stands at an index of a column.
pub(crate) fn look(columns: &[Vec<u8>], column: usize, index: usize) -> u8
    requires column { column < length (all_items columns.now) }
    requires index { index < length (slice_index_or (all_items columns.now) column []) }
    ensures { result ≡ slice_index (slice_index_or (all_items columns.now) column []) index }
{
    columns[column][index]
}
