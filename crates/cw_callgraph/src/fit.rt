//! Whether a policy fits a source.

ghost use Rattle.std.specs.Prelude.{◌≡◌, ◌<◌, ◌≤◌, None, length, map, IfOk, IfErr, IfNone, IfSome};
ghost use Rattle.std.specs.List.{All};
ghost use Rattle.cw_syntax.specs.Plans.{function_names};
ghost use Rattle.cw_syntax.specs.Trees.{file_of};
ghost use Rattle.cw_rights.specs.Policies.{policy_of};
ghost use Rattle.cw_resolve.specs.Scenes.{names_of, scene_in};
ghost use Rattle.cw_resolve.specs.Own.{own_scene};
ghost use Rattle.cw_callgraph.specs.Tabled.{AreEffectsOf};
ghost use Rattle.cw_callgraph.specs.Fitting.{first_unlabelled, first_undefined, MayBeSplit, IsFirstForbidden, Fits, IsFitFault};
ghost use Rattle.cw_callgraph.specs.Forbidding.{Forbids, IsLeast};
ghost use Rattle.cw_callgraph.specs.Parts.{ArePartsOf, IsBarred};
ghost use Rattle.cw_callgraph.specs.Barring.{barred, first_barred, first_without_label, first_without_function};

use crate::alone::bar_alone;
use crate::table::{Effect, EffectTable, Parts, bar_of, parts_in};
use cw_core::NoMemory;
use cw_resolve::{Scene, function_named, is_label};
use cw_rights::Policy;
use cw_syntax::checked::Checked;
use std::alloc::Global;
use thiserror::Error;

/// Of up to so many names of a policy each is looked for in a source by a walk.
const FEW: usize = 6;

/// Of up to so many functions that a policy splits, each is asked by a walk over what it reaches alone.
const FEW_SPLIT: usize = 2;

/// What of a policy a source doesn't fit first, in this order. A label and a function to be split have their numbers in the policy's
/// lists; a place is counted in bytes from the front of the source.
#[derive(Clone, Copy, Drop, Debug, PartialEq, Eq, Error)]
pub enum FitFault {
    /// The source has no label of this name.
    #[error("no label")]
    NoLabel(u16),
    /// The source defines no function of this name.
    #[error("no function")]
    NoFunction(u16),
    /// This function may not be split; at this place something forbids it.
    #[error("not splittable")]
    NotSplittable(u16, u32),
}

/// The first of these names that no label has, by a walk for each.
fn first_unlabelled(checked: &Checked, names: &[Vec<u8>]) -> Option<u16>
    requires { length names.now ≤ 65535 }
    ensures { result ≡ first_unlabelled checked.now.source.now (file_of checked.now.program) (map (λ n. n.items) names.now) }
{
    for (i, name) in names.iter().enumerate() {
        if !is_label(checked.source, name, &checked.program) {
            return Some(i as u16);
        }
    }
    None
}

/// The first of these names that no function has, by a walk for each.
fn first_undefined(checked: &Checked, names: &[Vec<u8>]) -> Option<u16>
    requires { length names.now ≤ 65535 }
    ensures { result ≡ first_undefined checked.now.source.now (file_of checked.now.program) (map (λ n. n.items) names.now) }
{
    for (i, name) in names.iter().enumerate() {
        if function_named(checked, name).is_none() {
            return Some(i as u16);
        }
    }
    None
}

/// The first of these names that no label of a scene has.
fn first_without_label(scene: &Scene, names: &[Vec<u8>]) -> Option<u16>
    requires { length names.now ≤ 65535 }
    ensures { result ≡ first_without_label scene.now.names.labels (map (λ n. n.items) names.now) }
{
    for (i, name) in names.iter().enumerate() {
        if !scene.has_label(name) {
            return Some(i as u16);
        }
    }
    None
}

/// The first of these names that no function of a scene has.
fn first_without_function(scene: &Scene, names: &[Vec<u8>]) -> Option<u16>
    requires { length names.now ≤ 65535 }
    ensures { result ≡ first_without_function scene.now.functions (map (λ n. n.items) names.now) }
{
    for (i, name) in names.iter().enumerate() {
        if scene.function_named(name).is_none() {
            return Some(i as u16);
        }
    }
    None
}

/// The label or the function that a policy names and the source hasn't, first in the policy's order, labels before functions: this label,
/// or this function.
fn missing(
    policy: &Policy,
    checked: &Checked,
    label: Option<u16>,
    function: Option<u16>,
) -> Option<FitFault>
    requires label { label ≡ first_unlabelled checked.now.source.now (file_of checked.now.program) (policy_of policy.now).labels }
    requires function { function ≡ first_undefined checked.now.source.now (file_of checked.now.program) (policy_of policy.now).split }
    ensures labelled { IfNone result (first_unlabelled checked.now.source.now (file_of checked.now.program) (policy_of policy.now).labels ≡ None) }
    ensures defined { IfNone result (first_undefined checked.now.source.now (file_of checked.now.program) (policy_of policy.now).split ≡ None) }
    ensures fault { IfSome result (IsFitFault checked.now.source.now (file_of checked.now.program) (policy_of policy.now)) }
{
    let _ = policy;
    let _ = checked;
    match label {
        Some(label) => Some(FitFault::NoLabel(label)),
        None => match function {
            Some(function) => Some(FitFault::NoFunction(function)),
            None => None,
        },
    }
}

/// The least place that forbids splitting the function of this name, by its effects.
fn barred(checked: &Checked, effects: &[Effect], name: &[u8]) -> Option<u32>
    requires count { length effects.now ≡ length checked.now.program.functions.items }
    ensures { result ≡ barred effects.now (function_names checked.now.source.now (file_of checked.now.program)) name.now }
{
    match function_named(checked, name) {
        None => None,
        Some(function) => effects[function].forbids,
    }
}

/// The first of these names whose function may not be split, and the least place that forbids it, by the effects.
fn first_barred(checked: &Checked, effects: &[Effect], names: &[Vec<u8>]) -> Option<(u16, u32)>
    requires few { length names.now ≤ 65535 }
    requires count { length effects.now ≡ length checked.now.program.functions.items }
    ensures { result ≡ first_barred effects.now (function_names checked.now.source.now (file_of checked.now.program)) 0 (map (λ n. n.items) names.now) }
{
    for (i, name) in names.iter().enumerate() {
        if let Some(place) = barred(checked, effects, name) {
            return Some((i as u16, place));
        }
    }
    None
}

/// Whether every label and every function to be split that a policy names is in the source, and each of these functions may be split.
/// The effects are those of the source under the policy. The labels are tested first, then whether the functions are there, then
/// whether they may be split, each in the policy's order.
pub fn fits(policy: &Policy, checked: &Checked, effects: &EffectTable) -> Result<(), FitFault>
    requires labels { length (policy_of policy.now).labels ≤ 65535 }
    requires split { length (policy_of policy.now).split ≤ 65535 }
    requires effects { AreEffectsOf checked.now (policy_of policy.now) effects.now.of.items }
    ensures fits { IfOk result (λ _. Fits checked.now.source.now (file_of checked.now.program) (policy_of policy.now)) }
    ensures fault { IfErr result (λ fault. IsFitFault checked.now.source.now (file_of checked.now.program) (policy_of policy.now) fault) }
{
    let label = first_unlabelled(checked, &policy.labels);
    let function = first_undefined(checked, &policy.split);
    if let Some(fault) = missing(policy, checked, label, function) {
        return Err(fault);
    }
    match first_barred(checked, &effects.of, &policy.split) {
        None => Ok(()),
        Some((function, place)) => Err(FitFault::NotSplittable(function, place)),
    }
}

/// What the effects of all functions are found out from, where a policy splits so many that a walk for each would take longer.
fn parts_of_many(
    alloc: Global,
    scene: &Scene,
    policy: &Policy,
    checked: &Checked,
) -> Result<Option<Parts>, NoMemory>
    requires scene { scene.now ≡ scene_in checked.now (policy_of policy.now) }
    requires few { length checked.now.program.functions.items ≤ 65535 }
    ensures { IfOk result (λ parts. IfSome parts (ArePartsOf checked.now (policy_of policy.now))) }
{
    if policy.split.len() <= FEW_SPLIT {
        return Ok(None);
    }
    let parts = parts_in(alloc, scene, checked, policy)?;
    Ok(Some(parts))
}

/// The least place that forbids splitting the function with this number: by the parts where there are any, else by a walk.
fn bar_of_number(
    alloc: Global,
    scene: &Scene,
    policy: &Policy,
    checked: &Checked,
    parts: &Option<Parts>,
    function: usize,
) -> Result<Option<u32>, NoMemory>
    requires scene { scene.now ≡ scene_in checked.now (policy_of policy.now) }
    requires few { length checked.now.program.functions.items ≤ 65535 }
    requires parts { IfSome parts.now (ArePartsOf checked.now (policy_of policy.now)) }
    requires within { function < length checked.now.program.functions.items }
    ensures { IfOk result (IsLeast (Forbids (names_of (policy_of policy.now)) checked.now.source.now (file_of checked.now.program) function)) }
{
    let _ = policy;
    match parts {
        Some(parts) => bar_of(alloc, &parts.calls, &parts.bars, function),
        None => bar_alone(alloc, scene, &checked.program, function),
    }
}

/// The least place that forbids splitting the function of this name.
fn bar_of_name(
    alloc: Global,
    scene: &Scene,
    policy: &Policy,
    checked: &Checked,
    parts: &Option<Parts>,
    name: &[u8],
) -> Result<Option<u32>, NoMemory>
    requires scene { scene.now ≡ scene_in checked.now (policy_of policy.now) }
    requires few { length checked.now.program.functions.items ≤ 65535 }
    requires parts { IfSome parts.now (ArePartsOf checked.now (policy_of policy.now)) }
    ensures none { IfOk result (λ place. IfNone place (MayBeSplit checked.now.source.now (file_of checked.now.program) (names_of (policy_of policy.now)) name.now)) }
    ensures some { IfOk result (λ place. IfSome place (IsBarred checked.now.source.now (file_of checked.now.program) (names_of (policy_of policy.now)) name.now)) }
{
    match scene.function_named(name) {
        None => Ok(None),
        Some(function) => bar_of_number(alloc, scene, policy, checked, parts, function),
    }
}

/// The first of these names whose function may not be split, and the least place that forbids it.
fn first_forbidden(
    alloc: Global,
    scene: &Scene,
    policy: &Policy,
    checked: &Checked,
    parts: &Option<Parts>,
    names: &[Vec<u8>],
) -> Result<Option<(u16, u32)>, NoMemory>
    requires scene { scene.now ≡ scene_in checked.now (policy_of policy.now) }
    requires functions { length checked.now.program.functions.items ≤ 65535 }
    requires few { length names.now ≤ 65535 }
    requires parts { IfSome parts.now (ArePartsOf checked.now (policy_of policy.now)) }
    ensures none { IfOk result (λ found. IfNone found (All (MayBeSplit checked.now.source.now (file_of checked.now.program) (names_of (policy_of policy.now))) (map (λ n. n.items) names.now))) }
    ensures some { IfOk result (λ found. IfSome found (λ w. IsFirstForbidden checked.now.source.now (file_of checked.now.program) (names_of (policy_of policy.now)) (map (λ n. n.items) names.now) w.0 w.1)) }
{
    for (i, name) in names.iter().enumerate() {
        if let Some(place) = bar_of_name(alloc, scene, policy, checked, parts, name)? {
            return Ok(Some((i as u16, place)));
        }
    }
    Ok(None)
}

/// The label or the function that a policy names and the source hasn't, in the source's own scene.
fn missing_in(scene: &Scene, policy: &Policy, checked: &Checked) -> Option<FitFault>
    requires scene { scene.now ≡ own_scene checked.now }
    requires labels { length (policy_of policy.now).labels ≤ 65535 }
    requires split { length (policy_of policy.now).split ≤ 65535 }
    ensures labelled { IfNone result (first_unlabelled checked.now.source.now (file_of checked.now.program) (policy_of policy.now).labels ≡ None) }
    ensures defined { IfNone result (first_undefined checked.now.source.now (file_of checked.now.program) (policy_of policy.now).split ≡ None) }
    ensures fault { IfSome result (IsFitFault checked.now.source.now (file_of checked.now.program) (policy_of policy.now)) }
{
    let label = first_without_label(scene, &policy.labels);
    let function = first_without_function(scene, &policy.split);
    missing(policy, checked, label, function)
}

/// The same of a policy with few names.
fn missing_of_few(policy: &Policy, checked: &Checked) -> Option<FitFault>
    requires labels { length (policy_of policy.now).labels ≤ 65535 }
    requires split { length (policy_of policy.now).split ≤ 65535 }
    ensures labelled { IfNone result (first_unlabelled checked.now.source.now (file_of checked.now.program) (policy_of policy.now).labels ≡ None) }
    ensures defined { IfNone result (first_undefined checked.now.source.now (file_of checked.now.program) (policy_of policy.now).split ≡ None) }
    ensures fault { IfSome result (IsFitFault checked.now.source.now (file_of checked.now.program) (policy_of policy.now)) }
{
    let label = first_unlabelled(checked, &policy.labels);
    let function = first_undefined(checked, &policy.split);
    missing(policy, checked, label, function)
}

/// The same of any policy: where it has few names, a walk for each costs less than a scene.
fn any_missing(
    alloc: Global,
    policy: &Policy,
    checked: &Checked,
) -> Result<Option<FitFault>, NoMemory>
    requires labels { length (policy_of policy.now).labels ≤ 65535 }
    requires split { length (policy_of policy.now).split ≤ 65535 }
    ensures labelled { IfOk result (λ found. IfNone found (first_unlabelled checked.now.source.now (file_of checked.now.program) (policy_of policy.now).labels ≡ None)) }
    ensures defined { IfOk result (λ found. IfNone found (first_undefined checked.now.source.now (file_of checked.now.program) (policy_of policy.now).split ≡ None)) }
    ensures fault { IfOk result (λ found. IfSome found (IsFitFault checked.now.source.now (file_of checked.now.program) (policy_of policy.now))) }
{
    if policy.labels.len() <= FEW && policy.split.len() <= FEW {
        return Ok(missing_of_few(policy, checked));
    }
    let scene = Scene::own(alloc, checked)?;
    Ok(missing_in(&scene, policy, checked))
}

/// The first function of those that a policy splits that may not be split, and the least place that forbids it, in the scene of a source
/// under the policy.
fn forbidden_in(
    alloc: Global,
    scene: &Scene,
    policy: &Policy,
    checked: &Checked,
) -> Result<Option<(u16, u32)>, NoMemory>
    requires scene { scene.now ≡ scene_in checked.now (policy_of policy.now) }
    requires split { length (policy_of policy.now).split ≤ 65535 }
    requires few { length checked.now.program.functions.items ≤ 65535 }
    ensures none { IfOk result (λ found. IfNone found (All (MayBeSplit checked.now.source.now (file_of checked.now.program) (names_of (policy_of policy.now))) (policy_of policy.now).split)) }
    ensures some { IfOk result (λ found. IfSome found (λ w. IsFirstForbidden checked.now.source.now (file_of checked.now.program) (names_of (policy_of policy.now)) (policy_of policy.now).split w.0 w.1)) }
{
    let parts = parts_of_many(alloc, scene, policy, checked)?;
    first_forbidden(alloc, scene, policy, checked, &parts, &policy.split)
}

/// The same, in a scene that is made for it, and only where the policy splits functions.
fn any_forbidden(
    alloc: Global,
    policy: &Policy,
    checked: &Checked,
) -> Result<Option<(u16, u32)>, NoMemory>
    requires split { length (policy_of policy.now).split ≤ 65535 }
    requires few { length checked.now.program.functions.items ≤ 65535 }
    ensures none { IfOk result (λ found. IfNone found (All (MayBeSplit checked.now.source.now (file_of checked.now.program) (names_of (policy_of policy.now))) (policy_of policy.now).split)) }
    ensures some { IfOk result (λ found. IfSome found (λ w. IsFirstForbidden checked.now.source.now (file_of checked.now.program) (names_of (policy_of policy.now)) (policy_of policy.now).split w.0 w.1)) }
{
    if policy.split.is_empty() {
        return Ok(None);
    }
    let scene = Scene::under(alloc, checked, policy)?;
    forbidden_in(alloc, &scene, policy, checked)
}

/// What of a policy a source doesn't fit first, or None where it fits: what `fits` answers, with the effects found out where the
/// policy splits functions, and only there: what these functions reach, and no others.
pub fn fit_fault(
    alloc: Global,
    policy: &Policy,
    checked: &Checked,
) -> Result<Option<FitFault>, NoMemory>
    requires labels { length (policy_of policy.now).labels ≤ 65535 }
    requires split { length (policy_of policy.now).split ≤ 65535 }
    requires few { length checked.now.program.functions.items ≤ 65535 }
    ensures fits { IfOk result (λ found. IfNone found (Fits checked.now.source.now (file_of checked.now.program) (policy_of policy.now))) }
    ensures fault { IfOk result (λ found. IfSome found (IsFitFault checked.now.source.now (file_of checked.now.program) (policy_of policy.now))) }
{
    if let Some(fault) = any_missing(alloc, policy, checked)? {
        return Ok(Some(fault));
    }
    match any_forbidden(alloc, policy, checked)? {
        None => Ok(None),
        Some((function, place)) => Ok(Some(FitFault::NotSplittable(function, place))),
    }
}
