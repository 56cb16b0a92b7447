//! The form of a source.

ghost use Rattle.std.specs.Prelude.{◌≡◌, ◌⊎◌, ◌≤◌, None, Some, true, map, length, IfOk, IfErr};
ghost use Rattle.cw_syntax.specs.Plans.{function_names};
ghost use Rattle.cw_syntax.specs.Trees.{file_of};
ghost use Rattle.cw_rights.specs.Policies.{policy_of};
ghost use Rattle.cw_rights.specs.Valid.{IsValid};
ghost use Rattle.cw_scope.specs.Held.{nested_of};
ghost use Rattle.cw_scope.specs.Rules.{is_main};
ghost use Rattle.cw_scope.specs.Walks.{every_statement};
ghost use Rattle.cw_source.specs.Read.{ReadsAs};
ghost use Rattle.cw_resolve.specs.Held.{lists};
ghost use Rattle.cw_detach.specs.Form.{form_of};
ghost use Rattle.cw_detach.specs.Faults.{is_function, no_function, both, result_taken, long, deep, is_shallow, name_fault, IsTextFault, IsFirstFault, IsDetachFault};

use crate::faults::ProcFault;
use crate::form::form_of;
use crate::names::is_among;
use crate::nesting::are_shallow;
use crate::spans::{first_result, spans};
use crate::tokens::taken;
use cw_core::limits::SOURCE_BYTES;
use cw_core::{NoMemory, Quantity, limits};
use cw_resolve::Scene;
use cw_rights::Policy;
use cw_scope::{Nested, every_statement};
use cw_syntax::checked::Checked;
use std::alloc::{AllocError, Global};

/// Whether a name is `main`.
fn is_main(name: &[u8]) -> bool
    ensures { result ≡ is_main name.now }
{
    name == b"main".as_slice()
}

/// Whether a name is that of a function which the source defines, and not `main`.
fn is_function(scene: &Scene, checked: &Checked, name: &[u8]) -> bool
    requires { scene.now.functions ≡ function_names checked.now.source.now (file_of checked.now.program) }
    ensures { result ≡ is_function checked.now.source.now (file_of checked.now.program) name.now }
{
    let _ = checked;
    scene.function_named(name).is_some() && !is_main(name)
}

/// The first detached name that is no function.
#[tactic(auto, unfolding(crate::specs::Faults::no_function))]
fn no_function(scene: &Scene, checked: &Checked, detached: &[Vec<u8>]) -> Option<ProcFault>
    requires few { length detached.now ≤ 65535 }
    requires functions { scene.now.functions ≡ function_names checked.now.source.now (file_of checked.now.program) }
    ensures { result ≡ no_function checked.now.source.now (file_of checked.now.program) (lists detached.now) }
{
    for (i, name) in detached.iter().enumerate() {
        if !is_function(scene, checked, name) {
            return Some(ProcFault::NoFunction(i as u16));
        }
    }
    None
}

/// The first detached name that is also split.
#[tactic(auto, unfolding(crate::specs::Faults::both))]
fn both(split: &[Vec<u8>], detached: &[Vec<u8>]) -> Option<ProcFault>
    requires { length detached.now ≤ 65535 }
    ensures { result ≡ both (lists split.now) (lists detached.now) }
{
    for (i, name) in detached.iter().enumerate() {
        if is_among(split, name) {
            return Some(ProcFault::Both(i as u16));
        }
    }
    None
}

/// The first call of a detached function whose result a statement takes. The statements are those of the program.
#[tactic(auto, unfolding(crate::specs::Faults::result_taken))]
fn result_taken(checked: &Checked, detached: &[Vec<u8>], statements: &[Nested]) -> Option<ProcFault>
    requires { map nested_of statements.now ≡ every_statement (file_of checked.now.program) }
    ensures { result ≡ result_taken checked.now.source.now (file_of checked.now.program) (lists detached.now) }
{
    match first_result(checked.source, detached, statements) {
        None => None,
        Some(place) => Some(ProcFault::Result(place)),
    }
}

/// A form of more bytes than a source may have.
#[tactic(auto, unfolding(crate::specs::Faults::long))]
fn long(form: &[u8]) -> Option<ProcFault>
    ensures { result ≡ long form.now }
{
    if form.len() > limits::SOURCE_BYTES {
        Some(ProcFault::Limit(Quantity::SourceBytes))
    } else {
        None
    }
}

/// A form that nests deeper than a source may.
#[tactic(auto, unfolding(crate::specs::Faults::deep))]
fn deep(checked: &Checked, detached: &[Vec<u8>]) -> Option<ProcFault>
    ensures { result ≡ deep checked.now.source.now (file_of checked.now.program) (lists detached.now) }
{
    if are_shallow(checked.source, detached, &checked.program.functions) {
        None
    } else {
        Some(ProcFault::Limit(Quantity::Nesting))
    }
}

/// The bytes of the form. The statements are those of the program.
#[tactic(auto, unfolding(crate::specs::Form::form_of))]
fn text_of(
    alloc: Global,
    checked: &Checked,
    detached: &[Vec<u8>],
    statements: &[Nested],
) -> Result<Vec<u8>, NoMemory>
    requires { map nested_of statements.now ≡ every_statement (file_of checked.now.program) }
    ensures { IfOk result (λ form. form.items ≡ form_of checked.now.source.now (lists detached.now) (file_of checked.now.program)) }
{
    let spans = spans(alloc, checked.source, detached, statements)?;
    form_of(alloc, checked.source, &spans)
}

/// The first of the rules behind those on names that is broken. The statements are those of the program, and this is its form.
fn text_fault(
    alloc: Global,
    checked: &Checked,
    detached: &[Vec<u8>],
    statements: &[Nested],
    form: &[u8],
) -> Result<Option<ProcFault>, NoMemory>
    requires short { length checked.now.source.now ≤ SOURCE_BYTES }
    requires reads { ReadsAs checked.now.source.now (file_of checked.now.program) }
    requires statements { map nested_of statements.now ≡ every_statement (file_of checked.now.program) }
    requires form { form.now ≡ form_of checked.now.source.now (lists detached.now) (file_of checked.now.program) }
    ensures { IfOk result (IsTextFault checked.now.source.now (file_of checked.now.program) (lists detached.now)) }
{
    let taken = taken(alloc, checked)?;
    Ok(
        taken
            .or(result_taken(checked, detached, statements))
            .or(long(form))
            .or(deep(checked, detached)),
    )
}

/// The form, where the rules behind those on names are kept.
fn text(alloc: Global, checked: &Checked, detached: &[Vec<u8>]) -> Result<Vec<u8>, ProcFault>
    requires short { length checked.now.source.now ≤ SOURCE_BYTES }
    requires reads { ReadsAs checked.now.source.now (file_of checked.now.program) }
    ensures form { IfOk result (λ form. form.items ≡ form_of checked.now.source.now (lists detached.now) (file_of checked.now.program)) }
    ensures clear { IfOk result (λ _. IsTextFault checked.now.source.now (file_of checked.now.program) (lists detached.now) None) }
    ensures few { IfOk result (λ form. length form.items ≤ SOURCE_BYTES) }
    ensures shallow { IfOk result (λ _. is_shallow checked.now.source.now (file_of checked.now.program) (lists detached.now) ≡ true) }
    ensures fault { IfErr result (λ fault. (fault ≡ ProcFault.NoMemory) ⊎ IsTextFault checked.now.source.now (file_of checked.now.program) (lists detached.now) (Some fault)) }
{
    let statements = every_statement(alloc, &checked.program)?;
    let form = text_of(alloc, checked, detached, &statements)?;
    match text_fault(alloc, checked, detached, &statements, &form)? {
        None => Ok(form),
        Some(fault) => Err(fault),
    }
}

/// The first rule on names that is broken.
fn name_fault(scene: &Scene, checked: &Checked, policy: &Policy) -> Option<ProcFault>
    requires valid { IsValid (policy_of policy.now) }
    requires functions { scene.now.functions ≡ function_names checked.now.source.now (file_of checked.now.program) }
    ensures { result ≡ name_fault checked.now.source.now (file_of checked.now.program) (policy_of policy.now) }
{
    no_function(scene, checked, &policy.detached).or(both(&policy.split, &policy.detached))
}

/// The first rule on names that is broken, by the source's scene under the policy.
fn name_fault_under(
    alloc: Global,
    checked: &Checked,
    policy: &Policy,
) -> Result<Option<ProcFault>, AllocError>
    requires valid { IsValid (policy_of policy.now) }
    ensures { IfOk result (λ fault. fault ≡ name_fault checked.now.source.now (file_of checked.now.program) (policy_of policy.now)) }
{
    let scene = Scene::under(alloc, checked, policy)?;
    Ok(name_fault(&scene, checked, policy))
}

/// The form of a source that was read, under a policy that detaches functions: the source with each statement `f(ARGS);` of a detached
/// function between `{if(!fork()){` and `_exit(0);for(;;);}}`, and all else as it was.
///
/// Refused is, in this order: a detached name that is no function of the source, or is `main`, by the first such; one that is also
/// split, by the first; a token `fork` or `_exit`, by the place of the first; a call of a detached function whose result is taken, by
/// the place of the first; a form of more than 262,144 bytes; one whose statements nest more than 64 deep.
///
/// Public source: fork(2), _exit(2); ISO/IEC 9899:2011, 6.8 and 6.9.
pub fn detach(alloc: Global, checked: &Checked, policy: &Policy) -> Result<Vec<u8>, ProcFault>
    requires valid { IsValid (policy_of policy.now) }
    requires short { length checked.now.source.now ≤ SOURCE_BYTES }
    requires reads { ReadsAs checked.now.source.now (file_of checked.now.program) }
    ensures form { IfOk result (λ form. form.items ≡ form_of checked.now.source.now (policy_of policy.now).detached (file_of checked.now.program)) }
    ensures few { IfOk result (λ form. length form.items ≤ SOURCE_BYTES) }
    ensures shallow { IfOk result (λ _. is_shallow checked.now.source.now (file_of checked.now.program) (policy_of policy.now).detached ≡ true) }
    ensures clear { IfOk result (λ _. IsFirstFault checked.now.source.now (file_of checked.now.program) (policy_of policy.now) None) }
    ensures fault { IfErr result (IsDetachFault checked.now.source.now (file_of checked.now.program) (policy_of policy.now)) }
{
    match name_fault_under(alloc, checked, policy)? {
        None => text(alloc, checked, &policy.detached),
        Some(fault) => Err(fault),
    }
}
