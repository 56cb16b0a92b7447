//! The rules for the variables that a policy's descriptors name.

ghost use Rattle.std.specs.Prelude.{◌≡◌, ◌≤◌, None, map, length, IfOk, IfErr};
ghost use Rattle.std.specs.List.{list_any};
ghost use Rattle.std.specs.Str.{bytes_eq};
ghost use Rattle.cw_syntax.specs.Names.{text};
ghost use Rattle.cw_syntax.specs.Trees.{file_of};
ghost use Rattle.cw_rights.specs.Policies.{policy_of, descriptor_of};
ghost use Rattle.cw_rights.specs.Valid.{IsValid};
ghost use Rattle.std.specs.Option.{option_map};
ghost use Rattle.cw_scope.specs.Descriptors.{is_shadowed, is_variable, first_undeclared, first_shadowed, descriptor_fault, IsDueDescriptor};
ghost use Rattle.cw_scope.specs.Held.{entry_of};

use crate::entries::{Entry, entries, is_declared};
use crate::lists::{every_statement, every_whole};
use crate::misuses::least_misuse_under;
use crate::names::locals;
use cw_core::NoMemory;
use cw_rights::{Descriptor, Policy};
use cw_syntax::checked::Checked;
use cw_syntax::names::text;
use cw_syntax::program::Name;
use std::alloc::Global;
use thiserror::Error;

/// The rule that a policy's descriptors break first in a program, in this order. A descriptor has its number in the policy; a
/// place is counted in bytes from the front of the source.
#[derive(Clone, Copy, Debug, PartialEq, Eq, Error)]
pub enum DescriptorFault {
    /// This descriptor's variable isn't declared once at file scope as a descriptor's variable must be.
    #[error("no variable")]
    NoVariable(u8),
    /// A parameter or a local declaration has the name of this descriptor's variable.
    #[error("shadowed")]
    Shadowed(u8),
    /// At this place a descriptor is assigned, changed, closed or has its address taken in another form than an open or a close.
    #[error("misuse")]
    Misuse(u32),
    /// There was no memory.
    #[error("out of memory")]
    NoMemory,
}

/// Whether one of these names is this one.
fn is_shadowed(source: &[u8], names: &[Name], name: &[u8]) -> bool
    ensures { result ≡ is_shadowed source.now names.now name.now }
{
    for other in names {
        if name == text(source, *other) {
            return true;
        }
    }
    false
}

/// Whether a descriptor is a variable's: it has no number.
fn is_variable(descriptor: &Descriptor) -> bool
    ensures { result ≡ is_variable (descriptor_of descriptor.now) }
{
    descriptor.number.is_none()
}

/// The first descriptor that is a variable and isn't declared as one.
fn first_undeclared(source: &[u8], entries: &[Entry], descriptors: &[Descriptor]) -> Option<u8>
    requires { length descriptors.now ≤ 8 }
    ensures { result ≡ first_undeclared source.now (map entry_of entries.now) (map descriptor_of descriptors.now) }
{
    for (i, descriptor) in descriptors.iter().enumerate() {
        if is_variable(descriptor) && !is_declared(source, entries, &descriptor.name) {
            return Some(i as u8);
        }
    }
    None
}

/// The first descriptor that is a variable and is shadowed.
fn first_shadowed(source: &[u8], names: &[Name], descriptors: &[Descriptor]) -> Option<u8>
    requires { length descriptors.now ≤ 8 }
    ensures { result ≡ first_shadowed source.now names.now (map descriptor_of descriptors.now) }
{
    for (i, descriptor) in descriptors.iter().enumerate() {
        if is_variable(descriptor) && is_shadowed(source, names, &descriptor.name) {
            return Some(i as u8);
        }
    }
    None
}

/// The fault of a descriptor that no variable of file scope stands for.
fn no_variable(descriptor: Option<u8>) -> Option<DescriptorFault>
    ensures { result ≡ option_map DescriptorFault.NoVariable descriptor }
{
    match descriptor {
        None => None,
        Some(descriptor) => Some(DescriptorFault::NoVariable(descriptor)),
    }
}

/// The fault of a descriptor whose name is declared again.
fn shadowed(descriptor: Option<u8>) -> Option<DescriptorFault>
    ensures { result ≡ option_map DescriptorFault.Shadowed descriptor }
{
    match descriptor {
        None => None,
        Some(descriptor) => Some(DescriptorFault::Shadowed(descriptor)),
    }
}

/// The fault of a use that is neither an open nor a close.
fn misused(place: Option<u32>) -> Option<DescriptorFault>
    ensures { result ≡ option_map DescriptorFault.Misuse place }
{
    match place {
        None => None,
        Some(place) => Some(DescriptorFault::Misuse(place)),
    }
}

/// The fault of the first rule that the descriptors break.
fn descriptor_fault(
    alloc: Global,
    checked: &Checked,
    policy: &Policy,
) -> Result<Option<DescriptorFault>, NoMemory>
    requires { IsValid (policy_of policy.now) }
    ensures { IfOk result (λ fault. fault ≡ descriptor_fault checked.now.source.now (file_of checked.now.program) (policy_of policy.now)) }
{
    if policy.descriptors.is_empty() {
        return Ok(None);
    }
    let source = checked.source;
    let program = &checked.program;
    let statements = every_statement(alloc, program)?;
    let wholes = every_whole(alloc, program, &statements)?;
    let entries = entries(alloc, program)?;
    let names = locals(alloc, program, &statements)?;
    let place = least_misuse_under(alloc, checked, policy, &wholes)?;
    let descriptors = &policy.descriptors;
    Ok(
        no_variable(first_undeclared(source, &entries, descriptors))
            .or(shadowed(first_shadowed(source, &names, descriptors)))
            .or(misused(place)),
    )
}

/// Whether a policy's descriptors keep their rules in a program where the scope rules hold.
///
/// A descriptor's variable is declared once at file scope, as an `int` without `unsigned`, `const`, stars or brackets, not `extern`,
/// before the first definition of a function, without initialiser or with `-1`; no parameter and no local declaration has its
/// name. `v = g(..);` with g external opens it, `close(d);` with `close` external closes a descriptor; else it is assigned, changed
/// by `++` or `--`, or has its address taken nowhere, and no descriptor is an argument of `close`. The rules are tested in the
/// order of the variants of `DescriptorFault`; the first that is broken is answered. Public source: ISO/IEC 9899:2011, sections
/// 6.5.2.4, 6.5.3, 6.5.16, 6.7 and 6.9.2.
pub fn check_descriptors(
    alloc: Global,
    checked: &Checked,
    policy: &Policy,
) -> Result<(), DescriptorFault>
    requires valid { IsValid (policy_of policy.now) }
    ensures ok { IfOk result (λ _. descriptor_fault checked.now.source.now (file_of checked.now.program) (policy_of policy.now) ≡ None) }
    ensures fault { IfErr result (λ fault. IsDueDescriptor (descriptor_fault checked.now.source.now (file_of checked.now.program) (policy_of policy.now)) fault) }
{
    match descriptor_fault(alloc, checked, policy) {
        Ok(None) => Ok(()),
        Ok(Some(fault)) => Err(fault),
        Err(NoMemory) => Err(DescriptorFault::NoMemory),
    }
}
