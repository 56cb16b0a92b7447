//! A source is read under a policy.

ghost use Rattle.std.specs.Prelude.{◌≡◌, ◌≤◌, length, None, IfErr, IfOk};
ghost use Rattle.cw_rights.specs.Policies.{policy_of};
ghost use Rattle.cw_rights.specs.Valid.{IsValid};
ghost use Rattle.cw_syntax.specs.Trees.{file_of};
ghost use Rattle.cw_scope.specs.Descriptors.{descriptor_fault};
ghost use Rattle.cw_source.specs.Read.{ReadsAs};
ghost use Rattle.cw_source_graph.specs.Reading.{IsProgramFault};

use crate::fault::ProgramFault;
use cw_core::limits::SOURCE_BYTES;
use cw_rights::Policy;
use cw_scope::check_descriptors;
use cw_source::read_source;
use cw_syntax::checked::Checked;
use std::alloc::Global;

/// A source of at most 262,144 bytes, read as a program in which a policy's descriptors keep their rules; or the first fault.
pub fn program_under<'s>(
    alloc: Global,
    policy: &Policy,
    source: &'s [u8],
) -> Result<Checked<'s>, ProgramFault>
    requires short { length source.now ≤ SOURCE_BYTES }
    requires valid { IsValid (policy_of policy.now) }
    ensures source { IfOk result (λ checked. checked.source.now ≡ source.now) }
    ensures program { IfOk result (λ checked. ReadsAs source.now (file_of checked.program)) }
    ensures descriptors { IfOk result (λ checked. descriptor_fault source.now (file_of checked.program) (policy_of policy.now) ≡ None) }
    ensures fault { IfErr result (IsProgramFault (policy_of policy.now) source.now) }
{
    match read_source(alloc, source) {
        Ok(checked) => match check_descriptors(alloc, &checked, policy) {
            Ok(()) => Ok(checked),
            Err(fault) => Err(ProgramFault::Descriptors(fault)),
        },
        Err(fault) => Err(ProgramFault::Source(fault)),
    }
}
