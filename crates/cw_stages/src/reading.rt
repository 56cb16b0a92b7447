//! A source is read behind a policy.

ghost use Rattle.std.specs.Prelude.{◌≡◌, ◌≤◌, length, None, IfErr, IfOk};
ghost use Rattle.cw_rights.specs.Policies.{policy_of};
ghost use Rattle.cw_rights.specs.Valid.{IsValid};
ghost use Rattle.cw_scope.specs.Descriptors.{descriptor_fault};
ghost use Rattle.cw_stages.specs.Reading.{IsSourceUnread};
ghost use Rattle.cw_stages.specs.Stops.{file_in, source_of, IsReading, IsStop};

use crate::stop::Stop;
use cw_core::limits::SOURCE_BYTES;
use cw_rights::Policy;
use cw_source_graph::{ProgramFault, program_under};
use cw_syntax::checked::Checked;
use std::alloc::Global;

/// What has been read: a policy, and a source as a program.
#[derive(Drop)]
pub struct Reading<'r> {
    pub policy: &'r Policy,
    pub checked: Checked<'r>,
}

/// A source of at most 262,144 bytes, read as a program that keeps the rules of a policy's descriptors; or why it isn't.
pub fn read_under<'r>(
    alloc: Global,
    policy: &'r Policy,
    source: &'r [u8],
) -> Result<Reading<'r>, Stop>
    requires short { length source.now ≤ SOURCE_BYTES }
    requires valid { IsValid (policy_of policy.now) }
    ensures policy { IfOk result (λ reading. reading.policy.now ≡ policy.now) }
    ensures source { IfOk result (λ reading. source_of reading ≡ source.now) }
    ensures is { IfOk result IsReading }
    ensures descriptors { IfOk result (λ reading. descriptor_fault source.now (file_in reading) (policy_of policy.now) ≡ None) }
    ensures stop { IfErr result (IsStop (policy_of policy.now) source.now (IsSourceUnread source.now (policy_of policy.now))) }
{
    match program_under(alloc, policy, source) {
        Ok(checked) => Ok(Reading { policy, checked }),
        Err(ProgramFault::Source(fault)) => Err(Stop::Source(fault)),
        Err(ProgramFault::Descriptors(fault)) => Err(Stop::Descriptors(fault)),
    }
}
