//! Why a source isn't read under a policy.

use cw_scope::DescriptorFault;
use cw_source::SourceFault;
use thiserror::Error;

/// Why a source isn't read as a program under a policy, in the order in which it is tested. Want of memory is in either.
#[derive(Debug, Drop, Error)]
pub enum ProgramFault {
    /// It isn't read.
    #[error("{0}")]
    Source(SourceFault),
    /// The policy's descriptors break a rule in it.
    #[error("{0}")]
    Descriptors(DescriptorFault),
}
