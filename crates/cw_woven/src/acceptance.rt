//! Sources that are accepted, with the graphs of their points.

ghost use Rattle.std.specs.Prelude.{◌≡◌, ◌≤◌, length, IfOk, IfErr, None};
ghost use Rattle.cw_core.specs.Quantities.{limit_of};
ghost use Rattle.cw_core.specs.declared.quantity.Quantity.TheVariants.{SourceBytes};
ghost use Rattle.cw_rights.specs.Policies.{policy_of};
ghost use Rattle.cw_rights.specs.Valid.{IsValid};
ghost use Rattle.cw_resolve.specs.Scenes.{names_of};
ghost use Rattle.cw_points.specs.Graphs.{IsGraph};
ghost use Rattle.cw_syntax.specs.Trees.{file_of};
ghost use Rattle.cw_scope.specs.Descriptors.{descriptor_fault};
ghost use Rattle.cw_source.specs.Read.{ReadsAs};
ghost use Rattle.cw_woven.specs.Accepting.{broken, unread, IsRefused};
ghost use Rattle.cw_woven.specs.Reading.{IsAccepted};

use crate::fault::{CutFault, WovenFault};
use cw_core::limits::SOURCE_BYTES;
use cw_points::build::build;
use cw_points::{Graph, PointsFault};
use cw_rights::Policy;
use cw_scope::DescriptorFault;
use cw_source::SourceFault;
use cw_source_graph::{ProgramFault, program_under};
use cw_syntax::checked::Checked;
use std::alloc::Global;

/// The most bytes of a source.
const MOST_BYTES: usize = SOURCE_BYTES;

/// The fault of a text by that of its source.
fn unread(fault: SourceFault) -> WovenFault
    ensures { result ≡ unread fault }
{
    match fault {
        SourceFault::Lex(fault) => WovenFault::Source(CutFault::Read(SourceFault::Lex(fault))),
        SourceFault::Syntax(at) => WovenFault::Source(CutFault::Read(SourceFault::Syntax(at))),
        SourceFault::TooDeep => WovenFault::Source(CutFault::Read(SourceFault::TooDeep)),
        SourceFault::Scope(fault) => WovenFault::Source(CutFault::Read(SourceFault::Scope(fault))),
        SourceFault::NoMemory => WovenFault::NoMemory,
    }
}

/// The fault of a text by the rule that the policy's descriptors break in its source.
fn broken(fault: DescriptorFault) -> WovenFault
    ensures { result ≡ broken fault }
{
    match fault {
        DescriptorFault::NoVariable(descriptor) => WovenFault::Source(CutFault::Descriptors(
            DescriptorFault::NoVariable(descriptor),
        )),
        DescriptorFault::Shadowed(descriptor) => WovenFault::Source(CutFault::Descriptors(
            DescriptorFault::Shadowed(descriptor),
        )),
        DescriptorFault::Misuse(at) => {
            WovenFault::Source(CutFault::Descriptors(DescriptorFault::Misuse(at)))
        }
        DescriptorFault::NoMemory => WovenFault::NoMemory,
    }
}

/// A source that isn't too long, as a program in which a policy's descriptors keep their rules.
fn read<'s>(alloc: Global, policy: &Policy, source: &'s [u8]) -> Result<Checked<'s>, WovenFault>
    requires valid { IsValid (policy_of policy.now) }
    ensures short { IfOk result (λ checked. length source.now ≤ limit_of SourceBytes) }
    ensures source { IfOk result (λ checked. checked.source.now ≡ source.now) }
    ensures program { IfOk result (λ checked. ReadsAs source.now (file_of checked.program)) }
    ensures kept { IfOk result (λ checked. descriptor_fault source.now (file_of checked.program) (policy_of policy.now) ≡ None) }
    ensures fault { IfErr result (IsRefused (policy_of policy.now) source.now) }
{
    if source.len() > MOST_BYTES {
        return Err(WovenFault::Source(CutFault::TooLong));
    }
    match program_under(alloc, policy, source) {
        Ok(checked) => Ok(checked),
        Err(ProgramFault::Source(fault)) => Err(unread(fault)),
        Err(ProgramFault::Descriptors(fault)) => Err(broken(fault)),
    }
}

/// A source that is accepted: its program, and the graph of its points.
#[derive(Drop)]
pub struct Accepted<'s> {
    pub checked: Checked<'s>,
    pub graph: Graph,
}

/// The program and the graph of a source that is accepted.
pub(crate) fn accept<'s>(
    alloc: Global,
    policy: &Policy,
    source: &'s [u8],
) -> Result<Accepted<'s>, WovenFault>
    requires valid { IsValid (policy_of policy.now) }
    ensures source { IfOk result (λ a. a.checked.source.now ≡ source.now) }
    ensures accepted { IfOk result (λ a. IsAccepted (policy_of policy.now) source.now (file_of a.checked.program)) }
    ensures graph { IfOk result (λ a. IsGraph (names_of (policy_of policy.now)) source.now (file_of a.checked.program) a.graph) }
    ensures fault { IfErr result (IsRefused (policy_of policy.now) source.now) }
{
    let checked = read(alloc, policy, source)?;
    let graph = match build(alloc, &checked, policy) {
        Ok(graph) => graph,
        Err(PointsFault::NoMemory) => return Err(WovenFault::NoMemory),
        Err(PointsFault::TooManyPoints) => {
            return Err(WovenFault::Source(CutFault::TooManyPoints));
        }
    };
    Ok(Accepted { checked, graph })
}
