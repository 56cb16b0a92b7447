//! Why a policy or a source is refused, with the line that tells it.

ghost use Rattle.std.specs.Prelude.{◌≡◌, ◌≢◌, ◌++◌, IfOk};
ghost use Rattle.std.specs.Fmt.{decimal};
ghost use Rattle.cw_io.specs.Written.{Follows};
ghost use Rattle.cw_rights.specs.Policies.{policy_of};
ghost use Rattle.cw_source.specs.Lines.{fault_line as source_line};
ghost use Rattle.cw_commands.specs.declared.outcome.Cause.TheVariants.{Source};
ghost use Rattle.cw_commands.specs.Outcomes.{due_of, Refused};
ghost use Rattle.cw_commands.specs.Starts.{BeginsLine, IsRefused, StartsLine};
ghost use Rattle.cw_stages.specs.Refusals.{descriptor_line, over, policy_cause, policy_refusal, source_cause, source_refusal};

use cw_commands::{Cause, Outcome};
use cw_core::{NoMemory, Quantity};
use cw_io::{Sink, Writer};
use cw_policy::{PolicyFault, put_fault};
use cw_regex::RegexFault;
use cw_rights::Policy;
use cw_scope::{DescriptorFault, ScopeFault};
use cw_source::{SourceFault, put_fault_line, put_place_line};
use cw_text::descriptor_name;

/// The refusal whose line is a front, and the rest behind it.
pub(crate) fn fronted<O: Sink, N: Sink>(
    cause: Cause,
    front: &[u8],
    rest: &[u8],
    note: &mut N,
) -> Outcome<O, N>
    ensures due { due_of result ≡ Refused cause (front.now ++ rest.now) }
    ensures refused { IsRefused result }
    ensures notes { BeginsLine N.taken N.faults N.refused note.old note.new result }
{
    let mut line = Writer::begin(note);
    line.put(front, note);
    line.put(rest, note);
    Outcome::Refused(cause, line)
}

/// The refusal whose line is a front and a number.
pub(crate) fn numbered<O: Sink, N: Sink>(
    cause: Cause,
    front: &[u8],
    number: u32,
    note: &mut N,
) -> Outcome<O, N>
    ensures due { due_of result ≡ Refused cause (front.now ++ decimal number) }
    ensures refused { IsRefused result }
    ensures notes { BeginsLine N.taken N.faults N.refused note.old note.new result }
{
    let mut line = Writer::begin(note);
    line.put(front, note);
    line.put_number(u64::from(number), note);
    Outcome::Refused(cause, line)
}

/// The refusal by a quantity that is over its limit. Its line is put to the note.
pub fn over<O: Sink, N: Sink>(quantity: Quantity, note: &mut N) -> Outcome<O, N>
    ensures due { due_of result ≡ over quantity }
    ensures refused { IsRefused result }
    ensures notes { BeginsLine N.taken N.faults N.refused note.old note.new result }
{
    fronted(Cause::Limit, b"limit: ", quantity.name().as_bytes(), note)
}

/// Which cause a policy's fault is, or want of memory.
fn policy_cause(fault: &PolicyFault) -> Result<Cause, NoMemory>
    ensures known { IfOk result (λ _. fault.now ≢ PolicyFault.NoMemory) }
    ensures cause { IfOk result (λ cause. cause ≡ policy_cause fault.now) }
{
    match fault {
        PolicyFault::NoMemory => Err(NoMemory),
        PolicyFault::Limit(_) | PolicyFault::Regex(_, RegexFault::TooDeep) => Ok(Cause::Limit),
        PolicyFault::Regex(_, _)
        | PolicyFault::Toml
        | PolicyFault::Missing(_)
        | PolicyFault::Unknown(_)
        | PolicyFault::Kind(_)
        | PolicyFault::Twice(_) => Ok(Cause::Policy),
    }
}

/// The refusal by a policy's fault. Its line is put to the note; want of memory has none.
pub fn policy_refusal<O: Sink, N: Sink>(
    fault: &PolicyFault,
    note: &mut N,
) -> Result<Outcome<O, N>, NoMemory>
    ensures due { IfOk result (λ outcome. (fault.now ≢ PolicyFault.NoMemory) × (due_of outcome ≡ policy_refusal fault.now)) }
    ensures refused { IfOk result IsRefused }
    ensures notes { StartsLine N.taken N.faults N.refused note.old note.new result }
{
    let cause = policy_cause(fault)?;
    let mut line = Writer::begin(note);
    put_fault(fault, &mut line, note);
    Ok(Outcome::Refused(cause, line))
}

/// Which cause a source's fault is, or want of memory.
pub(crate) fn source_cause(fault: &SourceFault) -> Result<Cause, NoMemory>
    ensures known { IfOk result (λ _. fault.now ≢ SourceFault.NoMemory) }
    ensures cause { IfOk result (λ cause. cause ≡ source_cause fault.now) }
{
    match fault {
        SourceFault::NoMemory => Err(NoMemory),
        SourceFault::TooDeep | SourceFault::Scope(ScopeFault::Limit(_)) => Ok(Cause::Limit),
        SourceFault::Scope(_) | SourceFault::Lex(_) | SourceFault::Syntax(_) => Ok(Cause::Source),
    }
}

/// The refusal by a source's fault, with its line behind a front.
pub(crate) fn source_refusal_behind<O: Sink, N: Sink>(
    cause: Cause,
    front: &[u8],
    source: &[u8],
    fault: &SourceFault,
    note: &mut N,
) -> Outcome<O, N>
    ensures due { due_of result ≡ Refused cause (front.now ++ source_line source.now fault.now) }
    ensures refused { IsRefused result }
    ensures notes { BeginsLine N.taken N.faults N.refused note.old note.new result }
{
    let mut line = Writer::begin(note);
    line.put(front, note);
    put_fault_line(source, fault, &mut line, note);
    Outcome::Refused(cause, line)
}

/// The refusal by a source's fault, likewise.
pub fn source_refusal<O: Sink, N: Sink>(
    source: &[u8],
    fault: &SourceFault,
    note: &mut N,
) -> Result<Outcome<O, N>, NoMemory>
    ensures due { IfOk result (λ outcome. (fault.now ≢ SourceFault.NoMemory) × (due_of outcome ≡ source_refusal source.now fault.now)) }
    ensures refused { IfOk result IsRefused }
    ensures notes { StartsLine N.taken N.faults N.refused note.old note.new result }
{
    let cause = source_cause(fault)?;
    Ok(source_refusal_behind(cause, b"", source, fault, note))
}

/// Want of memory, where a fault of descriptors is that.
fn descriptor_known(fault: &DescriptorFault) -> Result<(), NoMemory>
    ensures { IfOk result (λ _. fault.now ≢ DescriptorFault.NoMemory) }
{
    match fault {
        DescriptorFault::NoMemory => Err(NoMemory),
        DescriptorFault::NoVariable(_)
        | DescriptorFault::Shadowed(_)
        | DescriptorFault::Misuse(_) => Ok(()),
    }
}

/// Appends the line that tells which rule a policy's descriptors break in a source.
fn put_descriptor_fault<N: Sink>(
    source: &[u8],
    policy: &Policy,
    fault: &DescriptorFault,
    line: &mut Writer<N>,
    note: &mut N,
)
    requires follows { Follows N.taken N.faults N.refused line.old note.old }
    ensures text { line.new.text ≡ line.old.text ++ descriptor_line source.now (policy_of policy.now) fault.now }
    ensures begun { line.new.begun ≡ line.old.begun }
    ensures follows { Follows N.taken N.faults N.refused line.new note.new }
{
    match fault {
        DescriptorFault::NoVariable(descriptor) => {
            line.put(b"source: no variable ", note);
            line.put(descriptor_name(policy, *descriptor), note);
        }
        DescriptorFault::Shadowed(descriptor) => {
            line.put(b"source: shadowed ", note);
            line.put(descriptor_name(policy, *descriptor), note);
        }
        DescriptorFault::Misuse(at) => put_place_line(source, *at, "misuse", line, note),
        DescriptorFault::NoMemory => line.put(b"memory", note),
    }
}

/// The refusal by the first rule that a policy's descriptors break in a source, with its line behind a front.
pub(crate) fn descriptor_refusal_behind<O: Sink, N: Sink>(
    cause: Cause,
    front: &[u8],
    source: &[u8],
    policy: &Policy,
    fault: &DescriptorFault,
    note: &mut N,
) -> Result<Outcome<O, N>, NoMemory>
    ensures due { IfOk result (λ outcome. (fault.now ≢ DescriptorFault.NoMemory)
        × (due_of outcome ≡ Refused cause (front.now ++ descriptor_line source.now (policy_of policy.now) fault.now))) }
    ensures refused { IfOk result IsRefused }
    ensures notes { StartsLine N.taken N.faults N.refused note.old note.new result }
{
    descriptor_known(fault)?;
    let mut line = Writer::begin(note);
    line.put(front, note);
    put_descriptor_fault(source, policy, fault, &mut line, note);
    Ok(Outcome::Refused(cause, line))
}

/// The refusal by the first rule that a policy's descriptors break in a source.
pub(crate) fn descriptor_refusal<O: Sink, N: Sink>(
    source: &[u8],
    policy: &Policy,
    fault: &DescriptorFault,
    note: &mut N,
) -> Result<Outcome<O, N>, NoMemory>
    ensures due { IfOk result (λ outcome. (fault.now ≢ DescriptorFault.NoMemory)
        × (due_of outcome ≡ Refused Source (descriptor_line source.now (policy_of policy.now) fault.now))) }
    ensures refused { IfOk result IsRefused }
    ensures notes { StartsLine N.taken N.faults N.refused note.old note.new result }
{
    descriptor_refusal_behind(Cause::Source, b"", source, policy, fault, note)
}
