//! Why a strategy or a woven text is refused, with the line that tells it.

ghost use Rattle.std.specs.Prelude.{◌≡◌, ◌≢◌, IfOk};
ghost use Rattle.cw_rights.specs.Policies.{policy_of};
ghost use Rattle.cw_commands.specs.Outcomes.{due_of};
ghost use Rattle.cw_commands.specs.Starts.{BeginsLine, IsRefused, StartsLine};
ghost use Rattle.cw_stages.specs.Held.{woven_cause, woven_front};
ghost use Rattle.cw_stages.specs.Refusals.{source_refusal};
ghost use Rattle.cw_stages.specs.Strategies.{strategy_refusal};
ghost use Rattle.cw_stages.specs.Tables.{cut_refusal, of_woven, table_refusal, woven_refusal};
ghost use Rattle.cw_stages.specs.Values.{form_refusal};

use crate::refusals::{
    descriptor_refusal_behind, numbered, over, source_cause, source_refusal_behind,
};
use cw_commands::{Cause, Outcome};
use cw_core::{NoMemory, Quantity};
use cw_io::{Sink, Writer};
use cw_rights::Policy;
use cw_source::{SourceFault, put_place_line};
use cw_text::TextFault;
use cw_woven::{CutFault, WovenFault};

/// The refusal by the first fault of a strategy's text.
pub(crate) fn strategy_refusal<O: Sink, N: Sink>(
    fault: &TextFault,
    note: &mut N,
) -> Result<Outcome<O, N>, NoMemory>
    ensures due { IfOk result (λ outcome. (fault.now ≢ TextFault.NoMemory) × (due_of outcome ≡ strategy_refusal fault.now)) }
    ensures refused { IfOk result IsRefused }
    ensures notes { StartsLine N.taken N.faults N.refused note.old note.new result }
{
    match fault {
        TextFault::Line(number) => {
            Ok(numbered(Cause::Grammar, b"strategy: line ", *number, note))
        }
        TextFault::Order(number) => {
            Ok(numbered(Cause::Grammar, b"strategy: order ", *number, note))
        }
        TextFault::Limit(_) => Ok(over(Quantity::Rows, note)),
        TextFault::NoMemory => Err(NoMemory),
    }
}

/// The refusal by the first fault of a table's lines.
fn table_refusal<O: Sink, N: Sink>(
    fault: &TextFault,
    note: &mut N,
) -> Result<Outcome<O, N>, NoMemory>
    ensures due { IfOk result (λ outcome. due_of outcome ≡ table_refusal fault.now) }
    ensures refused { IfOk result IsRefused }
    ensures notes { StartsLine N.taken N.faults N.refused note.old note.new result }
{
    match fault {
        TextFault::Line(number) => Ok(numbered(Cause::Grammar, b"woven: line ", *number, note)),
        TextFault::Order(number) => Ok(numbered(Cause::Grammar, b"woven: order ", *number, note)),
        TextFault::Limit(_) => Ok(over(Quantity::Rows, note)),
        TextFault::NoMemory => Err(NoMemory),
    }
}

/// Which cause that of a source is for the woven text which has it.
fn woven_cause(cause: Cause) -> Cause
    ensures { result ≡ woven_cause cause }
{
    match cause {
        Cause::Source => Cause::Grammar,
        Cause::Policy | Cause::Limit | Cause::Grammar => cause,
    }
}

/// What stands there before the line of a source's refusal.
fn woven_front(cause: Cause) -> &'static [u8]
    ensures { result.now ≡ woven_front cause }
{
    match cause {
        Cause::Source => b"woven: ",
        Cause::Policy | Cause::Limit | Cause::Grammar => b"",
    }
}

/// The refusal of a woven text by a fault of its source.
fn read_refusal<O: Sink, N: Sink>(
    source: &[u8],
    fault: &SourceFault,
    note: &mut N,
) -> Result<Outcome<O, N>, NoMemory>
    ensures due { IfOk result (λ outcome. due_of outcome ≡ of_woven (source_refusal source.now fault.now)) }
    ensures refused { IfOk result IsRefused }
    ensures notes { StartsLine N.taken N.faults N.refused note.old note.new result }
{
    let cause = source_cause(fault)?;
    Ok(source_refusal_behind(woven_cause(cause), woven_front(cause), source, fault, note))
}

/// The refusal by the first fault of the source of a woven text.
fn cut_refusal<O: Sink, N: Sink>(
    policy: &Policy,
    source: &[u8],
    fault: &CutFault,
    note: &mut N,
) -> Result<Outcome<O, N>, NoMemory>
    ensures due { IfOk result (λ outcome. due_of outcome ≡ cut_refusal (policy_of policy.now) source.now fault.now) }
    ensures refused { IfOk result IsRefused }
    ensures notes { StartsLine N.taken N.faults N.refused note.old note.new result }
{
    match fault {
        CutFault::TooLong => Ok(over(Quantity::SourceBytes, note)),
        CutFault::Read(fault) => read_refusal(source, fault, note),
        CutFault::Descriptors(fault) => descriptor_refusal_behind(
            Cause::Grammar,
            b"woven: ",
            source,
            policy,
            fault,
            note,
        ),
        CutFault::TooManyPoints => Ok(over(Quantity::Points, note)),
    }
}

/// The refusal by the first fault of a woven text, which without its parts is this source.
pub(crate) fn woven_refusal<O: Sink, N: Sink>(
    policy: &Policy,
    source: &[u8],
    fault: &WovenFault,
    note: &mut N,
) -> Result<Outcome<O, N>, NoMemory>
    ensures due { IfOk result (λ outcome. (fault.now ≢ WovenFault.NoMemory) × (due_of outcome ≡ woven_refusal (policy_of policy.now) source.now fault.now)) }
    ensures refused { IfOk result IsRefused }
    ensures notes { StartsLine N.taken N.faults N.refused note.old note.new result }
{
    match fault {
        WovenFault::Mark(at) => Ok(numbered(Cause::Grammar, b"woven: mark ", *at, note)),
        WovenFault::Table(fault) => table_refusal(fault, note),
        WovenFault::Source(fault) => cut_refusal(policy, source, fault, note),
        WovenFault::Misplaced(number) => {
            Ok(numbered(Cause::Grammar, b"woven: misplaced ", *number, note))
        }
        WovenFault::NoMemory => Err(NoMemory),
    }
}

/// The refusal of a woven text, of which this source is left, by the first name that may not be declared where it is.
pub(crate) fn form_refusal<O: Sink, N: Sink>(source: &[u8], at: u32, note: &mut N) -> Outcome<O, N>
    ensures due { due_of result ≡ form_refusal source.now at }
    ensures refused { IsRefused result }
    ensures notes { BeginsLine N.taken N.faults N.refused note.old note.new result }
{
    let mut writer = Writer::begin(note);
    writer.put(b"woven: ", note);
    put_place_line(source, at, "value form", &mut writer, note);
    Outcome::Refused(Cause::Grammar, writer)
}
