//! How a command ends: by its text, or by the refusal of a stop.

ghost use Rattle.std.specs.Prelude.{IfOk};
ghost use Rattle.cw_rights.specs.Policies.{policy_of};
ghost use Rattle.cw_commands.specs.Outcomes.{due_of};
ghost use Rattle.cw_commands.specs.Starts.{IsRefused, StartsLine};
ghost use Rattle.cw_stages.specs.Stops.{IsEnded, Refuses};

use crate::fitting::unfitting;
use crate::lines::{form_refusal, strategy_refusal, woven_refusal};
use crate::refusals::{descriptor_refusal, fronted, numbered, over, source_refusal};
use crate::stop::Stop;
use crate::told::Text;
use cw_commands::{Cause, Outcome};
use cw_core::NoMemory;
use cw_io::Sink;
use cw_rights::Policy;

/// The refusal by a stop, under a policy and for a source; of a woven text the source is what is left without its parts. Its line is put to the note.
pub fn refused<O: Sink, N: Sink>(
    stop: &Stop,
    policy: &Policy,
    source: &[u8],
    note: &mut N,
) -> Result<Outcome<O, N>, NoMemory>
    ensures due { IfOk result (λ outcome. Refuses (policy_of policy.now) source.now stop.now (due_of outcome)) }
    ensures refused { IfOk result IsRefused }
    ensures notes { StartsLine N.taken N.faults N.refused note.old note.new result }
{
    match stop {
        Stop::Source(fault) => source_refusal(source, fault, note),
        Stop::Descriptors(fault) => descriptor_refusal(source, policy, fault, note),
        Stop::Fit(fault) => Ok(unfitting(policy, source, *fault, note)),
        Stop::Detached => Ok(fronted(Cause::Policy, b"policy: detached", b"", note)),
        Stop::Strategy(fault) => strategy_refusal(fault, note),
        Stop::Woven(fault) => woven_refusal(policy, source, fault, note),
        Stop::Tape(line) => Ok(numbered(Cause::Grammar, b"tape: line ", *line, note)),
        Stop::Audit(line) => Ok(numbered(Cause::Grammar, b"audit: line ", *line, note)),
        Stop::Steps(line) => Ok(numbered(Cause::Grammar, b"steps: line ", *line, note)),
        Stop::Answers(line) => Ok(numbered(Cause::Grammar, b"answers: line ", *line, note)),
        Stop::Form(at) => Ok(form_refusal(source, *at, note)),
        Stop::Over(quantity) => Ok(over(*quantity, note)),
        Stop::NoMemory => Err(NoMemory),
    }
}

/// What is due for a command: the text that it comes to, or the refusal by the stop before it.
pub fn ended<O: Sink, N: Sink>(
    answer: Result<Text<O>, Stop>,
    policy: &Policy,
    source: &[u8],
    note: &mut N,
) -> Result<Outcome<O, N>, NoMemory>
    ensures ended { IsEnded (policy_of policy.now) source.now answer result }
    ensures notes { StartsLine N.taken N.faults N.refused note.old note.new result }
{
    match answer {
        Ok(text) => Ok(Outcome::Told(text.reply, text.writer)),
        Err(stop) => refused(&stop, policy, source, note),
    }
}
