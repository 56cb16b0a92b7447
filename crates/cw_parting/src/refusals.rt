//! Why a source has no form, with the line that tells it.

ghost use Rattle.std.specs.Prelude.{◌≡◌, ◌≢◌, ◌++◌, IfOk};
ghost use Rattle.cw_rights.specs.Policies.{policy_of};
ghost use Rattle.cw_source.specs.Lines.{at_place};
ghost use Rattle.cw_commands.specs.Outcomes.{due_of, Refused};
ghost use Rattle.cw_commands.specs.Starts.{BeginsLine, IsRefused, StartsLine};
ghost use Rattle.cw_resolve.specs.Held.{name_in};
ghost use Rattle.cw_parting.specs.Refusals.{form_refusal};

use cw_commands::{Cause, Outcome};
use cw_core::NoMemory;
use cw_detach::ProcFault;
use cw_io::{Sink, Writer};
use cw_resolve::name_in;
use cw_rights::Policy;
use cw_source::put_place_line;
use cw_stages::over;

/// The refusal of the policy whose line is a front and the detached name with this number.
fn named<O: Sink, N: Sink>(front: &[u8], policy: &Policy, index: u16, note: &mut N) -> Outcome<O, N>
    ensures due { due_of result ≡ Refused Cause.Policy (front.now ++ name_in (policy_of policy.now).detached index) }
    ensures refused { IsRefused result }
    ensures notes { BeginsLine N.taken N.faults N.refused note.old note.new result }
{
    let mut line = Writer::begin(note);
    line.put(front, note);
    line.put(name_in(&policy.detached, usize::from(index)), note);
    Outcome::Refused(Cause::Policy, line)
}

/// The refusal of the source whose line is a place of it and a reason.
fn placed<O: Sink, N: Sink>(source: &[u8], at: u32, reason: &str, note: &mut N) -> Outcome<O, N>
    ensures due { due_of result ≡ Refused Cause.Source (at_place source.now at reason.now) }
    ensures refused { IsRefused result }
    ensures notes { BeginsLine N.taken N.faults N.refused note.old note.new result }
{
    let mut line = Writer::begin(note);
    put_place_line(source, at, reason, &mut line, note);
    Outcome::Refused(Cause::Source, line)
}

/// The refusal by the first rule that forbids a form. Its line is put to the note; want of memory has none.
pub(crate) fn form_refusal<O: Sink, N: Sink>(
    policy: &Policy,
    source: &[u8],
    fault: ProcFault,
    note: &mut N,
) -> Result<Outcome<O, N>, NoMemory>
    ensures due { IfOk result (λ outcome. (fault ≢ ProcFault.NoMemory) × (due_of outcome ≡ form_refusal source.now (policy_of policy.now) fault)) }
    ensures refused { IfOk result IsRefused }
    ensures notes { StartsLine N.taken N.faults N.refused note.old note.new result }
{
    match fault {
        ProcFault::NoFunction(i) => Ok(named(b"policy: no function ", policy, i, note)),
        ProcFault::Both(i) => Ok(named(b"policy: detached ", policy, i, note)),
        ProcFault::Taken(at) => Ok(placed(source, at, "fork name", note)),
        ProcFault::Result(at) => Ok(placed(source, at, "detached result", note)),
        ProcFault::Limit(quantity) => Ok(over(quantity, note)),
        ProcFault::NoMemory => Err(NoMemory),
    }
}
