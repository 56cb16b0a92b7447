//! Why a policy that doesn't fit a program is refused, with the line that tells it.

ghost use Rattle.std.specs.Prelude.{◌≡◌};
ghost use Rattle.cw_rights.specs.Policies.{policy_of};
ghost use Rattle.cw_commands.specs.Outcomes.{due_of, Refused};
ghost use Rattle.cw_commands.specs.Starts.{BeginsLine, IsRefused};
ghost use Rattle.cw_resolve.specs.Held.{name_in};
ghost use Rattle.cw_stages.specs.Fitting.{fit_line, splitting_line};

use crate::refusals::fronted;
use cw_callgraph::FitFault;
use cw_commands::{Cause, Outcome};
use cw_io::{Sink, Writer};
use cw_resolve::name_in;
use cw_rights::Policy;
use cw_source::place::{column_of, line_of};

/// That a function may not be split, and the place that forbids it.
fn splitting_refusal<O: Sink, N: Sink>(
    source: &[u8],
    name: &[u8],
    place: u32,
    note: &mut N,
) -> Outcome<O, N>
    ensures due { due_of result ≡ Refused Cause.Policy (splitting_line source.now name.now place) }
    ensures refused { IsRefused result }
    ensures notes { BeginsLine N.taken N.faults N.refused note.old note.new result }
{
    let mut line = Writer::begin(note);
    line.put(b"policy: not splittable ", note);
    line.put(name, note);
    line.put(b" ", note);
    line.put_number(line_of(source, place) as u64, note);
    line.put(b":", note);
    line.put_number(column_of(source, place) as u64, note);
    Outcome::Refused(Cause::Policy, line)
}

/// That a policy doesn't fit, and why.
pub(crate) fn unfitting<O: Sink, N: Sink>(
    policy: &Policy,
    source: &[u8],
    fault: FitFault,
    note: &mut N,
) -> Outcome<O, N>
    ensures due { due_of result ≡ Refused Cause.Policy (fit_line source.now (policy_of policy.now) fault) }
    ensures refused { IsRefused result }
    ensures notes { BeginsLine N.taken N.faults N.refused note.old note.new result }
{
    match fault {
        FitFault::NoLabel(index) => fronted(
            Cause::Policy,
            b"policy: no label ",
            name_in(&policy.labels, usize::from(index)),
            note,
        ),
        FitFault::NoFunction(index) => fronted(
            Cause::Policy,
            b"policy: no function ",
            name_in(&policy.split, usize::from(index)),
            note,
        ),
        FitFault::NotSplittable(index, place) => {
            let name = name_in(&policy.split, usize::from(index));
            splitting_refusal(source, name, place, note)
        }
    }
}
