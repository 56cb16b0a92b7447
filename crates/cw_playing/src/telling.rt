//! How the answers of `run` and `play` are told.

ghost use Rattle.std.specs.Prelude.{◌≡◌};
ghost use Rattle.cw_rights.specs.Policies.{policy_of};
ghost use Rattle.cw_io.specs.Written.{Follows};
ghost use Rattle.cw_run.specs.Woven.{end_of};
ghost use Rattle.cw_stages.specs.Stops.{told_of, BeginsText};
ghost use Rattle.cw_playing.specs.Telling.{play_told, rule_name, run_told};

use cw_commands::Reply;
use cw_io::{Sink, Writer};
use cw_play::PlayEnd;
use cw_rights::Policy;
use cw_run::RunEnd;
use cw_stages::Text;

/// The trace of a run, and behind it how the run ends.
pub(crate) fn run_told<O: Sink>(end: RunEnd, trace: Writer<O>, out: &mut O) -> Text<O>
    requires follows { Follows O.taken O.faults O.refused trace out.old }
    ensures due { told_of result ≡ run_told (end_of end) trace.text }
    ensures puts { BeginsText O.taken O.faults O.refused trace.begun out.new result }
{
    let mut writer = trace;
    match end {
        RunEnd::Ended => {
            writer.put(b"ended\n", out);
            Text {
                reply: Reply::Yes,
                writer,
            }
        }
        RunEnd::TapeSpent => {
            writer.put(b"tape spent\n", out);
            Text {
                reply: Reply::No,
                writer,
            }
        }
        RunEnd::BadMove(number) => {
            writer.put(b"bad move ", out);
            writer.put_number(u64::from(number), out);
            writer.put(b"\n", out);
            Text {
                reply: Reply::No,
                writer,
            }
        }
    }
}

/// The name of the rule with this number.
fn rule_name(policy: &Policy, number: u8) -> &[u8]
    ensures { result.now ≡ rule_name (policy_of policy.now) number }
{
    match policy.rules.get(usize::from(number)) {
        Some(rule) => rule.name.as_slice(),
        None => &[],
    }
}

/// The trace of a play, and behind it how the play ends.
pub(crate) fn play_told<O: Sink>(
    policy: &Policy,
    end: PlayEnd,
    trace: Writer<O>,
    out: &mut O,
) -> Text<O>
    requires follows { Follows O.taken O.faults O.refused trace out.old }
    ensures due { told_of result ≡ play_told (policy_of policy.now) end trace.text }
    ensures puts { BeginsText O.taken O.faults O.refused trace.begun out.new result }
{
    let mut writer = trace;
    match end {
        PlayEnd::Violation(rule) => {
            writer.put(b"violation ", out);
            writer.put(rule_name(policy, rule), out);
            writer.put(b"\n", out);
            Text {
                reply: Reply::Yes,
                writer,
            }
        }
        PlayEnd::TapeSpent => {
            writer.put(b"tape spent\n", out);
            Text {
                reply: Reply::No,
                writer,
            }
        }
    }
}
