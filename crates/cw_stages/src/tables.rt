//! Woven texts as files of a command, and the rows of their tables.

ghost use Rattle.std.specs.Prelude.{◌≡◌, ◌≤◌, [], length, IfErr, IfOk};
ghost use Rattle.cw_rights.specs.Policies.{policy_of};
ghost use Rattle.cw_rights.specs.Valid.{IsValid};
ghost use Rattle.cw_resolve.specs.Scenes.{names_of};
ghost use Rattle.cw_points.specs.Graphs.{IsGraph};
ghost use Rattle.cw_wcheck.specs.Checking.{HasFewRows};
ghost use Rattle.cw_woven.specs.Held.{IsUnwoven};
ghost use Rattle.cw_woven.specs.Reading.{ReadsWoven};
ghost use Rattle.cw_commands.specs.declared.outcome.Reply.TheVariants.{No};
ghost use Rattle.cw_commands.specs.Outcomes.{Told};
ghost use Rattle.cw_stages.specs.Held.{list_name, told_row};
ghost use Rattle.cw_stages.specs.Stops.{file_in, source_of, told_of, whole_of, BeginsText, IsReading, IsStop};
ghost use Rattle.cw_stages.specs.Tables.{IsWovenRefusal};

use crate::reading::Reading;
use crate::stop::Stop;
use crate::told::Text;
use cw_commands::Reply;
use cw_core::limits::{FILE_BYTES_IN_FORMAT_2, POINTS};
use cw_io::{Sink, Writer};
use cw_points::Graph;
use cw_rights::Policy;
use cw_wcheck::BadRow;
use cw_woven::{Accepted, Unwoven, accept_woven, open_woven};
use std::alloc::Global;

/// The parts of a woven text of at most 33,554,432 bytes; or the first of them at fault, for which no source is looked at.
pub fn open<'t>(alloc: Global, policy: &Policy, text: &'t [u8]) -> Result<Unwoven<'t>, Stop>
    requires valid { IsValid (policy_of policy.now) }
    requires short { length text.now ≤ FILE_BYTES_IN_FORMAT_2 }
    ensures text { IfOk result (λ parts. parts.text.now ≡ text.now) }
    ensures unwoven { IfOk result (λ parts. IsUnwoven (policy_of policy.now) parts) }
    ensures stop { IfErr result (IsStop (policy_of policy.now) [] (IsWovenRefusal (policy_of policy.now) text.now)) }
{
    match open_woven(alloc, text, policy) {
        Ok(parts) => Ok(parts),
        Err(fault) => Err(Stop::Woven(fault)),
    }
}

/// The source of a woven text in parts, read as a program with its graph; or the first fault of the source, or the first mark that isn't its seam's.
pub fn accept<'r>(
    alloc: Global,
    policy: &'r Policy,
    unwoven: &'r Unwoven,
) -> Result<(Reading<'r>, Graph), Stop>
    requires valid { IsValid (policy_of policy.now) }
    requires unwoven { IsUnwoven (policy_of policy.now) unwoven.now }
    ensures policy { IfOk result (λ both. both.0.policy.now ≡ policy.now) }
    ensures source { IfOk result (λ both. source_of both.0 ≡ unwoven.now.source.items) }
    ensures is { IfOk result (λ both. IsReading both.0) }
    ensures read { IfOk result (λ both. ReadsWoven (policy_of policy.now) unwoven.now.text.now unwoven.now.source.items (file_in both.0) unwoven.now.table) }
    ensures graph { IfOk result (λ both. IsGraph (names_of (whole_of both.0)) (source_of both.0) (file_in both.0) both.1) }
    ensures points { IfOk result (λ both. length both.1.nodes.items ≤ POINTS) }
    ensures few { IfOk result (λ _. HasFewRows unwoven.now.table) }
    ensures stop { IfErr result (IsStop (policy_of policy.now) unwoven.now.source.items (IsWovenRefusal (policy_of policy.now) unwoven.now.text.now)) }
{
    match accept_woven(alloc, unwoven, policy) {
        Ok(accepted) => {
            let Accepted { checked, graph } = accepted;
            Ok((Reading { policy, checked }, graph))
        }
        Err(fault) => Err(Stop::Woven(fault)),
    }
}

/// The name of a list of a table, by its number.
fn list_name(table: u8) -> &'static [u8]
    ensures { result.now ≡ list_name table }
{
    match table {
        1 => b"mems",
        2 => b"live",
        3 => b"tries",
        4 => b"ats",
        5 => b"opened",
        6 => b"closed",
        7 => b"into",
        _ => b"back",
    }
}

/// The line that tells which row of a table fails which condition.
pub fn tell_row<O: Sink>(bad: &BadRow, out: &mut O) -> Text<O>
    ensures due { told_of result ≡ Told No (told_row bad.now) }
    ensures puts { BeginsText O.taken O.faults O.refused out.old out.new result }
{
    let mut writer = Writer::begin(out);
    writer.put(list_name(bad.table), out);
    writer.put(b" ", out);
    writer.put_number(u64::from(bad.number), out);
    writer.put(b" condition ", out);
    writer.put_number(u64::from(bad.condition), out);
    writer.put(b"\n", out);
    Text {
        reply: Reply::No,
        writer,
    }
}
