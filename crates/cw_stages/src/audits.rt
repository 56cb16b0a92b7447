//! Audits as files of a command.

ghost use Rattle.std.specs.Prelude.{◌≡◌, ◌≤◌, ℕ, List, length, IfErr, IfOk};
ghost use Rattle.cw_rights.specs.Policies.{PlainPolicy};
ghost use Rattle.cw_audit_check.specs.Checks.{fault_of};
ghost use Rattle.cw_audit_table.specs.Tables.{AreFew, audit_of};
ghost use Rattle.cw_audit_text.specs.AuditText.{Spells};
ghost use Rattle.cw_commands.specs.declared.outcome.Reply.TheVariants.{No};
ghost use Rattle.cw_commands.specs.Outcomes.{Told};
ghost use Rattle.cw_stages.specs.Audits.{told, IsAuditRefusal};
ghost use Rattle.cw_stages.specs.Stops.{told_of, BeginsText, IsStop};

use crate::stop::Stop;
use crate::told::Text;
use cw_audit_check::BadGroup;
use cw_audit_table::AuditTable;
use cw_audit_text::{AuditTextFault, read_audit};
use cw_commands::Reply;
use cw_core::limits::FILE_BYTES_IN_FORMAT_2;
use cw_io::{Sink, Writer};
use std::alloc::Global;

/// The audit whose text this is; or the first line at fault.
pub fn audit_in(alloc: Global, text: &[u8]) -> Result<AuditTable, Stop>
    requires { length text.now ≤ FILE_BYTES_IN_FORMAT_2 }
    ensures spells { IfOk result (λ audit. Spells text.now (audit_of audit)) }
    ensures few { IfOk result (λ audit. AreFew audit.groups.items) }
    ensures stop { IfErr result (λ stop. (whole : PlainPolicy) → (source : List ℕ) → IsStop whole source (IsAuditRefusal text.now) stop) }
{
    match read_audit(alloc, text) {
        Ok(audit) => Ok(audit),
        Err(AuditTextFault::Line(line)) => Err(Stop::Audit(line)),
        Err(AuditTextFault::NoMemory) => Err(Stop::NoMemory),
    }
}

/// The line that tells which group and which row of an audit fails which condition.
pub fn tell_group<O: Sink>(bad: &BadGroup, out: &mut O) -> Text<O>
    ensures due { told_of result ≡ Told No (told (fault_of bad.now)) }
    ensures puts { BeginsText O.taken O.faults O.refused out.old out.new result }
{
    let mut writer = Writer::begin(out);
    writer.put(b"group ", out);
    writer.put_number(u64::from(bad.group), out);
    writer.put(b" row ", out);
    writer.put_number(u64::from(bad.row), out);
    writer.put(b" condition ", out);
    writer.put_number(u64::from(bad.condition), out);
    writer.put(b"\n", out);
    Text {
        reply: Reply::No,
        writer,
    }
}
