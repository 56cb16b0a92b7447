//! The table of a text.

ghost use Rattle.std.specs.Prelude.{◌≡◌, ◌≤◌, length};
ghost use Rattle.cw_rights.specs.Policies.{policy_of};
ghost use Rattle.cw_table_text.specs.Grammar.{Answers};

use crate::head::read_head;
use crate::rows::read_rows;
use cw_certs::WeaverCert;
use cw_rights::Policy;
use cw_text::TextFault;
use std::alloc::Global;

/// The table whose text this is: the lines of a woven text's prologue after its first, up to and with `CW_DONE` and its
/// LF, for a policy of format 1 or 2, in at most 33,554,432 bytes. Any other text has its first line at fault,
/// numbered from 1: `Line` where it isn't of the form that is due there, is missing or stands behind the last; `Order` where
/// it is a row that can't stand there by its kind, number or key; `Limit` where it is the row past 65,536.
/// `NoMemory`: memory ran out.
pub fn read_tables(alloc: Global, text: &[u8], policy: &Policy) -> Result<WeaverCert, TextFault>
    ensures { Answers (policy_of policy.now) text.now result }
{
    let (mut draft, rest) = read_head(alloc, text, policy)?;
    let (count, rest) = match read_rows(rest, policy.format, &mut draft) {
        Ok(read) => read,
        Err(fault) => return Err(fault),
    };
    if !rest.is_empty() {
        return Err(TextFault::Line(count + 5));
    }
    Ok(draft.finish())
}
