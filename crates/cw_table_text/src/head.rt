//! The lines before the rows of a table.

ghost use Rattle.std.specs.Prelude.{◌≡◌, IfOk};
ghost use Rattle.cw_rights.specs.Policies.{policy_of};
ghost use Rattle.cw_text.specs.Lines.{line, Reads};
ghost use Rattle.cw_text.specs.LimitsText.{limits_line};
ghost use Rattle.cw_table_text.specs.TablesText.{table_text};
ghost use Rattle.cw_table_text.specs.Working.{head_fields, table_of, FitsHead, HeadRead, TakesRow, seen};

use crate::draft::Draft;
use crate::fields::take_mem;
use crate::line::name_and_inner;
use cw_core::{MemId, NoMemory};
use cw_io::{SureSink, Writer};
use cw_rights::Policy;
use cw_text::{Fields, TextFault, behind, is_same, next_line, put_limits};
use std::alloc::Global;

/// The line of a policy's limits, with its LF, put into a sink in memory.
fn limits_of(alloc: Global, policy: &Policy) -> Result<SureSink, NoMemory>
    ensures { IfOk result (λ sink. sink.bytes ≡ limits_line (policy_of policy.now)) }
{
    let mut sink = SureSink::make(alloc);
    let mut writer = Writer::begin(&sink);
    put_limits(policy, &mut writer, &mut sink);
    match writer.finish(&mut sink) {
        Ok(()) => Ok(sink),
        Err(_) => Err(NoMemory),
    }
}

/// The fields of the table's own line, for a policy of this format.
fn take_head(fields: &mut Fields, format: u8) -> Option<(u16, MemId)>
    ensures { TakesRow FitsHead (head_fields format) fields.old fields.new result }
{
    let version = fields.take_u8()?;
    if version != format {
        return None;
    }
    let states = fields.take_u16()?;
    let start = take_mem(fields)?;
    Some((states, start))
}

/// How many states a table has, and its start, by its own line.
fn read_table_line(line: &[u8], format: u8) -> Option<(u16, MemId)>
    ensures { Reads FitsHead (λ head. table_text format head.0 head.1) line.now result }
{
    let (name, inner) = name_and_inner(line)?;
    if !is_same(name, b"CW_TABLE") {
        return None;
    }
    let mut fields = Fields::of(inner, b',');
    let head = take_head(&mut fields, format)?;
    if !fields.is_done() {
        return None;
    }
    Some(head)
}

/// A table without rows by the three lines of its head, and the text behind these.
pub(crate) fn read_head<'t>(
    alloc: Global,
    text: &'t [u8],
    policy: &Policy,
) -> Result<(Draft, &'t [u8]), TextFault>
    ensures { HeadRead (policy_of policy.now) text.now (seen (λ p. (table_of p.0, p.1.now)) result) }
{
    let Some(rest) = behind(text, b"#include \"capweave.h\"\n") else {
        return Err(TextFault::Line(1));
    };
    let limits = limits_of(alloc, policy)?;
    let Some(rest) = behind(rest, limits.bytes()) else {
        return Err(TextFault::Line(2));
    };
    let Some((line, rest)) = next_line(rest) else {
        return Err(TextFault::Line(3));
    };
    let Some((states, start)) = read_table_line(line, policy.format) else {
        return Err(TextFault::Line(3));
    };
    Ok((Draft::without_rows(alloc, states, start), rest))
}
