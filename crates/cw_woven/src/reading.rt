//! What a woven text is read as.

ghost use Rattle.std.specs.Prelude.{◌≡◌, ◌≤◌, length, IfOk, IfErr};
ghost use Rattle.cw_rights.specs.Policies.{policy_of};
ghost use Rattle.cw_rights.specs.Valid.{IsValid};
ghost use Rattle.cw_syntax.specs.Trees.{file_of};
ghost use Rattle.cw_resolve.specs.Scenes.{names_of};
ghost use Rattle.cw_points.specs.Graphs.{IsGraph};
ghost use Rattle.cw_table_text.specs.Grammar.{Spells};
ghost use Rattle.cw_woven.specs.Accepting.{IsRefusedTable};
ghost use Rattle.cw_woven.specs.Held.{IsUnwoven, IsUnopened};
ghost use Rattle.cw_woven.specs.Reading.{IsFault, IsFaultOver, Reads, ReadsWoven};

use crate::acceptance::{Accepted, accept};
use crate::comparing::compare;
use crate::fault::WovenFault;
use crate::parts::{Insertion, without};
use crate::scanning::{Scanned, scan};
use cw_certs::WeaverCert;
use cw_core::limits::FILE_BYTES_IN_FORMAT_2;
use cw_points::marks::marks;
use cw_rights::Policy;
use cw_table_text::read_tables;
use cw_text::TextFault;
use std::alloc::Global;

/// What a woven text stands for.
#[derive(Drop)]
pub struct Woven {
    /// The source, in bytes.
    pub source: Vec<u8>,
    /// The table of its prologue.
    pub table: WeaverCert,
}

/// The table of a woven text, from the lines of its prologue.
fn table_of(alloc: Global, lines: &[u8], policy: &Policy) -> Result<WeaverCert, WovenFault>
    ensures table { IfOk result (λ table. Spells (policy_of policy.now) lines.now table) }
    ensures fault { IfErr result (IsRefusedTable (policy_of policy.now) lines.now) }
{
    match read_tables(alloc, lines, policy) {
        Ok(table) => Ok(table),
        Err(TextFault::NoMemory) => Err(WovenFault::NoMemory),
        Err(TextFault::Line(n)) => Err(WovenFault::Table(TextFault::Line(n))),
        Err(TextFault::Order(n)) => Err(WovenFault::Table(TextFault::Order(n))),
        Err(TextFault::Limit(n)) => Err(WovenFault::Table(TextFault::Limit(n))),
    }
}

/// A text in parts, the first of which is a prologue: its source, which isn't read yet, and its table.
#[derive(Drop)]
pub struct Unwoven<'t> {
    pub(crate) text: &'t [u8],
    pub(crate) marks: Vec<Insertion<'t>>,
    pub(crate) left: &'t [u8],
    /// The text without its parts, in bytes.
    pub source: Vec<u8>,
    /// The table of its prologue.
    pub table: WeaverCert,
}

/// The parts of a text of at most 33,554,432 bytes, with its table; or the first mark or line at fault. `NoMemory`: memory ran out.
pub fn open_woven<'t>(
    alloc: Global,
    text: &'t [u8],
    policy: &Policy,
) -> Result<Unwoven<'t>, WovenFault>
    requires short { length text.now ≤ FILE_BYTES_IN_FORMAT_2 }
    ensures text { IfOk result (λ remainder. remainder.text.now ≡ text.now) }
    ensures remainder { IfOk result (λ remainder. IsUnwoven (policy_of policy.now) remainder) }
    ensures fault { IfErr result (IsUnopened (policy_of policy.now) text.now) }
{
    let scanned = scan(alloc, text)?;
    let table = table_of(alloc, scanned.lines, policy)?;
    let source = without(alloc, &scanned.marks, scanned.left)?;
    let Scanned {
        lines: _,
        marks,
        left,
    } = scanned;
    Ok(Unwoven {
        text,
        marks,
        left,
        source,
        table,
    })
}

/// The program and the graph of the source of a text in parts, whose marks are those of its seams; or the first fault of the source, or the
/// first mark that isn't that of its seam. `NoMemory`: memory ran out.
pub fn accept_woven<'s>(
    alloc: Global,
    remainder: &'s Unwoven,
    policy: &Policy,
) -> Result<Accepted<'s>, WovenFault>
    requires valid { IsValid (policy_of policy.now) }
    requires remainder { IsUnwoven (policy_of policy.now) remainder.now }
    ensures source { IfOk result (λ a. a.checked.source.now ≡ remainder.now.source.items) }
    ensures reads { IfOk result (λ a. ReadsWoven (policy_of policy.now) remainder.now.text.now remainder.now.source.items (file_of a.checked.program) remainder.now.table) }
    ensures graph { IfOk result (λ a. IsGraph (names_of (policy_of policy.now)) remainder.now.source.items (file_of a.checked.program) a.graph) }
    ensures fault { IfErr result (IsFaultOver (policy_of policy.now) remainder.now.text.now remainder.now.source.items) }
{
    let accepted = match accept(alloc, policy, &remainder.source) {
        Ok(accepted) => accepted,
        Err(fault) => return Err(fault),
    };
    let marks = marks(alloc, &accepted.graph)?;
    match compare(
        &remainder.marks,
        remainder.left,
        &marks,
        &remainder.source,
        policy,
    ) {
        Ok(()) => Ok(accepted),
        Err(fault) => Err(fault),
    }
}

/// That the source of a text in parts is accepted, with its marks; or why not.
fn is_woven(alloc: Global, remainder: &Unwoven, policy: &Policy) -> Result<(), WovenFault>
    requires valid { IsValid (policy_of policy.now) }
    requires remainder { IsUnwoven (policy_of policy.now) remainder.now }
    ensures reads { IfOk result (λ _. Reads (policy_of policy.now) remainder.now.text.now remainder.now.source.items remainder.now.table) }
    ensures fault { IfErr result (IsFault (policy_of policy.now) remainder.now.text.now) }
{
    match accept_woven(alloc, remainder, policy) {
        Ok(_) => Ok(()),
        Err(fault) => return Err(fault),
    }
}

/// The source and the table that a text of at most 33,554,432 bytes stands for.
///
/// Any other text is refused by the first of these: the first opening that isn't closed or whose part is no mark (0 where the
/// text doesn't begin with `/*cw{*/` and LF); the first line of the prologue that is at fault; the first fault of the source, the text
/// without its parts; the least number of which the text's mark and that of the seam differ, or only one is there.
/// `NoMemory`: memory ran out.
pub fn read_woven(alloc: Global, text: &[u8], policy: &Policy) -> Result<Woven, WovenFault>
    requires valid { IsValid (policy_of policy.now) }
    requires short { length text.now ≤ FILE_BYTES_IN_FORMAT_2 }
    ensures reads { IfOk result (λ woven. Reads (policy_of policy.now) text.now woven.source.items woven.table) }
    ensures fault { IfErr result (IsFault (policy_of policy.now) text.now) }
{
    let remainder = match open_woven(alloc, text, policy) {
        Ok(remainder) => remainder,
        Err(fault) => return Err(fault),
    };
    match is_woven(alloc, &remainder, policy) {
        Ok(()) => {
            let Unwoven { source, table, .. } = remainder;
            Ok(Woven { source, table })
        }
        Err(fault) => Err(fault),
    }
}
