//! What is due for `reaudit`.

ghost use Rattle.std.specs.Prelude.{◌≤◌, ℕ, List, length, IfOk, IfSome, IfNone};
ghost use Rattle.cw_rights.specs.Policies.{PlainPolicy, policy_of};
ghost use Rattle.cw_rights.specs.Valid.{IsValid};
ghost use Rattle.cw_audit_check.specs.Checks.{fault_of};
ghost use Rattle.cw_audit_table.specs.Conditions.{IsGoodAudit, IsShown};
ghost use Rattle.cw_audit_table.specs.Tables.{AreFew, audit_of};
ghost use Rattle.cw_product.specs.Product.{game_of};
ghost use Rattle.cw_commands.specs.Outcomes.{due_of};
ghost use Rattle.cw_commands.specs.Starts.{Starts, StartsLine};
ghost use Rattle.cw_stages.specs.Reading.{WithSource};
ghost use Rattle.cw_stages.specs.Stops.{file_in, source_of, whole_of, Answers, IsReading, StartsText};
ghost use Rattle.cw_auditing.specs.Reauditing.{AfterPair, IsFirstFault, IsReauditDue, IsReauditedBy};

use cw_audit_check::{BadGroup, check_audit, shows};
use cw_audit_table::AuditTable;
use cw_commands::{Outcome, Reply};
use cw_core::NoMemory;
use cw_core::limits::{FILE_BYTES_IN_FORMAT_2, SOURCE_BYTES};
use cw_io::Sink;
use cw_policy::read_policy;
use cw_product::Game;
use cw_rights::Policy;
use cw_stages::{
    Reading, Stop, Text, audit_in, draw, ended, fits, make_game, policy_refusal, read_under, tell,
    tell_group,
};
use std::alloc::Global;

/// The number of the condition that the moves show the distance.
const SHOWN: u8 = 6;

/// What fails first of an audit, if anything does.
fn first_fault(alloc: Global, game: &Game, audit: &AuditTable) -> Result<Option<BadGroup>, NoMemory>
    requires few { AreFew audit.now.groups.items }
    ensures none { IfOk result (λ found. IfNone found
        (IsGoodAudit (game_of game.now) (length game.now.graph.parts.items) (audit_of audit.now) × IsShown (game_of game.now) (audit_of audit.now))) }
    ensures some { IfOk result (λ found. IfSome found (λ bad.
        IsFirstFault (game_of game.now) (length game.now.graph.parts.items) (audit_of audit.now) (fault_of bad))) }
{
    if let Err(bad) = check_audit(game, audit) {
        return Ok(Some(bad));
    }
    if shows(alloc, game, audit)? {
        return Ok(None);
    }
    Ok(Some(BadGroup {
        group: audit.groups.len() as u32,
        row: 0,
        condition: SHOWN,
    }))
}

/// What is told of an audit.
fn judged<O: Sink>(
    alloc: Global,
    game: &Game,
    audit: &AuditTable,
    out: &mut O,
) -> Result<Text<O>, Stop>
    requires few { AreFew audit.now.groups.items }
    ensures due { (whole : PlainPolicy) → (source : List ℕ)
        → Answers whole source (IsReauditedBy (game_of game.now) (length game.now.graph.parts.items) (audit_of audit.now)) result }
    ensures puts { StartsText O.taken O.faults O.refused out.old out.new result }
{
    game.fact_is_closed();
    match first_fault(alloc, game, audit)? {
        None => Ok(tell(Reply::Yes, b"yes\n", out)),
        Some(bad) => Ok(tell_group(&bad, out)),
    }
}

/// That the text is no audit's, that the policy doesn't fit the program, that no game of theirs comes, or what is told of the audit.
fn spelled<O: Sink>(
    alloc: Global,
    reading: &Reading,
    text: &[u8],
    out: &mut O,
) -> Result<Text<O>, Stop>
    requires is { IsReading reading.now }
    requires short { length text.now ≤ FILE_BYTES_IN_FORMAT_2 }
    ensures due { let whole = whole_of reading.now in let source = source_of reading.now in
        Answers whole source (AfterPair source text.now whole (file_in reading.now)) result }
    ensures puts { StartsText O.taken O.faults O.refused out.old out.new result }
{
    let audit = audit_in(alloc, text)?;
    fits(alloc, reading)?;
    let graph = draw(alloc, reading)?;
    let game = make_game(alloc, reading, &graph)?;
    judged(alloc, &game, &audit, out)
}

/// That the source is refused under the policy, or what comes behind that.
fn read<O: Sink>(
    alloc: Global,
    policy: &Policy,
    source: &[u8],
    text: &[u8],
    out: &mut O,
) -> Result<Text<O>, Stop>
    requires short { length source.now ≤ SOURCE_BYTES }
    requires short_text { length text.now ≤ FILE_BYTES_IN_FORMAT_2 }
    requires valid { IsValid (policy_of policy.now) }
    ensures due { let whole = policy_of policy.now in
        Answers whole source.now (WithSource (AfterPair source.now text.now whole) source.now whole) result }
    ensures puts { StartsText O.taken O.faults O.refused out.old out.new result }
{
    let reading = read_under(alloc, policy, source)?;
    spelled(alloc, &reading, text, out)
}

/// What is due for `reaudit`, by the bytes of a policy, of a source and of an audit.
pub fn reaudit_due<O: Sink, N: Sink>(
    alloc: Global,
    policy: &[u8],
    source: &[u8],
    audit: &[u8],
    out: &mut O,
    note: &mut N,
) -> Result<Outcome<O, N>, NoMemory>
    requires short { length source.now ≤ SOURCE_BYTES }
    requires short_audit { length audit.now ≤ FILE_BYTES_IN_FORMAT_2 }
    ensures due { IfOk result (λ outcome. IsReauditDue policy.now source.now audit.now (due_of outcome)) }
    ensures puts { Starts O.taken O.faults O.refused out.old out.new result }
    ensures notes { StartsLine N.taken N.faults N.refused note.old note.new result }
{
    match read_policy(alloc, policy) {
        Ok(whole) => ended(
            read(alloc, &whole, source, audit, out),
            &whole,
            source,
            note,
        ),
        Err(fault) => policy_refusal(&fault, note),
    }
}
