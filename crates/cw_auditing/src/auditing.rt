//! What is due for `audit`.

ghost use Rattle.std.specs.Prelude.{◌≡◌, ◌≤◌, ℕ, List, length, IfOk};
ghost use Rattle.cw_rights.specs.Policies.{PlainPolicy, policy_of};
ghost use Rattle.cw_model.specs.Boards.{Problem};
ghost use Rattle.cw_game.specs.Standing.{IsGameOf};
ghost use Rattle.cw_rights.specs.Valid.{IsValid};
ghost use Rattle.cw_audit_table.specs.Tables.{audit_of};
ghost use Rattle.cw_product.specs.Product.{game_of};
ghost use Rattle.cw_commands.specs.Outcomes.{due_of};
ghost use Rattle.cw_commands.specs.Starts.{Starts, StartsLine};
ghost use Rattle.cw_stages.specs.Reading.{WithSource};
ghost use Rattle.cw_stages.specs.Stops.{file_in, source_of, told_of, whole_of, Answers, BeginsText, IsReading, StartsText};
ghost use Rattle.cw_auditing.specs.Auditing.{reply_of, told, AfterPair, IsAuditDue, IsAuditedBy};

use cw_audit::{AuditFault, audit};
use cw_audit_table::AuditTable;
use cw_audit_text::put_audit;
use cw_commands::{Outcome, Reply};
use cw_core::limits::SOURCE_BYTES;
use cw_core::{NoMemory, Quantity};
use cw_io::{Sink, Writer};
use cw_policy::read_policy;
use cw_product::Game;
use cw_rights::Policy;
use cw_stages::{Reading, Stop, Text, draw, ended, fits, make_game, policy_refusal, read_under};
use std::alloc::Global;

/// Which answer an audit is, by its distance.
fn reply_of(distance: Option<u32>) -> Reply
    ensures { result ≡ reply_of distance }
{
    match distance {
        None => Reply::Yes,
        Some(_) => Reply::No,
    }
}

/// The text of an audit.
fn told<O: Sink>(table: &AuditTable, out: &mut O) -> Text<O>
    ensures due { told_of result ≡ told (audit_of table.now) }
    ensures puts { BeginsText O.taken O.faults O.refused out.old out.new result }
{
    let mut writer = Writer::begin(out);
    put_audit(table, &mut writer, out);
    Text {
        reply: reply_of(table.distance),
        writer,
    }
}

/// The audit of a game, or that it is over a limit.
fn audited<O: Sink>(alloc: Global, game: &Game, out: &mut O) -> Result<Text<O>, Stop>
    requires program { (p : Problem) × IsGameOf p (game_of game.now) }
    ensures due { (whole : PlainPolicy) → (source : List ℕ)
        → Answers whole source (IsAuditedBy (game_of game.now) (length game.now.graph.parts.items)) result }
    ensures puts { StartsText O.taken O.faults O.refused out.old out.new result }
{
    game.fact_is_closed();
    match audit(alloc, game) {
        Ok(table) => Ok(told(&table, out)),
        Err(AuditFault::TooManyRows) => Err(Stop::Over(Quantity::Rows)),
        Err(AuditFault::TooManyMoves) => Err(Stop::Over(Quantity::AuditMoves)),
        Err(AuditFault::NoMemory) => Err(Stop::NoMemory),
    }
}

/// That the policy doesn't fit the program, that no game of theirs comes, or the audit.
fn fitted<O: Sink>(alloc: Global, reading: &Reading, out: &mut O) -> Result<Text<O>, Stop>
    requires is { IsReading reading.now }
    ensures due { let whole = whole_of reading.now in let source = source_of reading.now in
        Answers whole source (AfterPair source whole (file_in reading.now)) result }
    ensures puts { StartsText O.taken O.faults O.refused out.old out.new result }
{
    fits(alloc, reading)?;
    let graph = draw(alloc, reading)?;
    let game = make_game(alloc, reading, &graph)?;
    audited(alloc, &game, out)
}

/// That the source is refused under the policy, or what comes behind that.
fn read<O: Sink>(
    alloc: Global,
    policy: &Policy,
    source: &[u8],
    out: &mut O,
) -> Result<Text<O>, Stop>
    requires short { length source.now ≤ SOURCE_BYTES }
    requires valid { IsValid (policy_of policy.now) }
    ensures due { let whole = policy_of policy.now in
        Answers whole source.now (WithSource (AfterPair source.now whole) source.now whole) result }
    ensures puts { StartsText O.taken O.faults O.refused out.old out.new result }
{
    let reading = read_under(alloc, policy, source)?;
    fitted(alloc, &reading, out)
}

/// What is due for `audit`, by the bytes of a policy and of a source.
pub fn audit_due<O: Sink, N: Sink>(
    alloc: Global,
    policy: &[u8],
    source: &[u8],
    out: &mut O,
    note: &mut N,
) -> Result<Outcome<O, N>, NoMemory>
    requires short { length source.now ≤ SOURCE_BYTES }
    ensures due { IfOk result (λ outcome. IsAuditDue policy.now source.now (due_of outcome)) }
    ensures puts { Starts O.taken O.faults O.refused out.old out.new result }
    ensures notes { StartsLine N.taken N.faults N.refused note.old note.new result }
{
    match read_policy(alloc, policy) {
        Ok(whole) => ended(read(alloc, &whole, source, out), &whole, source, note),
        Err(fault) => policy_refusal(&fault, note),
    }
}
