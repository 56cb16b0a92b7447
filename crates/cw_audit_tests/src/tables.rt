//! Audits that are read and checked, or found, and printed.

ghost use Rattle.cw_model.specs.Boards.{Problem};
ghost use Rattle.cw_game.specs.Standing.{IsGameOf};
ghost use Rattle.cw_product.specs.Product.{game_of};
ghost use Rattle.cw_audit_table.specs.Tables.{AreFew};

use crate::told::Told;
use cw_audit::{AuditFault, audit};
use cw_audit_check::{check_audit, shows};
use cw_audit_table::AuditTable;
use cw_audit_text::{AuditTextFault, print_audit, read_audit};
use cw_io::SureSink;
use cw_product::Game;
use std::alloc::Global;

/// How many rows a table has.
fn rows_in(table: &AuditTable) -> usize {
    let mut rows: usize = 0;
    for group in &table.groups {
        rows = rows.saturating_add(group.rows.len());
    }
    rows
}

/// Whether an audit is printed as a text, or how large it is.
fn beside(alloc: Global, table: &AuditTable, text: &str) -> Told {
    let mut sink = SureSink::make(alloc);
    if print_audit(table, &mut sink).is_err() {
        return Told::Nothing;
    }
    if sink.bytes() == text.as_bytes() {
        Told::Printed
    } else {
        Told::Other(table.distance, table.moves.len(), rows_in(table))
    }
}

/// Whether the audit that is read of a text is printed so.
pub fn print(alloc: Global, text: &str) -> Told {
    if text.len() > 33554432 {
        return Told::Nothing;
    }
    match read_audit(alloc, text.as_bytes()) {
        Ok(table) => beside(alloc, &table, text),
        Err(_) => Told::Nothing,
    }
}

/// Whether an audit is exact.
fn judged(alloc: Global, game: &Game, table: &AuditTable) -> Told
    requires { AreFew table.now.groups.items }
{
    match check_audit(game, table) {
        Err(bad) => Told::Bad(bad.group, bad.row, bad.condition),
        Ok(()) => match shows(alloc, game, table) {
            Ok(true) => Told::Exact,
            Ok(false) => Told::NotShown,
            Err(_) => Told::Nothing,
        },
    }
}

/// Whether the audit that is read of a text is exact.
pub fn check(alloc: Global, game: &Game, text: &str) -> Told {
    if text.len() > 33554432 {
        return Told::Nothing;
    }
    match read_audit(alloc, text.as_bytes()) {
        Ok(table) => judged(alloc, game, &table),
        Err(AuditTextFault::Line(line)) => Told::Line(line),
        Err(AuditTextFault::NoMemory) => Told::Nothing,
    }
}

/// Whether the audit that is found is printed as a text, or how large it is.
pub fn find(alloc: Global, game: &Game, text: &str) -> Told
    requires program { (p : Problem) × IsGameOf p (game_of game.now) }
{
    match audit(alloc, game) {
        Ok(table) => beside(alloc, &table, text),
        Err(AuditFault::TooManyRows) => Told::TooManyRows,
        Err(AuditFault::TooManyMoves) => Told::TooManyMoves,
        Err(AuditFault::NoMemory) => Told::Nothing,
    }
}
