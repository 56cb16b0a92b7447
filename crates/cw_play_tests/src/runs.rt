//! The runs of every tape of up to six entries, against lists from a second program in another language. A tape whose shorter front is told a bad move stands in
//! no list: it is told the same, which is tried with one entry more.

ghost use Rattle.std.specs.Prelude.{IsTrue};
ghost use Rattle.cw_rights.specs.Policies.{policy_of};
ghost use Rattle.cw_rights.specs.Valid.{IsValid};
ghost use Rattle.cw_syntax.specs.Trees.{file_of};
ghost use Rattle.cw_resolve.specs.Scenes.{names_of};
ghost use Rattle.cw_points.specs.Graphs.{IsGraph};
ghost use Rattle.cw_source.specs.Read.{ReadsAs};
ghost use Rattle.cw_game.specs.Conditions.{IsGoodTable};
ghost use Rattle.cw_states.specs.States.{AreLists, lists_of};
ghost use Rattle.cw_product.specs.Product.{game_of};
ghost use Rattle.cw_product.specs.Uses.{uses_of};
ghost use Rattle.cw_wcheck.specs.Checking.{HasFewRows};

use crate::lines::{is_trace, parts_of};
use crate::lists::{RETURN_RUNS, STOP_RUNS, STORED_RUNS};
use crate::texts::{RETURN, STOP, STOP_POLICY, STORED, STORED_POLICY};
use crate::told::{Given, all_told};
use cw_certs::WeaverCert;
use cw_io::{SureSink, Writer};
use cw_product::Game;
use cw_run::{RunEnd, run_woven};
use cw_syntax::checked::Checked;
use cw_text::read_tape;
use cw_wcheck::check_weaver;
use std::alloc::Global;

/// What a tape of a list is tried with behind it: nothing, and where it is told a bad move each move of the environment too.
const BEHIND: [&str; 8] = [
    "", " grant", " refuse", " on", " left", " right", " opened", " failed",
];

/// Whether a run ends as the program tells it by these words.
fn is_end(end: RunEnd, wanted: &str) -> bool {
    match end {
        RunEnd::Ended => wanted == "ended",
        RunEnd::TapeSpent => wanted == "tape spent",
        RunEnd::BadMove(number) => match wanted.strip_prefix("bad move ") {
            None => false,
            Some(told) => told.parse::<u32>().ok() == Some(number),
        },
    }
}

/// Whether the run of a good table by a tape ends so, with this trace.
fn is_run(
    alloc: Global,
    checked: &Checked,
    game: &Game,
    table: &WeaverCert,
    tape: &str,
    wanted: &str,
    trace: &str,
) -> bool
    requires valid { IsValid (policy_of game.now.states.policy) }
    requires lists { AreLists (uses_of (policy_of game.now.states.policy) game.now.graph.nodes.items) (lists_of game.now.states) }
    requires reads { ReadsAs checked.now.source.now (file_of checked.now.program) }
    requires graph { IsGraph (names_of (policy_of game.now.states.policy)) checked.now.source.now (file_of checked.now.program) game.now.graph }
    requires good { IsGoodTable (game_of game.now) table.now }
{
    if tape.len() > 65536 {
        return false;
    }
    let Ok(moves) = read_tape(alloc, tape.as_bytes(), false) else {
        return false;
    };
    if moves.len() > 65536 {
        return false;
    }
    let mut out = SureSink::make(alloc);
    let mut writer = Writer::begin(&out);
    match run_woven(alloc, checked, game, table, &moves, &mut writer, &mut out) {
        Err(_) => false,
        Ok(end) => {
            writer.finish(&mut out).is_ok() && is_end(end, wanted) && is_trace(out.bytes(), trace)
        }
    }
}

/// Whether the numbers of a table's rows fit 32 bits.
fn has_few_rows(table: &WeaverCert) -> bool
    ensures few { IsTrue result → HasFewRows table.now }
{
    let states = table.mems().len() as u128 + table.live().len() as u128;
    let tries = table.tries().len() as u128 + table.ats().len() as u128;
    let variables = table.opened().len() as u128 + table.closed().len() as u128;
    let calls = table.into_rows().len() as u128 + table.back_rows().len() as u128;
    states + tries + variables + calls < 4294967296
}

/// How many tapes of a list, with those of one entry more, are run by a table as the list has it; none where one isn't, or the table isn't good.
pub fn every_run(
    alloc: Global,
    checked: &Checked,
    game: &Game,
    table: &WeaverCert,
    list: &str,
) -> usize
    requires valid { IsValid (policy_of game.now.states.policy) }
    requires lists { AreLists (uses_of (policy_of game.now.states.policy) game.now.graph.nodes.items) (lists_of game.now.states) }
    requires reads { ReadsAs checked.now.source.now (file_of checked.now.program) }
    requires graph { IsGraph (names_of (policy_of game.now.states.policy)) checked.now.source.now (file_of checked.now.program) game.now.graph }
{
    if !has_few_rows(table) {
        return 0;
    }
    let Ok(()) = check_weaver(game, table) else {
        return 0;
    };
    let mut tapes: usize = 0;
    for line in list.lines() {
        if let Some((tape, end, trace)) = parts_of(line) {
            for behind in &BEHIND {
                if behind.is_empty() || end.starts_with("bad move") {
                    let Ok(tape) = format!(in alloc; "{tape}{behind}") else {
                        return 0;
                    };
                    if !is_run(alloc, checked, game, table, &tape, end, trace) {
                        return 0;
                    }
                    tapes = tapes.saturating_add(1);
                }
            }
        }
    }
    tapes
}

#[test]
fn every_tape_of_up_to_six_entries_is_run(rt: HostRuntime) {
    all_told(
        &rt,
        rt.alloc(),
        &[
            (STORED_POLICY, Given::Run(STORED), STORED_RUNS, 295),
            (STOP_POLICY, Given::Run(STOP), STOP_RUNS, 631),
            (STORED_POLICY, Given::Run(RETURN), RETURN_RUNS, 386),
        ],
    );
}
