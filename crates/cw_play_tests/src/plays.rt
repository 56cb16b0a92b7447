//! The plays of every tape of up to six entries, against lists from a second program in another language.

ghost use Rattle.std.specs.Prelude.{◌<◌, ◌^◌, length};
ghost use Rattle.cw_rights.specs.Policies.{policy_of};
ghost use Rattle.cw_rights.specs.Valid.{IsValid};
ghost use Rattle.cw_certs.specs.Strategies.{strategy_of};
ghost use Rattle.cw_game.specs.Conditions.{IsGoodStrategy};
ghost use Rattle.cw_states.specs.States.{AreLists, lists_of};
ghost use Rattle.cw_product.specs.Product.{game_of};
ghost use Rattle.cw_product.specs.Uses.{uses_of};

use crate::lines::{is_trace, parts_of};
use crate::lists::{CALL_PLAYS, ONE_PLAYS, TWO_PLAYS};
use crate::texts::{
    CALL, CALL_POLICY, CALL_STRATEGY, ONE, ONE_POLICY, ONE_STRATEGY, TWO, TWO_POLICY, TWO_STRATEGY,
};
use crate::told::{Given, all_told};
use cw_certs::EnvCert;
use cw_echeck::check_env;
use cw_io::{SureSink, Writer};
use cw_play::{PlayEnd, play_env};
use cw_product::Game;
use cw_syntax::checked::Checked;
use cw_text::read_tape;
use cw_trace::{Names, trace_names};
use std::alloc::Global;

/// Whether a play ends as the program tells it by these words.
fn is_end(game: &Game, end: PlayEnd, wanted: &str) -> bool {
    match end {
        PlayEnd::TapeSpent => wanted == "tape spent",
        PlayEnd::Violation(number) => match game.policy().rules.get(usize::from(number)) {
            None => false,
            Some(rule) => match wanted.strip_prefix("violation ") {
                None => false,
                Some(name) => rule.name.as_slice() == name.as_bytes(),
            },
        },
    }
}

/// Whether the play of a tape against a good strategy ends so, with this trace.
fn is_played(
    alloc: Global,
    names: &Names,
    game: &Game,
    cert: &EnvCert,
    tape: &str,
    wanted: &str,
    trace: &str,
) -> bool
    requires valid { IsValid (policy_of game.now.states.policy) }
    requires lists { AreLists (uses_of (policy_of game.now.states.policy) game.now.graph.nodes.items) (lists_of game.now.states) }
    requires good { IsGoodStrategy (game_of game.now) (strategy_of cert.now) }
    requires rows { length cert.now.rows.items < 2 ^ 32 }
{
    if tape.len() > 65536 {
        return false;
    }
    let Ok(moves) = read_tape(alloc, tape.as_bytes(), true) else {
        return false;
    };
    let mut out = SureSink::make(alloc);
    let mut writer = Writer::begin(&out);
    match play_env(alloc, names, game, cert, &moves, &mut writer, &mut out) {
        Err(_) => false,
        Ok(end) => {
            writer.finish(&mut out).is_ok()
                && is_end(game, end, wanted)
                && is_trace(out.bytes(), trace)
        }
    }
}

/// How many tapes of a list are played against a strategy as the list has it; none where one isn't, or the strategy isn't good.
pub fn every_play(
    alloc: Global,
    checked: &Checked,
    game: &Game,
    cert: &EnvCert,
    list: &str,
) -> usize
    requires valid { IsValid (policy_of game.now.states.policy) }
    requires lists { AreLists (uses_of (policy_of game.now.states.policy) game.now.graph.nodes.items) (lists_of game.now.states) }
{
    if cert.rows.len() > 65536 {
        return 0;
    }
    let Ok(()) = check_env(game, cert) else {
        return 0;
    };
    let Ok(names) = trace_names(alloc, checked, game.graph()) else {
        return 0;
    };
    let mut tapes: usize = 0;
    for line in list.lines() {
        if let Some((tape, end, trace)) = parts_of(line) {
            if !is_played(alloc, &names, game, cert, tape, end, trace) {
                return 0;
            }
            tapes = tapes.saturating_add(1);
        }
    }
    tapes
}

#[test]
fn every_tape_of_up_to_six_entries_is_played(rt: HostRuntime) {
    all_told(
        &rt,
        rt.alloc(),
        &[
            (ONE_POLICY, Given::Play(ONE, ONE_STRATEGY), ONE_PLAYS, 127),
            (TWO_POLICY, Given::Play(TWO, TWO_STRATEGY), TWO_PLAYS, 127),
            (
                CALL_POLICY,
                Given::Play(CALL, CALL_STRATEGY),
                CALL_PLAYS,
                127,
            ),
        ],
    );
}
