//! The check of a strategy against the game of a program.

ghost use Rattle.std.specs.Prelude.{◌≡◌, ◌<◌, ◌^◌, length, option_map, slice_get, Some, IfOk, IfErr};
ghost use Rattle.std.specs.List.{list_all, list_any, enumerate_from};
ghost use Rattle.cw_certs.specs.Strategies.{row_of, strategy_of};
ghost use Rattle.cw_game.specs.Conditions.{first_failing, is_row, row_conditions, all_rows, is_start, strategy_fault, IsGoodStrategy};
ghost use Rattle.cw_product.specs.Moves.{IsPosition, IsState};
ghost use Rattle.cw_product.specs.Product.{game_of};
ghost use Rattle.cw_echeck.specs.Beating.{BeatsAll};
ghost use Rattle.cw_echeck.specs.Checks.{AreExits, backs_of, calls_in, ends_in, fault_of, goes_in, returns_by, unless, weaves_in};

use crate::named::{exits_below, names_below, stands};
use crate::sets::{are_covered, has_state, is_below};
use cw_certs::{EnvCert, EnvRow, How, Move};
use cw_core::{PosId, StateId, StateSet};
use cw_product::{Game, Turn};

/// A row of a strategy that fails a condition, by their numbers. A wrong number of states is told of row 0, and a
/// start that is missing with the number of rows.
#[derive(Clone, Copy, Drop, Debug, PartialEq, Eq)]
pub struct BadEnvRow {
    pub row: u32,
    pub condition: u8,
}

// The condition, where the test fails.
fn unless(condition: u8, holds: bool) -> Option<u8>
    ensures { result ≡ unless condition holds }
{
    if holds { None } else { Some(condition) }
}

// Whether a row's numbers are in range, and the rows that it names are earlier.
fn is_row(game: &Game, number: u32, row: &EnvRow) -> bool
    ensures { result ≡ is_row (game_of game.now) number (row_of row.now) }
{
    let states = game.states();
    row.pos.0 < game.positions()
        && row.state.0 < states
        && is_below(&row.aim, states)
        && names_below(&row.how, number)
        && exits_below(&row.how, states)
}

// Whether a function other than `main` ends there, in a state of the aim.
fn ends_well(game: &Game, row: &EnvRow) -> bool
    requires position { IsPosition (game_of game.now) row.now.pos.0 }
    ensures { result ≡ ends_in (game_of game.now) (row_of row.now) }
{
    match game.turn(row.pos) {
        Turn::Exit { main } => !main && has_state(&row.aim, row.state),
        _ => false,
    }
}

// Whether it is the weaver's turn, and the rows stand at the pairs of the skip and of the try.
fn weaver_moves(game: &Game, cert: &EnvCert, row: &EnvRow, skip: u32, tried: u32) -> bool
    requires position { IsPosition (game_of game.now) row.now.pos.0 }
    requires state { IsState (game_of game.now) row.now.state.0 }
    ensures { result ≡ weaves_in (game_of game.now) (strategy_of cert.now) (row_of row.now) skip tried }
{
    let skipped = game.next(row.pos, row.state, Move::Skip);
    let asked = game.next(row.pos, row.state, Move::Try);
    match game.turn(row.pos) {
        Turn::Weaver => stands(cert, skip, skipped, &row.aim)
            && stands(cert, tried, asked, &row.aim),
        _ => false,
    }
}

// Whether it is the environment's turn, and the row stands at the pair of the move.
fn environment_moves(game: &Game, cert: &EnvCert, row: &EnvRow, by: Move, next: u32) -> bool
    requires position { IsPosition (game_of game.now) row.now.pos.0 }
    requires state { IsState (game_of game.now) row.now.state.0 }
    ensures { result ≡ goes_in (game_of game.now) (strategy_of cert.now) (row_of row.now) by next }
{
    let after = game.next(row.pos, row.state, by);
    match game.turn(row.pos) {
        Turn::Environment => stands(cert, next, after, &row.aim),
        _ => false,
    }
}

// Whether the row of a back stands where the call returns.
fn is_back(
    game: &Game,
    cert: &EnvCert,
    row: &EnvRow,
    aim: &StateSet,
    split: bool,
    back: PosId,
    named: (StateId, u32),
) -> bool
    requires state { IsState (game_of game.now) row.now.state.0 }
    requires exit { IsState (game_of game.now) named.0.0 }
    ensures { result ≡ returns_by (game_of game.now) (strategy_of cert.now) (row_of row.now) aim.now split back.0 (named.0.0, named.1) }
{
    let after = game.returned(row.state, named.0, split);
    has_state(aim, named.0) && stands(cert, named.1, Some((back, after)), &row.aim)
}

// Whether the rows of all backs stand where the call returns.
fn are_backs(
    game: &Game,
    cert: &EnvCert,
    row: &EnvRow,
    aim: &StateSet,
    split: bool,
    back: PosId,
    backs: &[(StateId, u32)],
) -> bool
    requires state { IsState (game_of game.now) row.now.state.0 }
    requires exits { AreExits (game_of game.now).states.count backs.now }
    ensures { let r = row_of row.now in
        result ≡ list_all (returns_by (game_of game.now) (strategy_of cert.now) r aim.now split back.0) (backs_of backs.now) }
{
    for named in backs {
        if !is_back(game, cert, row, aim, split, back, *named) {
            return false;
        }
    }
    true
}

// What fails of a row that calls a function.
fn call_fault(
    game: &Game,
    cert: &EnvCert,
    row: &EnvRow,
    callee: u32,
    backs: &[(StateId, u32)],
) -> Option<u8>
    requires position { IsPosition (game_of game.now) row.now.pos.0 }
    requires state { IsState (game_of game.now) row.now.state.0 }
    requires exits { AreExits (game_of game.now).states.count backs.now }
    ensures { result ≡ calls_in (game_of game.now) (strategy_of cert.now) (row_of row.now) callee (backs_of backs.now) }
{
    game.fact_is_closed();
    let Turn::Call {
        callee: function,
        split,
        back,
    } = game.turn(row.pos)
    else {
        return Some(6);
    };
    let Some(entered) = cert.rows.get(callee as usize) else {
        return Some(6);
    };
    if entered.pos.0 != game.entry(function).0 || entered.state.0 != row.state.0 {
        return Some(6);
    }
    let covered = are_covered(&entered.aim, backs, game.states());
    unless(
        7,
        covered && are_backs(game, cert, row, &entered.aim, split, back, backs),
    )
}

// The first condition that fails of a row.
fn row_fault(game: &Game, cert: &EnvCert, number: u32, row: &EnvRow) -> Option<u8>
    ensures { let g = game_of game.now in
        result ≡ first_failing (row_conditions g (strategy_of cert.now) number (row_of row.now) (slice_get g.spots row.now.pos.0)) }
{
    if !is_row(game, number, row) {
        return Some(1);
    }
    match &row.how {
        How::Bad => unless(2, game.bad(row.pos, row.state)),
        How::Out => unless(3, ends_well(game, row)),
        How::Both { skip, tried } => unless(4, weaver_moves(game, cert, row, *skip, *tried)),
        How::Go { by, row: next } => unless(5, environment_moves(game, cert, row, *by, *next)),
        How::Into { callee, backs } => call_fault(game, cert, row, *callee, backs),
    }
}

// The first row that fails a condition.
fn first_bad_row(game: &Game, cert: &EnvCert) -> Option<BadEnvRow>
    requires { length cert.now.rows.items < 2 ^ 32 }
    ensures { let s = strategy_of cert.now in
        option_map fault_of result ≡ first_failing (all_rows (game_of game.now) s (enumerate_from 0 s.rows)) }
{
    for (number, row) in cert.rows.iter().enumerate() {
        let number = number as u32;
        if let Some(condition) = row_fault(game, cert, number, row) {
            return Some(BadEnvRow {
                row: number,
                condition,
            });
        }
    }
    None
}

/// Whether a row stands at the game's start with an empty aim.
pub fn is_start(game: &Game, row: &EnvRow) -> bool
    ensures { result ≡ is_start (game_of game.now) (row_of row.now) }
{
    let (pos, state) = game.start();
    row.pos.0 == pos.0 && row.state.0 == state.0 && row.aim == StateSet::empty()
}

/// Whether a row of the strategy stands at the game's start.
fn has_start(game: &Game, cert: &EnvCert) -> bool
    ensures { result ≡ list_any (is_start (game_of game.now)) (strategy_of cert.now).rows }
{
    for row in &cert.rows {
        if is_start(game, row) {
            return true;
        }
    }
    false
}

/// Whether a strategy meets the eight conditions of a game; else the first row that fails one, and the first that it
/// fails. It takes no memory.
///
/// Where it does, its start row, the first one at the game's own start with an empty aim, beats every weaver of each
/// program that the game is laid out for.
///
/// Public source: the visibly pushdown games of Löding, Madhusudan and Serre (2004).
pub fn check_env(game: &Game, cert: &EnvCert) -> Result<(), BadEnvRow>
    requires { length cert.now.rows.items < 2 ^ 32 }
    ensures good { IfOk result (λ _. IsGoodStrategy (game_of game.now) (strategy_of cert.now)) }
    ensures fault { IfErr result (λ bad. strategy_fault (game_of game.now) (strategy_of cert.now) ≡ Some (fault_of bad)) }
    ensures beats { IfOk result (λ _. BeatsAll (game_of game.now) (strategy_of cert.now)) }
{
    if cert.states != game.states() {
        return Err(BadEnvRow {
            row: 0,
            condition: 1,
        });
    }
    if let Some(bad) = first_bad_row(game, cert) {
        return Err(bad);
    }
    if !has_start(game, cert) {
        return Err(BadEnvRow {
            row: cert.rows.len() as u32,
            condition: 8,
        });
    }
    Ok(())
}
