//! The moves of an audit, walked.

ghost use Rattle.std.specs.Prelude.{◌≡◌, ◌↔◌, ◌<◌, ◌∷◌, [], true, false, Some, None, map, length, slice_get, option_map, IsTrue, IfOk, IfSome, IfNone, OnOk};
ghost use Rattle.std.specs.List.{All};
ghost use Rattle.cw_game.specs.Games.{Game as GameOf};
ghost use Rattle.cw_game.specs.Linked.{is_bad_at};
ghost use Rattle.cw_product.specs.Moves.{IsPosition, IsState, turn_in};
ghost use Rattle.cw_product.specs.Product.{game_of};
ghost use Rattle.cw_certs.specs.declared.moves.Move.TheVariants.{On};
ghost use Rattle.cw_audit_table.specs.Runs.{is_step};
ghost use Rattle.cw_audit_table.specs.Tables.{audit_of};
ghost use Rattle.cw_audit_table.specs.Conditions.{IsShown};
ghost use Rattle.cw_audit_check.specs.Walks.{ret_of, rets_of, config_of, IsWait, IsWalk, Went};

use cw_audit_table::{AuditTable, skipped};
use cw_certs::Move;
use cw_core::{NoMemory, PosId, StateId};
use cw_product::{Game, Turn};
use std::alloc::Global;

/// A return that waits: where it returns, the state at the call, and whether the call was split.
#[derive(Clone, Copy, Drop)]
struct Wait {
    back: PosId,
    state: StateId,
    split: bool,
}

/// Where a run stands, with the returns that wait, the innermost last.
#[derive(Drop)]
struct Walk {
    pos: PosId,
    state: StateId,
    waits: Vec<Wait>,
}

/// Whether a move is one of the program's own.
fn is_step(by: Move) -> bool
    ensures { result ≡ is_step by }
{
    match by {
        Move::On | Move::Left | Move::Right | Move::Opened | Move::Failed => true,
        Move::Skip | Move::Try | Move::Grant | Move::Refuse | Move::Stop => false,
    }
}

// A call waits.
fn remember(waits: &mut Vec<Wait>, wait: Wait) -> Result<(), NoMemory>
    ensures first { OnOk result (rets_of waits.new.items ≡ ret_of wait ∷ rets_of waits.old.items) }
    ensures all { OnOk result ((g : GameOf) → All (IsWait g) waits.old.items → IsWait g wait → All (IsWait g) waits.new.items) }
{
    waits.push(wait)?;
    Ok(())
}

// The innermost call waits no more.
fn forget(waits: &mut Vec<Wait>) -> Option<Wait>
    ensures none { IfNone result (rets_of waits.old.items ≡ []) }
    ensures first { IfSome result (λ w. rets_of waits.old.items ≡ ret_of w ∷ rets_of waits.new.items) }
    ensures wait { IfSome result (λ w. (g : GameOf) → All (IsWait g) waits.old.items → IsWait g w) }
    ensures all { (g : GameOf) → All (IsWait g) waits.old.items → All (IsWait g) waits.new.items }
{
    waits.pop()
}

// Where a move leads within a function.
fn go(game: &Game, walk: &mut Walk, by: Move) -> bool
    requires walk { IsWalk (game_of game.now) walk.old }
    requires step { is_step by ≡ true }
    requires turn { Some Turn.Environment ≡ option_map (turn_in (game_of game.now)) (slice_get (game_of game.now).spots walk.old.pos.0) }
    ensures went { Went (game_of game.now) (config_of walk.old) by (config_of walk.new) result }
    ensures walk { IsWalk (game_of game.now) walk.new }
{
    match game.next(walk.pos, walk.state, by) {
        None => false,
        Some((pos, state)) => {
            walk.pos = skipped(game, pos);
            walk.state = state;
            true
        }
    }
}

// Where a call leads.
fn enter(
    game: &Game,
    walk: &mut Walk,
    callee: u16,
    split: bool,
    back: PosId,
) -> Result<(), NoMemory>
    requires walk { IsWalk (game_of game.now) walk.old }
    requires callee { callee < length game.now.graph.parts.items }
    requires back { IsPosition (game_of game.now) back.0 }
    requires turn { Some (Turn.Call callee split back) ≡ option_map (turn_in (game_of game.now)) (slice_get (game_of game.now).spots walk.old.pos.0) }
    ensures went { OnOk result (Went (game_of game.now) (config_of walk.old) On (config_of walk.new) true) }
    ensures walk { OnOk result (IsWalk (game_of game.now) walk.new) }
{
    let entry = skipped(game, game.entry(callee));
    let state = walk.state;
    remember(&mut walk.waits, Wait { back, state, split })?;
    walk.pos = entry;
    Ok(())
}

// Where the end of a function leads.
fn leave(game: &Game, walk: &mut Walk, main: bool) -> bool
    requires walk { IsWalk (game_of game.now) walk.old }
    requires turn { Some (Turn.Exit main) ≡ option_map (turn_in (game_of game.now)) (slice_get (game_of game.now).spots walk.old.pos.0) }
    ensures went { Went (game_of game.now) (config_of walk.old) On (config_of walk.new) result }
    ensures walk { IsWalk (game_of game.now) walk.new }
{
    match forget(&mut walk.waits) {
        None => false,
        Some(wait) => {
            walk.state = game.returned(wait.state, walk.state, wait.split);
            walk.pos = skipped(game, wait.back);
            true
        }
    }
}

// Where a move leads, behind the skips.
fn step(game: &Game, walk: &mut Walk, by: Move) -> Result<bool, NoMemory>
    requires walk { IsWalk (game_of game.now) walk.old }
    ensures went { IfOk result (λ yes. Went (game_of game.now) (config_of walk.old) by (config_of walk.new) yes) }
    ensures walk { OnOk result (IsWalk (game_of game.now) walk.new) }
{
    game.fact_is_closed();
    if !is_step(by) {
        return Ok(false);
    }
    match game.turn(walk.pos) {
        Turn::Weaver => Ok(false),
        Turn::Environment => Ok(go(game, walk, by)),
        Turn::Call {
            callee,
            split,
            back,
        } => {
            if by != Move::On {
                return Ok(false);
            }
            enter(game, walk, callee, split, back)?;
            Ok(true)
        }
        Turn::Exit { main } => Ok(by == Move::On && leave(game, walk, main)),
    }
}

/// The sixth condition: where an audit's table has a distance, whether its moves are as many, and lead from the start to a bad pair. It
/// takes memory for the returns that wait.
pub fn shows(alloc: Global, game: &Game, table: &AuditTable) -> Result<bool, NoMemory>
    ensures { IfOk result (λ yes. IsTrue yes ↔ IsShown (game_of game.now) (audit_of table.now)) }
{
    let Some(distance) = table.distance else {
        return Ok(true);
    };
    if table.moves.len() != distance as usize {
        return Ok(false);
    }
    let (entry, state) = game.start();
    let mut walk = Walk {
        pos: skipped(game, entry),
        state,
        waits: Vec::new(alloc),
    };
    for by in &table.moves {
        if !step(game, &mut walk, *by)? {
            return Ok(false);
        }
    }
    Ok(game.bad(walk.pos, walk.state))
}
