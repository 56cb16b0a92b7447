//! A step of the program, with the values and in the game.

ghost use Rattle.std.specs.Prelude.{◌≡◌, ℕ, List, map, option_map, Some};
ghost use Rattle.std.specs.List.{All};
ghost use Rattle.cw_certs.specs.declared.moves.Move.{Move as MoveOf};
ghost use Rattle.cw_model.specs.Boards.{move_of};
ghost use Rattle.cw_value.specs.Runs.{Going, IsFree};
ghost use Rattle.cw_eval.specs.Passings.{way_in};
ghost use Rattle.cw_starts.specs.Sources.{source_in};
ghost use Rattle.cw_machine.specs.Knowing.{IsKnown};
ghost use Rattle.cw_product.specs.Product.{game_of};
ghost use Rattle.cw_rights.specs.Policies.{policy_of};
ghost use Rattle.cw_run.specs.Walks.{IsHere, IsNextIn, IsWait, here_of, next_is, landing_of, wait_of};
ghost use Rattle.cw_values.specs.Running.{IsRunOf};
ghost use Rattle.cw_values.specs.Stands.{StandsAt};
ghost use Rattle.cw_woven_values.specs.Standing.{IsWoven, Weaves};
ghost use Rattle.cw_woven_values.specs.Stepping.{IsWent, Steps, both};

use crate::waiting::{follow, lead_over};
use cw_certs::{Move, WeaverCert};
use cw_core::{NoMemory, PointId};
use cw_eval::{Halt, Way};
use cw_machine::Machine;
use cw_product::Game;
use cw_run::{Here, Next, Wait};
use cw_values::{Run, advance};
use std::collections::VecDeque;

/// Where a step has led: a point of the program, and a landing of the game.
#[derive(Clone, Copy, Drop)]
pub(crate) struct Stand {
    pub point: PointId,
    pub here: Here,
}

/// The move by which the program goes a way.
#[inline(always)]
fn move_of(way: Way) -> Move
    ensures { result ≡ move_of (way_in way) }
{
    match way {
        Way::On => Move::On,
        Way::Left => Move::Left,
        Way::Right => Move::Right,
        Way::Opened => Move::Opened,
        Way::Failed => Move::Failed,
    }
}

/// The landing at which the program goes on after a move; none where the program has ended.
#[inline(always)]
fn landing_of(next: Next) -> Option<Here>
    ensures is { option_map here_of result ≡ landing_of (next_is next) }
{
    match next {
        Next::To(here) | Next::Resumed(here) => Some(here),
        Next::Into(here, _) | Next::Back(here) => Some(here),
        Next::Over | Next::Stopped(_) => None,
    }
}

/// Both, where the program goes on.
#[inline(always)]
fn together(point: Option<PointId>, here: Option<Here>) -> Option<Stand>
    ensures { result ≡ both point here }
{
    match point {
        None => None,
        Some(point) => match here {
            None => None,
            Some(here) => Some(Stand { point, here }),
        },
    }
}

/// A step of the program: where it has led, or none where the program has ended.
#[inline(always)]
pub(crate) fn go(
    run: &Run,
    game: &Game,
    table: &WeaverCert,
    m: &mut Machine,
    waits: &mut VecDeque<Wait>,
    stand: Stand,
) -> Result<Option<Stand>, Halt>
    requires known { IsKnown run.now.known }
    requires here { IsHere (game_of game.now) (here_of stand.here) }
    requires waits { All (λ w. IsWait (game_of game.now) (wait_of w)) waits.old.items }
    ensures steps { (w : IsWoven game.now (source_in run.now.known.source) table.now) (left : List MoveOf) (made : ℕ) (plain woven : Going)
        → IsRunOf (policy_of game.now.states.policy) run.now
        → StandsAt (policy_of game.now.states.policy) (source_in run.now.known.source) (Some stand.point) m.old plain
        → Weaves game.now (source_in run.now.known.source) table.now w plain (here_of stand.here) (map wait_of waits.old.items) left made woven
        → IsFree woven.woven.board.phase
        → Steps game.now (source_in run.now.known.source) table.now w (map wait_of waits.new.items) left made woven m.new result }
    ensures waits { All (λ w. IsWait (game_of game.now) (wait_of w)) waits.new.items }
    ensures range { IsWent (game_of game.now) result }
{
    match advance(run, m, stand.point) {
        Err(halt) => Err(halt),
        Ok(onward) => {
            let spot = game.spot(stand.here.pos);
            let by = move_of(onward.way);
            match lead_over(game, table, stand.here, waits, spot, by) {
                None => Ok(None),
                Some(next) => {
                    follow(waits, next)?;
                    Ok(together(onward.next, landing_of(next)))
                }
            }
        }
    }
}
