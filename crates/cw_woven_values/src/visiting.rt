//! The weaver's moves, and the answers to them.

ghost use Rattle.std.specs.Prelude.{◌≡◌, ◌+◌, ◌<◌, ◌≤◌, ◌^◌, List};
ghost use Rattle.cw_value.specs.Machines.{Source};
ghost use Rattle.cw_value.specs.Runs.{Going};
ghost use Rattle.cw_product.specs.Product.{game_of};
ghost use Rattle.cw_run.specs.Walks.{IsHere, Wait, at_pos, here_of};
ghost use Rattle.cw_woven_values.specs.Standing.{IsAsked, IsCalm, IsFresh, IsWoven, Weaves};
ghost use Rattle.cw_woven_values.specs.Visiting.{IsFront, IsVisited, Visits, Weaving, visited_by};

use crate::tries::{Tries, choose};
use cw_certs::{Move, WeaverCert, try_at};
use cw_core::{PosId, SeamId};
use cw_game::Spot;
use cw_product::Game;
use cw_run::{Here, Next, lead};

/// The most primitives that are passed at one point.
const MOST_PRIMITIVES: u32 = 14;

/// Where a visit has led.
#[derive(Clone, Copy, Drop)]
pub(crate) enum Visited {
    /// On at the same point.
    On(Here),
    /// There is none: the program's step is due.
    None,
    /// The weaver has ended the run after a refusal at this seam.
    Stopped(SeamId),
}

/// Where the weaver's moves at a point have led.
#[derive(Clone, Copy, Drop)]
pub(crate) enum Front {
    /// The program's step is due.
    Free(Here),
    /// The weaver has ended the run after a refusal at this seam.
    Stopped(SeamId),
}

/// Some positions further on.
fn ahead(here: Here, by: u32) -> Here
    requires few { here.pos.0 + by < 2 ^ 32 }
    ensures { here_of result ≡ at_pos (here.pos.0 + by) (here_of here) }
{
    Here {
        pos: PosId(here.pos.0 + by),
        state: here.state,
        mem: here.mem,
    }
}

/// Where an answer has led.
fn landed(next: Next) -> Visited
    ensures { result ≡ visited_by next }
{
    match next {
        Next::To(here) | Next::Resumed(here) => Visited::On(here),
        Next::Into(here, _) | Next::Back(here) => Visited::On(here),
        Next::Stopped(seam) => Visited::Stopped(seam),
        Next::Over => Visited::None,
    }
}

/// The answer to a try, and the weaver's move after a refusal that a stop can answer.
#[inline(never)]
fn ask(game: &Game, table: &WeaverCert, here: Here, tries: &mut Tries) -> Visited
    requires here { IsHere (game_of game.now) (here_of here) }
    ensures visits { (s : Source) (w : IsWoven game.now s table.now) (waits : List Wait) (plain run : Going) → Weaves game.now s table.now w plain (here_of here) waits tries.old.left.now tries.old.made run → IsAsked run.woven.board.phase → Visits game.now s table.now w plain waits tries.new.left.now tries.new.made run result }
    ensures made { tries.new.made ≡ tries.old.made }
    ensures range { IsVisited (game_of game.now) result }
{
    let spot = game.spot(here.pos);
    let granted = lead(game, table, here, None, spot, Move::Grant);
    let refused = lead(game, table, here, None, spot, Move::Refuse);
    match choose(granted, refused, tries) {
        None => Visited::None,
        Some(next) => landed(next),
    }
}

/// A visit: its primitive is skipped, or tried and answered.
#[inline(always)]
fn visit(game: &Game, table: &WeaverCert, here: Here, tries: &mut Tries) -> Visited
    requires here { IsHere (game_of game.now) (here_of here) }
    requires few { tries.old.made + 1 < 2 ^ 32 }
    ensures visits { (s : Source) (w : IsWoven game.now s table.now) (waits : List Wait) (plain run : Going) → Weaves game.now s table.now w plain (here_of here) waits tries.old.left.now tries.old.made run → IsCalm run.woven.board.phase → Visits game.now s table.now w plain waits tries.new.left.now tries.new.made run result }
    ensures made { tries.new.made ≤ tries.old.made + 1 }
    ensures range { IsVisited (game_of game.now) result }
{
    let _ = game.positions();
    game.fact_is_closed();
    let Spot::Visit(seam, stage, _) = game.spot(here.pos) else {
        return Visited::None;
    };
    if try_at(table, SeamId(seam), stage, here.mem).is_none() {
        return Visited::On(ahead(here, 2));
    }
    tries.made += 1;
    ask(game, table, ahead(here, 1), tries)
}

/// The weaver's moves at a point and the answers to them, until the program's step is due.
#[inline(always)]
pub(crate) fn weave(game: &Game, table: &WeaverCert, start: Here, tries: &mut Tries) -> Front
    requires here { IsHere (game_of game.now) (here_of start) }
    requires few { tries.old.made + 14 < 2 ^ 32 }
    ensures weaves { (s : Source) (w : IsWoven game.now s table.now) (waits : List Wait) (plain run : Going) → Weaves game.now s table.now w plain (here_of start) waits tries.old.left.now tries.old.made run → IsFresh game.now s table.now run → Weaving game.now s table.now w plain waits tries.new.left.now tries.new.made run result }
    ensures made { tries.new.made ≤ tries.old.made + 14 }
    ensures range { IsFront (game_of game.now) result }
{
    let mut here = start;
    for i in 0..MOST_PRIMITIVES {
        let _ = i;
        match visit(game, table, here, tries) {
            Visited::On(next) => here = next,
            Visited::None => return Front::Free(here),
            Visited::Stopped(seam) => return Front::Stopped(seam),
        }
    }
    Front::Free(here)
}
