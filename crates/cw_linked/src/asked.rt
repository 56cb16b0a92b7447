//! The cells of a context are asked for where the heights that are taken tell that they are lost.

ghost use Rattle.std.specs.Prelude.{◌≡◌, length, slice_get, OnOk};
ghost use Rattle.cw_product.specs.Product.{game_of};
ghost use Rattle.cw_product.specs.Moves.{IsPosition};
ghost use Rattle.cw_product.specs.Routed.{AreRouted, IsOf};
ghost use Rattle.cw_solve.specs.Tables.{IsTabled};
ghost use Rattle.cw_linked.specs.Added.{AllOf, Each, loss_begins_in, HasNoHeights, AsksCells};
ghost use Rattle.cw_linked.specs.Blocks.{IsBlock};
ghost use Rattle.cw_linked.specs.Founds.{AreRight};
ghost use Rattle.cw_linked.specs.Queues.{found_of, AreLong, AreHigh};
ghost use Rattle.cw_linked.specs.Spans.{IsSpanned};
ghost use Rattle.cw_linked.specs.Works.{known_of, IsKnown};

use crate::block::{Block, block_of};
use crate::implied::ask_first;
use crate::spans::Spans;
use crate::work::Work;
use cw_core::{NoMemory, PosId, StateId};
use cw_game::Spot;
use cw_product::Game;
use cw_solve::table::Tabled;

/// Whether what is lost can begin at a position: at a label, which may be bad, and at an exit.
pub(crate) fn loss_begins(game: &Game, pos: PosId) -> bool
    requires { IsPosition (game_of game.now) pos.0 }
    ensures { result ≡ loss_begins_in (slice_get (game_of game.now).spots pos.0) }
{
    match game.spot(pos) {
        Spot::Label(_, _, _) | Spot::Exit(_) => true,
        _ => false,
    }
}

/// Asks for the cells at a position of a context of which none has a height.
fn ask_position(
    game: &Game,
    work: &mut Work,
    at: &Tabled,
    block: &Block,
    pos: PosId,
) -> Result<(), NoMemory>
    requires routed { AreRouted (game_of game.now) (length game.now.graph.parts.items) }
    requires known { IsKnown (game_of game.now) (known_of work.old) }
    requires tabled { IsTabled work.old.blocks at.now }
    requires block { IsBlock (game_of game.now) work.old.blocks at.now block.now }
    requires of { IsOf (game_of game.now) at.now.context.function pos.0 }
    requires long { AreLong work.old }
    requires high { AreHigh work.old }
    requires right { AreRight (game_of game.now) work.old.blocks.contexts.items (found_of (game_of game.now) work.old) }
    requires fresh { HasNoHeights (game_of game.now) (known_of work.old) at.now }
    ensures { OnOk result (AsksCells (game_of game.now) work.old work.new at.now.number at.now.context (AllOf pos.0)) }
{
    if !loss_begins(game, pos) {
        return Ok(());
    }
    for x in 0..game.states() {
        ask_first(game, work, at, block, pos, StateId(x))?;
    }
    Ok(())
}

/// Asks for the cells of a context of which none has a height, and whose function has these spans.
pub(crate) fn ask_all(
    game: &Game,
    spans: &Spans,
    work: &mut Work,
    at: &Tabled,
) -> Result<(), NoMemory>
    requires routed { AreRouted (game_of game.now) (length game.now.graph.parts.items) }
    requires known { IsKnown (game_of game.now) (known_of work.old) }
    requires tabled { IsTabled work.old.blocks at.now }
    requires spans { IsSpanned (game_of game.now) at.now.context.function spans.now }
    requires long { AreLong work.old }
    requires high { AreHigh work.old }
    requires right { AreRight (game_of game.now) work.old.blocks.contexts.items (found_of (game_of game.now) work.old) }
    requires fresh { HasNoHeights (game_of game.now) (known_of work.old) at.now }
    ensures { OnOk result (AsksCells (game_of game.now) work.old work.new at.now.number at.now.context Each) }
{
    let block = block_of(game, &work.blocks, at);
    for p in spans.labels.first..spans.labels.end {
        ask_position(game, work, at, &block, PosId(p))?;
    }
    ask_position(game, work, at, &block, game.exit(at.function()))?;
    Ok(())
}
