//! A link that waits no more is tied to a context.

ghost use Rattle.std.specs.Prelude.{◌≡◌, ◌+◌, ◌<◌, ◌≤◌, suc, true, length, slice_index, slice_set, OnOk};
ghost use Rattle.cw_game.specs.Games.{returned};
ghost use Rattle.cw_game.specs.Pairs.{kept_at};
ghost use Rattle.cw_links.specs.Flags.{is_flagged};
ghost use Rattle.cw_product.specs.Product.{game_of};
ghost use Rattle.cw_product.specs.Moves.{IsPosition};
ghost use Rattle.cw_product.specs.Routed.{AreRouted, IsOf};
ghost use Rattle.cw_solve.specs.Contexts.{IsSetOf};
ghost use Rattle.cw_solve.specs.Rounds.{holds_by};
ghost use Rattle.cw_solve.specs.Tables.{IsTabled, HasCell};
ghost use Rattle.cw_linked.specs.Blocks.{IsBlock};
ghost use Rattle.cw_linked.specs.Calls.{AreCallers, AsksCaller};
ghost use Rattle.cw_linked.specs.Founds.{AreRight, AllCalled, AllStanding, IsTied};
ghost use Rattle.cw_linked.specs.Popped.{Finishes};
ghost use Rattle.cw_linked.specs.Queues.{found_of, AreFlagged, AreLong, AreHigh, IsCellAt};
ghost use Rattle.cw_linked.specs.Returns.{AreFew, Returns};
ghost use Rattle.cw_linked.specs.Steps.{CallsBy, IsIt};
ghost use Rattle.cw_linked.specs.Tied.{IsTieable, TiesLink, AsksCalls, AsksBack, AsksAgain};
ghost use Rattle.cw_linked.specs.Works.{known_of, IsKnown, heights_of, cell_of};

use crate::block::{Block, block_of};
use crate::bounds::height_in;
use crate::calls::ask_call;
use crate::returns::ask_return;
use crate::work::{Cell, Work};
use cw_core::limits::CELLS;
use cw_core::{NoMemory, PosId, StateId, StateSet};
use cw_product::Game;
use cw_solve::table::Tabled;

/// Whether the taken heights tell of a cell that it holds for so many moves.
fn stays(
    game: &Game,
    work: &Work,
    at: &Tabled,
    block: &Block,
    pos: PosId,
    state: StateId,
    moves: u32,
) -> bool
    requires routed { AreRouted (game_of game.now) (length game.now.graph.parts.items) }
    requires known { IsKnown (game_of game.now) (known_of work.now) }
    requires long { AreLong work.now }
    requires cell { HasCell (game_of game.now) work.now.blocks at.now pos.0 state.0 }
    requires block { IsBlock (game_of game.now) work.now.blocks at.now block.now }
    ensures { result ≡ holds_by moves (heights_of (game_of game.now) (known_of work.now) at.now.number pos.0 state.0) }
{
    let height = height_in(game, work, at, block, pos, state);
    height == 0 || moves < height
}

/// What a link's call promises for so many moves, as the taken heights tell.
pub(crate) fn promise_of(
    game: &Game,
    work: &Work,
    link: &Cell,
    back: PosId,
    split: bool,
    moves: u32,
    set: &mut StateSet,
)
    requires routed { AreRouted (game_of game.now) (length game.now.graph.parts.items) }
    requires known { IsKnown (game_of game.now) (known_of work.now) }
    requires long { AreLong work.now }
    requires cell { HasCell (game_of game.now) work.now.blocks link.now.at back.0 link.now.state.0 }
    ensures { IsSetOf (game_of game.now) set.new (λ x. holds_by moves
        (heights_of (game_of game.now) (known_of work.now) link.now.at.number back.0 (returned (game_of game.now).states (kept_at split link.now.state.0) x))) }
{
    let block = block_of(game, &work.blocks, &link.at);
    *set = StateSet::empty();
    for x in 0..game.states() {
        let exit = StateId(x);
        let then = game.returned(link.state, exit, split);
        if stays(game, work, &link.at, &block, back, then, moves) {
            set.insert(exit);
        }
    }
}

/// Ties the link at an index to a context, with a promise for so many moves.
fn tie(work: &mut Work, index: usize, callee: &Tabled, moves: u32)
    requires long { AreLong work.old }
    requires callers { AreCallers work.old }
    requires few { length work.old.store.heights ≤ CELLS }
    requires within { index < length work.old.store.heights }
    requires flagged { is_flagged work.old.store.flags index ≡ true }
    requires contexts { length work.old.blocks.contexts.items ≤ CELLS }
    requires number { callee.now.number < length work.old.blocks.contexts.items }
    ensures { TiesLink work.old work.new index callee.now.number moves }
{
    work.store.tie(index, callee.number() as u32 + 1, moves);
}

/// Asks for the call of a link, if the callee is lost from the cell's state.
fn ask_lost(
    game: &Game,
    work: &mut Work,
    at: &Tabled,
    block: &Block,
    pos: PosId,
    state: StateId,
    index: usize,
) -> Result<(), NoMemory>
    requires routed { AreRouted (game_of game.now) (length game.now.graph.parts.items) }
    requires known { IsKnown (game_of game.now) (known_of work.old) }
    requires cell { HasCell (game_of game.now) work.old.blocks at.now pos.0 state.0 }
    requires block { IsBlock (game_of game.now) work.old.blocks at.now block.now }
    requires entry { pos.0 ≡ (game_of game.now).entry at.now.context.function }
    requires within { index < length work.old.store.heights }
    requires long { AreLong work.old }
    requires high { AreHigh work.old }
    requires right { AreRight (game_of game.now) work.old.blocks.contexts.items (found_of (game_of game.now) work.old) }
    ensures { OnOk result (AsksCaller (game_of game.now) work.old work.new index (cell_of at.now pos state)) }
{
    let height = height_in(game, work, at, block, pos, state);
    if height == 0 {
        return Ok(());
    }
    ask_call(game, work, at, pos, state, height, index)?;
    Ok(())
}

/// Asks for the calls of a link from whose states the callee is lost.
fn ask_calls(
    game: &Game,
    work: &mut Work,
    index: usize,
    link: &Cell,
    callee: &Tabled,
) -> Result<(), NoMemory>
    requires routed { AreRouted (game_of game.now) (length game.now.graph.parts.items) }
    requires known { IsKnown (game_of game.now) (known_of work.old) }
    requires at { IsCellAt (game_of game.now) work.old index link.now }
    requires callee { IsTabled work.old.blocks callee.now }
    requires goes { slice_index work.old.store.to index ≡ suc callee.now.number }
    requires long { AreLong work.old }
    requires high { AreHigh work.old }
    requires right { AreRight (game_of game.now) work.old.blocks.contexts.items (found_of (game_of game.now) work.old) }
    requires called { AllCalled (game_of game.now) work.old.blocks.contexts.items (found_of (game_of game.now) work.old)
        (CallsBy (game_of game.now) link.now.at.number link.now.pos.0 link.now.state.0) }
    ensures { OnOk result (AsksCalls (game_of game.now) work.old work.new) }
{
    let block = block_of(game, &work.blocks, callee);
    let entry = game.entry(callee.function());
    for q in 0..game.states() {
        ask_lost(game, work, callee, &block, entry, StateId(q), index)?;
    }
    Ok(())
}

/// Asks for the link at a position that returns to the cell, if the cell is lost in more than so many moves. Those that are lost sooner are in no promise for so many.
fn ask_back(
    game: &Game,
    work: &mut Work,
    at: &Tabled,
    block: &Block,
    back: PosId,
    state: StateId,
    pos: PosId,
    moves: u32,
) -> Result<(), NoMemory>
    requires routed { AreRouted (game_of game.now) (length game.now.graph.parts.items) }
    requires known { IsKnown (game_of game.now) (known_of work.old) }
    requires cell { HasCell (game_of game.now) work.old.blocks at.now back.0 state.0 }
    requires block { IsBlock (game_of game.now) work.old.blocks at.now block.now }
    requires position { IsPosition (game_of game.now) pos.0 }
    requires few { AreFew work.old }
    requires flagged { AreFlagged (game_of game.now) work.old }
    requires long { AreLong work.old }
    requires high { AreHigh work.old }
    requires right { AreRight (game_of game.now) work.old.blocks.contexts.items (found_of (game_of game.now) work.old) }
    ensures { OnOk result (AsksBack (game_of game.now) work.old work.new (cell_of at.now back state) pos.0 moves) }
{
    let height = height_in(game, work, at, block, back, state);
    if height <= moves {
        return Ok(());
    }
    ask_return(game, work, at, block, back, state, height, pos)?;
    Ok(())
}

/// Asks for a link that was tied for so many moves, if states of its promise return to taken pairs.
fn ask_again(
    game: &Game,
    work: &mut Work,
    link: &Cell,
    back: PosId,
    moves: u32,
) -> Result<(), NoMemory>
    requires routed { AreRouted (game_of game.now) (length game.now.graph.parts.items) }
    requires known { IsKnown (game_of game.now) (known_of work.old) }
    requires cell { HasCell (game_of game.now) work.old.blocks link.now.at link.now.pos.0 link.now.state.0 }
    requires back { IsOf (game_of game.now) link.now.at.context.function back.0 }
    requires returns { Returns (game_of game.now) link.now.pos.0 back.0 }
    requires tied { IsTied (found_of (game_of game.now) work.old) link.now.at.number link.now.pos.0 link.now.state.0 }
    requires wave { (found_of (game_of game.now) work.old).wave link.now.at.number link.now.pos.0 link.now.state.0 ≡ moves }
    requires few { AreFew work.old }
    requires flagged { AreFlagged (game_of game.now) work.old }
    requires long { AreLong work.old }
    requires high { AreHigh work.old }
    requires right { AreRight (game_of game.now) work.old.blocks.contexts.items (found_of (game_of game.now) work.old) }
    requires standing { AllStanding (game_of game.now) work.old.blocks.contexts.items (found_of (game_of game.now) work.old)
        (IsIt link.now.at.number link.now.pos.0 link.now.state.0) }
    ensures { OnOk result (AsksAgain (game_of game.now) work.old work.new) }
{
    let block = block_of(game, &work.blocks, &link.at);
    for q in 0..game.states() {
        ask_back(
            game,
            work,
            &link.at,
            &block,
            back,
            StateId(q),
            link.pos,
            moves,
        )?;
    }
    Ok(())
}

/// Ties a link to a context that has its promise, and asks for what is left to do then.
pub(crate) fn tie_link(
    game: &Game,
    work: &mut Work,
    index: usize,
    link: &Cell,
    back: PosId,
    moves: u32,
    callee: &Tabled,
) -> Result<(), NoMemory>
    requires routed { AreRouted (game_of game.now) (length game.now.graph.parts.items) }
    requires tieable { IsTieable (game_of game.now) work.old link.now index moves callee.now.number back.0 callee.now.context }
    ensures { OnOk result (Finishes (game_of game.now) work.old work.new (slice_set work.old.store.to index (callee.now.number + 1))) }
{
    tie(work, index, callee, moves);
    ask_calls(game, work, index, link, callee)?;
    ask_again(game, work, link, back, moves)?;
    Ok(())
}
