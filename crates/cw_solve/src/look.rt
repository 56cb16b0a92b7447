//! A round looks at each cell once: whether its pair holds for one move more.

ghost use Rattle.std.specs.Prelude.{◌≡◌, ◌+◌, ◌<◌, ◌≤◌, suc, false, count_by, length, slice_get, Some, IfOk, IfErr, IfSome, IfNone};
ghost use Rattle.cw_game.specs.Games.{Holds};
ghost use Rattle.cw_game.specs.Pairs.{has};
ghost use Rattle.cw_product.specs.Product.{game_of};
ghost use Rattle.cw_product.specs.Moves.{next_at};
ghost use Rattle.cw_solve.specs.Asking.{holds_after, holds_by_moves};
ghost use Rattle.cw_product.specs.Routed.{AreRouted, IsState};
ghost use Rattle.cw_solve.specs.Contexts.{cells_of, context};
ghost use Rattle.cw_solve.specs.Rounds.{base, slot, AreWritten, IsAsked};
ghost use Rattle.cw_solve.specs.Tables.{IsTable, IsTabled, HasCell, IsInRound, IsLater, IsMissing, HasCall, Writes, is_none};

use crate::contexts::Context;
use crate::table::{Table, Tabled, holds, index_of, numbered, promised, slot};
use cw_certs::Move;
use cw_core::limits::CELLS;
use cw_core::{PosId, StateId};
use cw_game::Spot;
use cw_product::{Game, Turn};

/// Whether the pair to which a move leads holds for n moves, or the move isn't there.
fn holds_after(
    game: &Game,
    table: &Table,
    n: u32,
    at: &Tabled,
    pos: PosId,
    state: StateId,
    by: Move,
) -> bool
    requires routed { AreRouted (game_of game.now) (length game.now.graph.parts.items) }
    requires table { IsTable (game_of game.now) table.now }
    requires cell { HasCell (game_of game.now) table.now.blocks at.now pos.0 state.0 }
    requires written { AreWritten (game_of game.now) table.now.blocks.contexts.items table.now.heights.items n (suc n) }
    ensures { result ≡ holds_after (λ p q e. Holds (game_of game.now) n p q e) (has at.now.context.promise) (next_at (game_of game.now) pos.0 state.0 by) }
{
    match game.next(pos, state, by) {
        None => true,
        Some((pos, state)) => holds(game, table, n, at, pos, state),
    }
}

/// Whether a call holds for one move more; where what it promises isn't tabled, that context.
fn call_holds(
    game: &Game,
    table: &Table,
    n: u32,
    at: &Tabled,
    pos: PosId,
    state: StateId,
    function: u16,
    back: PosId,
    split: bool,
) -> Result<bool, Context>
    requires routed { AreRouted (game_of game.now) (length game.now.graph.parts.items) }
    requires table { IsTable (game_of game.now) table.now }
    requires cell { HasCell (game_of game.now) table.now.blocks at.now pos.0 state.0 }
    requires written { AreWritten (game_of game.now) table.now.blocks.contexts.items table.now.heights.items n (suc n) }
    requires call { HasCall (game_of game.now) pos.0 function back.0 split }
    ensures holds { IfOk result (λ holds. holds ≡ Holds (game_of game.now) (suc n) pos.0 state.0 (has at.now.context.promise)) }
    ensures asked { IfOk result (λ _. IsAsked (game_of game.now) table.now.blocks.contexts.items n pos.0 state.0 at.now.context.promise) }
    ensures missing { IfErr result (λ c. IsMissing (game_of game.now) table.now.blocks c) }
{
    let promise = promised(game, table, n, at, state, back, split);
    match index_of(&table.blocks.contexts, function, &promise) {
        None => Err(Context { function, promise }),
        Some(number) => {
            let callee = numbered(game, &table.blocks, number);
            Ok(holds(game, table, n, &callee, game.entry(function), state))
        }
    }
}

/// Whether a pair that is no call and no exit, and isn't bad, holds for one move more.
fn moves_hold(game: &Game, table: &Table, n: u32, at: &Tabled, pos: PosId, state: StateId) -> bool
    requires routed { AreRouted (game_of game.now) (length game.now.graph.parts.items) }
    requires table { IsTable (game_of game.now) table.now }
    requires cell { HasCell (game_of game.now) table.now.blocks at.now pos.0 state.0 }
    requires written { AreWritten (game_of game.now) table.now.blocks.contexts.items table.now.heights.items n (suc n) }
    ensures { result ≡ holds_by_moves (game_of game.now) (λ p q e. Holds (game_of game.now) n p q e) pos.0 state.0 (has at.now.context.promise)
        (slice_get (game_of game.now).spots pos.0) }
{
    let after = |by: Move| holds_after(game, table, n, at, pos, state, by);
    match game.spot(pos) {
        Spot::Visit(_, _, _) => after(Move::Skip) || after(Move::Try),
        Spot::Asked(_, _, _) => after(Move::Grant) && after(Move::Refuse),
        Spot::Branch(_, _) => after(Move::Left) && after(Move::Right),
        Spot::Open(_, _, _) => after(Move::Opened) && after(Move::Failed),
        _ => after(Move::On),
    }
}

/// Whether a pair holds for one move more; where it is a call and what it promises isn't tabled, that context.
fn next_holds(
    game: &Game,
    table: &Table,
    n: u32,
    at: &Tabled,
    pos: PosId,
    state: StateId,
) -> Result<bool, Context>
    requires routed { AreRouted (game_of game.now) (length game.now.graph.parts.items) }
    requires table { IsTable (game_of game.now) table.now }
    requires cell { HasCell (game_of game.now) table.now.blocks at.now pos.0 state.0 }
    requires written { AreWritten (game_of game.now) table.now.blocks.contexts.items table.now.heights.items n (suc n) }
    ensures holds { IfOk result (λ holds. holds ≡ Holds (game_of game.now) (suc n) pos.0 state.0 (has at.now.context.promise)) }
    ensures asked { IfOk result (λ _. IsAsked (game_of game.now) table.now.blocks.contexts.items n pos.0 state.0 at.now.context.promise) }
    ensures missing { IfErr result (λ c. IsMissing (game_of game.now) table.now.blocks c) }
{
    match game.turn(pos) {
        Turn::Call {
            callee,
            split,
            back,
        } => call_holds(game, table, n, at, pos, state, callee, back, split),
        Turn::Exit { main } => Ok(
            main || table.blocks.contexts[at.number()].promise.contains(state),
        ),
        Turn::Weaver | Turn::Environment => {
            Ok(!game.bad(pos, state) && moves_hold(game, table, n, at, pos, state))
        }
    }
}

/// Writes the height of a cell that has none.
fn write(table: &mut Table, cell: usize, height: u32)
    requires within { cell < length table.old.heights.items }
    requires positive { 0 < height }
    requires counted { table.old.written + count_by is_none table.old.heights.items ≡ length table.old.heights.items }
    requires few { length table.old.heights.items ≤ CELLS }
    ensures written { Writes table.old table.new cell height }
{
    if table.heights[cell] == 0 {
        table.heights[cell] = height;
        table.written += 1;
    }
}

/// Looks at a cell: writes its height where it doesn't hold for one move more. Some, where a context is missing.
pub(crate) fn look_at(
    game: &Game,
    table: &mut Table,
    n: u32,
    at: &Tabled,
    pos: PosId,
    state: StateId,
) -> Option<Context>
    requires routed { AreRouted (game_of game.now) (length game.now.graph.parts.items) }
    requires table { IsTable (game_of game.now) table.old }
    requires cell { HasCell (game_of game.now) table.old.blocks at.now pos.0 state.0 }
    requires round { IsInRound (game_of game.now) table.old n
        (slot (game_of game.now) table.old.blocks.contexts.items at.now.number at.now.context.function pos.0 state.0) }
    ensures table { IsTable (game_of game.now) table.new }
    ensures later { IsLater table.old table.new }
    ensures tabled { IsTabled table.new.blocks at.now }
    ensures round { IfNone result (IsInRound (game_of game.now) table.new n
        (slot (game_of game.now) table.new.blocks.contexts.items at.now.number at.now.context.function pos.0 state.0 + 1)) }
    ensures missing { IfSome result (λ c. IsMissing (game_of game.now) table.new.blocks c) }
{
    match next_holds(game, table, n, at, pos, state) {
        Err(context) => Some(context),
        Ok(true) => None,
        Ok(false) => {
            let cell = slot(game, &table.blocks, at, pos, state);
            write(table, cell, n + 1);
            None
        }
    }
}

/// Looks at the cells of a state.
fn look_state(
    game: &Game,
    table: &mut Table,
    n: u32,
    at: &Tabled,
    state: StateId,
) -> Option<Context>
    requires routed { AreRouted (game_of game.now) (length game.now.graph.parts.items) }
    requires table { IsTable (game_of game.now) table.old }
    requires tabled { IsTabled table.old.blocks at.now }
    requires state { IsState (game_of game.now) state.0 }
    requires round { IsInRound (game_of game.now) table.old n
        (slot (game_of game.now) table.old.blocks.contexts.items at.now.number at.now.context.function
        ((game_of game.now).entry at.now.context.function) state.0) }
    ensures table { IsTable (game_of game.now) table.new }
    ensures later { IsLater table.old table.new }
    ensures tabled { IsTabled table.new.blocks at.now }
    ensures round { IfNone result (IsInRound (game_of game.now) table.new n
        (slot (game_of game.now) table.new.blocks.contexts.items at.now.number at.now.context.function
        ((game_of game.now).entry at.now.context.function) (state.0 + 1))) }
    ensures missing { IfSome result (λ c. IsMissing (game_of game.now) table.new.blocks c) }
{
    let function = at.function();
    for p in game.entry(function).0..game.exit(function).0 + 1 {
        if let Some(context) = look_at(game, table, n, at, PosId(p), state) {
            return Some(context);
        }
    }
    None
}

/// Looks at the cells of a context.
fn look_context(game: &Game, table: &mut Table, n: u32, at: &Tabled) -> Option<Context>
    requires routed { AreRouted (game_of game.now) (length game.now.graph.parts.items) }
    requires table { IsTable (game_of game.now) table.old }
    requires tabled { IsTabled table.old.blocks at.now }
    requires round { IsInRound (game_of game.now) table.old n (base (game_of game.now) table.old.blocks.contexts.items at.now.number) }
    ensures table { IsTable (game_of game.now) table.new }
    ensures later { IsLater table.old table.new }
    ensures round { IfNone result (IsInRound (game_of game.now) table.new n
        (base (game_of game.now) table.new.blocks.contexts.items (at.now.number + 1))) }
    ensures missing { IfSome result (λ c. IsMissing (game_of game.now) table.new.blocks c) }
{
    for x in 0..game.states() {
        if let Some(context) = look_state(game, table, n, at, StateId(x)) {
            return Some(context);
        }
    }
    None
}

/// Looks at all cells.
pub(crate) fn look_all(game: &Game, table: &mut Table, n: u32) -> Option<Context>
    requires routed { AreRouted (game_of game.now) (length game.now.graph.parts.items) }
    requires table { IsTable (game_of game.now) table.old }
    requires round { IsInRound (game_of game.now) table.old n 0 }
    ensures table { IsTable (game_of game.now) table.new }
    ensures later { IsLater table.old table.new }
    ensures round { IfNone result (IsInRound (game_of game.now) table.new n (cells_of (game_of game.now) table.new.blocks.contexts.items)) }
    ensures missing { IfSome result (λ c. IsMissing (game_of game.now) table.new.blocks c) }
{
    for number in 0..table.blocks.contexts.len() {
        let at = numbered(game, &table.blocks, number);
        if let Some(context) = look_context(game, table, n, &at) {
            return Some(context);
        }
    }
    None
}
