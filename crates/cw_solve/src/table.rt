//! A table of heights, and what it tells of pairs.

ghost use Rattle.std.specs.Prelude.{◌≡◌, ℕ, ◌<◌, ◌≤◌, suc, nat_eq, ◌&&◌, length, slice_index, position, IfSome};
ghost use Rattle.cw_game.specs.Games.{Holds};
ghost use Rattle.cw_game.specs.Pairs.{has, kept_at, all_states};
ghost use Rattle.cw_product.specs.Product.{game_of};
ghost use Rattle.cw_product.specs.Routed.{AreRouted, IsThere};
ghost use Rattle.cw_solve.specs.Contexts.{context, size, cells_of, promise_at, IsSetOf};
ghost use Rattle.cw_solve.specs.Rounds.{positions, slot, height_by, AreWritten};
ghost use Rattle.cw_solve.specs.Tables.{AreBlocks, IsTable, IsTabled, HasCell};

use crate::contexts::Context;
use cw_core::limits::POSITIONS_TIMES_STATES;
use cw_core::{PosId, StateId, StateSet};
use cw_product::Game;
use std::marker::Model;
use std::snapshot::Snapshot;

/// Contexts, and where the cells of each begin.
#[derive(Drop)]
pub struct Blocks {
    pub contexts: Vec<Context>,
    pub bases: Vec<u32>,
}

/// Contexts with their cells, the height of each cell (0 where none is written) and how many are written.
#[derive(Drop)]
pub struct Table {
    pub blocks: Blocks,
    pub heights: Vec<u32>,
    pub written: u32,
}

/// A context that is tabled, with its number. Contracts see both; of the context there is its function alone when the code runs, as
/// copies of promises would cost time.
#[derive(Drop)]
pub struct Tabled {
    number: u32,
    function: u16,
    context: Snapshot<Context>,
}

impl Model for Tabled {
    ghost use Rattle.std.specs.Prelude.{◌≡◌};
    ghost use Rattle.cw_solve.specs.Tabled.{Tabled};

    ghost Value = { Tabled };

    ghost view = { λ s. record { number = s.number; context = s.context.value } };

    ghost invariant = { λ s. s.function ≡ s.context.value.function };
}

impl Tabled {
    ghost use Rattle.std.specs.Prelude.{◌≡◌};

    /// The number.
    #[inline(always)]
    pub fn number(&self) -> usize
        ensures { result ≡ self.now.number }
    {
        self.number as usize
    }

    /// The function of the context.
    #[inline(always)]
    pub fn function(&self) -> u16
        ensures { result ≡ self.now.context.function }
    {
        self.function
    }
}

/// The context of a number.
pub fn numbered(game: &Game, blocks: &Blocks, number: usize) -> Tabled
    requires routed { AreRouted (game_of game.now) (length game.now.graph.parts.items) }
    requires blocks { AreBlocks (game_of game.now) blocks.now }
    requires within { number < length blocks.now.contexts.items }
    ensures number { result.number ≡ number }
    ensures there { IsTabled blocks.now result }
{
    let context = &blocks.contexts[number];
    Tabled {
        number: number as u32,
        function: context.function,
        context: Snapshot::of(context),
    }
}

/// How many positions a function has.
pub fn positions(game: &Game, function: u16) -> u32
    requires routed { AreRouted (game_of game.now) (length game.now.graph.parts.items) }
    requires there { IsThere (game_of game.now) (length game.now.graph.parts.items) function }
    ensures is { result ≡ positions (game_of game.now) function }
    ensures some { 0 < result }
{
    game.exit(function).0 + 1 - game.entry(function).0
}

/// How many cells a context of a function has.
pub fn size(game: &Game, function: u16) -> u32
    requires routed { AreRouted (game_of game.now) (length game.now.graph.parts.items) }
    requires there { IsThere (game_of game.now) (length game.now.graph.parts.items) function }
    ensures is { result ≡ size (game_of game.now) function }
    ensures some { 0 < result }
    ensures few { result ≤ POSITIONS_TIMES_STATES }
{
    positions(game, function) * u32::from(game.states())
}

/// `main` with all states.
pub fn main_context(game: &Game) -> Context
    requires routed { AreRouted (game_of game.now) (length game.now.graph.parts.items) }
    ensures { result ≡ context (game_of game.now).main (all_states (game_of game.now)) }
{
    Context {
        function: game.main(),
        promise: StateSet::empty().complement_in(game.states()),
    }
}

/// The cell of a pair in a context: the cells of one state follow each other, by position.
pub fn slot(game: &Game, blocks: &Blocks, at: &Tabled, pos: PosId, state: StateId) -> usize
    requires routed { AreRouted (game_of game.now) (length game.now.graph.parts.items) }
    requires blocks { AreBlocks (game_of game.now) blocks.now }
    requires cell { HasCell (game_of game.now) blocks.now at.now pos.0 state.0 }
    ensures is { result ≡ slot (game_of game.now) blocks.now.contexts.items at.now.number at.now.context.function pos.0 state.0 }
    ensures within { result < cells_of (game_of game.now) blocks.now.contexts.items }
{
    let function = at.function();
    let run = state.0 as usize * positions(game, function) as usize;
    blocks.bases[at.number()] as usize + (run + (pos.0 - game.entry(function).0) as usize)
}

/// Whether a pair holds for n moves.
pub(crate) fn holds(
    game: &Game,
    table: &Table,
    n: u32,
    at: &Tabled,
    pos: PosId,
    state: StateId,
) -> bool
    requires routed { AreRouted (game_of game.now) (length game.now.graph.parts.items) }
    requires table { IsTable (game_of game.now) table.now }
    requires cell { HasCell (game_of game.now) table.now.blocks at.now pos.0 state.0 }
    requires written { AreWritten (game_of game.now) table.now.blocks.contexts.items table.now.heights.items n (suc n) }
    ensures { result ≡ Holds (game_of game.now) n pos.0 state.0 (has at.now.context.promise) }
{
    let height = table.heights[slot(game, &table.blocks, at, pos, state)];
    height == 0 || n < height
}

/// The height that is written, none where nothing is.
pub(crate) fn height_in(written: u32) -> Option<u32>
    ensures { result ≡ height_by written }
{
    match written {
        0 => None,
        height => Some(height),
    }
}

/// Numbers of 32 bits are below 2^32.
pub(crate) fn fact_fit(heights: &[u32])
    ensures { (k : ℕ) → slice_index heights.now k < 4294967296 }
{
    let _ = heights;
}

/// The number of a context.
pub fn index_of(contexts: &[Context], function: u16, promise: &StateSet) -> Option<usize>
    ensures index { result ≡ position (λ c. nat_eq c.function function && nat_eq c.promise promise.now) contexts.now }
    ensures within { IfSome result (λ i. i < length contexts.now) }
{
    contexts
        .iter()
        .position(|c| c.function == function && c.promise == *promise)
}

/// What a call promises for n moves: the exit states from which the return holds.
pub(crate) fn promised(
    game: &Game,
    table: &Table,
    n: u32,
    at: &Tabled,
    call: StateId,
    back: PosId,
    split: bool,
) -> StateSet
    requires routed { AreRouted (game_of game.now) (length game.now.graph.parts.items) }
    requires table { IsTable (game_of game.now) table.now }
    requires cell { HasCell (game_of game.now) table.now.blocks at.now back.0 call.0 }
    requires written { AreWritten (game_of game.now) table.now.blocks.contexts.items table.now.heights.items n (suc n) }
    ensures { IsSetOf (game_of game.now) result (promise_at (game_of game.now) n back.0 (kept_at split call.0) at.now.context.promise) }
{
    let mut set = StateSet::empty();
    for x in 0..game.states() {
        let exit = StateId(x);
        if holds(game, table, n, at, back, game.returned(call, exit, split)) {
            set.insert(exit);
        }
    }
    set
}
