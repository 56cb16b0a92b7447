//! The numbers of what `weave` makes of a policy and a source.

ghost use Rattle.std.specs.Prelude.{◌≡◌, ◌≤◌, length};
ghost use Rattle.cw_certs.specs.Strategies.{how_of};
ghost use Rattle.cw_product.specs.Product.{game_of};
ghost use Rattle.cw_solve.specs.Contexts.{cells_of};
ghost use Rattle.cw_lazy_table.specs.Lazy.{table_rows};
ghost use Rattle.cw_least_strategy.specs.Strategies.{backs_in, rows_of};

use cw_certs::{How, WeaverCert};
use cw_core::limits::ROWS;
use cw_least_strategy::LeastStrategy;
use cw_product::Game;
use cw_solve::Solved;

/// The points of a program, the positions and states of its game, the contexts that the game needs and their cells, and the rows of the table or
/// of the strategy.
#[derive(Clone, Copy, Drop)]
pub struct Numbers {
    pub points: u64,
    pub positions: u64,
    pub states: u64,
    pub contexts: u64,
    pub cells: u64,
    pub rows: u64,
}

impl Numbers {
    /// The numbers of a solved game, with so many rows.
    pub(crate) fn make(game: &Game, solved: &Solved, rows: u64) -> Numbers
        ensures points { result.points ≡ length game.now.graph.nodes.items }
        ensures positions { result.positions ≡ length (game_of game.now).spots }
        ensures states { result.states ≡ (game_of game.now).states.count }
        ensures contexts { result.contexts ≡ length solved.now.contexts }
        ensures cells { result.cells ≡ cells_of (game_of solved.now.game) solved.now.contexts }
        ensures rows { result.rows ≡ rows }
    {
        Numbers {
            points: game.graph().nodes.len() as u64,
            positions: u64::from(game.positions()),
            states: u64::from(game.states()),
            contexts: u64::from(solved.contexts()),
            cells: u64::from(solved.cells()),
            rows,
        }
    }
}

/// The rows of all lists of a table.
pub(crate) fn table_rows(table: &WeaverCert) -> u64
    requires few { table_rows table.now ≤ ROWS }
    ensures { result ≡ table_rows table.now }
{
    let rows = table.mems().len() + table.live().len() + table.tries().len() + table.ats().len();
    let rows = rows + table.opened().len() + table.closed().len();
    (rows + table.into_rows().len() + table.back_rows().len()) as u64
}

/// The backs of a row.
fn backs_in(how: &How) -> usize
    ensures { result ≡ backs_in (how_of how.now) }
{
    match how {
        How::Into { backs, .. } => backs.len(),
        _ => 0,
    }
}

/// The rows of a strategy, and the backs of each.
pub(crate) fn strategy_rows(strategy: &LeastStrategy) -> u64
    requires few { rows_of strategy.now ≤ ROWS }
    ensures { result ≡ rows_of strategy.now }
{
    let mut rows = strategy.count();
    for number in 0..strategy.count() {
        rows += backs_in(strategy.row(number).how);
    }
    rows as u64
}
