//! Who wins the game of a program and a policy, with its numbers and without a text.

ghost use Rattle.std.specs.Prelude.{◌≡◌, ◌^◌, ◌<◌, length};
ghost use Rattle.cw_rights.specs.Policies.{policy_of};
ghost use Rattle.cw_syntax.specs.Trees.{file_of};
ghost use Rattle.cw_model.specs.Boards.{problem_of};
ghost use Rattle.cw_resolve.specs.Scenes.{names_of};
ghost use Rattle.cw_points.specs.Graphs.{IsGraph};
ghost use Rattle.cw_source.specs.Read.{ReadsAs};
ghost use Rattle.cw_certs.specs.Strategies.{strategy_of};
ghost use Rattle.cw_game.specs.Conditions.{IsGoodStrategy, IsGoodTable};
ghost use Rattle.cw_game.specs.Standing.{IsGameOf};
ghost use Rattle.cw_product.specs.Product.{game_of};
ghost use Rattle.cw_product.specs.Made.{IsMade};
ghost use Rattle.cw_wcheck.specs.Checking.{HasFewRows};
ghost use Rattle.cw_stages.specs.Counting.{IsCounted};
ghost use Rattle.cw_stages.specs.Stops.{Counts, Nothing};
ghost use Rattle.cw_stages.specs.Verdicts.{AfterCells, AfterGame, StartHolds, StartIsLost};

use crate::numbers::{Numbers, strategy_rows, table_rows};
use crate::stop::Stop;
use crate::told::Count;
use crate::verdict::start_height;
use cw_certs::{EnvCert, WeaverCert};
use cw_commands::Reply;
use cw_core::Quantity;
use cw_echeck::check_env;
use cw_lazy_table::weaver_table;
use cw_least_strategy::certificate::certificate;
use cw_least_strategy::least_strategy;
use cw_linked::solve;
use cw_product::Game;
use cw_solve::{SolveFault, Solved, TableFault};
use cw_syntax::checked::Checked;
use cw_wcheck::check_weaver;
use std::alloc::Global;
use std::mem::forget;

/// Has the checker of tables go through one that meets the conditions: it accepts that.
fn confirm_table(game: &Game, table: &WeaverCert)
    requires few { HasFewRows table.now }
    requires good { IsGoodTable (game_of game.now) table.now }
{
    match check_weaver(game, table) {
        Ok(()) => {}
        Err(_) => unreachable!(),
    }
}

/// Has the checker of strategies go through one that meets the conditions: it accepts that.
fn confirm_strategy(game: &Game, strategy: &EnvCert)
    requires few { length strategy.now.rows.items < 2 ^ 32 }
    requires good { IsGoodStrategy (game_of game.now) (strategy_of strategy.now) }
{
    match check_env(game, strategy) {
        Ok(()) => {}
        Err(_) => unreachable!(),
    }
}

/// The numbers with the lazy table, which the checker of tables accepts; or that this has too many rows.
fn of_table(alloc: Global, checked: &Checked, game: &Game, solved: &Solved) -> Result<Count, Stop>
    requires reads { ReadsAs checked.now.source.now (file_of checked.now.program) }
    requires made { IsMade game.now }
    requires graph { IsGraph (names_of (policy_of game.now.states.policy)) checked.now.source.now (file_of checked.now.program) game.now.graph }
    requires is_game { IsGameOf (problem_of (policy_of game.now.states.policy) checked.now.source.now (file_of checked.now.program)) (game_of game.now) }
    requires solved { solved.now.game ≡ game.now }
    requires kept { StartHolds (game_of game.now) }
    ensures due { Counts (policy_of game.now.states.policy) checked.now.source.now
        (λ numbers. AfterCells (IsCounted numbers (policy_of game.now.states.policy) checked.now.source.now (file_of checked.now.program)) (game_of game.now))
        (AfterCells Nothing (game_of game.now)) result }
{
    let _ = checked;
    match weaver_table(alloc, game, solved) {
        Ok(table) => {
            confirm_table(game, &table);
            solved.fact_contexts_are_needed();
            Ok(Count {
                reply: Reply::Yes,
                numbers: Numbers::make(game, solved, table_rows(&table)),
            })
        }
        Err(TableFault::TooManyRows) => Err(Stop::Over(Quantity::Rows)),
        Err(TableFault::NoMemory) => Err(Stop::NoMemory),
    }
}

/// The numbers with the strategy by least heights, which the checker of strategies accepts; or that this has too many rows.
fn of_strategy(
    alloc: Global,
    checked: &Checked,
    game: &Game,
    solved: &Solved,
) -> Result<Count, Stop>
    requires made { IsMade game.now }
    requires graph { IsGraph (names_of (policy_of game.now.states.policy)) checked.now.source.now (file_of checked.now.program) game.now.graph }
    requires is_game { IsGameOf (problem_of (policy_of game.now.states.policy) checked.now.source.now (file_of checked.now.program)) (game_of game.now) }
    requires solved { solved.now.game ≡ game.now }
    requires lost { StartIsLost (game_of game.now) }
    ensures due { Counts (policy_of game.now.states.policy) checked.now.source.now
        (λ numbers. AfterCells (IsCounted numbers (policy_of game.now.states.policy) checked.now.source.now (file_of checked.now.program)) (game_of game.now))
        (AfterCells Nothing (game_of game.now)) result }
{
    let _ = checked;
    match least_strategy(alloc, game, solved) {
        Ok(strategy) => {
            let cert = certificate(alloc, &strategy)?;
            confirm_strategy(game, &cert);
            solved.fact_contexts_are_needed();
            Ok(Count {
                reply: Reply::No,
                numbers: Numbers::make(game, solved, strategy_rows(&strategy)),
            })
        }
        Err(TableFault::TooManyRows) => Err(Stop::Over(Quantity::Rows)),
        Err(TableFault::NoMemory) => Err(Stop::NoMemory),
    }
}

/// That the rows are too many, or the numbers.
fn counted(alloc: Global, checked: &Checked, game: &Game, solved: &Solved) -> Result<Count, Stop>
    requires reads { ReadsAs checked.now.source.now (file_of checked.now.program) }
    requires made { IsMade game.now }
    requires graph { IsGraph (names_of (policy_of game.now.states.policy)) checked.now.source.now (file_of checked.now.program) game.now.graph }
    requires is_game { IsGameOf (problem_of (policy_of game.now.states.policy) checked.now.source.now (file_of checked.now.program)) (game_of game.now) }
    requires solved { solved.now.game ≡ game.now }
    ensures due { Counts (policy_of game.now.states.policy) checked.now.source.now
        (λ numbers. AfterCells (IsCounted numbers (policy_of game.now.states.policy) checked.now.source.now (file_of checked.now.program)) (game_of game.now))
        (AfterCells Nothing (game_of game.now)) result }
{
    match start_height(game, solved) {
        None => of_table(alloc, checked, game, solved),
        Some(_) => of_strategy(alloc, checked, game, solved),
    }
}

/// Who wins the game of a program and a policy, with the numbers that `judge` gives and without its text: the table or the strategy is made, and gone
/// through by its checker, which accepts it; or that the cells of the contexts that the game needs are too many, or the rows.
pub fn reckon(alloc: Global, checked: &Checked, game: &Game) -> Result<Count, Stop>
    requires reads { ReadsAs checked.now.source.now (file_of checked.now.program) }
    requires made { IsMade game.now }
    requires graph { IsGraph (names_of (policy_of game.now.states.policy)) checked.now.source.now (file_of checked.now.program) game.now.graph }
    requires is_game { IsGameOf (problem_of (policy_of game.now.states.policy) checked.now.source.now (file_of checked.now.program)) (game_of game.now) }
    ensures due { Counts (policy_of game.now.states.policy) checked.now.source.now
        (λ numbers. AfterGame (IsCounted numbers (policy_of game.now.states.policy) checked.now.source.now (file_of checked.now.program)) (game_of game.now))
        (AfterGame Nothing (game_of game.now)) result }
{
    match solve(alloc, game) {
        Ok(solution) => {
            let count = counted(alloc, checked, game, &solution);
            // The end of the process gives its blocks back at once.
            forget(solution);
            count
        }
        Err(SolveFault::TooManyCells(_)) => Err(Stop::Over(Quantity::Cells)),
        Err(SolveFault::NoMemory) => Err(Stop::NoMemory),
    }
}
