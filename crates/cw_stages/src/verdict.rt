//! Who wins the game of a program and a policy, and the text that says so.

ghost use Rattle.std.specs.Prelude.{◌≡◌, None};
ghost use Rattle.cw_rights.specs.Policies.{policy_of};
ghost use Rattle.cw_syntax.specs.Trees.{file_of};
ghost use Rattle.cw_model.specs.Boards.{problem_of};
ghost use Rattle.cw_resolve.specs.Scenes.{names_of};
ghost use Rattle.cw_points.specs.Graphs.{IsGraph};
ghost use Rattle.cw_source.specs.Read.{ReadsAs};
ghost use Rattle.cw_game.specs.Pairs.{all_states};
ghost use Rattle.cw_game.specs.Standing.{IsGameOf};
ghost use Rattle.cw_product.specs.Product.{game_of};
ghost use Rattle.cw_solve.specs.Contexts.{HeightIs};
ghost use Rattle.cw_product.specs.Made.{IsMade};
ghost use Rattle.cw_stages.specs.Counting.{IsCounted};
ghost use Rattle.cw_stages.specs.Stops.{Decides, Nothing, StartsVerdict};
ghost use Rattle.cw_stages.specs.Verdicts.{AfterCells, AfterGame, StartHolds, StartIsLost};

use crate::least::put_least;
use crate::numbers::{Numbers, strategy_rows, table_rows};
use crate::stop::Stop;
use crate::told::{Text, Verdict};
use cw_commands::Reply;
use cw_core::Quantity;
use cw_emit::put_woven;
use cw_io::{Sink, Writer};
use cw_lazy_table::weaver_table;
use cw_least_strategy::least_strategy;
use cw_linked::solve;
use cw_points::marks::marks;
use cw_product::Game;
use cw_solve::{SolveFault, Solved, TableFault};
use cw_syntax::checked::Checked;
use std::alloc::Global;
use std::mem::forget;

/// The height of the pair at which the program begins, all exit states of `main` promised.
pub(crate) fn start_height(game: &Game, solved: &Solved) -> Option<u32>
    requires made { IsMade game.now }
    requires solved { solved.now.game ≡ game.now }
    ensures { HeightIs (game_of game.now) ((game_of game.now).entry (game_of game.now).main) (game_of game.now).states.start (all_states (game_of game.now)) result }
{
    solved.fact_contexts_are_needed();
    let (pos, state) = game.start();
    solved.height(0, pos, state)
}

/// The woven text with the lazy table, or that this has too many rows.
fn woven<O: Sink>(
    alloc: Global,
    checked: &Checked,
    game: &Game,
    solved: &Solved,
    out: &mut O,
) -> Result<Verdict<O>, Stop>
    requires reads { ReadsAs checked.now.source.now (file_of checked.now.program) }
    requires made { IsMade game.now }
    requires graph { IsGraph (names_of (policy_of game.now.states.policy)) checked.now.source.now (file_of checked.now.program) game.now.graph }
    requires is_game { IsGameOf (problem_of (policy_of game.now.states.policy) checked.now.source.now (file_of checked.now.program)) (game_of game.now) }
    requires solved { solved.now.game ≡ game.now }
    requires kept { StartHolds (game_of game.now) }
    ensures due { Decides (policy_of game.now.states.policy) checked.now.source.now
        (λ numbers. AfterCells (IsCounted numbers (policy_of game.now.states.policy) checked.now.source.now (file_of checked.now.program)) (game_of game.now))
        (AfterCells Nothing (game_of game.now)) result }
    ensures puts { StartsVerdict O.taken O.faults O.refused out.old out.new result }
{
    match weaver_table(alloc, game, solved) {
        Ok(table) => {
            let marks = marks(alloc, game.graph())?;
            let mut writer = Writer::begin(out);
            put_woven(
                checked.source,
                &marks,
                game.policy(),
                &table,
                &mut writer,
                out,
            );
            solved.fact_contexts_are_needed();
            Ok(Verdict {
                text: Text {
                    reply: Reply::Yes,
                    writer,
                },
                numbers: Numbers::make(game, solved, table_rows(&table)),
            })
        }
        Err(TableFault::TooManyRows) => Err(Stop::Over(Quantity::Rows)),
        Err(TableFault::NoMemory) => Err(Stop::NoMemory),
    }
}

/// The text of the strategy by least heights, or that this has too many rows.
fn refuted<O: Sink>(
    alloc: Global,
    checked: &Checked,
    game: &Game,
    solved: &Solved,
    out: &mut O,
) -> Result<Verdict<O>, Stop>
    requires made { IsMade game.now }
    requires graph { IsGraph (names_of (policy_of game.now.states.policy)) checked.now.source.now (file_of checked.now.program) game.now.graph }
    requires is_game { IsGameOf (problem_of (policy_of game.now.states.policy) checked.now.source.now (file_of checked.now.program)) (game_of game.now) }
    requires solved { solved.now.game ≡ game.now }
    requires lost { StartIsLost (game_of game.now) }
    ensures due { Decides (policy_of game.now.states.policy) checked.now.source.now
        (λ numbers. AfterCells (IsCounted numbers (policy_of game.now.states.policy) checked.now.source.now (file_of checked.now.program)) (game_of game.now))
        (AfterCells Nothing (game_of game.now)) result }
    ensures puts { StartsVerdict O.taken O.faults O.refused out.old out.new result }
{
    let _ = checked;
    match least_strategy(alloc, game, solved) {
        Ok(strategy) => {
            let mut writer = Writer::begin(out);
            put_least(&strategy, game.policy().format, &mut writer, out);
            solved.fact_contexts_are_needed();
            Ok(Verdict {
                text: Text {
                    reply: Reply::No,
                    writer,
                },
                numbers: Numbers::make(game, solved, strategy_rows(&strategy)),
            })
        }
        Err(TableFault::TooManyRows) => Err(Stop::Over(Quantity::Rows)),
        Err(TableFault::NoMemory) => Err(Stop::NoMemory),
    }
}

/// That the rows are too many, or the verdict.
fn told<O: Sink>(
    alloc: Global,
    checked: &Checked,
    game: &Game,
    solved: &Solved,
    out: &mut O,
) -> Result<Verdict<O>, Stop>
    requires reads { ReadsAs checked.now.source.now (file_of checked.now.program) }
    requires made { IsMade game.now }
    requires graph { IsGraph (names_of (policy_of game.now.states.policy)) checked.now.source.now (file_of checked.now.program) game.now.graph }
    requires is_game { IsGameOf (problem_of (policy_of game.now.states.policy) checked.now.source.now (file_of checked.now.program)) (game_of game.now) }
    requires solved { solved.now.game ≡ game.now }
    ensures due { Decides (policy_of game.now.states.policy) checked.now.source.now
        (λ numbers. AfterCells (IsCounted numbers (policy_of game.now.states.policy) checked.now.source.now (file_of checked.now.program)) (game_of game.now))
        (AfterCells Nothing (game_of game.now)) result }
    ensures puts { StartsVerdict O.taken O.faults O.refused out.old out.new result }
{
    match start_height(game, solved) {
        None => woven(alloc, checked, game, solved, out),
        Some(_) => refuted(alloc, checked, game, solved, out),
    }
}

/// Who wins the game of a program and a policy, with the text that says so: the woven text, or that of the strategy by least heights; or that the cells of the
/// contexts that the game needs are too many, or the rows.
pub fn judge<O: Sink>(
    alloc: Global,
    checked: &Checked,
    game: &Game,
    out: &mut O,
) -> Result<Verdict<O>, Stop>
    requires reads { ReadsAs checked.now.source.now (file_of checked.now.program) }
    requires made { IsMade game.now }
    requires graph { IsGraph (names_of (policy_of game.now.states.policy)) checked.now.source.now (file_of checked.now.program) game.now.graph }
    requires is_game { IsGameOf (problem_of (policy_of game.now.states.policy) checked.now.source.now (file_of checked.now.program)) (game_of game.now) }
    ensures due { Decides (policy_of game.now.states.policy) checked.now.source.now
        (λ numbers. AfterGame (IsCounted numbers (policy_of game.now.states.policy) checked.now.source.now (file_of checked.now.program)) (game_of game.now))
        (AfterGame Nothing (game_of game.now)) result }
    ensures puts { StartsVerdict O.taken O.faults O.refused out.old out.new result }
{
    match solve(alloc, game) {
        Ok(solution) => {
            let verdict = told(alloc, checked, game, &solution, out);
            // The end of the process gives its blocks back at once.
            forget(solution);
            verdict
        }
        Err(SolveFault::TooManyCells(_)) => Err(Stop::Over(Quantity::Cells)),
        Err(SolveFault::NoMemory) => Err(Stop::NoMemory),
    }
}
