//! The game of a policy and a program, stage by stage.

ghost use Rattle.std.specs.Prelude.{◌≡◌, ◌≢◌, ◌≤◌, [], ℕ, List, length, IfErr, IfOk};
ghost use Rattle.cw_core.specs.Quantities.{limit_of};
ghost use Rattle.cw_core.specs.declared.quantity.Quantity.TheVariants.{Points};
ghost use Rattle.cw_rights.specs.Policies.{PlainPolicy, policy_of};
ghost use Rattle.cw_syntax.specs.Plans.{plan_of};
ghost use Rattle.cw_resolve.specs.Scenes.{names_of};
ghost use Rattle.cw_points.specs.Graphs.{IsGraph};
ghost use Rattle.cw_points.specs.Points.{point_count};
ghost use Rattle.cw_callgraph.specs.Fitting.{Fits};
ghost use Rattle.cw_model.specs.Boards.{problem_of};
ghost use Rattle.cw_game.specs.Standing.{IsGameOf};
ghost use Rattle.cw_product.specs.Made.{IsMade};
ghost use Rattle.cw_product.specs.Product.{game_of};
ghost use Rattle.cw_commands.specs.Outcomes.{Due};
ghost use Rattle.cw_stages.specs.Fitting.{IsFitRefusal};
ghost use Rattle.cw_stages.specs.Games.{game_refusal, IsGame, IsGameRefusal, IsPointsRefusal};
ghost use Rattle.cw_stages.specs.Refusals.{policy_detached};
ghost use Rattle.cw_stages.specs.Stops.{file_in, source_of, whole_of, IsReading, IsStop, Refuses};

use crate::reading::Reading;
use crate::stop::Stop;
use cw_callgraph::fit_fault;
use cw_core::limits::POINTS;
use cw_core::{NoMemory, Quantity};
use cw_points::build::build;
use cw_points::{Graph, PointsFault};
use cw_product::{Game, GameFault};
use cw_rights::Policy;
use std::alloc::Global;

/// That the policy fits the program: its labels and the functions that it splits are there, and these may be split; or the first that isn't so.
pub fn fits(alloc: Global, reading: &Reading) -> Result<(), Stop>
    requires is { IsReading reading.now }
    ensures fits { IfOk result (λ _. Fits (source_of reading.now) (file_in reading.now) (whole_of reading.now)) }
    ensures stop { IfErr result (IsStop (whole_of reading.now) (source_of reading.now)
        (IsFitRefusal (source_of reading.now) (file_in reading.now) (whole_of reading.now))) }
{
    match fit_fault(alloc, reading.policy, &reading.checked) {
        Ok(None) => Ok(()),
        Ok(Some(fault)) => Err(Stop::Fit(fault)),
        Err(NoMemory) => Err(Stop::NoMemory),
    }
}

/// That the policy detaches no function.
pub fn attaches(policy: &Policy) -> Result<(), Stop>
    ensures none { IfOk result (λ _. (policy_of policy.now).detached ≡ []) }
    ensures stop { IfErr result (λ stop. (source : List ℕ) → IsStop (policy_of policy.now) source
        (λ due. ((policy_of policy.now).detached ≢ []) × (due ≡ policy_detached)) stop) }
{
    if policy.detached.is_empty() {
        Ok(())
    } else {
        Err(Stop::Detached)
    }
}

/// The graph of the program's points; or that these are too many.
pub fn draw(alloc: Global, reading: &Reading) -> Result<Graph, Stop>
    requires is { IsReading reading.now }
    ensures graph { IfOk result (λ graph. IsGraph (names_of (whole_of reading.now)) (source_of reading.now) (file_in reading.now) graph) }
    ensures few { IfOk result (λ _. point_count (plan_of (names_of (whole_of reading.now)) (source_of reading.now) (file_in reading.now)) ≤ limit_of Points) }
    ensures points { IfOk result (λ graph. length graph.nodes.items ≤ POINTS) }
    ensures stop { IfErr result (IsStop (whole_of reading.now) (source_of reading.now)
        (IsPointsRefusal (source_of reading.now) (whole_of reading.now) (file_in reading.now))) }
{
    match build(alloc, &reading.checked, reading.policy) {
        Ok(graph) => Ok(graph),
        Err(PointsFault::TooManyPoints) => Err(Stop::Over(Quantity::Points)),
        Err(PointsFault::NoMemory) => Err(Stop::NoMemory),
    }
}

/// That the game is over one of its numbers.
fn game_stop(fault: GameFault) -> Stop
    ensures { (whole : PlainPolicy) → (source : List ℕ) → (due : Due) → Refuses whole source result due → (fault ≢ GameFault.NoMemory) × (due ≡ game_refusal fault) }
{
    match fault {
        GameFault::TooManyCaps => Stop::Over(Quantity::RightsStates),
        GameFault::TooManyWords => Stop::Over(Quantity::PolicyStates),
        GameFault::TooManyStates => Stop::Over(Quantity::ProductStates),
        GameFault::TooManyPositions => Stop::Over(Quantity::PositionsTimesStates),
        GameFault::NoMemory => Stop::NoMemory,
    }
}

/// The game of the policy and of the program's graph; or that it is over one of its numbers.
pub fn make_game<'g>(
    alloc: Global,
    reading: &'g Reading,
    graph: &'g Graph,
) -> Result<Game<'g>, Stop>
    requires is { IsReading reading.now }
    requires graph { IsGraph (names_of (whole_of reading.now)) (source_of reading.now) (file_in reading.now) graph.now }
    requires points { length graph.now.nodes.items ≤ POINTS }
    ensures game { IfOk result (λ game. IsGame (whole_of reading.now) graph.now game) }
    ensures made { IfOk result (λ game. IsMade game) }
    ensures is_game { IfOk result (λ game. IsGameOf (problem_of (whole_of reading.now) (source_of reading.now) (file_in reading.now)) (game_of game)) }
    ensures stop { IfErr result (IsStop (whole_of reading.now) (source_of reading.now) (IsGameRefusal (whole_of reading.now) graph.now)) }
{
    match Game::make(alloc, graph, reading.policy) {
        Ok(game) => Ok(game),
        Err(fault) => Err(game_stop(fault)),
    }
}
