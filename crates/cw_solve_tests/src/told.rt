//! What is told of a game by its texts.

ghost use Rattle.cw_product.specs.Made.{IsMade};

use crate::made::graph_of;
use crate::products::{Fact, are_so};
use crate::solved::{both, linked, small, unsolved};
use crate::strategies::judged;
use crate::texts::joined;
use cw_linked::solve as solve_linked;
use cw_policy::read_policy;
use cw_product::{Game, GameFault};
use cw_solve::{Solved, solve};
use std::alloc::Global;
use std::process::Abort;

/// What is asked of a game.
#[derive(Clone, Copy)]
pub enum Question<'t> {
    /// How many states and positions it has.
    Made,
    /// Whether each of these is so.
    Facts(&'t [Fact]),
    /// Whether a strategy by its text is good.
    Strategy(&'t str),
    /// How many contexts and cells it has.
    Size,
    /// The same, where the contexts have these functions, promises, numbers of lost pairs and sums of their heights, and all is as the slow body has it.
    Small(&'t [[u64; 4]]),
    /// The same, where both solvers have the same contexts and heights.
    Both,
    /// How many cells it has by linked cells, and the height of the start.
    Linked,
}

/// What is told of a game: words, and the two numbers that they speak of, 0 where they speak of none.
///
/// - `made`: how many states and positions there are;
/// - `so`: how many of what was asked is so; `not so`: the number of the first that isn't;
/// - `good`; `bad`: the row of a strategy and the condition that fails;
/// - `solved`: how many contexts and cells there are; `linked`: how many cells, and the height of the start;
/// - `too many cells`: how many contexts have too many;
/// - `other contexts`, `other heights`: they aren't those that are wanted, or not those of the other solver;
/// - else why there is no game.
pub type Answer = (&'static str, u64, u64);

/// What is asked of a game by its texts: what is shown, the policy, the source, the question, and what is to be told.
pub type Row<'t> = (&'t str, &'t str, &'t str, Question<'t>, Answer);

/// The same, where the policy and the source are made of parts, each so many times.
pub type JoinedRow<'t> = (
    &'t str,
    &'t [(&'t str, u32)],
    &'t [(&'t str, u32)],
    Question<'t>,
    Answer,
);

/// Why there is no game.
fn unmade(fault: GameFault) -> &'static str {
    match fault {
        GameFault::TooManyCaps => "too many rights states",
        GameFault::TooManyWords => "too many policy states",
        GameFault::TooManyStates => "too many pairs",
        GameFault::TooManyPositions => "too many positions",
        GameFault::NoMemory => "no memory",
    }
}

/// What is told of a game that the plain solver solves.
fn compared(alloc: Global, game: &Game, solved: &Solved, question: Question) -> Answer
    requires made { IsMade game.now }
{
    match question {
        Question::Small(wanted) => { small(alloc, solved, wanted).unwrap_or(("no memory", 0, 0)) }
        Question::Both => match solve_linked(alloc, game) {
            Err(fault) => unsolved(&fault),
            Ok(other) => both(solved, &other),
        },
        _ => (
            "solved",
            u64::from(solved.contexts()),
            u64::from(solved.cells()),
        ),
    }
}

/// What is told of a game that is made.
fn answered(alloc: Global, game: &Game, question: Question) -> Answer
    requires made { IsMade game.now }
{
    match question {
        Question::Made => (
            "made",
            u64::from(game.states()),
            u64::from(game.positions()),
        ),
        Question::Facts(facts) => are_so(game, facts),
        Question::Strategy(text) => judged(alloc, game, text),
        Question::Linked => match solve_linked(alloc, game) {
            Err(fault) => unsolved(&fault),
            Ok(solved) => linked(&solved),
        },
        _ => match solve(alloc, game) {
            Err(fault) => unsolved(&fault),
            Ok(solved) => compared(alloc, game, &solved, question),
        },
    }
}

/// What is told of a game by its texts.
pub fn told(alloc: Global, policy: &str, source: &str, question: Question) -> Answer {
    let Ok(policy) = read_policy(alloc, policy.as_bytes()) else {
        return ("no policy", 0, 0);
    };
    let Some(graph) = graph_of(alloc, &policy, source.as_bytes()) else {
        return ("no graph", 0, 0);
    };
    match Game::make(alloc, &graph, &policy) {
        Err(fault) => (unmade(fault), 0, 0),
        Ok(game) => answered(alloc, &game, question),
    }
}

/// Asserts what is told of games.
pub fn all_told(rt: &impl Abort, alloc: Global, rows: &[Row]) {
    for (name, policy, source, question, wanted) in rows {
        assert_eq!(rt; told(alloc, policy, source, *question), *wanted, "{name}");
    }
}

/// Asserts what is told of games whose texts are made of parts.
pub fn all_joined_told(rt: &impl Abort, alloc: Global, rows: &[JoinedRow]) {
    for (name, policy, source, question, wanted) in rows {
        let policy = joined(alloc, policy).expect(rt, "a policy");
        let source = joined(alloc, source).expect(rt, "a source");
        assert_eq!(rt; told(alloc, &policy, &source, *question), *wanted, "{name}");
    }
}
