//! The strategy by least heights of a solved game.

ghost use Rattle.std.specs.Prelude.{◌≡◌, ℕ, ◌<◌, ◌≤◌, IfOk, IfErr, IfSome, IfNone};
ghost use Rattle.cw_certs.specs.Strategies.{Strategy, strategy_of};
ghost use Rattle.cw_game.specs.Conditions.{IsGoodStrategy};
ghost use Rattle.cw_game.specs.Pairs.{all_states};
ghost use Rattle.cw_product.specs.Product.{game_of};
ghost use Rattle.cw_solve.specs.Contexts.{IsHeight};
ghost use Rattle.cw_product.specs.Made.{IsMade};
ghost use Rattle.cw_least_strategy.specs.Acts.{IsLost, IsStartHeight, IsStartKey};
ghost use Rattle.cw_least_strategy.specs.Backs.{BacksAscend};
ghost use Rattle.cw_least_strategy.specs.Parts.{AreParts};
ghost use Rattle.cw_least_strategy.specs.Small.{AreAims};
ghost use Rattle.cw_least_strategy.specs.Strategies.{IsLeastStrategy, rows_of};

use crate::aims::{aims_of, small};
use crate::certificate::certificate;
use crate::contexts::Entries;
use crate::key::{Key, SmallKey};
use crate::rows::hows_within;
use crate::search::done_up_to;
use crate::strategy::LeastStrategy;
use cw_certs::{EnvCert, How};
use cw_core::StateSet;
use cw_core::limits::ROWS;
use cw_product::Game;
use cw_solve::{Solved, TableFault};
use std::alloc::{AllocError, Global};

/// The height of the start under the promise of all states.
fn start_height(solved: &Solved) -> u32
    requires made { IsMade solved.now.game }
    requires lost { IsLost (game_of solved.now.game) }
    ensures { IsStartHeight (game_of solved.now.game) result }
{
    solved.fact_contexts_are_needed();
    let (pos, state) = solved.game().start();
    match solved.height(0, pos, state) {
        None => 0,
        Some(height) => height,
    }
}

/// The key of the start.
fn start_key(solved: &Solved) -> Key
    requires made { IsMade solved.now.game }
    requires lost { IsLost (game_of solved.now.game) }
    ensures { IsStartKey (game_of solved.now.game) result }
{
    let (pos, state) = solved.game().start();
    Key {
        height: start_height(solved),
        pos: pos.0,
        state: state.0,
        aim: StateSet::empty(),
    }
}

/// All keys that the start's names, and what is done at each; none where these rows and their backs are more than 65,536.
fn parts_within(
    alloc: Global,
    solved: &Solved,
    aims: &[StateSet],
    start: &Key,
) -> Result<Option<(Vec<SmallKey>, Vec<How>)>, AllocError>
    requires made { IsMade solved.now.game }
    requires aims { AreAims solved.now aims.now }
    requires start { IsStartKey (game_of solved.now.game) start.now }
    ensures parts { IfOk result (λ o. IfSome o (λ (keys, hows). AreParts (game_of solved.now.game) aims.now start.now keys.items hows.items)) }
    ensures many { IfOk result (λ o. IfNone o ((s : Strategy) → IsLeastStrategy (game_of solved.now.game) s → ROWS < rows_of s)) }
{
    let entries = Entries::make(alloc, solved, aims)?;
    let first = small(aims, start);
    match done_up_to(alloc, solved, &entries, aims, first, ROWS)? {
        None => Ok(None),
        Some((keys, acts)) => match hows_within(alloc, solved, aims, &keys, &acts)? {
            None => Ok(None),
            Some(hows) => Ok(Some((keys, hows))),
        },
    }
}

/// The strategy by least heights; none where its rows and their backs are more than 65,536. It has at least as many rows as the
/// start is high, so of a higher start no key is looked for.
fn strategy_within(alloc: Global, solved: &Solved) -> Result<Option<LeastStrategy>, AllocError>
    requires made { IsMade solved.now.game }
    requires lost { IsLost (game_of solved.now.game) }
    ensures least { IfOk result (λ o. IfSome o (λ s. IsLeastStrategy (game_of solved.now.game) s)) }
    ensures few { IfOk result (λ o. IfSome o (λ s. rows_of s ≤ ROWS)) }
    ensures many { IfOk result (λ o. IfNone o ((s : Strategy) → IsLeastStrategy (game_of solved.now.game) s → ROWS < rows_of s)) }
{
    let start = start_key(solved);
    if ROWS < start.height as usize {
        return Ok(None);
    }
    let aims = aims_of(alloc, solved)?;
    match parts_within(alloc, solved, &aims, &start)? {
        None => Ok(None),
        Some((keys, hows)) => Ok(Some(LeastStrategy::of(solved.game().states(), aims, keys, hows))),
    }
}

/// The strategy by least heights of a solved game whose start is lost (`IsLeastStrategy`): of the right number of
/// states, a row for each key that the start's names, by height, position, state and aim, and the backs of each by exit
/// state. It meets the eight conditions of a strategy; by the last of them a row stands at the start, with an empty aim.
///
/// TooManyRows comes only where its rows, and the backs of each, are more than 65,536 together, and an answer only where
/// they are not (`many`); that there is such a strategy is said too (`there`). NoMemory is want of memory.
///
/// Public source: the environment's strategies of Harris, Jha, Reps, Anderson and Watson (2013).
pub fn least_strategy(
    alloc: Global,
    game: &Game,
    solved: &Solved,
) -> Result<LeastStrategy, TableFault>
    requires made { IsMade game.now }
    requires solved { solved.now.game ≡ game.now }
    requires lost { (n : ℕ) × IsHeight (game_of game.now) ((game_of game.now).entry (game_of game.now).main)
        (game_of game.now).states.start (all_states (game_of game.now)) n }
    ensures least { IfOk result (λ s. IsLeastStrategy (game_of game.now) s) }
    ensures ascend { IfOk result (λ s. BacksAscend s) }
    ensures good { IfOk result (λ s. IsGoodStrategy (game_of game.now) s) }
    ensures few { IfOk result (λ s. rows_of s ≤ ROWS) }
    ensures many { IfErr result (λ fault. fault ≡ TableFault.TooManyRows → (s : Strategy) → IsLeastStrategy (game_of game.now) s → ROWS < rows_of s) }
    ensures there { IfErr result (λ fault. fault ≡ TableFault.TooManyRows → (s : Strategy) × IsLeastStrategy (game_of game.now) s × (ROWS < rows_of s)) }
{
    let _ = game;
    match strategy_within(alloc, solved) {
        Err(_) => Err(TableFault::NoMemory),
        Ok(None) => Err(TableFault::TooManyRows),
        Ok(Some(strategy)) => Ok(strategy),
    }
}

/// The strategy by least heights of a solved game whose start is lost, as `least_strategy` makes it, each row with an aim of its own.
pub fn env_table(alloc: Global, game: &Game, solved: &Solved) -> Result<EnvCert, TableFault>
    requires made { IsMade game.now }
    requires solved { solved.now.game ≡ game.now }
    requires lost { (n : ℕ) × IsHeight (game_of game.now) ((game_of game.now).entry (game_of game.now).main)
        (game_of game.now).states.start (all_states (game_of game.now)) n }
    ensures least { IfOk result (λ s. IsLeastStrategy (game_of game.now) (strategy_of s)) }
    ensures ascend { IfOk result (λ s. BacksAscend (strategy_of s)) }
    ensures good { IfOk result (λ s. IsGoodStrategy (game_of game.now) (strategy_of s)) }
    ensures few { IfOk result (λ s. rows_of (strategy_of s) ≤ ROWS) }
    ensures many { IfErr result (λ fault. fault ≡ TableFault.TooManyRows → (s : Strategy) → IsLeastStrategy (game_of game.now) s → ROWS < rows_of s) }
    ensures there { IfErr result (λ fault. fault ≡ TableFault.TooManyRows → (s : Strategy) × IsLeastStrategy (game_of game.now) s × (ROWS < rows_of s)) }
{
    match least_strategy(alloc, game, solved) {
        Err(fault) => Err(fault),
        Ok(strategy) => match certificate(alloc, &strategy) {
            Err(_) => Err(TableFault::NoMemory),
            Ok(cert) => Ok(cert),
        },
    }
}
