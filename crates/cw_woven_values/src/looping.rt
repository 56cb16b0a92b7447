//! The steps of a woven run, one after the other.

ghost use Rattle.std.specs.Prelude.{◌≡◌, [], IfOk};
ghost use Rattle.cw_rights.specs.Policies.{policy_of};
ghost use Rattle.cw_value.specs.Runs.{Going};
ghost use Rattle.cw_starts.specs.Sources.{source_in};
ghost use Rattle.cw_machine.specs.Knowing.{IsKnown};
ghost use Rattle.cw_product.specs.Product.{game_of};
ghost use Rattle.cw_run.specs.Walks.{IsHere, here_of};
ghost use Rattle.cw_values.specs.Running.{IsRunOf};
ghost use Rattle.cw_woven_values.specs.Standing.{IsWoven};
ghost use Rattle.cw_woven_values.specs.Stepping.{StandsWoven};
ghost use Rattle.cw_woven_values.specs.Ending.{EndsSo};

use crate::stepping::{Stand, go};
use crate::tries::Tries;
use crate::visiting::{Front, weave};
use cw_certs::WeaverCert;
use cw_core::NoMemory;
use cw_eval::Halt;
use cw_machine::Machine;
use cw_product::Game;
use cw_value::Stop;
use cw_values::Run;
use std::collections::VecDeque;

/// The most steps of a program.
const MOST_STEPS: u32 = 1_000_000;

/// Steps until the program ends or stops, the weaver ends it, or it has made its steps.
pub(crate) fn steps(
    run: &Run,
    game: &Game,
    table: &WeaverCert,
    m: &mut Machine,
    tries: &mut Tries,
    start: Stand,
) -> Result<Stop, NoMemory>
    requires known { IsKnown run.now.known }
    requires here { IsHere (game_of game.now) (here_of start.here) }
    requires made { tries.old.made ≡ 0 }
    ensures { (w : IsWoven game.now (source_in run.now.known.source) table.now) (woven : Going)
        → IsRunOf (policy_of game.now.states.policy) run.now
        → StandsWoven game.now (source_in run.now.known.source) table.now w start m.old [] tries.old.left.now tries.old.made woven
        → IfOk result (λ stop. EndsSo game.now (source_in run.now.known.source) table.now m.new tries.new.made woven stop) }
{
    let mut waits = VecDeque::new(run.known.source.alloc);
    let mut stand = start;
    for i in 0..MOST_STEPS {
        let _ = i;
        match weave(game, table, stand.here, tries) {
            Front::Stopped(seam) => return Ok(Stop::Refused(seam)),
            Front::Free(here) => stand.here = here,
        }
        match go(run, game, table, m, &mut waits, stand) {
            Ok(Some(next)) => stand = next,
            Ok(None) => return Ok(Stop::Ended),
            Err(Halt::Stop(stop)) => return Ok(stop),
            Err(Halt::NoMemory) => return Err(NoMemory),
        }
    }
    Ok(Stop::Steps)
}
