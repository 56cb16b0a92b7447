//! What is skipped, and numbers that are cut.

ghost use Rattle.std.specs.Prelude.{◌≡◌};
ghost use Rattle.cw_game.specs.declared.spots.Spot.TheVariants.{Visit};
ghost use Rattle.cw_product.specs.Moves.{IsPosition};
ghost use Rattle.cw_product.specs.Product.{game_of};
ghost use Rattle.cw_audit_table.specs.Runs.{cut, skipped};

use cw_core::PosId;
use cw_game::Spot;
use cw_product::Game;

/// The greatest number that is told apart, and 1.
const CUT: u64 = 65_537;

/// The number, cut.
pub fn cut(n: u64) -> u32
    ensures { result ≡ cut n }
{
    n.min(CUT) as u32
}

/// The position behind what is skipped.
pub fn skipped(game: &Game, pos: PosId) -> PosId
    requires { IsPosition (game_of game.now) pos.0 }
    ensures is { result.0 ≡ skipped (game_of game.now) pos.0 }
    ensures within { IsPosition (game_of game.now) result.0 }
{
    game.fact_is_closed();
    let mut at = pos;
    while let Spot::Visit(_, _, _) = game.spot(at) {
        at = PosId(at.0 + 2);
    }
    at
}
