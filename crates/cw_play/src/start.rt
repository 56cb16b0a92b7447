//! The row at which a play begins.

ghost use Rattle.std.specs.Prelude.{◌≡◌, ◌<◌, ◌^◌, length};
ghost use Rattle.cw_certs.specs.Strategies.{strategy_of};
ghost use Rattle.cw_game.specs.Conditions.{IsGoodStrategy};
ghost use Rattle.cw_product.specs.Product.{game_of};
ghost use Rattle.cw_echeck.specs.Beating.{IsStartRow};

use cw_certs::EnvCert;
use cw_echeck::is_start;
use cw_product::Game;

/// The first row of a good strategy at the start with an empty aim.
pub(crate) fn start_row(game: &Game, cert: &EnvCert) -> u32
    requires good { IsGoodStrategy (game_of game.now) (strategy_of cert.now) }
    requires rows { length cert.now.rows.items < 2 ^ 32 }
    ensures start { IsStartRow (game_of game.now) (strategy_of cert.now) result }
{
    for (number, row) in cert.rows.iter().enumerate() {
        if is_start(game, row) {
            return number as u32;
        }
    }
    unreachable!()
}
