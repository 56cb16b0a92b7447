//! The checker of tables.

ghost use Rattle.std.specs.Prelude.{◌≡◌, ◌↔◌, ◌<◌, ◌≤◌, ◌^◌, Some, length, option_map};
ghost use Rattle.std.specs.List.{All, enumerate_from};
ghost use Rattle.std.specs.Result.{IsOk, IfErr};
ghost use Rattle.cw_model.specs.Boards.{Problem};
ghost use Rattle.cw_model.specs.Runs.{Sound};
ghost use Rattle.cw_product.specs.Product.{game_of};
ghost use Rattle.cw_product.specs.Moves.{IsPosition};
ghost use Rattle.cw_game.specs.Standing.{IsGameOf};
ghost use Rattle.cw_game.specs.Conditions.{begins, first_failing, live_rows, table_fault, IsGoodTable};
ghost use Rattle.cw_wcheck.specs.Checking.{numbered, HasFewRows};
ghost use Rattle.cw_wcheck.specs.Working.{MeanStates};

use crate::fault::BadRow;
use crate::memories::{has_all_states, meaning};
use crate::ranges::{is_header, range_fault};
use crate::rows::failing_condition;
use crate::ways::Ways;
use cw_certs::{WeaverCert, is_live};
use cw_core::limits::LIMITS;
use cw_product::Game;

/// The second condition: the start memory means the start state with all states as promise, and it is live at the start position.
fn begins(game: &Game, cert: &WeaverCert) -> bool
    ensures { result ≡ begins (game_of game.now) cert.now }
{
    let (pos, start) = game.start();
    match meaning(cert, cert.start()) {
        Some((state, promise)) => {
            *state == start
                && has_all_states(promise, game.states())
                && is_live(cert, pos, cert.start())
        }
        None => false,
    }
}

/// The first live row of which a condition from the third on fails.
fn row_fault(game: &Game, cert: &WeaverCert) -> Option<BadRow>
    requires few { length cert.now.live < 2 ^ 32 }
    requires mems { MeanStates (game_of game.now) cert.now }
    requires positions { All (λ r. r.0.0 < length (game_of game.now).spots) cert.now.live }
    ensures { result ≡ option_map numbered (first_failing (live_rows (game_of game.now) cert.now (enumerate_from 0 cert.now.live))) }
{
    let rows = cert.live();
    let mut ways = Ways {
        into: 0,
        back: 0,
        label: 0,
    };
    for i in 0..rows.len() {
        let (pos, mem) = rows[i];
        if let Some(condition) = failing_condition(game, cert, i + 1, &mut ways, pos, mem) {
            return Some(BadRow {
                table: 2,
                number: i as u32,
                condition,
            });
        }
    }
    None
}

/// The first condition of a table that fails.
fn first_fault(game: &Game, cert: &WeaverCert) -> Option<BadRow>
    requires few { HasFewRows cert.now }
    ensures { result ≡ option_map numbered (table_fault (game_of game.now) cert.now) }
{
    if !is_header(game, cert) {
        return Some(BadRow {
            table: 1,
            number: 0,
            condition: 1,
        });
    }
    if let Some(row) = range_fault(game, cert) {
        return Some(row);
    }
    if !begins(game, cert) {
        return Some(BadRow {
            table: 2,
            number: 0,
            condition: 2,
        });
    }
    row_fault(game, cert)
}

/// Whether a table meets the nine conditions of a game, and if not, the first that fails: of the number of states and the memory with
/// which `main` begins, of the ranges of all rows, list by list, of the start, and then row by row of where the memories are live.
/// Such a table is sound for each program and policy of which the game is, of whatever maker it is. It takes no memory.
///
/// Public source: the instrumented programs of Harris, Jha, Reps, Anderson and Watson (2013).
pub fn check_weaver(game: &Game, cert: &WeaverCert) -> Result<(), BadRow>
    requires few { HasFewRows cert.now }

    // Yes exactly where the nine conditions hold, and no with the first that fails.
    ensures good { IsOk result ↔ IsGoodTable (game_of game.now) cert.now }
    ensures fault { IfErr result (λ row. option_map numbered (table_fault (game_of game.now) cert.now) ≡ Some row) }

    ensures sound { IsOk result → (p : Problem) → IsGameOf p (game_of game.now) → length p.policy.limits ≤ LIMITS → Sound p cert.now }
{
    match first_fault(game, cert) {
        Some(row) => Err(row),
        None => Ok(()),
    }
}
