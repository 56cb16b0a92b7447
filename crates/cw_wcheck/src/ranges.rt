//! The first condition of a table: its number of states is the game's, and the numbers of each row are in range.

ghost use Rattle.std.specs.Prelude.{◌≡◌, ◌<◌, ◌^◌, not, length, option_map, position, IfSome};
ghost use Rattle.cw_product.specs.Product.{game_of};
ghost use Rattle.cw_game.specs.Conditions.{is_header, is_mem_row, is_live_row, is_try_row, is_at_row, is_open_row, is_into_row, is_back_row, ranges, first_failing};
ghost use Rattle.cw_wcheck.specs.declared.fault.BadRow.{BadRow};
ghost use Rattle.cw_wcheck.specs.Checking.{numbered, HasFewRows};

use crate::fault::BadRow;
use crate::memories::{has_states_alone, is_memory, is_memory_if};
use cw_certs::{AtRow, BackRow, IntoRow, OpenRow, TryRow, WeaverCert};
use cw_core::{MemId, PosId, StateId, StateSet};
use cw_product::Game;

/// Whether the number of states is the game's, and the memory is there with which `main` begins.
pub fn is_header(game: &Game, cert: &WeaverCert) -> bool
    ensures { result ≡ is_header (game_of game.now) cert.now }
{
    cert.states() == game.states() && is_memory(cert, cert.start())
}

/// Whether the numbers of a memory are in range.
fn is_mem_row(game: &Game, row: &(StateId, StateSet)) -> bool
    ensures { result ≡ is_mem_row (game_of game.now) row.now }
{
    row.0.0 < game.states() && has_states_alone(&row.1, game.states())
}

/// Whether those of a live pair are.
fn is_live_row(game: &Game, cert: &WeaverCert, row: &(PosId, MemId)) -> bool
    ensures { result ≡ is_live_row (game_of game.now) cert.now row.now }
{
    row.0.0 < game.positions() && is_memory(cert, row.1)
}

/// Whether those of a try are.
fn is_try_row(game: &Game, cert: &WeaverCert, row: &TryRow) -> bool
    ensures { result ≡ is_try_row (game_of game.now) cert.now row.now }
{
    game.has_stage(row.seam, row.stage)
        && is_memory(cert, row.mem)
        && is_memory_if(cert, row.granted)
        && is_memory_if(cert, row.refused)
}

/// Whether those of a label or a close are.
fn is_at_row(game: &Game, cert: &WeaverCert, row: &AtRow) -> bool
    ensures { result ≡ is_at_row (game_of game.now) cert.now row.now }
{
    game.has_seam(row.seam) && is_memory(cert, row.mem) && is_memory(cert, row.after)
}

/// Whether those of an open are.
fn is_open_row(game: &Game, cert: &WeaverCert, row: &OpenRow) -> bool
    ensures { result ≡ is_open_row (game_of game.now) cert.now row.now }
{
    game.has_seam(row.seam)
        && is_memory(cert, row.mem)
        && is_memory(cert, row.opened)
        && is_memory(cert, row.failed)
}

/// Whether those of a call are.
fn is_into_row(game: &Game, cert: &WeaverCert, row: &IntoRow) -> bool
    ensures { result ≡ is_into_row (game_of game.now) cert.now row.now }
{
    game.has_seam(row.seam) && is_memory(cert, row.mem) && is_memory(cert, row.callee)
}

/// Whether those of a return are.
fn is_back_row(game: &Game, cert: &WeaverCert, row: &BackRow) -> bool
    ensures { result ≡ is_back_row (game_of game.now) cert.now row.now }
{
    game.has_seam(row.seam)
        && is_memory(cert, row.mem)
        && row.exit.0 < game.states()
        && is_memory(cert, row.after)
}

/// The first memory that is out of range, from 0.
fn bad_mem(game: &Game, cert: &WeaverCert) -> Option<usize>
    ensures is { result ≡ position (λ r. not (is_mem_row (game_of game.now) r)) cert.now.mems }
    ensures within { IfSome result (λ n. n < length cert.now.mems) }
{
    cert.mems().iter().position(|row| !is_mem_row(game, row))
}

/// The first live pair that is.
fn bad_live(game: &Game, cert: &WeaverCert) -> Option<usize>
    ensures is { result ≡ position (λ r. not (is_live_row (game_of game.now) cert.now r)) cert.now.live }
    ensures within { IfSome result (λ n. n < length cert.now.live) }
{
    cert.live()
        .iter()
        .position(|row| !is_live_row(game, cert, row))
}

/// The first try that is.
fn bad_try(game: &Game, cert: &WeaverCert) -> Option<usize>
    ensures is { result ≡ position (λ r. not (is_try_row (game_of game.now) cert.now r)) cert.now.tries }
    ensures within { IfSome result (λ n. n < length cert.now.tries) }
{
    cert.tries()
        .iter()
        .position(|row| !is_try_row(game, cert, row))
}

/// The first label, or close, that is.
fn bad_at(game: &Game, cert: &WeaverCert, rows: &[AtRow]) -> Option<usize>
    ensures is { result ≡ position (λ r. not (is_at_row (game_of game.now) cert.now r)) rows.now }
    ensures within { IfSome result (λ n. n < length rows.now) }
{
    rows.iter().position(|row| !is_at_row(game, cert, row))
}

/// The first open that is.
fn bad_open(game: &Game, cert: &WeaverCert) -> Option<usize>
    ensures is { result ≡ position (λ r. not (is_open_row (game_of game.now) cert.now r)) cert.now.opened }
    ensures within { IfSome result (λ n. n < length cert.now.opened) }
{
    cert.opened()
        .iter()
        .position(|row| !is_open_row(game, cert, row))
}

/// The first call that is.
fn bad_into(game: &Game, cert: &WeaverCert) -> Option<usize>
    ensures is { result ≡ position (λ r. not (is_into_row (game_of game.now) cert.now r)) cert.now.into }
    ensures within { IfSome result (λ n. n < length cert.now.into) }
{
    cert.into_rows()
        .iter()
        .position(|row| !is_into_row(game, cert, row))
}

/// The first return that is.
fn bad_back(game: &Game, cert: &WeaverCert) -> Option<usize>
    ensures is { result ≡ position (λ r. not (is_back_row (game_of game.now) cert.now r)) cert.now.back }
    ensures within { IfSome result (λ n. n < length cert.now.back) }
{
    cert.back_rows()
        .iter()
        .position(|row| !is_back_row(game, cert, row))
}

/// The row with this number of a list, as it is told where its numbers aren't in range.
fn out_of_range(table: u8, number: Option<usize>) -> Option<BadRow>
    requires fits { IfSome number (λ n. n < 2 ^ 32) }
    ensures { result ≡ option_map (λ n. record { table = table; number = n; condition = 1 }) number }
{
    let number = number?;
    Some(BadRow {
        table,
        number: number as u32,
        condition: 1,
    })
}

/// The first row, list by list, whose numbers aren't in range.
pub fn range_fault(game: &Game, cert: &WeaverCert) -> Option<BadRow>
    requires few { HasFewRows cert.now }
    ensures { result ≡ option_map numbered (first_failing (ranges (game_of game.now) cert.now)) }
{
    out_of_range(1, bad_mem(game, cert))
        .or(out_of_range(2, bad_live(game, cert)))
        .or(out_of_range(3, bad_try(game, cert)))
        .or(out_of_range(4, bad_at(game, cert, cert.ats())))
        .or(out_of_range(5, bad_open(game, cert)))
        .or(out_of_range(6, bad_at(game, cert, cert.closed())))
        .or(out_of_range(7, bad_into(game, cert)))
        .or(out_of_range(8, bad_back(game, cert)))
}
