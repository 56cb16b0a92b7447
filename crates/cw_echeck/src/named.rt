//! What the conditions ask of rows by their numbers alone.

ghost use Rattle.std.specs.Prelude.{◌≡◌, ◌&&◌, nat_eq, nat_lt};
ghost use Rattle.std.specs.List.{list_all};
ghost use Rattle.cw_certs.specs.Strategies.{how_of, row_of, strategy_of};
ghost use Rattle.cw_game.specs.Conditions.{named_by, exits_by};
ghost use Rattle.cw_product.specs.Moves.{numbers};
ghost use Rattle.cw_echeck.specs.Checks.{stands_by};

use cw_certs::{EnvCert, EnvRow, How};
use cw_core::{PosId, StateId, StateSet};

/// Whether all rows that are named for returns stand before the row with this number.
fn are_named_below(backs: &[(StateId, u32)], number: u32) -> bool
    ensures { result ≡ list_all (λ b. nat_lt b.1 number) backs.now }
{
    backs.iter().all(|back| back.1 < number)
}

/// Whether each row that a row names has a number below this one.
pub(crate) fn names_below(how: &How, number: u32) -> bool
    ensures { result ≡ list_all (λ n. nat_lt n number) (named_by (how_of how.now)) }
{
    match how {
        How::Both { skip, tried } => *skip < number && *tried < number,
        How::Go { row, .. } => *row < number,
        How::Into { callee, backs } => *callee < number && are_named_below(backs, number),
        How::Bad | How::Out => true,
    }
}

/// Whether all exit states that have a row for the return are states of the game.
fn are_states(backs: &[(StateId, u32)], count: u16) -> bool
    ensures { result ≡ list_all (λ b. nat_lt b.0.0 count) backs.now }
{
    backs.iter().all(|back| back.0.0 < count)
}

/// Whether each exit state that a row speaks of is below the count.
pub(crate) fn exits_below(how: &How, count: u16) -> bool
    ensures { result ≡ list_all (λ x. nat_lt x count) (exits_by (how_of how.now)) }
{
    match how {
        How::Into { backs, .. } => are_states(backs, count),
        _ => true,
    }
}

// Whether a row stands at this pair with this aim.
fn is_at(row: &EnvRow, pos: PosId, state: StateId, aim: &StateSet) -> bool
    ensures { result ≡ (nat_eq (row_of row.now).pos pos.0 && (nat_eq (row_of row.now).state state.0 && nat_eq (row_of row.now).aim aim.now)) }
{
    row.pos.0 == pos.0 && row.state.0 == state.0 && row.aim == *aim
}

/// Whether there is a pair, at which the row with a number stands with this aim.
pub(crate) fn stands(
    cert: &EnvCert,
    number: u32,
    pair: Option<(PosId, StateId)>,
    aim: &StateSet,
) -> bool
    ensures { result ≡ stands_by (strategy_of cert.now) number aim.now (numbers pair) }
{
    let Some((pos, state)) = pair else {
        return false;
    };
    match cert.rows.get(number as usize) {
        None => false,
        Some(row) => is_at(row, pos, state, aim),
    }
}
