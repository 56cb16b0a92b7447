//! A strategy with an aim for each row.

ghost use Rattle.std.specs.Prelude.{◌≡◌, IfOk};
ghost use Rattle.cw_certs.specs.Strategies.{how_of, row_of, strategy_of};

use crate::strategy::{LeastRow, LeastStrategy};
use cw_certs::{EnvCert, EnvRow, How};
use cw_core::StateId;
use std::alloc::{AllocError, Global};

/// A copy of backs.
fn copied_backs(alloc: Global, backs: &[(StateId, u32)]) -> Result<Vec<(StateId, u32)>, AllocError>
    ensures { IfOk result (λ v. v.items ≡ backs.now) }
{
    let mut copy = Vec::with_capacity(alloc, backs.len())?;
    for back in backs {
        copy.push(*back)?;
    }
    Ok(copy)
}

/// A copy of what a row does.
fn copied(alloc: Global, how: &How) -> Result<How, AllocError>
    ensures { IfOk result (λ h. how_of h ≡ how_of how.now) }
{
    match how {
        How::Bad => Ok(How::Bad),
        How::Out => Ok(How::Out),
        How::Both { skip, tried } => Ok(How::Both {
            skip: *skip,
            tried: *tried,
        }),
        How::Go { by, row } => Ok(How::Go { by: *by, row: *row }),
        How::Into { callee, backs } => {
            let backs = copied_backs(alloc, backs)?;
            Ok(How::Into {
                callee: *callee,
                backs,
            })
        }
    }
}

/// A row with an aim of its own.
fn own_row(alloc: Global, row: &LeastRow) -> Result<EnvRow, AllocError>
    ensures { IfOk result (λ r. row_of r ≡ record { pos = row.now.pos.0; state = row.now.state.0; aim = row.now.aim.now; how = how_of row.now.how.now }) }
{
    let how = copied(alloc, row.how)?;
    Ok(EnvRow {
        pos: row.pos,
        state: row.state,
        aim: *row.aim,
        how,
    })
}

/// The strategy with an aim for each row.
pub fn certificate(alloc: Global, strategy: &LeastStrategy) -> Result<EnvCert, AllocError>
    ensures { IfOk result (λ c. strategy_of c ≡ strategy.now) }
{
    let mut rows = Vec::with_capacity(alloc, strategy.count())?;
    for number in 0..strategy.count() {
        let row = own_row(alloc, &strategy.row(number))?;
        rows.push(row)?;
    }
    Ok(EnvCert {
        states: strategy.states(),
        rows,
    })
}
