//! Where grants lead, which is the same wherever a primitive is asked.

ghost use Rattle.std.specs.Prelude.{◌≡◌, Some, true, length, slice_get, IfOk, IfSome, OnOk};
ghost use Rattle.cw_product.specs.Product.{game_of};
ghost use Rattle.cw_product.specs.Moves.{IsPosition, IsState, numbers, next_at};
ghost use Rattle.cw_product.specs.Routed.{AreRouted};
ghost use Rattle.cw_certs.specs.declared.moves.Move.TheVariants.{Grant};
ghost use Rattle.cw_linked.specs.Grants.{asked_in, leap, IsGrant, AreGrants, AreGrantsAt, AreAllGrants, IsRowOf};

use cw_certs::Move;
use cw_core::{NoMemory, PosId, StateId};
use cw_product::Game;
use cw_rights::Primitive;
use std::alloc::Global;

/// Of a primitive the state to which a grant leads from each state: none from a state that doesn't grant it.
#[derive(Drop)]
pub(crate) struct Grants {
    pub prim: Primitive,
    pub to: Vec<Option<StateId>>,
}

/// Whether these are the same primitive.
fn is_same(a: Primitive, b: Primitive) -> bool
    ensures { result ≡ true → a ≡ b }
{
    a == b
}

/// How far behind the position at which a primitive is asked a grant leads.
#[inline(always)]
fn leap(prim: Primitive) -> u32
    ensures { result ≡ leap prim }
{
    match prim {
        Primitive::Split => 2,
        Primitive::Enter | Primitive::Limit(_) => 1,
    }
}

/// The state to which a grant leads from a state, if it leads anywhere, of a primitive that is asked at this position.
fn state_granted(game: &Game, pos: PosId, prim: Primitive, state: StateId) -> Option<StateId>
    requires position { IsPosition (game_of game.now) pos.0 }
    requires asked { asked_in (slice_get (game_of game.now).spots pos.0) ≡ Some prim }
    requires state { IsState (game_of game.now) state.0 }
    ensures { IsGrant (game_of game.now) prim state.0 result }
{
    let _ = prim;
    match game.next(pos, state, Move::Grant) {
        None => None,
        Some((_, next)) => Some(next),
    }
}

/// The grants of a primitive that is asked at this position.
#[inline(never)]
fn make_grants(alloc: Global, game: &Game, pos: PosId, prim: Primitive) -> Result<Grants, NoMemory>
    requires position { IsPosition (game_of game.now) pos.0 }
    requires asked { asked_in (slice_get (game_of game.now).spots pos.0) ≡ Some prim }
    ensures grants { IfOk result (AreGrants (game_of game.now)) }
    ensures prim { IfOk result (λ grants. grants.prim ≡ prim) }
{
    let mut to = Vec::with_capacity(alloc, game.states() as usize)?;
    for q in 0..game.states() {
        to.push(state_granted(game, pos, prim, StateId(q)))?;
    }
    Ok(Grants { prim, to })
}

/// The number of the grants of a primitive among others, if they are there.
fn find_grants(all: &[Grants], prim: Primitive) -> Option<usize>
    ensures { IfSome result (IsRowOf all.now prim) }
{
    for k in 0..all.len() {
        if is_same(all[k].prim, prim) {
            return Some(k);
        }
    }
    None
}

/// The number of the grants of a primitive that is asked at this position, which are made where they aren't there. A policy has few
/// primitives, so they are mostly there, and among the first.
#[inline(always)]
pub(crate) fn grants_at(
    alloc: Global,
    game: &Game,
    all: &mut Vec<Grants>,
    pos: PosId,
    prim: Primitive,
) -> Result<usize, NoMemory>
    requires position { IsPosition (game_of game.now) pos.0 }
    requires asked { asked_in (slice_get (game_of game.now).spots pos.0) ≡ Some prim }
    requires all { AreAllGrants (game_of game.now) all.old.items }
    ensures all { OnOk result (AreAllGrants (game_of game.now) all.new.items) }
    ensures there { IfOk result (IsRowOf all.new.items prim) }
{
    if let Some(k) = find_grants(all, prim) {
        return Ok(k);
    }
    let k = all.len();
    all.push(make_grants(alloc, game, pos, prim)?)?;
    Ok(k)
}

/// Where a grant leads from a pair, by the grants of what is asked there.
#[inline(always)]
pub(crate) fn granted(
    game: &Game,
    grants: &Grants,
    pos: PosId,
    state: StateId,
) -> Option<(PosId, StateId)>
    requires routed { AreRouted (game_of game.now) (length game.now.graph.parts.items) }
    requires position { IsPosition (game_of game.now) pos.0 }
    requires state { IsState (game_of game.now) state.0 }
    requires grants { AreGrantsAt (game_of game.now) pos.0 grants.now }
    ensures is { numbers result ≡ next_at (game_of game.now) pos.0 state.0 Grant }
    ensures within { IfSome result (λ r. IsPosition (game_of game.now) r.0.0 × IsState (game_of game.now) r.1.0) }
{
    game.fact_is_closed();
    match grants.to[state.0 as usize] {
        None => None,
        Some(next) => Some((PosId(pos.0 + leap(grants.prim)), next)),
    }
}
