//! What is done at a key.

ghost use Rattle.std.specs.Prelude.{◌≡◌, ℕ, ◌<◌, [], map, length, IfOk, option_map, Some};
ghost use Rattle.std.specs.List.{cons_option};
ghost use Rattle.cw_product.specs.Product.{game_of};
ghost use Rattle.cw_product.specs.Routed.{AreRouted};
ghost use Rattle.cw_least_strategy.specs.Acts.{act_of, key_at, key_of, way_at, IsIn, IsCall};
ghost use Rattle.cw_solve.specs.Tables.{HasCall};
ghost use Rattle.cw_solve.specs.Contexts.{returning};
ghost use Rattle.cw_least_strategy.specs.Kept.{IsKey};
ghost use Rattle.cw_least_strategy.specs.Strategies.{way, sooner, best, moves, after_return, aim_at, backs_at, act};

use crate::contexts::Entries;
use crate::heights::{Lower, below, lower_pair};
use crate::key::{Key, LentKey};
use cw_certs::Move;
use cw_core::{PosId, StateId, StateSet};
use cw_product::Turn;
use cw_solve::Solved;
use std::alloc::{AllocError, Global};

/// What is done at a key: as a row says it, with pairs in place of the numbers of rows. Those of the key's own aim stand without
/// it, and a callee's key apart, as a copy of an aim costs more than the rest.
#[derive(Drop)]
pub(crate) enum Act {
    Bad,
    Out,
    Both {
        skip: Lower,
        tried: Lower,
    },
    Go(Lead),
    Into {
        callee: Box<Key>,
        backs: Vec<(StateId, Key)>,
    },
}

/// A move of the environment, and the pair to which it leads.
#[derive(Clone, Copy, Drop)]
pub(crate) struct Lead {
    pub by: Move,
    pub to: Lower,
}

/// Where a move leads from a key.
fn lead_by(solved: &Solved, number: u32, key: &LentKey, by: Move) -> Option<Lead>
    requires routed { AreRouted (game_of solved.now.game) (length solved.now.game.graph.parts.items) }
    requires key { IsKey (game_of solved.now.game) (length solved.now.game.graph.parts.items) (key_of key.now) }
    requires here { IsIn solved.now number key.now.aim.now key.now.pos key.now.state }
    ensures { option_map (way_at key.now.aim.now) result ≡ way (game_of solved.now.game) (key_of key.now) by }
{
    match solved.game().next(PosId(key.pos), StateId(key.state), by) {
        None => None,
        Some((pos, state)) => Some(Lead {
            by,
            to: lower_pair(solved, number, key, pos, state),
        }),
    }
}

/// Of two moves that to the pair of the least height, and the first on a tie.
fn sooner(a: Option<Lead>, b: Option<Lead>) -> Option<Lead>
    ensures { (aim : ℕ) → option_map (way_at aim) result ≡ sooner (option_map (way_at aim) a) (option_map (way_at aim) b) }
{
    match a {
        None => b,
        Some(a) => match b {
            None => { if 0 < a.to.height { Some(a) } else { None } }
            Some(b) => Some(if 0 < a.to.height && a.to.height <= b.to.height {
                a
            } else {
                b
            }),
        },
    }
}

/// The move to the pair of the least height, where there is one move at most.
fn lead_of(solved: &Solved, number: u32, key: &LentKey, by: Option<Move>) -> Option<Lead>
    requires routed { AreRouted (game_of solved.now.game) (length solved.now.game.graph.parts.items) }
    requires key { IsKey (game_of solved.now.game) (length solved.now.game.graph.parts.items) (key_of key.now) }
    requires here { IsIn solved.now number key.now.aim.now key.now.pos key.now.state }
    ensures { option_map (way_at key.now.aim.now) result ≡ best (game_of solved.now.game) (key_of key.now) (cons_option by []) }
{
    match by {
        None => None,
        Some(by) => sooner(lead_by(solved, number, key, by), None),
    }
}

/// The move to the pair of the least height.
fn best(solved: &Solved, number: u32, key: &LentKey) -> Option<Lead>
    requires routed { AreRouted (game_of solved.now.game) (length solved.now.game.graph.parts.items) }
    requires key { IsKey (game_of solved.now.game) (length solved.now.game.graph.parts.items) (key_of key.now) }
    requires here { IsIn solved.now number key.now.aim.now key.now.pos key.now.state }
    ensures { option_map (way_at key.now.aim.now) result ≡ best (game_of solved.now.game) (key_of key.now) moves }
{
    let moves = solved.game().moves(PosId(key.pos));
    sooner(
        lead_by(solved, number, key, moves.0),
        lead_of(solved, number, key, moves.1),
    )
}

/// The pair after the return of a call at an exit state.
fn after_return(
    solved: &Solved,
    number: u32,
    key: &LentKey,
    back: PosId,
    split: bool,
    exit: u16,
) -> Lower
    requires routed { AreRouted (game_of solved.now.game) (length solved.now.game.graph.parts.items) }
    requires key { IsKey (game_of solved.now.game) (length solved.now.game.graph.parts.items) (key_of key.now) }
    requires here { IsIn solved.now number key.now.aim.now key.now.pos key.now.state }
    requires exit { exit < (game_of solved.now.game).states.count }
    requires call { IsCall (game_of solved.now.game) key.now.pos back.0 split }
    ensures { key_at key.now.aim.now result ≡ after_return (game_of solved.now.game) (key_of key.now) (returning back.0 split) exit }
{
    let state = solved
        .game()
        .returned(StateId(key.state), StateId(exit), split);
    lower_pair(solved, number, key, back, state)
}

/// The exit states whose return's pair has a height below the call's.
fn aim_at(solved: &Solved, number: u32, key: &LentKey, back: PosId, split: bool) -> StateSet
    requires routed { AreRouted (game_of solved.now.game) (length solved.now.game.graph.parts.items) }
    requires key { IsKey (game_of solved.now.game) (length solved.now.game.graph.parts.items) (key_of key.now) }
    requires here { IsIn solved.now number key.now.aim.now key.now.pos key.now.state }
    requires call { IsCall (game_of solved.now.game) key.now.pos back.0 split }
    ensures { result ≡ aim_at (game_of solved.now.game) (key_of key.now) (returning back.0 split) }
{
    let mut aim = StateSet::empty();
    for x in 0..solved.game().states() {
        if 0 < after_return(solved, number, key, back, split, x).height {
            aim.insert(StateId(x));
        }
    }
    aim
}

/// The keys after the return of a call, for each exit state that is aimed at.
fn backs_at(
    alloc: Global,
    solved: &Solved,
    number: u32,
    key: &LentKey,
    back: PosId,
    split: bool,
) -> Result<Vec<(StateId, Key)>, AllocError>
    requires routed { AreRouted (game_of solved.now.game) (length solved.now.game.graph.parts.items) }
    requires key { IsKey (game_of solved.now.game) (length solved.now.game.graph.parts.items) (key_of key.now) }
    requires here { IsIn solved.now number key.now.aim.now key.now.pos key.now.state }
    requires call { IsCall (game_of solved.now.game) key.now.pos back.0 split }
    ensures { IfOk result (λ v. map (λ b. (b.0.0, b.1)) v.items ≡ backs_at (game_of solved.now.game) (key_of key.now) (returning back.0 split)) }
{
    let mut backs = Vec::new(alloc);
    for x in 0..solved.game().states() {
        let to = after_return(solved, number, key, back, split, x);
        if 0 < to.height {
            backs.push((StateId(x), to.key(*key.aim)))?;
        }
    }
    Ok(backs)
}

/// What is done at a call.
fn into(
    alloc: Global,
    solved: &Solved,
    entries: &Entries,
    number: u32,
    key: &LentKey,
    near: u32,
    function: u16,
    back: PosId,
    split: bool,
) -> Result<Act, AllocError>
    requires routed { AreRouted (game_of solved.now.game) (length solved.now.game.graph.parts.items) }
    requires key { IsKey (game_of solved.now.game) (length solved.now.game.graph.parts.items) (key_of key.now) }
    requires here { IsIn solved.now number key.now.aim.now key.now.pos key.now.state }
    requires call { HasCall (game_of solved.now.game) key.now.pos function back.0 split }
    ensures { IfOk result (λ a. act_of key.now.aim.now a ≡ act (game_of solved.now.game) (key_of key.now)) }
{
    let aim = aim_at(solved, number, key, back, split);
    let state = StateId(key.state);
    let pos = solved.game().entry(function);
    let callee = below(
        solved,
        entries.context_of(solved, pos, state, &aim, near),
        key,
        pos,
        state,
        aim,
    );
    let backs = backs_at(alloc, solved, number, key, back, split)?;
    let callee = Box::new(alloc, callee)?;
    Ok(Act::Into { callee, backs })
}

/// What is done at a key of the context of a number, whose aim may have the number `near`.
#[inline(always)]
pub(crate) fn act_at(
    alloc: Global,
    solved: &Solved,
    entries: &Entries,
    key: &LentKey,
    near: u32,
    number: u32,
) -> Result<Act, AllocError>
    requires routed { AreRouted (game_of solved.now.game) (length solved.now.game.graph.parts.items) }
    requires key { IsKey (game_of solved.now.game) (length solved.now.game.graph.parts.items) (key_of key.now) }
    requires here { IsIn solved.now number key.now.aim.now key.now.pos key.now.state }
    ensures { IfOk result (λ a. act_of key.now.aim.now a ≡ act (game_of solved.now.game) (key_of key.now)) }
{
    let pos = PosId(key.pos);
    let state = StateId(key.state);
    match solved.game().turn(pos) {
        Turn::Exit { .. } => Ok(Act::Out),
        Turn::Weaver => Ok(Act::Both {
            skip: lower_pair(solved, number, key, PosId(key.pos + 2), state),
            tried: lower_pair(solved, number, key, PosId(key.pos + 1), state),
        }),
        Turn::Call {
            callee,
            split,
            back,
        } => into(
            alloc, solved, entries, number, key, near, callee, back, split,
        ),
        Turn::Environment => match best(solved, number, key) {
            None => Ok(Act::Bad),
            Some(lead) => Ok(Act::Go(lead)),
        },
    }
}
