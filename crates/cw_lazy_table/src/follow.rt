//! What is live after a key.

ghost use Rattle.std.specs.Prelude.{◌≡◌, ◌<◌, ◌≤◌, ◌++◌, [], ℕ, false, None, Some, ◌+◌, filter_map, length, slice_get, slice_index, IfOk, OnOk};
ghost use Rattle.std.specs.List.{cons_option};
ghost use Rattle.cw_game.specs.Games.{resumed, weavers_in};
ghost use Rattle.cw_product.specs.Moves.{IsPosition, IsState};
ghost use Rattle.cw_product.specs.Product.{game_of};
ghost use Rattle.cw_solve.specs.Numbering.{IsUnder};
ghost use Rattle.cw_lazy_table.specs.Choices.{set_in, IsReady};
ghost use Rattle.cw_lazy_table.specs.Closing.{moves_on, gone_on};
ghost use Rattle.cw_lazy_table.specs.Following.{moved_by, skip_or_try, put_if};
ghost use Rattle.cw_lazy_table.specs.Numbered.{lost_by, set_at, numbered, CanAsk};

use crate::choice::{is_lost, promised};
use crate::key::Key;
use crate::looked::Looked;
use crate::promises::promise_number_near;
use cw_certs::Move;
use cw_core::limits::POSITIONS_TIMES_STATES;
use cw_core::{PosId, StateId, StateSet};
use cw_joins::{Groups, Joins};
use cw_product::{Game, Turn};
use std::alloc::AllocError;

/// Appends the key of a pair under a promise, if there is a pair.
#[inline(always)]
fn put_pair(
    pair: Option<(PosId, StateId)>,
    promise: usize,
    keys: &mut Vec<Key>,
) -> Result<(), AllocError>
    ensures { OnOk result (keys.new.items ≡ put_if keys.old.items pair promise) }
{
    if let Some((pos, state)) = pair {
        keys.push(Key {
            pos: pos.0,
            state: state.0,
            promise,
        })?;
    }
    Ok(())
}

/// Appends the key to which a move leads, if it leads anywhere.
#[inline(always)]
fn put_move(game: &Game, key: &Key, by: Move, keys: &mut Vec<Key>) -> Result<(), AllocError>
    requires position { IsPosition (game_of game.now) key.now.pos }
    requires state { IsState (game_of game.now) key.now.state }
    ensures { OnOk result (keys.new.items ≡ keys.old.items ++ cons_option (moved_by (game_of game.now) key.now by) []) }
{
    let pair = game.next(PosId(key.pos), StateId(key.state), by);
    put_pair(pair, key.promise, keys)
}

/// Appends the keys to which the environment's moves lead: those one or two that there are at the position, as others lead nowhere.
#[inline(always)]
fn put_moves(game: &Game, key: &Key, keys: &mut Vec<Key>) -> Result<(), AllocError>
    requires position { IsPosition (game_of game.now) key.now.pos }
    requires state { IsState (game_of game.now) key.now.state }
    requires answers { weavers_in (slice_get (game_of game.now).spots key.now.pos) ≡ false }
    ensures { OnOk result (keys.new.items ≡ keys.old.items ++ filter_map (moved_by (game_of game.now) key.now) moves_on) }
{
    let (first, second) = game.moves(PosId(key.pos));
    put_move(game, key, first, keys)?;
    match second {
        None => Ok(()),
        Some(second) => put_move(game, key, second, keys),
    }
}

/// Appends the key with which the program goes on after a refusal that a stop can answer, where that isn't lost.
fn put_going_on(
    game: &Game,
    solved: &Looked,
    promises: &[StateSet],
    key: &Key,
    keys: &mut Vec<Key>,
) -> Result<(), AllocError>
    requires ready { IsReady game.now solved.now }
    requires position { IsPosition (game_of game.now) key.now.pos }
    requires state { IsState (game_of game.now) key.now.state }
    requires within { key.now.promise < length promises.now }
    requires there { (pair : ℕ × ℕ) → resumed (game_of game.now) key.now.pos key.now.state ≡ Some pair
        → IsUnder (game_of game.now) pair.0 (slice_index promises.now key.now.promise) }
    ensures { OnOk result (keys.new.items ≡ keys.old.items ++ gone_on (game_of game.now) (lost_by (game_of game.now) promises.now) (set_at (game_of game.now) promises.now) key.now
        (resumed (game_of game.now) key.now.pos key.now.state)) }
{
    match game.resumed(PosId(key.pos), StateId(key.state)) {
        None => Ok(()),
        Some((pos, state)) => {
            if is_lost(
                game,
                solved,
                pos,
                state,
                key.promise,
                &promises[key.promise],
            ) {
                return Ok(());
            }
            keys.push(Key {
                pos: pos.0,
                state: state.0,
                promise: key.promise,
            })?;
            Ok(())
        }
    }
}

/// The key after a visit: that of the skip, or that of the try where the skip is lost.
fn chosen(game: &Game, solved: &Looked, promises: &[StateSet], key: &Key) -> Key
    requires ready { IsReady game.now solved.now }
    requires short { key.now.pos + 2 ≤ POSITIONS_TIMES_STATES }
    requires within { key.now.promise < length promises.now }
    requires there { IsUnder (game_of game.now) (key.now.pos + 2) (slice_index promises.now key.now.promise) }
    requires state { IsState (game_of game.now) key.now.state }
    ensures { result ≡ skip_or_try (lost_by (game_of game.now) promises.now) key.now }
{
    let skip = PosId(key.pos + 2);
    let state = StateId(key.state);
    let promise = &promises[key.promise];
    let pos = if is_lost(game, solved, skip, state, key.promise, promise) {
        key.pos + 1
    } else {
        key.pos + 2
    };
    Key {
        pos,
        state: key.state,
        promise: key.promise,
    }
}

/// What is promised at a key: at a call to its callee, elsewhere nothing.
fn set_of(game: &Game, solved: &Looked, promises: &[StateSet], key: &Key) -> StateSet
    requires can { CanAsk game.now solved.now promises.now key.now }
    ensures { result ≡ set_in (game_of game.now) key.now.pos key.now.state (slice_index promises.now key.now.promise) }
{
    let promise = &promises[key.promise];
    match game.turn(PosId(key.pos)) {
        Turn::Call {
            callee: _,
            split,
            back,
        } => promised(
            game,
            solved,
            StateId(key.state),
            key.promise,
            promise,
            back,
            split,
        ),
        Turn::Weaver | Turn::Environment | Turn::Exit { .. } => StateSet::empty(),
    }
}

/// The number of what is promised at a key: mostly what is promised to its own function.
pub(crate) fn set_at(game: &Game, solved: &Looked, promises: &[StateSet], key: &Key) -> usize
    requires can { CanAsk game.now solved.now promises.now key.now }
    ensures { result ≡ set_at (game_of game.now) promises.now key.now.pos key.now.state key.now.promise }
{
    let set = set_of(game, solved, promises, key);
    promise_number_near(promises, key.promise, &set)
}

/// No groups.
fn no_groups() -> Groups<(u32, usize)>
    ensures waits { result.waits ≡ None }
    ensures ends { result.ends ≡ None }
{
    Groups {
        waits: None,
        ends: None,
    }
}

/// Appends the keys that follow one. At a call: where the callee ends, and what is promised to it; at an exit: for which calls the key ends, by its
/// position and its promise.
#[inline(always)]
fn put_after(
    game: &Game,
    solved: &Looked,
    promises: &[StateSet],
    key: &Key,
    keys: &mut Vec<Key>,
) -> Result<Groups<(u32, usize)>, AllocError>
    requires can { CanAsk game.now solved.now promises.now key.now }
    ensures after { OnOk result (keys.new.items ≡ keys.old.items ++ (numbered (game_of game.now) promises.now).after key.now) }
    ensures waits { IfOk result (λ groups. groups.waits ≡ (numbered (game_of game.now) promises.now).waits key.now) }
    ensures ends { IfOk result (λ groups. groups.ends ≡ (numbered (game_of game.now) promises.now).ends key.now) }
{
    match game.turn(PosId(key.pos)) {
        Turn::Exit { .. } => Ok(Groups {
            waits: None,
            ends: Some((key.pos, key.promise)),
        }),
        Turn::Weaver => {
            keys.push(chosen(game, solved, promises, key))?;
            Ok(no_groups())
        }
        Turn::Call { callee, .. } => {
            let promise = set_at(game, solved, promises, key);
            keys.push(Key {
                pos: game.entry(callee).0,
                state: key.state,
                promise,
            })?;
            Ok(Groups {
                waits: Some((game.exit(callee).0, promise)),
                ends: None,
            })
        }
        Turn::Environment => {
            put_moves(game, key, keys)?;
            put_going_on(game, solved, promises, key, keys)?;
            Ok(no_groups())
        }
    }
}

/// The key after the return of a call from an exit.
fn returned(game: &Game, promises: &[StateSet], call: &Key, exit: &Key) -> Key
    requires position { IsPosition (game_of game.now) call.now.pos }
    requires state { IsState (game_of game.now) call.now.state }
    requires exit { IsState (game_of game.now) exit.now.state }
    ensures { result ≡ (numbered (game_of game.now) promises.now).join call.now exit.now }
{
    match game.turn(PosId(call.pos)) {
        Turn::Call {
            callee: _,
            split,
            back,
        } => Key {
            pos: back.0,
            state: game
                .returned(StateId(call.state), StateId(exit.state), split)
                .0,
            promise: call.promise,
        },
        Turn::Weaver | Turn::Environment | Turn::Exit { .. } => *call,
    }
}

/// What is live after a key of a solved game, and after a return.
#[derive(Drop)]
pub(crate) struct Choices<'g> {
    pub game: &'g Game<'g>,
    pub solved: &'g Looked<'g>,
    pub promises: &'g [StateSet],
}

impl<'g> Joins<Key, (u32, usize)> for Choices<'g> {
    ghost use Rattle.cw_product.specs.Product.{game_of};
    ghost use Rattle.cw_lazy_table.specs.Numbered.{numbered, CanTake, takes, meets};

    ghost rules = { λ s. numbered (game_of s.game.now) s.promises.now };

    ghost can_follow = { λ s k. CanTake s.game.now s.solved.now s.promises.now k };

    #[inline(always)]
    fn put_after(&self, key: Key, keys: &mut Vec<Key>) -> Result<Groups<(u32, usize)>, AllocError> {
        put_after(self.game, self.solved, self.promises, &key, keys)
    }

    fn join(&self, waiting: Key, ending: Key) -> Key {
        returned(self.game, self.promises, &waiting, &ending)
    }

    ghost keeps = { λ s k q can i. takes s.game.now s.solved.now s.promises.now k q can i };

    ghost joins_keep = { λ s a b x can also w e. meets s.game.now s.solved.now s.promises.now a b x can also w e };
}
