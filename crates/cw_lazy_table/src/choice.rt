//! What the lazy table chooses at a pair of a solved game.

ghost use Rattle.std.specs.Prelude.{◌≡◌, ◌<◌};
ghost use Rattle.cw_product.specs.Product.{game_of};
ghost use Rattle.cw_solve.specs.Numbering.{IsUnder, IsNumberOf};
ghost use Rattle.cw_solve.specs.Contexts.{returning};
ghost use Rattle.cw_lazy_table.specs.Choices.{lost_in, promised, IsReady};

use crate::looked::Looked;
use cw_core::{PosId, StateId, StateSet};
use cw_product::Game;

/// Whether a pair is lost under a context's promise.
fn is_lost_in(
    game: &Game,
    solved: &Looked,
    number: u32,
    pos: PosId,
    state: StateId,
    promise: &StateSet,
) -> bool
    requires ready { IsReady game.now solved.now }
    requires here { IsNumberOf (game_of solved.now.game) solved.now.contexts number promise.now pos.0 }
    requires state { state.0 < (game_of game.now).states.count }
    ensures { result ≡ lost_in (game_of game.now) pos.0 state.0 promise.now }
{
    let _ = game;
    let _ = promise;
    match solved.height(number, pos, state) {
        None => false,
        Some(_) => true,
    }
}

/// Whether a pair is lost under a promise that the game needs, which has this index.
pub(crate) fn is_lost(
    game: &Game,
    solved: &Looked,
    pos: PosId,
    state: StateId,
    index: usize,
    promise: &StateSet,
) -> bool
    requires ready { IsReady game.now solved.now }
    requires there { IsUnder (game_of game.now) pos.0 promise.now }
    requires state { state.0 < (game_of game.now).states.count }
    ensures { result ≡ lost_in (game_of game.now) pos.0 state.0 promise.now }
{
    let number = solved.number_of(pos, index, promise);
    is_lost_in(game, solved, number, pos, state, promise)
}

/// What a call under a promise with this index promises that returns to this position: the exit states from which the return isn't lost.
pub(crate) fn promised(
    game: &Game,
    solved: &Looked,
    call: StateId,
    index: usize,
    promise: &StateSet,
    back: PosId,
    split: bool,
) -> StateSet
    requires ready { IsReady game.now solved.now }
    requires there { IsUnder (game_of game.now) back.0 promise.now }
    requires state { call.0 < (game_of game.now).states.count }
    ensures { result ≡ promised (game_of game.now) call.0 promise.now (returning back.0 split) }
{
    let number = solved.number_of(back, index, promise);
    let mut set = StateSet::empty();
    for x in 0..game.states() {
        let exit = StateId(x);
        let state = game.returned(call, exit, split);
        if !is_lost_in(game, solved, number, back, state, promise) {
            set.insert(exit);
        }
    }
    set
}
