//! What is to be written.

ghost use Rattle.std.specs.Prelude.{◌≡◌, ◌<◌, ◌++◌, Some, length, OnOk};
ghost use Rattle.cw_product.specs.Product.{game_of};
ghost use Rattle.cw_audit_store.specs.Finding.{way_of, caller_of};
ghost use Rattle.cw_audit_search.specs.Ways.{unfold_way, unfold_call};
ghost use Rattle.cw_audit_moves.specs.Writing.{stack_of, IsCallee};

use cw_audit_store::{Entrance, RowKey, Way};
use cw_certs::Move;
use cw_core::NoMemory;
use cw_product::Game;

/// The moves from the start to an entrance, those from its entrance to a row key, or a move.
#[derive(Clone, Copy, Drop)]
pub enum Todo {
    Reach(Entrance),
    Row(RowKey),
    Step(Move),
}

/// What a way from the entrance stands for is to be written first. The one error is want of memory.
pub(crate) fn put_way(
    todo: &mut Vec<Todo>,
    game: &Game,
    entrance: Entrance,
    way: Way,
) -> Result<(), NoMemory>
    requires { IsCallee (length game.now.graph.parts.items) way }
    ensures { OnOk result (stack_of todo.new.items ≡ unfold_way (game_of game.now) entrance.function entrance.state.0 (way_of way) ++ stack_of todo.old.items) }
{
    match way {
        Way::Begun => {}
        Way::Moved(state, pos, by) => {
            todo.push(Todo::Step(by))?;
            todo.push(Todo::Row(RowKey {
                entrance,
                pos,
                state,
            }))?;
        }
        Way::Returned(state, pos, callee, ended) => {
            todo.push(Todo::Step(Move::On))?;
            todo.push(Todo::Row(RowKey {
                entrance: Entrance {
                    function: callee,
                    state,
                },
                pos: game.exit(callee),
                state: ended,
            }))?;
            todo.push(Todo::Step(Move::On))?;
            todo.push(Todo::Row(RowKey {
                entrance,
                pos,
                state,
            }))?;
        }
    }
    Ok(())
}

/// What a call in this state stands for is to be written first: the moves to the entrance in which it lies, those to the call, and
/// the call itself. The one error is want of memory.
pub(crate) fn put_call(
    todo: &mut Vec<Todo>,
    call: RowKey,
    entered: Entrance,
) -> Result<(), NoMemory>
    ensures { OnOk result (stack_of todo.new.items ≡ unfold_call entered.state.0 (Some (caller_of call)) ++ stack_of todo.old.items) }
{
    todo.push(Todo::Step(Move::On))?;
    todo.push(Todo::Row(RowKey {
        state: entered.state,
        ..call
    }))?;
    todo.push(Todo::Reach(call.entrance))?;
    Ok(())
}
