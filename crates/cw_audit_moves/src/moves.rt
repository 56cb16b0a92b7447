//! The moves of a run.

ghost use Rattle.std.specs.Prelude.{◌≡◌, ◌≤◌, ◌++◌, ◌∷◌, ℕ, Some, length, IfOk, OnOk};
ghost use Rattle.cw_product.specs.Product.{game_of};
ghost use Rattle.cw_audit_table.specs.Runs.{IsHit};
ghost use Rattle.cw_audit_store.specs.Finding.{found_of, ways_of};
ghost use Rattle.cw_audit_moves.specs.Writing.{IsReady, IsRunTo, IsStepOn, IsWriting, stack_of, todo_of};

use crate::todo::{Todo, put_call, put_way};
use cw_audit_store::{Hit, Store};
use cw_certs::Move;
use cw_core::NoMemory;
use cw_core::limits::AUDIT_MOVES;
use cw_product::Game;
use std::alloc::Global;

// A move is written; a row or a group is replaced by what it stands for.
fn write(
    game: &Game,
    store: &Store,
    moves: &mut Vec<Move>,
    todo: &mut Vec<Todo>,
    next: Todo,
) -> Result<(), NoMemory>
    requires ready { IsReady (game_of game.now) (length game.now.graph.parts.items) (found_of store.now) (ways_of store.now) }
    ensures { OnOk result ((n : ℕ) → IsWriting (game_of game.now) (found_of store.now) (ways_of store.now) n moves.old.items (todo_of next ∷ stack_of todo.old.items)
        → IsStepOn (game_of game.now) (found_of store.now) (ways_of store.now) n moves.new.items (stack_of todo.new.items) (todo_of next ∷ stack_of todo.old.items)) }
{
    match next {
        Todo::Step(by) => moves.push(by)?,
        Todo::Row(row_key) => {
            let Some(row) = store.row(row_key) else {
                return Ok(());
            };
            put_way(todo, game, row_key.entrance, row.way)?;
        }
        Todo::Reach(entrance) => {
            let Some(entered) = store.group(entrance) else {
                return Ok(());
            };
            if let Some(call) = entered.call {
                put_call(todo, call, entrance)?;
            }
        }
    }
    Ok(())
}

/// The moves of a run to the nearest violation that was found, as many as its distance, which no run is below and which wasn't cut.
/// The one error is want of memory.
pub fn tell(alloc: Global, game: &Game, store: &Store, hit: Hit) -> Result<Vec<Move>, NoMemory>
    requires ready { IsReady (game_of game.now) (length game.now.graph.parts.items) (found_of store.now) (ways_of store.now) }
    requires hit { store.now.hit ≡ Some hit }
    requires few { hit.distance ≤ AUDIT_MOVES }
    requires least { (n : ℕ) → IsHit (game_of game.now) n → hit.distance ≤ n }
    ensures run { IfOk result (λ moves. IsRunTo (game_of game.now) moves.items hit.distance) }
{
    let mut moves = Vec::new(alloc);
    let mut todo = Vec::new(alloc);
    put_way(&mut todo, game, hit.entrance, hit.way)?;
    todo.push(Todo::Reach(hit.entrance))?;
    'todo: while let Some(next) = todo.pop() {
        write(game, store, &mut moves, &mut todo, next)?;
    }
    Ok(moves)
}
