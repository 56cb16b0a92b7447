//! Boards in code: the start, the moves that a board has, and the board after one of them; and the path that a woven run
//! keeps, by the plain slow body that computes the definition.
#![tactic(auto)]

mod boards;
mod changes;
mod choices;
mod fault;
mod frames;
mod items;
mod kinds;
mod moves;
mod paths;
mod seams;
mod sourced;
mod steps;
mod turns;

pub use boards::{Board, board_move, board_start};
pub use fault::BoardFault;
pub use moves::{Moves, board_moves};
pub use paths::{Front, Phase, Seen, erased};
