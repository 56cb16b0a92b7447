//! The game of a program's graph and a policy: its positions beside the policy's states.
#![tactic(auto)]

mod fault;
mod game;
mod moves;
mod site;
mod stages;
mod turn;
mod uses;

pub use fault::GameFault;
pub use game::Game;
pub use site::Site;
pub use turn::Turn;
