//! The stages that commands share: files are read, a policy is fitted to a program, a game is made of both, and its verdict is told.
//!
//! Each stage gives what it made, or a `Stop`: why the command ends before what was asked for. A stop goes up by `?`, and `ended` puts its line.
#![tactic(auto)]

mod audits;
mod counting;
mod ending;
mod fitting;
mod games;
mod least;
mod lines;
mod numbers;
mod reading;
mod refusals;
mod stop;
mod strategies;
mod tables;
mod tapes;
mod told;
mod verdict;

pub use audits::{audit_in, tell_group};
pub use counting::reckon;
pub use ending::{ended, refused};
pub use games::{attaches, draw, fits, make_game};
pub use numbers::Numbers;
pub use reading::{Reading, read_under};
pub use refusals::{over, policy_refusal, source_refusal};
pub use stop::Stop;
pub use strategies::{read_strategy, tell_row as tell_strategy_row};
pub use tables::{accept, open, tell_row as tell_table_row};
pub use tapes::moves_of;
pub use told::{Count, Text, Verdict, tell};
pub use verdict::judge;
