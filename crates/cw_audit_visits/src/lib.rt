//! The steps of a search for an audit: what a row leads to is proposed, and whether anything changed.
#![tactic(auto)]

mod ends;
mod enter;
mod group_numbers;
mod met;
mod propose;
mod returns;
mod rows;
mod steps;
mod sweep;
mod under_way;

pub use enter::begin;
pub use rows::visit;
pub use sweep::settle;
pub use under_way::Search;
