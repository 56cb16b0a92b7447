//! Tests of the public calls that draw a program's graph, list it, and find what its functions call and may not do: each with values
//! from outside, where no clause says what is wanted.
#![tactic(auto)]

#[cfg(test)]
mod calling;
#[cfg(test)]
mod fitting;
#[cfg(test)]
mod ground;
#[cfg(test)]
mod listing;
#[cfg(test)]
mod points;
#[cfg(test)]
mod splitting;
