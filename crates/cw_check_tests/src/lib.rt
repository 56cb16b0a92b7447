//! Tests of the checker of tables: with values from outside, where no clause says what is wanted.
#![tactic(auto)]

#[cfg(test)]
mod lines;
#[cfg(test)]
mod tables;
