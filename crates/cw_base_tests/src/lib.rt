//! Tests of the public calls of the lower crates: each with values from outside, where no clause says what is wanted.
#![tactic(auto)]

#[cfg(test)]
mod faults;
#[cfg(test)]
mod files;
#[cfg(test)]
mod flags;
#[cfg(test)]
mod links;
#[cfg(test)]
mod numerals;
#[cfg(test)]
mod pieces;
#[cfg(test)]
mod store;
