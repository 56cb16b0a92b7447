//! Tests of the public calls that read sources: each with values from outside, where no clause says what is wanted.
#![tactic(auto)]

#[cfg(test)]
mod calls;
#[cfg(test)]
mod expressions;
#[cfg(test)]
mod lines;
#[cfg(test)]
mod parser;
#[cfg(test)]
mod recogniser;
#[cfg(test)]
mod scope;
#[cfg(test)]
mod terminals;
#[cfg(test)]
mod tokens;
#[cfg(test)]
mod trees;
