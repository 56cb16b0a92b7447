//! Tests of rights, expressions and automata: with values from outside, where no clause says what is wanted.
#![tactic(auto)]

#[cfg(test)]
mod expressions;
#[cfg(test)]
mod given;
#[cfg(test)]
mod rights;
#[cfg(test)]
mod words;
