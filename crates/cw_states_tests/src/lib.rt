//! Tests of policies by their texts, and of the states of policies: with values from outside, where no clause says what is wanted.
#![tactic(auto)]

#[cfg(test)]
mod policies;
#[cfg(test)]
mod refusals;
#[cfg(test)]
mod states;
#[cfg(test)]
mod texts;
