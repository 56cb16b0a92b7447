//! Tests of forms: with values from outside, worked out by hand and by a second program in another language.
#![tactic(auto)]

#[cfg(test)]
mod forms;
#[cfg(test)]
mod ground;
#[cfg(test)]
mod limits;
#[cfg(test)]
mod refusals;
