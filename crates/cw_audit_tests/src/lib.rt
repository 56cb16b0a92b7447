//! Tests of audits that are read, checked, printed and found: with values from outside, where no clause says what is wanted.
#![tactic(auto)]

#[cfg(test)]
mod audits;
#[cfg(test)]
mod limits;
#[cfg(test)]
mod played;
#[cfg(test)]
mod searched;
#[cfg(test)]
mod tables;
#[cfg(test)]
mod told;
