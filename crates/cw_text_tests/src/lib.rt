//! Tests of texts made of lines, read and written, with values from outside.
#![tactic(auto)]

#[cfg(test)]
mod given;
#[cfg(test)]
mod samples;
#[cfg(test)]
mod strategies;
#[cfg(test)]
mod tables;
