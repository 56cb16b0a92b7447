//! Tests of the command line: whole runs over files and sinks in memory, with values from outside.
#![tactic(auto)]

#[cfg(test)]
mod auditing;
#[cfg(test)]
mod checking;
#[cfg(test)]
mod faults;
#[cfg(test)]
mod given;
#[cfg(test)]
mod listing;
#[cfg(test)]
mod pieces;
#[cfg(test)]
mod playing;
#[cfg(test)]
mod refuting;
#[cfg(test)]
mod sampling;
#[cfg(test)]
mod splitting;
#[cfg(test)]
mod texts;
#[cfg(test)]
mod valuing;
#[cfg(test)]
mod weaves;
#[cfg(test)]
mod weaving;
#[cfg(test)]
mod woven;
