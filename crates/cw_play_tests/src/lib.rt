//! Tests of tapes, plays and runs: programs, policies, strategies and woven programs by their texts, with traces from outside.
#![tactic(auto)]

#[cfg(test)]
mod lines;
#[cfg(test)]
mod lists;
#[cfg(test)]
mod plays;
#[cfg(test)]
mod runs;
#[cfg(test)]
mod tapes;
#[cfg(test)]
mod texts;
#[cfg(test)]
mod told;
