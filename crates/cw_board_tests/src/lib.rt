//! Boards played move by move, and the path of a run, against lists written out by hand: what crosses the readers of sources and
//! policies and boards in code.
#![tactic(auto)]

#[cfg(test)]
mod paths;
#[cfg(test)]
mod played;
#[cfg(test)]
mod plays;
#[cfg(test)]
mod policies;
