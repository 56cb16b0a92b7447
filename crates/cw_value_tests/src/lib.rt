//! Tests of runs over values: with values from outside, reckoned by hand, by a C compiler and by a second program in another language.
#![tactic(auto)]

#[cfg(test)]
mod answers;
#[cfg(test)]
mod expressions;
#[cfg(test)]
mod ground;
#[cfg(test)]
mod outward;
#[cfg(test)]
mod programs;
#[cfg(test)]
mod shapes;
#[cfg(test)]
mod shown;
