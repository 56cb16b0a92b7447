//! Tests of games, of the check of strategies, and of both solvers: programs, policies and strategies by their texts, with numbers from outside.
#![tactic(auto)]

#[cfg(test)]
mod drawn;
#[cfg(test)]
mod games;
#[cfg(test)]
mod large;
#[cfg(test)]
mod made;
#[cfg(test)]
mod products;
#[cfg(test)]
mod slow;
#[cfg(test)]
mod small;
#[cfg(test)]
mod solved;
#[cfg(test)]
mod strategies;
#[cfg(test)]
mod texts;
#[cfg(test)]
mod told;
