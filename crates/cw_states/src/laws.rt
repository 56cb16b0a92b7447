//! Laws of the definitions: functions that do nothing, and whose contracts hold of every value.

ghost use Rattle.cw_states.specs.Below.{StatesStayBelow};
ghost use Rattle.cw_states.specs.Broken.{ViolationsAreBad, ViolationsAreVerdicts};
ghost use Rattle.cw_states.specs.Spots.{StatesAreThePolicys, StatesAreThePolicysAsReached};
ghost use Rattle.cw_states.specs.Meant.{BoardsAreLinkedByMeaning, ReachedIsMeant, StatesTell};

/// The states are the policy's, for all positions whose opens, closes and labels the source has: where a state means
/// what `Means` says, and so also where it means what it is reached by.
#[tactic(auto, using(crate::proofs::Meaning::states_are, crate::proofs::Meaning::states_are_reached))]
pub fn states_are_the_policys()
    ensures means { StatesAreThePolicys }
    ensures reached { StatesAreThePolicysAsReached }
{}

/// The states are the policy's where a state stands for the words whose set of positions is its own, under its capabilities; that is told of
/// all to which the states' own functions lead, and boards are linked to pairs by it.
pub fn states_tell_of_words()
    ensures states { StatesTell }
    ensures reached { ReachedIsMeant }
    ensures linked { BoardsAreLinkedByMeaning }
{}

/// From states below the count each call leads to states below the count.
pub fn states_stay_below()
    ensures { StatesStayBelow }
{}

/// The rule that a letter breaks is one exactly where the letter is bad, and for each word whose set of positions is the
/// state's it is the least rule that matches the word with the letter.
pub fn violations_are_the_least_rules()
    ensures bad { ViolationsAreBad }
    ensures least { ViolationsAreVerdicts }
{}
