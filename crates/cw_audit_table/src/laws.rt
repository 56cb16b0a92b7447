//! Laws of audits. The functions here do nothing: what they promise is true of every program, game and table.

ghost use Rattle.cw_audit_table.specs.Laws.{AttainedAuditsAreStated, GoodAuditsHold, HitsAreViolations, NothingIsAsked, ShownAuditsAreExact};

/// In a play in which the weaver always skips nothing is ever asked: a primitive is before the weaver, or the program moves, or
/// all is over.
#[tactic(auto, using(crate::proofs::Plays::nothing_is_asked))]
pub fn nothing_is_asked()
    ensures unasked { NothingIsAsked }
{}

/// The plays of a program that violate, the weaver always skipping, are the runs of its game to a bad pair, move for move.
pub fn hits_are_violations()
    ensures linked { HitsAreViolations }
{}

/// A table that meets the conditions bounds each play in which the weaver always skips, whatever the depth of its calls: none
/// violates by fewer moves than the table's distance, and none at all where the table has no distance.
///
/// Public source: the summaries of Löding, Madhusudan and Serre, *Visibly Pushdown Games* (2004); here of least numbers of moves.
pub fn good_audits_hold()
    ensures hold { GoodAuditsHold }
{}

/// With moves that show it the distance is the least number of moves to a violation, and without a distance there is none.
pub fn shown_audits_are_exact()
    ensures exact { ShownAuditsAreExact }
{}

/// A table that meets the conditions, each of whose numbers is that of some run, has at each pair the least number that there is, and
/// leaves out nothing but what is no nearer than its distance. So whoever makes a table need not show that any number is the least.
pub fn attained_audits_are_stated()
    ensures stated { AttainedAuditsAreStated }
{}
