//! Laws of searches for the table of an audit. The functions here do nothing: what they promise is true of every game, search and table.

ghost use Rattle.cw_audit_search.specs.Laws.{CountedRowsAreStated, CutHitsAreFar, GamesAreFair, ListingsAreStated, StatedRowsAreFound, TablesAreOne, WaysAreShown};

/// The game of a program is fair: its functions keep to their own positions, `main` begins at a pair that isn't bad, and where a
/// run comes to rest nothing is tried, asked or split.
pub fn games_are_fair()
    ensures fair { GamesAreFair }
{}

/// A table that lists what a settled search found below its distance meets the conditions, and is the game's table: each number is
/// the least there is, in whatever order it was found.
///
/// Public source: the summaries of Löding, Madhusudan and Serre, *Visibly Pushdown Games* (2004); here of least numbers of moves.
pub fn listings_are_stated()
    ensures stated { ListingsAreStated }
{}

/// Rows of a settled search that are below its distance, none of them twice, are at most as many as those of each table of the
/// game. So a search that has found too many may stop.
pub fn counted_rows_are_stated()
    ensures stated { CountedRowsAreStated }
{}

/// Where all rows of a search are settled, each table of the game that is in order has at most as many rows as the search.
pub fn stated_rows_are_found()
    ensures found { StatedRowsAreFound }
{}

/// Where all is settled and the nearest violation was cut at 65,537, some run comes to a violation, and each such run has more than
/// 65,536 moves.
pub fn cut_hits_are_far()
    ensures far { CutHitsAreFar }
{}

/// The ways by which the nearest violation was come to stand for a run to it, of as many moves as the distance.
pub fn ways_are_shown()
    ensures shown { WaysAreShown }
{}

/// Two tables of a game that meet the conditions have the same groups, rows and numbers, and the same distance: they differ in their
/// moves at most.
#[tactic(auto, using(crate::proofs::One::tables_one))]
pub fn tables_are_one()
    ensures one { TablesAreOne }
{}
