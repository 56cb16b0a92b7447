//! What holds of the positions of each program.

ghost use Rattle.cw_positions.specs.Closed.{PositionsAreClosed, GraphsAreWhole, MainIsThere};
ghost use Rattle.cw_positions.specs.Items.{ItemsStandAtPositions, SpotsLead};
ghost use Rattle.cw_positions.specs.Laid.{ProgramsAreLaidOut, GamesHaveRoutines};
ghost use Rattle.cw_positions.specs.Opens.{ProgramsOpenVariables};
ghost use Rattle.cw_positions.specs.Origins.{PositionsAreOfPoints, PointsAreWithin};
ghost use Rattle.cw_positions.specs.Seams.{SeamsAreSeen, StagesAreSeen};

/// Each position of a program's graph leads to positions that there are, and calls functions that there are; each function begins and
/// ends at one.
#[tactic(auto, using(crate::proofs::Programs::positions_are_closed))]
pub fn positions_are_closed()
    ensures closed { PositionsAreClosed }
{}

/// Where a program can be run (its jumps stand in loops, it has a `main`), each of its functions stands among the positions of its graph
/// under any policy as the game says, and the game has each function that it needs.
pub fn programs_are_laid_out()
    ensures laid_out { ProgramsAreLaidOut }
    ensures routines { GamesHaveRoutines }
{}

/// Each function of a program's graph begins and ends at points of it, and has at least these two; `main` is one of them where the program
/// can be run.
pub fn graphs_are_whole()
    ensures whole { GraphsAreWhole }
    ensures main { MainIsThere }
{}

/// What stands at a position is of a point of the graph, with the number of its seam and the primitive of its stage. What stands at the
/// points of a program is of the policy: its descriptors, its labels and one number more, and functions that there are.
pub fn positions_are_of_points()
    ensures points { PositionsAreOfPoints }
    ensures within { PointsAreWithin }
{}

/// Some position has a seam, and visits a stage of it, exactly where the graph has the seam, and the seam's point so many primitives: a
/// look-up tells both.
pub fn seams_are_seen()
    ensures seams { SeamsAreSeen }
    ensures stages { StagesAreSeen }
{}

/// Where the names to which a program assigns the results of calls begin as C names do, what it opens is a variable of any valid policy,
/// and no number: a digit begins no C name.
pub fn programs_open_variables()
    ensures variables { ProgramsOpenVariables }
{}

/// What stands at a position leads as its point does: a visit within the point, all else to the first position of a point that is next.
#[tactic(auto, using(crate::proofs::Items::spot_at_point))]
pub fn spots_lead()
    ensures spots { SpotsLead }
{}

/// At each position of a program's game stands one item of the program, and it is the front of each board that goes together with a pair
/// at that position: so a position tells which statement is to be passed.
#[tactic(auto, using(crate::proofs::Items::items_stand))]
pub fn items_stand_at_positions()
    ensures items { ItemsStandAtPositions }
{}
