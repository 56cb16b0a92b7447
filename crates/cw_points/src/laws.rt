//! Laws of the definitions: functions with nothing to do, whose contracts say what holds of all programs.

ghost use Rattle.std.specs.Prelude.{ℕ, List};
ghost use Rattle.cw_syntax.specs.Names.{Names};
ghost use Rattle.cw_syntax.specs.Trees.{File};
ghost use Rattle.cw_syntax.specs.Plans.{Plan};
ghost use Rattle.cw_points.specs.Walks.{PathsAreTheWalks, PathsTakeWays};

/// With the number of each item and the way by which it is passed (left, right, on, opened, failed), the walks of a program's graph with a
/// stack of return points are exactly the paths of the program. Public source: ISO/IEC 9899:2011, sections 6.8.4 to 6.8.6.
#[tactic(auto, using(crate::proofs::Walking::paths_are_the_walks))]
pub fn paths_are_the_walks()
    ensures walks { (names : Names) (source : List ℕ) (file : File) → PathsAreTheWalks names source file }
{}

/// The paths of a program are its paths by ways, these left out.
#[tactic(auto, using(crate::proofs::Walking::paths_take_ways))]
pub fn paths_take_ways()
    ensures ways { (plan : Plan) → PathsTakeWays plan }
{}
