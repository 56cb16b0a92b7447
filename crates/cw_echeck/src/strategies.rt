//! Laws of strategies, over stacks of any depth. The functions here do nothing: what they promise is true of every program, game
//! and strategy.

ghost use Rattle.cw_echeck.specs.Beating.{GoodStrategiesStart, GoodStrategiesBeat, GoodStrategiesLose, GoodStrategiesForce, ClosedStrategiesBeat, ClosedStrategiesLose, ClosedStrategiesForce};

/// Each strategy that meets the eight conditions of a game has a start row: its first one at the start with an empty aim.
pub fn good_strategies_start()
    ensures start { GoodStrategiesStart }
{}

/// From it the strategy beats every weaver of the program that the game is laid out for: whatever the weaver skips and tries, the play
/// comes to a violation, by moves of the environment none of which is a refusal that a stop can answer.
///
/// Public source: the visibly pushdown games of Löding, Madhusudan and Serre (2004).
pub fn good_strategies_beat()
    ensures beat { GoodStrategiesBeat }
{}

/// The pair at which such a strategy starts is lost: every choice of tries comes to a violation.
pub fn good_strategies_lose()
    ensures lose { GoodStrategiesLose }
{}

/// So the environment can force a violation from the start of the program.
pub fn good_strategies_force()
    ensures force { GoodStrategiesForce }
{}

/// The same of each strategy whose rows meet the conditions but for their ranges, from each row at the start with an empty aim.
pub fn closed_strategies_beat()
    ensures beat { ClosedStrategiesBeat }
{}

/// Its start is lost,
pub fn closed_strategies_lose()
    ensures lose { ClosedStrategiesLose }
{}

/// and forced.
pub fn closed_strategies_force()
    ensures force { ClosedStrategiesForce }
{}
