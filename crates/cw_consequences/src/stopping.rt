//! Laws of the definitions: functions that do nothing, and whose contracts hold of every value.

ghost use Rattle.cw_consequences.specs.Stopping.{GameIsUnrefused, StopKeepsTheGame, StopKeepsTheTable, StopKeepsTheStrategy};

/// The game of a program and of a policy of which nothing can be refused is that of the policy as it was, but for what can be refused: it has the
/// same positions and states.
pub fn game_is_unrefused()
    ensures { GameIsUnrefused }
{}

/// Under a policy that stops after a refusal what can be refused changes no move, no height and no needed context.
pub fn stop_keeps_the_game()
    ensures { StopKeepsTheGame }
{}

/// Nor the lazy table: the program never goes on after a refusal that a stop can answer.
pub fn stop_keeps_the_table()
    ensures { StopKeepsTheTable }
{}

/// Nor the strategy by least heights.
pub fn stop_keeps_the_strategy()
    ensures { StopKeepsTheStrategy }
{}
