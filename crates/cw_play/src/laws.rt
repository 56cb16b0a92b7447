//! Laws of plays: functions with nothing to do, whose contracts say what holds of all programs and strategies.

ghost use Rattle.cw_play.specs.Plays.{OnePlayByATape};

/// For each row of a strategy and each tape there is one play at most, with one end.
pub fn one_play_by_a_tape()
    ensures one { OnePlayByATape }
{}
