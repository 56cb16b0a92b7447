//! Laws of the definitions: functions with nothing to do, whose contracts say what holds of all programs.

ghost use Rattle.cw_procs.specs.Laws.{OneWorldBySteps};

/// For each program, table and list of steps there is one world by the list at most, with one end.
pub fn one_world_by_steps()
    ensures one { OneWorldBySteps }
{}
