//! Laws of the definitions: functions with nothing to do, whose contracts say what holds of all programs, tables and places of forks.

ghost use Rattle.cw_worlds.specs.Laws.{ProcessesAreRuns, RunsAreProcesses, WorldsMeet};

/// Where a table is sound no process of any world violates the policy, whatever the processes do and however often they fork, and
/// each move of the environment and each fork goes on: fork(2).
pub fn worlds_meet()
    ensures meet { WorldsMeet }
{}

/// Each process of a world is where some woven run of the one program comes to: what a process does after a fork, and what it and its
/// forebears did before, is a run.
pub fn processes_are_runs()
    ensures runs { ProcessesAreRuns }
{}

/// Where a table is sound each woven run is that of a process of some world.
pub fn runs_are_processes()
    ensures processes { RunsAreProcesses }
{}
