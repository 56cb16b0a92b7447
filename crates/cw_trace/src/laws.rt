//! Laws of the definitions: functions with nothing to do, whose contracts say what holds of all programs.

ghost use Rattle.cw_trace.specs.Steps.{OneRunByATape};

/// For each program, table and tape there is one woven run by the tape at most, with one end.
#[tactic(auto, using(crate::proofs::OneRun::one_run))]
pub fn one_run_by_a_tape()
    ensures one { OneRunByATape }
{}
