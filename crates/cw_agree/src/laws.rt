//! Laws of runs over values. The functions here do nothing: what they promise is true of every policy, table and program.

ghost use Rattle.cw_agree.specs.Laws.{OneRun, PlainRunsTryNothing, RefusalsAreTaken, RunsAgree, SomeRun, SomeRunAgrees};

/// A source has at most one run over the same answers, and so has a woven program.
pub fn one_run()
    ensures one { OneRun }
{}

/// A source has a run over any answers, where its jumps stand in loops and its `main` is there.
pub fn some_run()
    ensures some { SomeRun }
{}

/// A plain run tries nothing, and the weaver doesn't end it.
pub fn plain_runs_try_nothing()
    ensures nothing { PlainRunsTryNothing }
{}

/// Over the same answers the woven run of a policy that fits makes the external calls of the plain run, with the same arguments in
/// the same order, and ends as it does; or the weaver has ended it, which only a policy with stop lets it, and its calls are the
/// first ones of the plain run's.
pub fn runs_agree()
    ensures agree { RunsAgree }
    ensures some { SomeRunAgrees }
{}

/// A run that the weaver has ended was ended right after a refusal of what could have been granted, which took an entry of the
/// answers to tries.
pub fn refusals_are_taken()
    ensures taken { RefusalsAreTaken }
{}
