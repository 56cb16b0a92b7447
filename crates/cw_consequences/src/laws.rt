//! Laws of the definitions: functions that do nothing, and whose contracts hold of every value.

ghost use Rattle.cw_consequences.specs.Accepting.{GraphEndsWell, WeaveEndsWell};
ghost use Rattle.cw_consequences.specs.Auditing.{AuditIsAccepted, AuditTellsWhatIsTried, AuditsDifferInMoves, AuditsSayTheSame, WhatIsRefutedViolates};
ghost use Rattle.cw_consequences.specs.Laws.{EachHasOneAnswer, FormIsChecked, FormIsJudged, FormatsAgree, ProcsIsWeave, StopGivesTheSame, WeaveHasOneAnswer};

use cw_io::Sink;

/// For a policy and a source one answer of `weave` is due.
pub fn weave_has_one_answer()
    ensures { WeaveHasOneAnswer }
{}

/// For the files of a command, whichever it is, and for the number of a sample one answer is due.
pub fn each_has_one_answer()
    ensures { EachHasOneAnswer }
{}

/// What `audit` writes is accepted: whatever it says, `reaudit` is due to answer `yes` to it and nothing else.
pub fn what_audit_writes_is_accepted()
    ensures { AuditIsAccepted }
{}

/// What `audit` says tells of what `weave` writes: it says that the source meets the policy exactly where no run of the woven text tries anything, and that
/// the source violates it wherever a strategy is written.
pub fn audit_tells_what_is_tried()
    ensures tried { AuditTellsWhatIsTried }
    ensures refuted { WhatIsRefutedViolates }
{}

/// Under policies with the same descriptors, labels and rules `audit` has the same status and the same distance, whatever else they say; and of two audits
/// that are due for one policy and source only the moves may differ.
pub fn audits_say_the_same()
    ensures same { AuditsSayTheSame }
    ensures moves { AuditsDifferInMoves }
{}

/// What `procs` writes is accepted: a woven text by `check`, and a strategy, for the form, by `refute`.
pub fn what_procs_writes_is_accepted()
    ensures checked { FormIsChecked }
    ensures judged { FormIsJudged }
{}

/// Without detached functions, and without the names of a form in the source, `procs` is `weave`.
pub fn procs_is_weave()
    ensures { ProcsIsWeave }
{}

/// Under a policy that stops after a refusal status and bytes are those under the same policy of which nothing can be refused.
pub fn stop_gives_the_same()
    ensures { StopGivesTheSame }
{}

/// Under a policy of format 1 the status, and the refusal, the table or the strategy, are those under the same policy of format 2, unless the product
/// states are over their number in format 1.
pub fn formats_agree()
    ensures { FormatsAgree }
{}

/// What the stages of a command accept ends well: where a shelf has both files of `weave`, each stage accepts them, nothing is over its limit and no
/// count rose, the status is 0 or 1, or 8 for want of memory; that of `graph` for a source that is read and has few points is 0, or 8.
pub fn what_is_accepted_ends_well<N: Sink>()
    ensures weave { WeaveEndsWell N }
    ensures graph { GraphEndsWell N }
{}
