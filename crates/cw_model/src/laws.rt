//! Laws of the definitions: functions with nothing to do, whose contracts say what holds of all programs and policies.

ghost use Rattle.cw_model.specs.Laws.{
  BeatenIsForced,
  CapabilityModeStays,
  GoingOnIsSkipping,
  NeverBoth,
  OnePartyMoves,
  OverHasNoMove,
  RefusedIsSkipped,
  RightsNeverGrow,
  SoundIsNeverForced,
  StopsAfterRefusal,
  WithoutStop,
};

/// A board has moves of the one party whose turn it is, or none.
#[tactic(auto, using(crate::proofs::Moving::one_party))]
pub fn one_party_moves()
    ensures one_party { OnePartyMoves }
{}

/// A board that is over has no move.
#[tactic(auto, using(crate::proofs::Moving::over_has_none))]
pub fn over_has_no_move()
    ensures none { OverHasNoMove }
{}

/// Where the policy has no stop, no board of a play is in Refused and none has a stop, and every definition says what it
/// says without one.
#[tactic(auto, using(crate::proofs::Moving::without_stop))]
pub fn without_stop()
    ensures same { WithoutStop }
{}

/// Where the policy has no stop, a try that is refused leads where skipping leads.
#[tactic(auto, using(crate::proofs::Moving::refused_is_skipped))]
pub fn refused_is_skipped()
    ensures skipped { RefusedIsSkipped }
{}

/// After a refusal at which the weaver can stop, going on leads where skipping leads.
#[tactic(auto, using(crate::proofs::Moving::going_on_is_skipping))]
pub fn going_on_is_skipping()
    ensures skipped { GoingOnIsSkipping }
{}

/// Whatever the table, each stop of a woven run comes right after a refusal at a board where the grant was a move too.
pub fn stops_after_refusal()
    ensures refused { StopsAfterRefusal }
{}

/// Nothing leads out of capability mode but the return of a split call, after which the caller holds what it held:
/// cap_enter(2), capsicum(4).
#[tactic(auto, using(crate::proofs::Moving::mode_stays))]
pub fn capability_mode_stays()
    ensures stays { CapabilityModeStays }
{}

/// No move gives a right but an open that succeeds and the return of a split call: cap_rights_limit(2).
#[tactic(auto, using(crate::proofs::Moving::never_grow_by_moves))]
pub fn rights_never_grow()
    ensures shrink { RightsNeverGrow }
{}

/// Where a table is sound the environment can't force a violation from the start.
pub fn sound_is_never_forced()
    ensures never { SoundIsNeverForced }
{}

/// Where a strategy beats every weaver the environment can force a violation from the start.
pub fn beaten_is_forced()
    ensures forced { BeatenIsForced }
{}

/// No program has both a sound table and a strategy that beats every weaver.
pub fn never_both()
    ensures never { NeverBoth }
{}
