//! Laws of audits: a function that does nothing has its law as contract.

ghost use Rattle.cw_audit_laws.specs.Refusing.{AuditsSeeNoRefusals};
ghost use Rattle.cw_audit_laws.specs.Ruling.{AuditsSeeRulesAlone};
ghost use Rattle.cw_audit_laws.specs.There.{TableIsThere};
ghost use Rattle.cw_audit_laws.specs.Trying.{ForcedIsViolated, MeetsWhereNothingIsTried, NoRowsTryNothing};

/// Which primitives can be refused, and what is done after a refusal, changes no audit: games with the same positions and states have the same
/// distance and the same table, whatever their policies say of these.
pub fn audits_see_no_refusals()
    ensures alike { AuditsSeeNoRefusals }
{}

/// Under policies with the same descriptors, labels and rules the same plays in which the weaver always skips violate, so the distance is the same:
/// neither limits nor processes of their own, refusals, stops, formats or detached functions change it.
pub fn audits_see_rules_alone()
    ensures alike { AuditsSeeRulesAlone }
{}

/// A program meets its policy as it is exactly where no woven run tries anything, with a table that is sound and lazy; a table without a row of
/// tries is one with which nothing is tried.
pub fn what_meets_tries_nothing()
    ensures tried { MeetsWhereNothingIsTried }
    ensures rows { NoRowsTryNothing }
{}

/// What can be forced from the start happens, and no later, though the weaver always skips.
pub fn forced_is_violated()
    ensures violated { ForcedIsViolated }
{}

/// A game has a table that is its own and meets the conditions, however many rows that is, unless its nearest violation is further than is told.
pub fn table_is_there()
    ensures there { TableIsThere }
{}
