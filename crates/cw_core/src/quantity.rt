//! The quantities that have a limit.

ghost use Rattle.std.specs.Prelude.{◌≡◌};

use crate::limits;

/// A quantity that has a limit, in the order in which the limits are listed.
#[derive(Clone, Copy, Debug, PartialEq, Eq, PartialOrd, Ord, Hash)]
pub enum Quantity {
    /// Bytes of a policy, at most 65,536.
    PolicyBytes,
    /// Bytes of a source, at most 262,144.
    SourceBytes,
    /// Bytes of a woven text, a strategy or a tape, at most 16,777,216, and 33,554,432 in format 2.
    FileBytes,
    /// Descriptors of a policy, at most 8.
    Descriptors,
    /// Limits of a policy, at most 12.
    Limits,
    /// Rules of a policy, at most 32.
    Rules,
    /// Literals of all rules, and the start, at most 64.
    RulePositions,
    /// Nesting of statements, of expressions and of regular expressions, at most 64.
    Nesting,
    /// Functions of a source, at most 512.
    Functions,
    /// Distinct label names of a source, at most 256.
    Labels,
    /// Points of a source, at most 8,192.
    Points,
    /// States of the rights, at most 128.
    RightsStates,
    /// States of the policy, at most 64.
    PolicyStates,
    /// Pairs of a policy state and a rights state, at most 512, and 1,024 in format 2.
    ProductStates,
    /// Positions of the game times product states, at most 1,048,576.
    PositionsTimesStates,
    /// Cells that the solver tables, at most 4,194,304.
    Cells,
    /// Rows of a certificate or of an audit's table, at most 65,536.
    Rows,
    /// Moves of the run that an audit writes, at most 65,536.
    AuditMoves,
}

impl Quantity {
    ghost use Rattle.cw_core.specs.Quantities.{limit_in, limit_of, name_of};

    /// The quantity's name, as a refusal prints it.
    pub fn name(&self) -> &'static str
        ensures name { result.now ≡ name_of self.now }
    {
        match self {
            Quantity::PolicyBytes => "policy bytes",
            Quantity::SourceBytes => "source bytes",
            Quantity::FileBytes => "file bytes",
            Quantity::Descriptors => "descriptors",
            Quantity::Limits => "limits",
            Quantity::Rules => "rules",
            Quantity::RulePositions => "rule positions",
            Quantity::Nesting => "nesting",
            Quantity::Functions => "functions",
            Quantity::Labels => "labels",
            Quantity::Points => "points",
            Quantity::RightsStates => "rights states",
            Quantity::PolicyStates => "policy states",
            Quantity::ProductStates => "product states",
            Quantity::PositionsTimesStates => "positions times states",
            Quantity::Cells => "cells",
            Quantity::Rows => "rows",
            Quantity::AuditMoves => "audit moves",
        }
    }

    /// The greatest number of it that is within the limit, for a policy of format 1.
    pub fn limit(&self) -> u64
        ensures limit { result ≡ limit_of self.now }
    {
        let most = match self {
            Quantity::PolicyBytes => limits::POLICY_BYTES,
            Quantity::SourceBytes => limits::SOURCE_BYTES,
            Quantity::FileBytes => limits::FILE_BYTES,
            Quantity::Descriptors => limits::DESCRIPTORS,
            Quantity::Limits => limits::LIMITS,
            Quantity::Rules => limits::RULES,
            Quantity::RulePositions => limits::RULE_POSITIONS,
            Quantity::Nesting => limits::NESTING,
            Quantity::Functions => limits::FUNCTIONS,
            Quantity::Labels => limits::LABELS,
            Quantity::Points => limits::POINTS,
            Quantity::RightsStates => limits::RIGHTS_STATES,
            Quantity::PolicyStates => limits::POLICY_STATES,
            Quantity::ProductStates => limits::PRODUCT_STATES,
            Quantity::PositionsTimesStates => limits::POSITIONS_TIMES_STATES,
            Quantity::Cells => limits::CELLS,
            Quantity::Rows => limits::ROWS,
            Quantity::AuditMoves => limits::AUDIT_MOVES,
        };
        most as u64
    }

    /// The greatest number of it that is within the limit, for a policy of the format. Another format than 2
    /// has the numbers of format 1.
    pub fn limit_in(&self, format: u8) -> u64
        ensures limit { result ≡ limit_in format self.now }
    {
        match (format, self) {
            (2, Quantity::FileBytes) => limits::FILE_BYTES_IN_FORMAT_2 as u64,
            (2, Quantity::ProductStates) => limits::PRODUCT_STATES_IN_FORMAT_2 as u64,
            _ => self.limit(),
        }
    }
}
