//! The limits of quantities, for code that compares with one. `Quantity::limit` and `Quantity::limit_in` tell
//! the same numbers by name.

/// Bytes of a policy.
pub const POLICY_BYTES: usize = 65_536;

/// Bytes of a source.
pub const SOURCE_BYTES: usize = 262_144;

/// Bytes of a woven text, a strategy or a tape of format 1.
pub const FILE_BYTES: usize = 16_777_216;

/// Bytes of a woven text, a strategy or a tape of format 2.
pub const FILE_BYTES_IN_FORMAT_2: usize = 33_554_432;

/// Descriptors of a policy.
pub const DESCRIPTORS: usize = 8;

/// Limits of a policy.
pub const LIMITS: usize = 12;

/// Rules of a policy.
pub const RULES: usize = 32;

/// Literals of all rules, and the start.
pub const RULE_POSITIONS: usize = 64;

/// Nesting of statements, of expressions and of regular expressions.
pub const NESTING: usize = 64;

/// Functions of a source.
pub const FUNCTIONS: usize = 512;

/// Distinct label names of a source.
pub const LABELS: usize = 256;

/// Points of a source.
pub const POINTS: usize = 8192;

/// States of the rights.
pub const RIGHTS_STATES: usize = 128;

/// States of the policy.
pub const POLICY_STATES: usize = 64;

/// Pairs of a policy state and a rights state in format 1.
pub const PRODUCT_STATES: usize = 512;

/// Pairs of a policy state and a rights state in format 2: as many as a `StateSet` has room for.
pub const PRODUCT_STATES_IN_FORMAT_2: usize = 1024;

/// Positions of the game times product states.
pub const POSITIONS_TIMES_STATES: usize = 1_048_576;

/// Cells that the solver tables.
pub const CELLS: usize = 4_194_304;

/// Rows of a certificate.
pub const ROWS: usize = 65_536;

/// Moves of the run that an audit writes.
pub const AUDIT_MOVES: usize = 65_536;
