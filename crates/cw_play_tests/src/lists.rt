//! What a second program in another language answers for every tape of up to six entries: `bench/tapes.py` writes this file. A line has the tape, how it
//! ends, and the trace with `;` for each line feed.

/// The plays of `ONE`.
pub const ONE_PLAYS: &str = ":tape spent:
skip:tape spent:
try:tape spent:try 0 enter refused;
skip skip:violation a never amb:label a amb;
skip try:violation a never amb:try 1 enter refused;label a amb;
try skip:violation a never amb:try 0 enter refused;label a amb;
try try:violation a never amb:try 0 enter refused;try 1 enter refused;label a amb;
skip skip skip:violation a never amb:label a amb;
skip skip try:violation a never amb:label a amb;
skip try skip:violation a never amb:try 1 enter refused;label a amb;
skip try try:violation a never amb:try 1 enter refused;label a amb;
try skip skip:violation a never amb:try 0 enter refused;label a amb;
try skip try:violation a never amb:try 0 enter refused;label a amb;
try try skip:violation a never amb:try 0 enter refused;try 1 enter refused;label a amb;
try try try:violation a never amb:try 0 enter refused;try 1 enter refused;label a amb;
skip skip skip skip:violation a never amb:label a amb;
skip skip skip try:violation a never amb:label a amb;
skip skip try skip:violation a never amb:label a amb;
skip skip try try:violation a never amb:label a amb;
skip try skip skip:violation a never amb:try 1 enter refused;label a amb;
skip try skip try:violation a never amb:try 1 enter refused;label a amb;
skip try try skip:violation a never amb:try 1 enter refused;label a amb;
skip try try try:violation a never amb:try 1 enter refused;label a amb;
try skip skip skip:violation a never amb:try 0 enter refused;label a amb;
try skip skip try:violation a never amb:try 0 enter refused;label a amb;
try skip try skip:violation a never amb:try 0 enter refused;label a amb;
try skip try try:violation a never amb:try 0 enter refused;label a amb;
try try skip skip:violation a never amb:try 0 enter refused;try 1 enter refused;label a amb;
try try skip try:violation a never amb:try 0 enter refused;try 1 enter refused;label a amb;
try try try skip:violation a never amb:try 0 enter refused;try 1 enter refused;label a amb;
try try try try:violation a never amb:try 0 enter refused;try 1 enter refused;label a amb;
skip skip skip skip skip:violation a never amb:label a amb;
skip skip skip skip try:violation a never amb:label a amb;
skip skip skip try skip:violation a never amb:label a amb;
skip skip skip try try:violation a never amb:label a amb;
skip skip try skip skip:violation a never amb:label a amb;
skip skip try skip try:violation a never amb:label a amb;
skip skip try try skip:violation a never amb:label a amb;
skip skip try try try:violation a never amb:label a amb;
skip try skip skip skip:violation a never amb:try 1 enter refused;label a amb;
skip try skip skip try:violation a never amb:try 1 enter refused;label a amb;
skip try skip try skip:violation a never amb:try 1 enter refused;label a amb;
skip try skip try try:violation a never amb:try 1 enter refused;label a amb;
skip try try skip skip:violation a never amb:try 1 enter refused;label a amb;
skip try try skip try:violation a never amb:try 1 enter refused;label a amb;
skip try try try skip:violation a never amb:try 1 enter refused;label a amb;
skip try try try try:violation a never amb:try 1 enter refused;label a amb;
try skip skip skip skip:violation a never amb:try 0 enter refused;label a amb;
try skip skip skip try:violation a never amb:try 0 enter refused;label a amb;
try skip skip try skip:violation a never amb:try 0 enter refused;label a amb;
try skip skip try try:violation a never amb:try 0 enter refused;label a amb;
try skip try skip skip:violation a never amb:try 0 enter refused;label a amb;
try skip try skip try:violation a never amb:try 0 enter refused;label a amb;
try skip try try skip:violation a never amb:try 0 enter refused;label a amb;
try skip try try try:violation a never amb:try 0 enter refused;label a amb;
try try skip skip skip:violation a never amb:try 0 enter refused;try 1 enter refused;label a amb;
try try skip skip try:violation a never amb:try 0 enter refused;try 1 enter refused;label a amb;
try try skip try skip:violation a never amb:try 0 enter refused;try 1 enter refused;label a amb;
try try skip try try:violation a never amb:try 0 enter refused;try 1 enter refused;label a amb;
try try try skip skip:violation a never amb:try 0 enter refused;try 1 enter refused;label a amb;
try try try skip try:violation a never amb:try 0 enter refused;try 1 enter refused;label a amb;
try try try try skip:violation a never amb:try 0 enter refused;try 1 enter refused;label a amb;
try try try try try:violation a never amb:try 0 enter refused;try 1 enter refused;label a amb;
skip skip skip skip skip skip:violation a never amb:label a amb;
skip skip skip skip skip try:violation a never amb:label a amb;
skip skip skip skip try skip:violation a never amb:label a amb;
skip skip skip skip try try:violation a never amb:label a amb;
skip skip skip try skip skip:violation a never amb:label a amb;
skip skip skip try skip try:violation a never amb:label a amb;
skip skip skip try try skip:violation a never amb:label a amb;
skip skip skip try try try:violation a never amb:label a amb;
skip skip try skip skip skip:violation a never amb:label a amb;
skip skip try skip skip try:violation a never amb:label a amb;
skip skip try skip try skip:violation a never amb:label a amb;
skip skip try skip try try:violation a never amb:label a amb;
skip skip try try skip skip:violation a never amb:label a amb;
skip skip try try skip try:violation a never amb:label a amb;
skip skip try try try skip:violation a never amb:label a amb;
skip skip try try try try:violation a never amb:label a amb;
skip try skip skip skip skip:violation a never amb:try 1 enter refused;label a amb;
skip try skip skip skip try:violation a never amb:try 1 enter refused;label a amb;
skip try skip skip try skip:violation a never amb:try 1 enter refused;label a amb;
skip try skip skip try try:violation a never amb:try 1 enter refused;label a amb;
skip try skip try skip skip:violation a never amb:try 1 enter refused;label a amb;
skip try skip try skip try:violation a never amb:try 1 enter refused;label a amb;
skip try skip try try skip:violation a never amb:try 1 enter refused;label a amb;
skip try skip try try try:violation a never amb:try 1 enter refused;label a amb;
skip try try skip skip skip:violation a never amb:try 1 enter refused;label a amb;
skip try try skip skip try:violation a never amb:try 1 enter refused;label a amb;
skip try try skip try skip:violation a never amb:try 1 enter refused;label a amb;
skip try try skip try try:violation a never amb:try 1 enter refused;label a amb;
skip try try try skip skip:violation a never amb:try 1 enter refused;label a amb;
skip try try try skip try:violation a never amb:try 1 enter refused;label a amb;
skip try try try try skip:violation a never amb:try 1 enter refused;label a amb;
skip try try try try try:violation a never amb:try 1 enter refused;label a amb;
try skip skip skip skip skip:violation a never amb:try 0 enter refused;label a amb;
try skip skip skip skip try:violation a never amb:try 0 enter refused;label a amb;
try skip skip skip try skip:violation a never amb:try 0 enter refused;label a amb;
try skip skip skip try try:violation a never amb:try 0 enter refused;label a amb;
try skip skip try skip skip:violation a never amb:try 0 enter refused;label a amb;
try skip skip try skip try:violation a never amb:try 0 enter refused;label a amb;
try skip skip try try skip:violation a never amb:try 0 enter refused;label a amb;
try skip skip try try try:violation a never amb:try 0 enter refused;label a amb;
try skip try skip skip skip:violation a never amb:try 0 enter refused;label a amb;
try skip try skip skip try:violation a never amb:try 0 enter refused;label a amb;
try skip try skip try skip:violation a never amb:try 0 enter refused;label a amb;
try skip try skip try try:violation a never amb:try 0 enter refused;label a amb;
try skip try try skip skip:violation a never amb:try 0 enter refused;label a amb;
try skip try try skip try:violation a never amb:try 0 enter refused;label a amb;
try skip try try try skip:violation a never amb:try 0 enter refused;label a amb;
try skip try try try try:violation a never amb:try 0 enter refused;label a amb;
try try skip skip skip skip:violation a never amb:try 0 enter refused;try 1 enter refused;label a amb;
try try skip skip skip try:violation a never amb:try 0 enter refused;try 1 enter refused;label a amb;
try try skip skip try skip:violation a never amb:try 0 enter refused;try 1 enter refused;label a amb;
try try skip skip try try:violation a never amb:try 0 enter refused;try 1 enter refused;label a amb;
try try skip try skip skip:violation a never amb:try 0 enter refused;try 1 enter refused;label a amb;
try try skip try skip try:violation a never amb:try 0 enter refused;try 1 enter refused;label a amb;
try try skip try try skip:violation a never amb:try 0 enter refused;try 1 enter refused;label a amb;
try try skip try try try:violation a never amb:try 0 enter refused;try 1 enter refused;label a amb;
try try try skip skip skip:violation a never amb:try 0 enter refused;try 1 enter refused;label a amb;
try try try skip skip try:violation a never amb:try 0 enter refused;try 1 enter refused;label a amb;
try try try skip try skip:violation a never amb:try 0 enter refused;try 1 enter refused;label a amb;
try try try skip try try:violation a never amb:try 0 enter refused;try 1 enter refused;label a amb;
try try try try skip skip:violation a never amb:try 0 enter refused;try 1 enter refused;label a amb;
try try try try skip try:violation a never amb:try 0 enter refused;try 1 enter refused;label a amb;
try try try try try skip:violation a never amb:try 0 enter refused;try 1 enter refused;label a amb;
try try try try try try:violation a never amb:try 0 enter refused;try 1 enter refused;label a amb;
";

/// The plays of `TWO`.
pub const TWO_PLAYS: &str = ":tape spent:
skip:tape spent:
try:tape spent:try 0 enter granted;
skip skip:violation a never amb:label a amb;
skip try:tape spent:try 1 enter granted;label a cap;
try skip:tape spent:try 0 enter granted;label a cap;
try try:tape spent:try 0 enter granted;try 1 enter granted;label a cap;
skip skip skip:violation a never amb:label a amb;
skip skip try:violation a never amb:label a amb;
skip try skip:violation b must amb:try 1 enter granted;label a cap;label b cap;
skip try try:violation b must amb:try 1 enter granted;label a cap;try 2 enter granted;label b cap;
try skip skip:violation b must amb:try 0 enter granted;label a cap;label b cap;
try skip try:violation b must amb:try 0 enter granted;label a cap;try 2 enter granted;label b cap;
try try skip:violation b must amb:try 0 enter granted;try 1 enter granted;label a cap;label b cap;
try try try:violation b must amb:try 0 enter granted;try 1 enter granted;label a cap;try 2 enter granted;label b cap;
skip skip skip skip:violation a never amb:label a amb;
skip skip skip try:violation a never amb:label a amb;
skip skip try skip:violation a never amb:label a amb;
skip skip try try:violation a never amb:label a amb;
skip try skip skip:violation b must amb:try 1 enter granted;label a cap;label b cap;
skip try skip try:violation b must amb:try 1 enter granted;label a cap;label b cap;
skip try try skip:violation b must amb:try 1 enter granted;label a cap;try 2 enter granted;label b cap;
skip try try try:violation b must amb:try 1 enter granted;label a cap;try 2 enter granted;label b cap;
try skip skip skip:violation b must amb:try 0 enter granted;label a cap;label b cap;
try skip skip try:violation b must amb:try 0 enter granted;label a cap;label b cap;
try skip try skip:violation b must amb:try 0 enter granted;label a cap;try 2 enter granted;label b cap;
try skip try try:violation b must amb:try 0 enter granted;label a cap;try 2 enter granted;label b cap;
try try skip skip:violation b must amb:try 0 enter granted;try 1 enter granted;label a cap;label b cap;
try try skip try:violation b must amb:try 0 enter granted;try 1 enter granted;label a cap;label b cap;
try try try skip:violation b must amb:try 0 enter granted;try 1 enter granted;label a cap;try 2 enter granted;label b cap;
try try try try:violation b must amb:try 0 enter granted;try 1 enter granted;label a cap;try 2 enter granted;label b cap;
skip skip skip skip skip:violation a never amb:label a amb;
skip skip skip skip try:violation a never amb:label a amb;
skip skip skip try skip:violation a never amb:label a amb;
skip skip skip try try:violation a never amb:label a amb;
skip skip try skip skip:violation a never amb:label a amb;
skip skip try skip try:violation a never amb:label a amb;
skip skip try try skip:violation a never amb:label a amb;
skip skip try try try:violation a never amb:label a amb;
skip try skip skip skip:violation b must amb:try 1 enter granted;label a cap;label b cap;
skip try skip skip try:violation b must amb:try 1 enter granted;label a cap;label b cap;
skip try skip try skip:violation b must amb:try 1 enter granted;label a cap;label b cap;
skip try skip try try:violation b must amb:try 1 enter granted;label a cap;label b cap;
skip try try skip skip:violation b must amb:try 1 enter granted;label a cap;try 2 enter granted;label b cap;
skip try try skip try:violation b must amb:try 1 enter granted;label a cap;try 2 enter granted;label b cap;
skip try try try skip:violation b must amb:try 1 enter granted;label a cap;try 2 enter granted;label b cap;
skip try try try try:violation b must amb:try 1 enter granted;label a cap;try 2 enter granted;label b cap;
try skip skip skip skip:violation b must amb:try 0 enter granted;label a cap;label b cap;
try skip skip skip try:violation b must amb:try 0 enter granted;label a cap;label b cap;
try skip skip try skip:violation b must amb:try 0 enter granted;label a cap;label b cap;
try skip skip try try:violation b must amb:try 0 enter granted;label a cap;label b cap;
try skip try skip skip:violation b must amb:try 0 enter granted;label a cap;try 2 enter granted;label b cap;
try skip try skip try:violation b must amb:try 0 enter granted;label a cap;try 2 enter granted;label b cap;
try skip try try skip:violation b must amb:try 0 enter granted;label a cap;try 2 enter granted;label b cap;
try skip try try try:violation b must amb:try 0 enter granted;label a cap;try 2 enter granted;label b cap;
try try skip skip skip:violation b must amb:try 0 enter granted;try 1 enter granted;label a cap;label b cap;
try try skip skip try:violation b must amb:try 0 enter granted;try 1 enter granted;label a cap;label b cap;
try try skip try skip:violation b must amb:try 0 enter granted;try 1 enter granted;label a cap;label b cap;
try try skip try try:violation b must amb:try 0 enter granted;try 1 enter granted;label a cap;label b cap;
try try try skip skip:violation b must amb:try 0 enter granted;try 1 enter granted;label a cap;try 2 enter granted;label b cap;
try try try skip try:violation b must amb:try 0 enter granted;try 1 enter granted;label a cap;try 2 enter granted;label b cap;
try try try try skip:violation b must amb:try 0 enter granted;try 1 enter granted;label a cap;try 2 enter granted;label b cap;
try try try try try:violation b must amb:try 0 enter granted;try 1 enter granted;label a cap;try 2 enter granted;label b cap;
skip skip skip skip skip skip:violation a never amb:label a amb;
skip skip skip skip skip try:violation a never amb:label a amb;
skip skip skip skip try skip:violation a never amb:label a amb;
skip skip skip skip try try:violation a never amb:label a amb;
skip skip skip try skip skip:violation a never amb:label a amb;
skip skip skip try skip try:violation a never amb:label a amb;
skip skip skip try try skip:violation a never amb:label a amb;
skip skip skip try try try:violation a never amb:label a amb;
skip skip try skip skip skip:violation a never amb:label a amb;
skip skip try skip skip try:violation a never amb:label a amb;
skip skip try skip try skip:violation a never amb:label a amb;
skip skip try skip try try:violation a never amb:label a amb;
skip skip try try skip skip:violation a never amb:label a amb;
skip skip try try skip try:violation a never amb:label a amb;
skip skip try try try skip:violation a never amb:label a amb;
skip skip try try try try:violation a never amb:label a amb;
skip try skip skip skip skip:violation b must amb:try 1 enter granted;label a cap;label b cap;
skip try skip skip skip try:violation b must amb:try 1 enter granted;label a cap;label b cap;
skip try skip skip try skip:violation b must amb:try 1 enter granted;label a cap;label b cap;
skip try skip skip try try:violation b must amb:try 1 enter granted;label a cap;label b cap;
skip try skip try skip skip:violation b must amb:try 1 enter granted;label a cap;label b cap;
skip try skip try skip try:violation b must amb:try 1 enter granted;label a cap;label b cap;
skip try skip try try skip:violation b must amb:try 1 enter granted;label a cap;label b cap;
skip try skip try try try:violation b must amb:try 1 enter granted;label a cap;label b cap;
skip try try skip skip skip:violation b must amb:try 1 enter granted;label a cap;try 2 enter granted;label b cap;
skip try try skip skip try:violation b must amb:try 1 enter granted;label a cap;try 2 enter granted;label b cap;
skip try try skip try skip:violation b must amb:try 1 enter granted;label a cap;try 2 enter granted;label b cap;
skip try try skip try try:violation b must amb:try 1 enter granted;label a cap;try 2 enter granted;label b cap;
skip try try try skip skip:violation b must amb:try 1 enter granted;label a cap;try 2 enter granted;label b cap;
skip try try try skip try:violation b must amb:try 1 enter granted;label a cap;try 2 enter granted;label b cap;
skip try try try try skip:violation b must amb:try 1 enter granted;label a cap;try 2 enter granted;label b cap;
skip try try try try try:violation b must amb:try 1 enter granted;label a cap;try 2 enter granted;label b cap;
try skip skip skip skip skip:violation b must amb:try 0 enter granted;label a cap;label b cap;
try skip skip skip skip try:violation b must amb:try 0 enter granted;label a cap;label b cap;
try skip skip skip try skip:violation b must amb:try 0 enter granted;label a cap;label b cap;
try skip skip skip try try:violation b must amb:try 0 enter granted;label a cap;label b cap;
try skip skip try skip skip:violation b must amb:try 0 enter granted;label a cap;label b cap;
try skip skip try skip try:violation b must amb:try 0 enter granted;label a cap;label b cap;
try skip skip try try skip:violation b must amb:try 0 enter granted;label a cap;label b cap;
try skip skip try try try:violation b must amb:try 0 enter granted;label a cap;label b cap;
try skip try skip skip skip:violation b must amb:try 0 enter granted;label a cap;try 2 enter granted;label b cap;
try skip try skip skip try:violation b must amb:try 0 enter granted;label a cap;try 2 enter granted;label b cap;
try skip try skip try skip:violation b must amb:try 0 enter granted;label a cap;try 2 enter granted;label b cap;
try skip try skip try try:violation b must amb:try 0 enter granted;label a cap;try 2 enter granted;label b cap;
try skip try try skip skip:violation b must amb:try 0 enter granted;label a cap;try 2 enter granted;label b cap;
try skip try try skip try:violation b must amb:try 0 enter granted;label a cap;try 2 enter granted;label b cap;
try skip try try try skip:violation b must amb:try 0 enter granted;label a cap;try 2 enter granted;label b cap;
try skip try try try try:violation b must amb:try 0 enter granted;label a cap;try 2 enter granted;label b cap;
try try skip skip skip skip:violation b must amb:try 0 enter granted;try 1 enter granted;label a cap;label b cap;
try try skip skip skip try:violation b must amb:try 0 enter granted;try 1 enter granted;label a cap;label b cap;
try try skip skip try skip:violation b must amb:try 0 enter granted;try 1 enter granted;label a cap;label b cap;
try try skip skip try try:violation b must amb:try 0 enter granted;try 1 enter granted;label a cap;label b cap;
try try skip try skip skip:violation b must amb:try 0 enter granted;try 1 enter granted;label a cap;label b cap;
try try skip try skip try:violation b must amb:try 0 enter granted;try 1 enter granted;label a cap;label b cap;
try try skip try try skip:violation b must amb:try 0 enter granted;try 1 enter granted;label a cap;label b cap;
try try skip try try try:violation b must amb:try 0 enter granted;try 1 enter granted;label a cap;label b cap;
try try try skip skip skip:violation b must amb:try 0 enter granted;try 1 enter granted;label a cap;try 2 enter granted;label b cap;
try try try skip skip try:violation b must amb:try 0 enter granted;try 1 enter granted;label a cap;try 2 enter granted;label b cap;
try try try skip try skip:violation b must amb:try 0 enter granted;try 1 enter granted;label a cap;try 2 enter granted;label b cap;
try try try skip try try:violation b must amb:try 0 enter granted;try 1 enter granted;label a cap;try 2 enter granted;label b cap;
try try try try skip skip:violation b must amb:try 0 enter granted;try 1 enter granted;label a cap;try 2 enter granted;label b cap;
try try try try skip try:violation b must amb:try 0 enter granted;try 1 enter granted;label a cap;try 2 enter granted;label b cap;
try try try try try skip:violation b must amb:try 0 enter granted;try 1 enter granted;label a cap;try 2 enter granted;label b cap;
try try try try try try:violation b must amb:try 0 enter granted;try 1 enter granted;label a cap;try 2 enter granted;label b cap;
";

/// The plays of `CALL`.
pub const CALL_PLAYS: &str = ":tape spent:
skip:tape spent:
try:tape spent:try 2 enter granted;
skip skip:tape spent:
skip try:tape spent:try 3 enter granted;
try skip:tape spent:try 2 enter granted;
try try:tape spent:try 2 enter granted;try 3 enter granted;
skip skip skip:tape spent:call f;
skip skip try:tape spent:try 3 split refused;call f;
skip try skip:tape spent:try 3 enter granted;call f;
skip try try:tape spent:try 3 enter granted;try 3 split granted;call f split;
try skip skip:tape spent:try 2 enter granted;call f;
try skip try:tape spent:try 2 enter granted;try 3 split granted;call f split;
try try skip:tape spent:try 2 enter granted;try 3 enter granted;call f;
try try try:tape spent:try 2 enter granted;try 3 enter granted;try 3 split granted;call f split;
skip skip skip skip:tape spent:call f;
skip skip skip try:tape spent:call f;try 0 enter granted;
skip skip try skip:tape spent:try 3 split refused;call f;
skip skip try try:tape spent:try 3 split refused;call f;try 0 enter granted;
skip try skip skip:tape spent:try 3 enter granted;call f;
skip try skip try:tape spent:try 3 enter granted;call f;try 0 enter granted;
skip try try skip:tape spent:try 3 enter granted;try 3 split granted;call f split;
skip try try try:tape spent:try 3 enter granted;try 3 split granted;call f split;try 0 enter granted;
try skip skip skip:tape spent:try 2 enter granted;call f;
try skip skip try:tape spent:try 2 enter granted;call f;try 0 enter granted;
try skip try skip:tape spent:try 2 enter granted;try 3 split granted;call f split;
try skip try try:tape spent:try 2 enter granted;try 3 split granted;call f split;try 0 enter granted;
try try skip skip:tape spent:try 2 enter granted;try 3 enter granted;call f;
try try skip try:tape spent:try 2 enter granted;try 3 enter granted;call f;try 0 enter granted;
try try try skip:tape spent:try 2 enter granted;try 3 enter granted;try 3 split granted;call f split;
try try try try:tape spent:try 2 enter granted;try 3 enter granted;try 3 split granted;call f split;try 0 enter granted;
skip skip skip skip skip:violation a never amb:call f;label a amb;
skip skip skip skip try:tape spent:call f;try 1 enter granted;label a cap;return f;
skip skip skip try skip:tape spent:call f;try 0 enter granted;label a cap;return f;
skip skip skip try try:tape spent:call f;try 0 enter granted;try 1 enter granted;label a cap;return f;
skip skip try skip skip:violation a never amb:try 3 split refused;call f;label a amb;
skip skip try skip try:tape spent:try 3 split refused;call f;try 1 enter granted;label a cap;return f;
skip skip try try skip:tape spent:try 3 split refused;call f;try 0 enter granted;label a cap;return f;
skip skip try try try:tape spent:try 3 split refused;call f;try 0 enter granted;try 1 enter granted;label a cap;return f;
skip try skip skip skip:tape spent:try 3 enter granted;call f;label a cap;return f;
skip try skip skip try:tape spent:try 3 enter granted;call f;try 1 enter granted;label a cap;return f;
skip try skip try skip:tape spent:try 3 enter granted;call f;try 0 enter granted;label a cap;return f;
skip try skip try try:tape spent:try 3 enter granted;call f;try 0 enter granted;try 1 enter granted;label a cap;return f;
skip try try skip skip:tape spent:try 3 enter granted;try 3 split granted;call f split;label a cap;return f;
skip try try skip try:tape spent:try 3 enter granted;try 3 split granted;call f split;try 1 enter granted;label a cap;return f;
skip try try try skip:tape spent:try 3 enter granted;try 3 split granted;call f split;try 0 enter granted;label a cap;return f;
skip try try try try:tape spent:try 3 enter granted;try 3 split granted;call f split;try 0 enter granted;try 1 enter granted;label a cap;return f;
try skip skip skip skip:tape spent:try 2 enter granted;call f;label a cap;return f;
try skip skip skip try:tape spent:try 2 enter granted;call f;try 1 enter granted;label a cap;return f;
try skip skip try skip:tape spent:try 2 enter granted;call f;try 0 enter granted;label a cap;return f;
try skip skip try try:tape spent:try 2 enter granted;call f;try 0 enter granted;try 1 enter granted;label a cap;return f;
try skip try skip skip:tape spent:try 2 enter granted;try 3 split granted;call f split;label a cap;return f;
try skip try skip try:tape spent:try 2 enter granted;try 3 split granted;call f split;try 1 enter granted;label a cap;return f;
try skip try try skip:tape spent:try 2 enter granted;try 3 split granted;call f split;try 0 enter granted;label a cap;return f;
try skip try try try:tape spent:try 2 enter granted;try 3 split granted;call f split;try 0 enter granted;try 1 enter granted;label a cap;return f;
try try skip skip skip:tape spent:try 2 enter granted;try 3 enter granted;call f;label a cap;return f;
try try skip skip try:tape spent:try 2 enter granted;try 3 enter granted;call f;try 1 enter granted;label a cap;return f;
try try skip try skip:tape spent:try 2 enter granted;try 3 enter granted;call f;try 0 enter granted;label a cap;return f;
try try skip try try:tape spent:try 2 enter granted;try 3 enter granted;call f;try 0 enter granted;try 1 enter granted;label a cap;return f;
try try try skip skip:tape spent:try 2 enter granted;try 3 enter granted;try 3 split granted;call f split;label a cap;return f;
try try try skip try:tape spent:try 2 enter granted;try 3 enter granted;try 3 split granted;call f split;try 1 enter granted;label a cap;return f;
try try try try skip:tape spent:try 2 enter granted;try 3 enter granted;try 3 split granted;call f split;try 0 enter granted;label a cap;return f;
try try try try try:tape spent:try 2 enter granted;try 3 enter granted;try 3 split granted;call f split;try 0 enter granted;try 1 enter granted;label a cap;return f;
skip skip skip skip skip skip:violation a never amb:call f;label a amb;
skip skip skip skip skip try:violation a never amb:call f;label a amb;
skip skip skip skip try skip:violation b must amb:call f;try 1 enter granted;label a cap;return f;label b cap;
skip skip skip skip try try:violation b must amb:call f;try 1 enter granted;label a cap;return f;try 4 enter granted;label b cap;
skip skip skip try skip skip:violation b must amb:call f;try 0 enter granted;label a cap;return f;label b cap;
skip skip skip try skip try:violation b must amb:call f;try 0 enter granted;label a cap;return f;try 4 enter granted;label b cap;
skip skip skip try try skip:violation b must amb:call f;try 0 enter granted;try 1 enter granted;label a cap;return f;label b cap;
skip skip skip try try try:violation b must amb:call f;try 0 enter granted;try 1 enter granted;label a cap;return f;try 4 enter granted;label b cap;
skip skip try skip skip skip:violation a never amb:try 3 split refused;call f;label a amb;
skip skip try skip skip try:violation a never amb:try 3 split refused;call f;label a amb;
skip skip try skip try skip:violation b must amb:try 3 split refused;call f;try 1 enter granted;label a cap;return f;label b cap;
skip skip try skip try try:violation b must amb:try 3 split refused;call f;try 1 enter granted;label a cap;return f;try 4 enter granted;label b cap;
skip skip try try skip skip:violation b must amb:try 3 split refused;call f;try 0 enter granted;label a cap;return f;label b cap;
skip skip try try skip try:violation b must amb:try 3 split refused;call f;try 0 enter granted;label a cap;return f;try 4 enter granted;label b cap;
skip skip try try try skip:violation b must amb:try 3 split refused;call f;try 0 enter granted;try 1 enter granted;label a cap;return f;label b cap;
skip skip try try try try:violation b must amb:try 3 split refused;call f;try 0 enter granted;try 1 enter granted;label a cap;return f;try 4 enter granted;label b cap;
skip try skip skip skip skip:violation b must amb:try 3 enter granted;call f;label a cap;return f;label b cap;
skip try skip skip skip try:violation b must amb:try 3 enter granted;call f;label a cap;return f;try 4 enter granted;label b cap;
skip try skip skip try skip:violation b must amb:try 3 enter granted;call f;try 1 enter granted;label a cap;return f;label b cap;
skip try skip skip try try:violation b must amb:try 3 enter granted;call f;try 1 enter granted;label a cap;return f;try 4 enter granted;label b cap;
skip try skip try skip skip:violation b must amb:try 3 enter granted;call f;try 0 enter granted;label a cap;return f;label b cap;
skip try skip try skip try:violation b must amb:try 3 enter granted;call f;try 0 enter granted;label a cap;return f;try 4 enter granted;label b cap;
skip try skip try try skip:violation b must amb:try 3 enter granted;call f;try 0 enter granted;try 1 enter granted;label a cap;return f;label b cap;
skip try skip try try try:violation b must amb:try 3 enter granted;call f;try 0 enter granted;try 1 enter granted;label a cap;return f;try 4 enter granted;label b cap;
skip try try skip skip skip:violation b must amb:try 3 enter granted;try 3 split granted;call f split;label a cap;return f;label b cap;
skip try try skip skip try:violation b must amb:try 3 enter granted;try 3 split granted;call f split;label a cap;return f;try 4 enter granted;label b cap;
skip try try skip try skip:violation b must amb:try 3 enter granted;try 3 split granted;call f split;try 1 enter granted;label a cap;return f;label b cap;
skip try try skip try try:violation b must amb:try 3 enter granted;try 3 split granted;call f split;try 1 enter granted;label a cap;return f;try 4 enter granted;label b cap;
skip try try try skip skip:violation b must amb:try 3 enter granted;try 3 split granted;call f split;try 0 enter granted;label a cap;return f;label b cap;
skip try try try skip try:violation b must amb:try 3 enter granted;try 3 split granted;call f split;try 0 enter granted;label a cap;return f;try 4 enter granted;label b cap;
skip try try try try skip:violation b must amb:try 3 enter granted;try 3 split granted;call f split;try 0 enter granted;try 1 enter granted;label a cap;return f;label b cap;
skip try try try try try:violation b must amb:try 3 enter granted;try 3 split granted;call f split;try 0 enter granted;try 1 enter granted;label a cap;return f;try 4 enter granted;label b cap;
try skip skip skip skip skip:violation b must amb:try 2 enter granted;call f;label a cap;return f;label b cap;
try skip skip skip skip try:violation b must amb:try 2 enter granted;call f;label a cap;return f;try 4 enter granted;label b cap;
try skip skip skip try skip:violation b must amb:try 2 enter granted;call f;try 1 enter granted;label a cap;return f;label b cap;
try skip skip skip try try:violation b must amb:try 2 enter granted;call f;try 1 enter granted;label a cap;return f;try 4 enter granted;label b cap;
try skip skip try skip skip:violation b must amb:try 2 enter granted;call f;try 0 enter granted;label a cap;return f;label b cap;
try skip skip try skip try:violation b must amb:try 2 enter granted;call f;try 0 enter granted;label a cap;return f;try 4 enter granted;label b cap;
try skip skip try try skip:violation b must amb:try 2 enter granted;call f;try 0 enter granted;try 1 enter granted;label a cap;return f;label b cap;
try skip skip try try try:violation b must amb:try 2 enter granted;call f;try 0 enter granted;try 1 enter granted;label a cap;return f;try 4 enter granted;label b cap;
try skip try skip skip skip:violation b must amb:try 2 enter granted;try 3 split granted;call f split;label a cap;return f;label b cap;
try skip try skip skip try:violation b must amb:try 2 enter granted;try 3 split granted;call f split;label a cap;return f;try 4 enter granted;label b cap;
try skip try skip try skip:violation b must amb:try 2 enter granted;try 3 split granted;call f split;try 1 enter granted;label a cap;return f;label b cap;
try skip try skip try try:violation b must amb:try 2 enter granted;try 3 split granted;call f split;try 1 enter granted;label a cap;return f;try 4 enter granted;label b cap;
try skip try try skip skip:violation b must amb:try 2 enter granted;try 3 split granted;call f split;try 0 enter granted;label a cap;return f;label b cap;
try skip try try skip try:violation b must amb:try 2 enter granted;try 3 split granted;call f split;try 0 enter granted;label a cap;return f;try 4 enter granted;label b cap;
try skip try try try skip:violation b must amb:try 2 enter granted;try 3 split granted;call f split;try 0 enter granted;try 1 enter granted;label a cap;return f;label b cap;
try skip try try try try:violation b must amb:try 2 enter granted;try 3 split granted;call f split;try 0 enter granted;try 1 enter granted;label a cap;return f;try 4 enter granted;label b cap;
try try skip skip skip skip:violation b must amb:try 2 enter granted;try 3 enter granted;call f;label a cap;return f;label b cap;
try try skip skip skip try:violation b must amb:try 2 enter granted;try 3 enter granted;call f;label a cap;return f;try 4 enter granted;label b cap;
try try skip skip try skip:violation b must amb:try 2 enter granted;try 3 enter granted;call f;try 1 enter granted;label a cap;return f;label b cap;
try try skip skip try try:violation b must amb:try 2 enter granted;try 3 enter granted;call f;try 1 enter granted;label a cap;return f;try 4 enter granted;label b cap;
try try skip try skip skip:violation b must amb:try 2 enter granted;try 3 enter granted;call f;try 0 enter granted;label a cap;return f;label b cap;
try try skip try skip try:violation b must amb:try 2 enter granted;try 3 enter granted;call f;try 0 enter granted;label a cap;return f;try 4 enter granted;label b cap;
try try skip try try skip:violation b must amb:try 2 enter granted;try 3 enter granted;call f;try 0 enter granted;try 1 enter granted;label a cap;return f;label b cap;
try try skip try try try:violation b must amb:try 2 enter granted;try 3 enter granted;call f;try 0 enter granted;try 1 enter granted;label a cap;return f;try 4 enter granted;label b cap;
try try try skip skip skip:violation b must amb:try 2 enter granted;try 3 enter granted;try 3 split granted;call f split;label a cap;return f;label b cap;
try try try skip skip try:violation b must amb:try 2 enter granted;try 3 enter granted;try 3 split granted;call f split;label a cap;return f;try 4 enter granted;label b cap;
try try try skip try skip:violation b must amb:try 2 enter granted;try 3 enter granted;try 3 split granted;call f split;try 1 enter granted;label a cap;return f;label b cap;
try try try skip try try:violation b must amb:try 2 enter granted;try 3 enter granted;try 3 split granted;call f split;try 1 enter granted;label a cap;return f;try 4 enter granted;label b cap;
try try try try skip skip:violation b must amb:try 2 enter granted;try 3 enter granted;try 3 split granted;call f split;try 0 enter granted;label a cap;return f;label b cap;
try try try try skip try:violation b must amb:try 2 enter granted;try 3 enter granted;try 3 split granted;call f split;try 0 enter granted;label a cap;return f;try 4 enter granted;label b cap;
try try try try try skip:violation b must amb:try 2 enter granted;try 3 enter granted;try 3 split granted;call f split;try 0 enter granted;try 1 enter granted;label a cap;return f;label b cap;
try try try try try try:violation b must amb:try 2 enter granted;try 3 enter granted;try 3 split granted;call f split;try 0 enter granted;try 1 enter granted;label a cap;return f;try 4 enter granted;label b cap;
";

/// The runs of `STORED`.
pub const STORED_RUNS: &str = ":tape spent:
grant:bad move 0:
refuse:bad move 0:
on:tape spent:
left:bad move 0:
right:bad move 0:
opened:bad move 0:
failed:bad move 0:
on grant:tape spent:try 1 enter granted;label a cap;
on refuse:bad move 1:
on on:bad move 1:
on left:bad move 1:
on right:bad move 1:
on opened:bad move 1:
on failed:bad move 1:
on grant grant:bad move 2:try 1 enter granted;label a cap;
on grant refuse:bad move 2:try 1 enter granted;label a cap;
on grant on:tape spent:try 1 enter granted;label a cap;
on grant left:bad move 2:try 1 enter granted;label a cap;
on grant right:bad move 2:try 1 enter granted;label a cap;
on grant opened:bad move 2:try 1 enter granted;label a cap;
on grant failed:bad move 2:try 1 enter granted;label a cap;
on grant on grant:bad move 3:try 1 enter granted;label a cap;
on grant on refuse:bad move 3:try 1 enter granted;label a cap;
on grant on on:tape spent:try 1 enter granted;label a cap;
on grant on left:bad move 3:try 1 enter granted;label a cap;
on grant on right:bad move 3:try 1 enter granted;label a cap;
on grant on opened:bad move 3:try 1 enter granted;label a cap;
on grant on failed:bad move 3:try 1 enter granted;label a cap;
on grant on on grant:bad move 4:try 1 enter granted;label a cap;
on grant on on refuse:bad move 4:try 1 enter granted;label a cap;
on grant on on on:tape spent:try 1 enter granted;label a cap;
on grant on on left:bad move 4:try 1 enter granted;label a cap;
on grant on on right:bad move 4:try 1 enter granted;label a cap;
on grant on on opened:bad move 4:try 1 enter granted;label a cap;
on grant on on failed:bad move 4:try 1 enter granted;label a cap;
on grant on on on grant:bad move 5:try 1 enter granted;label a cap;
on grant on on on refuse:bad move 5:try 1 enter granted;label a cap;
on grant on on on on:ended:try 1 enter granted;label a cap;
on grant on on on left:bad move 5:try 1 enter granted;label a cap;
on grant on on on right:bad move 5:try 1 enter granted;label a cap;
on grant on on on opened:bad move 5:try 1 enter granted;label a cap;
on grant on on on failed:bad move 5:try 1 enter granted;label a cap;
";

/// The runs of `STOP`.
pub const STOP_RUNS: &str = ":tape spent:
grant:bad move 0:
refuse:bad move 0:
on:tape spent:
left:bad move 0:
right:bad move 0:
opened:bad move 0:
failed:bad move 0:
on grant:bad move 1:
on refuse:bad move 1:
on on:bad move 1:
on left:tape spent:
on right:tape spent:
on opened:bad move 1:
on failed:bad move 1:
on left grant:bad move 2:
on left refuse:bad move 2:
on left on:bad move 2:
on left left:bad move 2:
on left right:bad move 2:
on left opened:tape spent:open fd opened;
on left failed:tape spent:open fd failed;label a amb fd=closed;
on right grant:bad move 2:
on right refuse:bad move 2:
on right on:tape spent:
on right left:bad move 2:
on right right:bad move 2:
on right opened:bad move 2:
on right failed:bad move 2:
on left opened grant:tape spent:open fd opened;try 2 limit0 granted;label a amb fd=001;
on left opened refuse:ended:open fd opened;try 2 limit0 refused;stop 2;
on left opened on:bad move 3:open fd opened;
on left opened left:bad move 3:open fd opened;
on left opened right:bad move 3:open fd opened;
on left opened opened:bad move 3:open fd opened;
on left opened failed:bad move 3:open fd opened;
on left failed grant:bad move 3:open fd failed;label a amb fd=closed;
on left failed refuse:bad move 3:open fd failed;label a amb fd=closed;
on left failed on:tape spent:open fd failed;label a amb fd=closed;
on left failed left:bad move 3:open fd failed;label a amb fd=closed;
on left failed right:bad move 3:open fd failed;label a amb fd=closed;
on left failed opened:bad move 3:open fd failed;label a amb fd=closed;
on left failed failed:bad move 3:open fd failed;label a amb fd=closed;
on right on grant:bad move 3:
on right on refuse:bad move 3:
on right on on:ended:
on right on left:bad move 3:
on right on right:bad move 3:
on right on opened:bad move 3:
on right on failed:bad move 3:
on left opened grant grant:bad move 4:open fd opened;try 2 limit0 granted;label a amb fd=001;
on left opened grant refuse:bad move 4:open fd opened;try 2 limit0 granted;label a amb fd=001;
on left opened grant on:tape spent:open fd opened;try 2 limit0 granted;label a amb fd=001;
on left opened grant left:bad move 4:open fd opened;try 2 limit0 granted;label a amb fd=001;
on left opened grant right:bad move 4:open fd opened;try 2 limit0 granted;label a amb fd=001;
on left opened grant opened:bad move 4:open fd opened;try 2 limit0 granted;label a amb fd=001;
on left opened grant failed:bad move 4:open fd opened;try 2 limit0 granted;label a amb fd=001;
on left opened refuse grant:bad move 4:open fd opened;try 2 limit0 refused;stop 2;
on left opened refuse refuse:bad move 4:open fd opened;try 2 limit0 refused;stop 2;
on left opened refuse on:bad move 4:open fd opened;try 2 limit0 refused;stop 2;
on left opened refuse left:bad move 4:open fd opened;try 2 limit0 refused;stop 2;
on left opened refuse right:bad move 4:open fd opened;try 2 limit0 refused;stop 2;
on left opened refuse opened:bad move 4:open fd opened;try 2 limit0 refused;stop 2;
on left opened refuse failed:bad move 4:open fd opened;try 2 limit0 refused;stop 2;
on left failed on grant:bad move 4:open fd failed;label a amb fd=closed;
on left failed on refuse:bad move 4:open fd failed;label a amb fd=closed;
on left failed on on:tape spent:open fd failed;label a amb fd=closed;
on left failed on left:bad move 4:open fd failed;label a amb fd=closed;
on left failed on right:bad move 4:open fd failed;label a amb fd=closed;
on left failed on opened:bad move 4:open fd failed;label a amb fd=closed;
on left failed on failed:bad move 4:open fd failed;label a amb fd=closed;
on right on on grant:bad move 4:
on right on on refuse:bad move 4:
on right on on on:bad move 4:
on right on on left:bad move 4:
on right on on right:bad move 4:
on right on on opened:bad move 4:
on right on on failed:bad move 4:
on left opened grant on grant:bad move 5:open fd opened;try 2 limit0 granted;label a amb fd=001;
on left opened grant on refuse:bad move 5:open fd opened;try 2 limit0 granted;label a amb fd=001;
on left opened grant on on:tape spent:open fd opened;try 2 limit0 granted;label a amb fd=001;
on left opened grant on left:bad move 5:open fd opened;try 2 limit0 granted;label a amb fd=001;
on left opened grant on right:bad move 5:open fd opened;try 2 limit0 granted;label a amb fd=001;
on left opened grant on opened:bad move 5:open fd opened;try 2 limit0 granted;label a amb fd=001;
on left opened grant on failed:bad move 5:open fd opened;try 2 limit0 granted;label a amb fd=001;
on left failed on on grant:bad move 5:open fd failed;label a amb fd=closed;
on left failed on on refuse:bad move 5:open fd failed;label a amb fd=closed;
on left failed on on on:tape spent:open fd failed;label a amb fd=closed;
on left failed on on left:bad move 5:open fd failed;label a amb fd=closed;
on left failed on on right:bad move 5:open fd failed;label a amb fd=closed;
on left failed on on opened:bad move 5:open fd failed;label a amb fd=closed;
on left failed on on failed:bad move 5:open fd failed;label a amb fd=closed;
";

/// The runs of `RETURN`.
pub const RETURN_RUNS: &str = ":tape spent:
grant:bad move 0:
refuse:bad move 0:
on:tape spent:
left:bad move 0:
right:bad move 0:
opened:bad move 0:
failed:bad move 0:
on grant:bad move 1:
on refuse:bad move 1:
on on:tape spent:call f;
on left:bad move 1:
on right:bad move 1:
on opened:bad move 1:
on failed:bad move 1:
on on grant:bad move 2:call f;
on on refuse:bad move 2:call f;
on on on:tape spent:call f;
on on left:bad move 2:call f;
on on right:bad move 2:call f;
on on opened:bad move 2:call f;
on on failed:bad move 2:call f;
on on on grant:bad move 3:call f;
on on on refuse:bad move 3:call f;
on on on on:bad move 3:call f;
on on on left:tape spent:call f;
on on on right:tape spent:call f;
on on on opened:bad move 3:call f;
on on on failed:bad move 3:call f;
on on on left grant:bad move 4:call f;
on on on left refuse:bad move 4:call f;
on on on left on:tape spent:call f;call f;
on on on left left:bad move 4:call f;
on on on left right:bad move 4:call f;
on on on left opened:bad move 4:call f;
on on on left failed:bad move 4:call f;
on on on right grant:bad move 4:call f;
on on on right refuse:bad move 4:call f;
on on on right on:tape spent:call f;return f;
on on on right left:bad move 4:call f;
on on on right right:bad move 4:call f;
on on on right opened:bad move 4:call f;
on on on right failed:bad move 4:call f;
on on on left on grant:bad move 5:call f;call f;
on on on left on refuse:bad move 5:call f;call f;
on on on left on on:tape spent:call f;call f;
on on on left on left:bad move 5:call f;call f;
on on on left on right:bad move 5:call f;call f;
on on on left on opened:bad move 5:call f;call f;
on on on left on failed:bad move 5:call f;call f;
on on on right on grant:tape spent:call f;return f;try 4 enter granted;label a cap;
on on on right on refuse:bad move 5:call f;return f;
on on on right on on:bad move 5:call f;return f;
on on on right on left:bad move 5:call f;return f;
on on on right on right:bad move 5:call f;return f;
on on on right on opened:bad move 5:call f;return f;
on on on right on failed:bad move 5:call f;return f;
";
