//! Laws of tables, over woven runs of any length and stacks of any depth. The functions here do nothing: what they promise is
//! true of every program, game and table.

ghost use Rattle.cw_wcheck.specs.Soundness.{GoodTablesAreSound, GoodTablesAreLazy, ConditionsMakeSound, LostPairsMakeLazy, LostStartIsForced, TriesAreFew};

/// Each table that meets the nine conditions of a game of a program and its policy is sound, over stacks of any depth. For a policy
/// that lets the weaver stop after a refusal it keeps the program's paths up to a stop right after a refusal of what could have been
/// granted.
///
/// Public source: the instrumented programs of Harris, Jha, Reps, Anderson and Watson (2013).
pub fn good_tables_are_sound()
    ensures sound { GoodTablesAreSound }
{}

/// Where such a table tries a primitive only where the pair after a skip is lost, and stops only where the pair at which going on
/// arrives is lost, it is lazy: at each board of a woven run at which it tries or stops, the environment can force a violation from the
/// board after a skip.
///
/// Public source: the visibly pushdown games of Löding, Madhusudan and Serre (2004).
pub fn good_tables_are_lazy()
    ensures lazy { GoodTablesAreLazy }
{}

/// Each table that is closed under the moves of a game is sound for the program that the game is laid out for.
///
/// Public source: the instrumented programs of Harris, Jha, Reps, Anderson and Watson (2013).
pub fn conditions_make_sound()
    ensures sound { ConditionsMakeSound }
{}

/// Each table that is closed under the moves of a game, tries a primitive only where the pair after a skip is lost, and stops only where
/// the pair at which going on arrives is lost, is lazy for the program that the game is laid out for: at each board of a woven run at
/// which it tries or stops, the environment can force a violation from the board after a skip.
///
/// Public source: the visibly pushdown games of Löding, Madhusudan and Serre (2004).
pub fn lost_pairs_make_lazy()
    ensures lazy { LostPairsMakeLazy }
{}

/// Where the pair of the start is lost, with all states promised, the environment can force a violation from the start.
pub fn lost_start_is_forced()
    ensures forced { LostStartIsForced }
{}

/// Whatever the table, a woven run has at most two tries more between two steps of the program than the policy has limits:
/// at most 14 for a policy of at most 12 limits.
pub fn tries_are_few()
    ensures few { TriesAreFew }
{}
