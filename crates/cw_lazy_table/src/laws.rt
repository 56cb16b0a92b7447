//! Laws of the definitions: functions that do nothing, and whose contracts hold of every value.

ghost use Rattle.cw_lazy_table.specs.Laws.{LiveIsKept, LazyTablesAreGood, LazyTablesTryOnlyLost, LazyTableIsOne};
ghost use Rattle.cw_lazy_table.specs.There.{LazyTableIsThere};

/// What is live isn't lost, where the start isn't, and stands in a function under a promise that the game needs.
pub fn live_is_kept()
    ensures { LiveIsKept }
{}

/// The lazy table meets the nine conditions.
///
/// Public source: the weaver's strategies of Harris, Jha, Reps, Anderson and Watson (2013).
pub fn lazy_tables_are_good()
    ensures { LazyTablesAreGood }
{}

/// The lazy table tries a primitive, and stops after a refusal, only where the pair after it is lost, and at each call
/// leaves only exit states out of its promise from which the return is lost.
pub fn lazy_tables_try_only_lost()
    ensures { LazyTablesTryOnlyLost }
{}

/// A game has one lazy table at most.
pub fn lazy_table_is_one()
    ensures { LazyTableIsOne }
{}

/// A game in which the lazy table can begin, and whose heights are told in 32 bits, has one, however many rows that is.
pub fn lazy_table_is_there()
    ensures there { LazyTableIsThere }
{}
