//! What holds of every strategy by least heights.

ghost use Rattle.cw_least_strategy.specs.Laws.{LeastAreGood};
ghost use Rattle.cw_least_strategy.specs.There.{LeastStrategyIsThere};

/// A law: the strategy by least heights of a game that was made meets the eight conditions of a strategy.
pub fn least_are_good()
    ensures { LeastAreGood }
{}

/// A game that was made and whose start is lost has a strategy by least heights, however many rows that is.
pub fn least_strategy_is_there()
    ensures there { LeastStrategyIsThere }
{}
