//! Laws of games. The functions here do nothing: what they promise is true of every game, program and policy.

ghost use Rattle.std.specs.Prelude.{ℕ};
ghost use Rattle.cw_rights.specs.Words.{Word};
ghost use Rattle.cw_rights.specs.declared.capabilities.Caps.{Caps};
ghost use Rattle.cw_game.specs.Linked.{BoardsAreLinkedBy};
ghost use Rattle.cw_game.specs.Laws.{BoardsAreLinked, GoodStrategiesAreClosed, GoodTablesAreClosed, StopLeavesNothingRefusable, WithoutStop};
ghost use Rattle.cw_game.specs.Together.{BoardsGoTogether};

/// At each board of a program that stands at a pair of a game that is laid out for it the moves are the pair's, and lead to boards
/// that stand at the pairs after it; but for a refusal that a stop can answer, which the game doesn't have.
///
/// Public source: the visibly pushdown games of Löding, Madhusudan and Serre (2004).
pub fn boards_are_linked()
    ensures linked { BoardsAreLinked }
{}

/// What states stand for: this state for this word and these capabilities. It has no code; a law over each meaning takes one.
pub trait StateMeaning {
    ghost means: { ℕ → Word → Caps → Type 0 };
}

/// The same by any meaning of the states by which they are the policy's: of the boards that stand at pairs by it.
pub fn boards_are_linked_by_any_meaning<M: StateMeaning>()
    ensures linked { BoardsAreLinkedBy M.means }
{}

/// Boards and pairs that go together, from the start on, stand together; and each board that comes of the start by moves has a pair with
/// which it goes, until all is over.
pub fn boards_go_together()
    ensures together { BoardsGoTogether }
{}

/// Where a policy lets the weaver stop after a refusal the game is that of the same policy with nothing that may be refused.
pub fn stop_leaves_nothing_refusable()
    ensures same { StopLeavesNothingRefusable }
{}

/// Where it doesn't, each refusal of a board is a move of the game, and nothing is gone on from.
pub fn without_stop()
    ensures goes { WithoutStop }
{}

/// A table that meets the nine conditions leads from live pairs to live pairs, and each answer of the environment is taken; each row of
/// a strategy that meets the eight leads to rows that it names, and one stands at the start.
pub fn good_is_closed()
    ensures tables { GoodTablesAreClosed }
    ensures strategies { GoodStrategiesAreClosed }
{}
