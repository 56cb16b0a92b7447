//! Laws of tapes: functions that do nothing, with the laws as their contracts.

ghost use Rattle.std.specs.Prelude.{ℕ, List, Bool, Result};
ghost use Rattle.cw_certs.specs.declared.moves.Move.{Move};
ghost use Rattle.cw_text.specs.declared.fault.TextFault.{TextFault};
ghost use Rattle.cw_text.specs.Tapes.{IsAnswer, OneAnswer};

/// A text is the tape of one list of moves at most, or has one first line with another field, and not both.
#[tactic(auto, using(crate::proofs::OneAnswer::one_answer))]
pub fn one_answer()
    ensures one { OneAnswer }
{}

/// Each text is the tape of some moves, or has a first line with a field that names none.
#[tactic(auto, using(crate::proofs::SomeAnswer::some_answer))]
pub fn some_answer()
    ensures some { (play : Bool) (text : List ℕ) → (answer : Result (List Move) TextFault) × IsAnswer play text answer }
{}
