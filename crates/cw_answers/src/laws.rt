//! Laws of answers as text: functions that do nothing, with the laws as their contracts.

ghost use Rattle.std.specs.Prelude.{◌≡◌, ℕ, List, Result};
ghost use Rattle.cw_value.specs.Shown.{Answers};
ghost use Rattle.cw_answers.specs.declared.fault.AnswersFault.{AnswersFault};
ghost use Rattle.cw_answers.specs.Faults.{IsRead};

/// A text is that of one value of answers at most, or has one first line that doesn't fit, and not both.
#[tactic(auto, using(crate::proofs::Answered::one_answer))]
pub fn one_answer()
    ensures one { (text : List ℕ) (a b : Result Answers AnswersFault) → IsRead text a → IsRead text b → a ≡ b }
{}

/// Each text is that of some answers, or has a first line that doesn't fit.
#[tactic(auto, using(crate::proofs::Answered::some_answer))]
pub fn some_answer()
    ensures some { (text : List ℕ) → (answer : Result Answers AnswersFault) × IsRead text answer }
{}
