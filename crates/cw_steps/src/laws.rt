//! Laws of steps as text: functions that do nothing, with the laws as their contracts.

ghost use Rattle.std.specs.Prelude.{◌≡◌, ℕ, List, Result};
ghost use Rattle.cw_steps.specs.declared.step.Step.{Step};
ghost use Rattle.cw_steps.specs.declared.fault.StepsFault.{StepsFault};
ghost use Rattle.cw_steps.specs.Faults.{IsAnswer};

/// A text is that of one list of steps at most, or has one first line that doesn't fit, and not both.
#[tactic(auto, using(crate::proofs::Answered::one_answer))]
pub fn one_answer()
    ensures one { (text : List ℕ) (a b : Result (List Step) StepsFault) → IsAnswer text a → IsAnswer text b → a ≡ b }
{}

/// Each text is that of some steps, or has a first line that doesn't fit.
#[tactic(auto, using(crate::proofs::Answered::some_answer))]
pub fn some_answer()
    ensures some { (text : List ℕ) → (answer : Result (List Step) StepsFault) × IsAnswer text answer }
{}
