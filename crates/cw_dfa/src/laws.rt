//! Laws of the definitions: functions that do nothing, and whose contracts hold of every value.

ghost use Rattle.std.specs.Prelude.{◌↔◌, ℕ, List};
ghost use Rattle.cw_rights.specs.Policies.{PlainRule};
ghost use Rattle.cw_rights.specs.declared.words.Letter.{Letter};
ghost use Rattle.cw_rights.specs.Words.{Word};
ghost use Rattle.cw_dfa.specs.Kept.{KeepsRules};
ghost use Rattle.cw_dfa.specs.Positions.{IsSetOf};
ghost use Rattle.cw_dfa.specs.States.{Reached};

/// The policy states are exactly the position sets of the words over the letters of which no front, the word itself
/// included, breaks a rule.
#[tactic(auto, using(crate::proofs::Kept::states_of_words))]
pub fn states_are_the_sets_of_words()
    ensures { (rules : List PlainRule) (letters : List Letter) (set : ℕ) →
        Reached rules letters set ↔ ((w : Word) × KeepsRules rules letters w × IsSetOf rules w set) }
{}
