//! Laws of the definitions: functions that do nothing, and whose contracts hold of every value.

ghost use Rattle.std.specs.Prelude.{◌≡◌, ◌≢◌, ◌↔◌, ℕ, [], Contains, IsTrue};
ghost use Rattle.cw_rights.specs.declared.capabilities.Rights.{Rights};
ghost use Rattle.cw_rights.specs.declared.capabilities.Caps.{Caps};
ghost use Rattle.cw_rights.specs.declared.capabilities.Primitive.{Primitive};
ghost use Rattle.cw_rights.specs.Capabilities.{IsContained, is_contained, HoldsRight, IsAllowed, applied, opened, closed};
ghost use Rattle.cw_rights.specs.Words.{Word, Matches};
ghost use Rattle.cw_rights.specs.Policies.{PlainPolicy, PlainRule, IsBad};

/// The test of containment by bits says that each right that is kept is held.
#[tactic(auto, using(crate::proofs::LawProofs::contained))]
pub fn containment_is_by_rights()
    ensures { (keep held : ℕ) → IsTrue (is_contained keep held) ↔ IsContained keep held }
{}

/// No granted primitive gives a right of any descriptor: cap_rights_limit(2) reduces rights and never expands them.
#[tactic(auto, using(crate::proofs::LawProofs::never_grow))]
pub fn rights_never_grow()
    ensures { (caps : Caps) (prim : Primitive) → IsAllowed caps prim → (descriptor right : ℕ) →
        HoldsRight (applied caps prim) descriptor right → HoldsRight caps descriptor right }
{}

/// Nothing leads out of capability mode: cap_enter(2).
#[tactic(auto, using(crate::proofs::LawProofs::applied_mode))]
pub fn nothing_leaves_capability_mode()
    ensures applied { (caps : Caps) (prim : Primitive) → IsTrue (applied caps prim).amb → IsTrue caps.amb }
    ensures opened { (caps : Caps) (descriptor : ℕ) (rights : Rights) → (opened caps descriptor rights).amb ≡ caps.amb }
    ensures closed { (caps : Caps) (descriptor : ℕ) → (closed caps descriptor).amb ≡ caps.amb }
{}

/// The empty word is never bad.
#[tactic(auto, using(crate::proofs::LawProofs::empty_never))]
pub fn empty_word_is_never_bad()
    ensures { (policy : PlainPolicy) → IsBad policy [] → ⊥ }
{}

/// A word that isn't empty and that some rule matches whole is bad.
#[tactic(auto, using(crate::proofs::LawProofs::matched_bad))]
pub fn matched_word_is_bad()
    ensures { (policy : PlainPolicy) (rule : PlainRule) (word : Word) →
        Contains policy.rules rule → word ≢ [] → Matches rule.bad word → IsBad policy word }
{}
