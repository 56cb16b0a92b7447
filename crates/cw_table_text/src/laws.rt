//! Laws of tables as text. The functions do nothing: their contracts are the laws.

ghost use Rattle.std.specs.Prelude.{◌≡◌, ◌⊎◌, ℕ, List, Result, Ok, Err};
ghost use Rattle.cw_rights.specs.Policies.{policy_of};
ghost use Rattle.cw_rights.specs.Valid.{IsValid};
ghost use Rattle.cw_certs.specs.Tables.{Table};
ghost use Rattle.cw_text.specs.declared.fault.TextFault.{TextFault};
ghost use Rattle.cw_text.specs.declared.fault.TextFault.TheVariants.{NoMemory};
ghost use Rattle.cw_table_text.specs.Grammar.{Answers, IsFault, IsTable, Spells};
ghost use Rattle.cw_table_text.specs.TablesText.{tables_text};

use cw_rights::Policy;

/// For a valid policy a text is that of one table at most, has one fault at most, and not both.
pub fn one_answer(policy: &Policy)
    requires valid { IsValid (policy_of policy.now) }
    ensures table { (text : List ℕ) (t u : Table) → Spells (policy_of policy.now) text t → Spells (policy_of policy.now) text u → t ≡ u }
    ensures fault { (text : List ℕ) (f g : TextFault) → IsFault (policy_of policy.now) text f → IsFault (policy_of policy.now) text g → f ≡ g }
    ensures apart { (text : List ℕ) (t : Table) (f : TextFault) → Spells (policy_of policy.now) text t → IsFault (policy_of policy.now) text f → ⊥ }
{}

/// Each text is that of a table, or has a fault.
pub fn some_answer(policy: &Policy)
    ensures some { (text : List ℕ) → ((t : Table) × Spells (policy_of policy.now) text t) ⊎ ((fault : TextFault) × IsFault (policy_of policy.now) text fault) }
{}

/// For a valid policy what is printed of a table is read again as the table, unless memory runs out: whatever a reader
/// may answer for a table's text, it is the table.
pub fn printed_is_read_back(policy: &Policy)
    requires valid { IsValid (policy_of policy.now) }
    ensures printed { (t : Table) → IsTable (policy_of policy.now).format t → Spells (policy_of policy.now) (tables_text (policy_of policy.now) t) t }
    ensures answer { (text : List ℕ) (t : Table) (answer : Result Table TextFault) → Spells (policy_of policy.now) text t
        → Answers (policy_of policy.now) text answer → (answer ≡ Ok t) ⊎ (answer ≡ Err NoMemory) }
{}
