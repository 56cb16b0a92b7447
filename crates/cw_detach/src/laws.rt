//! What a form keeps of its source, and what it is without detached functions. The functions do nothing: their contracts are the laws.

ghost use Rattle.std.specs.Prelude.{◌≡◌, ◌≤◌, ◌+◌, ◌*◌, ℕ, List, [], length, Option};
ghost use Rattle.cw_syntax.specs.Trees.{File};
ghost use Rattle.cw_rights.specs.Policies.{PlainPolicy};
ghost use Rattle.cw_lex.specs.declared.tokens.Token.{Token};
ghost use Rattle.cw_lex.specs.Tokens.{AreTokens};
ghost use Rattle.cw_source.specs.Read.{ReadsAs};
ghost use Rattle.cw_detach.specs.declared.faults.ProcFault.{ProcFault};
ghost use Rattle.cw_detach.specs.Faults.{taken, IsFirstFault};
ghost use Rattle.cw_detach.specs.Form.{form_of, kept_from, spans, AreApart};

use cw_core::limits::SOURCE_BYTES;

/// The calls for which a form has something else stand one behind the other in a source that is read, none within another. Without the two
/// texts the form is the source, byte for byte, and with them it is 32 bytes longer a call.
pub fn what_a_form_keeps()
    ensures apart { (source : List ℕ) (names : List (List ℕ)) (file : File)
        → ReadsAs source file
        → AreApart 0 (length source) (spans source names file) }
    ensures kept { (source : List ℕ) (names : List (List ℕ)) (file : File)
        → ReadsAs source file
        → kept_from source 0 (spans source names file) ≡ source }
    ensures longer { (source : List ℕ) (names : List (List ℕ)) (file : File)
        → ReadsAs source file
        → length (form_of source names file) ≡ length source + 32 * length (spans source names file) }
{}

/// Under a policy that detaches no function the form of a source is the source, and nothing but a name of the form forbids it.
pub fn without_detached_functions()
    ensures same { (source : List ℕ) (file : File) → form_of source [] file ≡ source }
    ensures taken { (source : List ℕ) (tokens : List Token) (file : File) (policy : PlainPolicy) (fault : Option ProcFault)
        → ReadsAs source file → length source ≤ SOURCE_BYTES → policy.detached ≡ [] → AreTokens source tokens
        → IsFirstFault source file policy fault → fault ≡ taken source tokens }
{}
