//! What holds of every source that is read and of its form.

ghost use Rattle.std.specs.Prelude.{◌≡◌, ℕ, List, true};
ghost use Rattle.cw_syntax.specs.Trees.{File};
ghost use Rattle.cw_source.specs.Read.{ReadsAs};
ghost use Rattle.cw_detach.specs.Faults.{is_shallow};
ghost use Rattle.cw_forms.specs.Derived.{FormDerives};
ghost use Rattle.cw_forms.specs.Laws.{DeepFormsAreDeep, FormsAreRead, FormsAreNotRefused};

/// The form of a source that is read, and that nests no deeper than a source may, has tokens: those of the source, each with its own bytes, with
/// those of the two texts before and behind each call that isn't waited for. They are of the grammar, nothing nests past the limit, and the
/// file that they derive is the source's but for places and for the statements that stand for these calls.
pub fn forms_are_derived()
    ensures derived { (source : List ℕ) (names : List (List ℕ)) (file : File) (reads : ReadsAs source file)
        → is_shallow source file names ≡ true
        → FormDerives source names reads.tokens file }
{}

/// The form of a source is read, as a file that is the source's but for places and for the statements that stand for the calls: where the source
/// is read, its descriptors are as they have to be, and no rule of forms is broken, the form has tokens, they are of the grammar and nest no deeper
/// than they may, and neither a scope rule nor one of descriptors is broken. So of the reader's refusals none is due for a form, but want of memory.
pub fn forms_are_read()
    ensures read { FormsAreRead }
    ensures not_refused { FormsAreNotRefused }
{}

/// A form whose statements, as they are reckoned by those of the source, nest deeper than a source's may is too deep for the reader: so no form is
/// refused for its nesting that would have been read.
pub fn deep_forms_are_deep()
    ensures { DeepFormsAreDeep }
{}
