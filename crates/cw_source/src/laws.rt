//! What holds of every source, and of every program that is read.

ghost use Rattle.std.specs.Prelude.{◌≡◌, ◌≢◌, ◌≤◌, ℕ, nat_eq, false, List, length, drop, codes};
ghost use Rattle.std.specs.List.{starts_with};
ghost use Rattle.cw_syntax.specs.Names.{Names};
ghost use Rattle.cw_syntax.specs.Trees.{File};
ghost use Rattle.cw_syntax.specs.Plans.{plan_of};
ghost use Rattle.cw_syntax.specs.Marks.{AreInOrder, marks_of};
ghost use Rattle.cw_source.specs.Read.{IsFaultOf, ReadsAs};
ghost use Rattle.cw_source.specs.declared.fault.SourceFault.{SourceFault};
ghost use Rattle.cw_source.specs.declared.fault.SourceFault.TheVariants.{NoMemory};
ghost use Rattle.cw_syntax.specs.Frames.{Item};
ghost use Rattle.cw_syntax.specs.Runnable.{IsRunnable};
ghost use Rattle.cw_source.specs.Items.{IsPassed, item_kind, item_place};

use cw_core::limits::FUNCTIONS;

/// A source is read as one program, or has one fault but want of memory, and never both.
pub fn laws_of_sources()
    ensures one_program { (source : List ℕ) (file other : File)
        → ReadsAs source file → ReadsAs source other → file ≡ other }
    ensures one_fault { (source : List ℕ) (fault another : SourceFault)
        → fault ≢ NoMemory → another ≢ NoMemory
        → IsFaultOf source fault → IsFaultOf source another → fault ≡ another }
    ensures never_both { (source : List ℕ) (file : File) (fault : SourceFault)
        → fault ≢ NoMemory → ReadsAs source file → IsFaultOf source fault → ⊥ }
{}

/// The marks of a program that is read stand in the order of the text, within the source, under whatever names: so it holds whichever
/// statements are opens, closes and calls.
pub fn marks_are_in_order()
    ensures in_order { (names : Names) (source : List ℕ) (file : File)
        → ReadsAs source file
        → AreInOrder 0 (length source) (marks_of (plan_of names source file)) }
{}

/// Nowhere in a source that is read does `cw{*` begin, with which a woven part opens.
pub fn no_marker_within()
    ensures unmarked { (source : List ℕ) (file : File)
        → ReadsAs source file
        → (at : ℕ)
        → starts_with nat_eq (drop at source) (codes "cw{*") ≡ false }
{}

/// A program that is read can be run: in each function each `break` and each `continue` stands in a loop, and there is a function `main`.
///
/// Public source: ISO/IEC 9899:2011, 5.1.2.2.1, 6.8.6.2 and 6.8.6.3.
pub fn programs_are_runnable()
    ensures runnable { (names : Names) (source : List ℕ) (file : File)
        → ReadsAs source file
        → IsRunnable (plan_of names source file) }
{}

/// A program that is read has at most 512 functions.
pub fn functions_are_few()
    ensures few { (names : Names) (source : List ℕ) (file : File)
        → ReadsAs source file
        → length (plan_of names source file).routines ≤ FUNCTIONS }
{}

/// In a program that is read the items that paths pass are named by their kind and their place: two of one kind and place are the same.
/// So a list of items says no more than a list of kinds and places.
pub fn items_are_named()
    ensures named { (names : Names) (source : List ℕ) (file : File)
        → ReadsAs source file
        → (item other : Item)
        → IsPassed (plan_of names source file) item → IsPassed (plan_of names source file) other
        → item_kind item ≡ item_kind other → item_place item ≡ item_place other
        → item ≡ other }
{}
