//! Laws of the policies that texts spell: functions that do nothing, and whose contracts hold of every text.

ghost use Rattle.cw_policy.specs.Answer.{SpellsOnePolicy, RefusedSpellsNone, RefusedHasOneFault, SpelledAreValid, FormatOneDetachesNone};

/// A text spells at most one policy.
pub fn text_spells_one_policy()
    ensures { SpellsOnePolicy }
{}

/// A text that is refused for another cause than want of memory spells no policy.
pub fn refused_texts_spell_none()
    ensures { RefusedSpellsNone }
{}

/// A text that is refused has one fault, want of memory aside.
pub fn refused_texts_have_one_fault()
    ensures { RefusedHasOneFault }
{}

/// Each policy that a text spells is valid.
pub fn spelled_policies_are_valid()
    ensures { SpelledAreValid }
{}

/// A policy of format 1 detaches no function.
pub fn format_1_detaches_no_function()
    ensures { FormatOneDetachesNone }
{}
