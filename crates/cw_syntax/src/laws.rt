//! Laws of the definitions: functions with nothing to do, whose contracts say what holds.

ghost use Rattle.cw_syntax.specs.Marks.{SeamsAreInOrder};
ghost use Rattle.cw_syntax.specs.Steps.{StepsAreTheTable};

/// The seams of every program are numbered from 0, function by function, the entry first and then the statements from left to right. Of a
/// program that is read this is the order of the text (`cw_source`, `marks_are_in_order`).
#[tactic(auto, using(crate::proofs::Counting::in_order))]
pub fn seams_are_in_order()
    ensures in_order { SeamsAreInOrder }
{}

/// The steps that a stack of frames makes are those of the table of cases, and no others, for every program: ISO/IEC
/// 9899:2011, sections 6.8.4 to 6.8.6.
#[tactic(auto, using(crate::proofs::Tabled::tabled))]
pub fn steps_are_the_table()
    ensures table { StepsAreTheTable }
{}
