//! What stands in the marks of a program that is read.

ghost use Rattle.cw_source_laws.specs.Marked.{ReadProgramsAssignNames, ReadProgramsMarkNames, ReadProgramsMarkPlainly};

/// In each statement `x = f(..);` of a program that is read x is a C name. So the descriptor in the mark of an open is one, and so is the variable that
/// takes the result of a marked call; and none that a mark spells has a slash.
///
/// Public source: ISO/IEC 9899:2011, 6.4.2.1 (names).
pub fn read_programs_mark_names()
    ensures assigned { ReadProgramsAssignNames }
    ensures named { ReadProgramsMarkNames }
    ensures plain { ReadProgramsMarkPlainly }
{}
