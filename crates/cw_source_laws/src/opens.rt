//! What a program that is read opens.

ghost use Rattle.cw_source_laws.specs.Opened.{ReadProgramsAssignNames, ReadProgramsOpenVariables};

/// In each statement `x = f(..);` of a program that is read x begins as a C name. So under a valid policy each point of its graph that opens a
/// descriptor opens a variable, and no number.
///
/// Public source: ISO/IEC 9899:2011, 6.4.2.1 (a name begins with no digit).
pub fn read_programs_open_variables()
    ensures names { ReadProgramsAssignNames }
    ensures variables { ReadProgramsOpenVariables }
{}
