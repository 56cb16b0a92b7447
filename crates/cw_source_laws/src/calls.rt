//! Laws of the definitions: functions that do nothing, and whose contracts hold of every value.

ghost use Rattle.cw_source_laws.specs.Called.{ReadProgramsLeaveMain};

/// A program that is read doesn't call `main`: no call at the positions of its graph is one of it.
///
/// Public source: this project's subset of C; in C itself `main` may be called (ISO/IEC 9899:2011, 5.1.2.2.3).
pub fn read_programs_leave_main()
    ensures { ReadProgramsLeaveMain }
{}
