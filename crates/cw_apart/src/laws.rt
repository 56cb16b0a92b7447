//! Laws of the statements of a function: functions that do nothing, and whose contracts hold of every program that is read.

ghost use Rattle.cw_apart.specs.Starts.{StatementsAscend, StatementsAreFound};

/// In a function of a program that is read the statements, in the order of the text and those within others among them, begin at places that
/// ascend strictly.
pub fn statements_ascend()
    ensures ascend { StatementsAscend }
{}

/// So each statement of such a function is the one that is found at its place.
pub fn statements_are_found()
    ensures found { StatementsAreFound }
{}
