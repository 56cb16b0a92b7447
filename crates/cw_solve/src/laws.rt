//! Laws of the definitions: functions that do nothing, and whose contracts hold of every value.

ghost use Rattle.cw_solve.specs.Contexts.{TooManyAreSo, CellsAreOneNumber};
ghost use Rattle.cw_solve.specs.Few.{CallsMakeContexts, CellsAreFew, CellsAreWithin, ProgramsWithoutCalls};

/// Needed contexts whose cells alone are too many are there only where those of all needed contexts are too many.
#[tactic(auto, using(crate::proofs::Counts::too_many))]
pub fn too_many_are_so()
    ensures { TooManyAreSo }
{}

/// The needed contexts have one number of cells, in whichever order they are listed.
#[tactic(auto, using(crate::proofs::Counts::one_number))]
pub fn cells_are_one_number()
    ensures { CellsAreOneNumber }
{}

/// The needed contexts of a program's game, all or some, have no more cells than positions times states times 2 to the power of states; so where that is
/// within the limit of cells they are never over it.
pub fn cells_are_few()
    ensures few { CellsAreFew }
    ensures within { CellsAreWithin }
{}

/// A game without calls, and so the game of a program in which no point is a call of a defined function, needs one context.
pub fn one_context_without_calls()
    ensures one { CallsMakeContexts }
    ensures programs { ProgramsWithoutCalls }
{}
