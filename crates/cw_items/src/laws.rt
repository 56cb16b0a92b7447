//! What holds of the items of each program.

ghost use Rattle.cw_items.specs.Items.{FrontsAreOfPoints};

/// What is asked of the front of a board is told by the point of the position at which the board stands.
pub fn fronts_are_of_points()
    ensures fronts { FrontsAreOfPoints }
{}
