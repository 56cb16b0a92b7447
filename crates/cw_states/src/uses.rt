//! What the states of a policy ask of a source.

/// What the states of a policy ask of a source: which descriptors of the policy, by number, the source closes as a
/// statement, and whether it has a label that the policy doesn't name. A close of a descriptor that is a variable
/// counts whether or not it is told here.
#[derive(Clone, Copy, Drop)]
pub struct Uses {
    pub closes: [bool; 8],
    pub has_other: bool,
}
