//! Where a position stands in the program.

ghost use Rattle.std.specs.Prelude.{◌≡◌, ◌≤◌, true, false, length, nat_le};
ghost use Rattle.std.specs.List.Sorted.{IsNonDecreasing, IsPartitionPoint};
ghost use Rattle.cw_product.specs.Sites.{stage_in, is_asked_in, is_split_in};

use cw_core::PointId;
use cw_game::Spot;

/// The point of a position; the stage, counted from 0, where a primitive is skipped or tried or is asked; whether it is
/// asked; and whether the position is that of a call in a process of its own.
#[derive(Clone, Copy, Drop, Debug, PartialEq, Eq)]
pub struct Site {
    pub point: PointId,
    pub stage: Option<u8>,
    pub asked: bool,
    pub split: bool,
}

/// The stage at which a position visits or asks, from 0; None elsewhere.
pub(crate) fn stage_of(spot: Spot) -> Option<u8>
    ensures { result ≡ stage_in spot }
{
    match spot {
        Spot::Visit(_, stage, _) | Spot::Asked(_, stage, _) => Some(stage),
        Spot::Step(_) | Spot::Branch(_, _) | Spot::Label(_, _, _) | Spot::Open(_, _, _) => None,
        Spot::Close(_, _, _) | Spot::Call(_, _, _) | Spot::SplitCall(_, _, _) => None,
        Spot::Exit(_) => None,
    }
}

/// Whether a primitive is asked for there.
pub(crate) fn is_asked(spot: Spot) -> bool
    ensures { result ≡ is_asked_in spot }
{
    match spot {
        Spot::Asked(_, _, _) => true,
        _ => false,
    }
}

/// Whether a call runs there in a process of its own.
pub(crate) fn is_split(spot: Spot) -> bool
    ensures { result ≡ is_split_in spot }
{
    match spot {
        Spot::SplitCall(_, _, _) => true,
        _ => false,
    }
}

/// How many of these numbers are at most `pos`, where they don't fall.
pub(crate) fn begun(bases: &[u32], pos: u32) -> usize
    requires rise { IsNonDecreasing bases.now }
    ensures bound { result ≤ length bases.now }
    ensures point { IsPartitionPoint (λ base. nat_le base pos ≡ true) (λ base. nat_le base pos ≡ false) bases.now result }
{
    bases.partition_point(|base| *base <= pos)
}
