//! What stands at a position.

use cw_rights::capabilities::Primitive;

/// What stands at a position, with the positions to which it leads. A visit at p has what is asked there at p + 1 and
/// goes on at p + 2; what is asked goes on behind it, a granted split one further on.
#[derive(Clone, Copy, Drop)]
pub enum Spot {
    /// A primitive is skipped or tried: its seam, its stage there, the primitive.
    Visit(u32, u8, Primitive),
    /// The primitive that was tried is granted or refused.
    Asked(u32, u8, Primitive),
    /// An entry, a step, a jump: the next position.
    Step(u32),
    /// A condition: the next position where it holds, and where it doesn't.
    Branch(u32, u32),
    /// A label: its seam, its number in the policy, the next position.
    Label(u32, u16, u32),
    /// An open of a descriptor: its seam, the descriptor, the next position.
    Open(u32, u8, u32),
    /// A close of a descriptor: its seam, the descriptor, the next position.
    Close(u32, u8, u32),
    /// A call of a defined function: its seam, the function, the position after its return.
    Call(u32, u32, u32),
    /// The same call after a granted split.
    SplitCall(u32, u32, u32),
    /// The end of a function.
    Exit(u32),
}
