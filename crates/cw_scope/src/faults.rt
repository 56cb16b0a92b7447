//! Why a program is refused.

ghost use Rattle.std.specs.Prelude.{◌≡◌};
ghost use Rattle.cw_scope.specs.declared.faults.ScopeFault.TheVariants as fault;

use cw_core::Quantity;
use cw_syntax::program::Name;
use std::alloc::AllocError;
use thiserror::Error;

/// The scope rule that a program breaks first, in this order. A place is counted in bytes from the front of the source.
#[derive(Clone, Copy, Debug, PartialEq, Eq, Error)]
pub enum ScopeFault {
    /// There is no definition of `main`.
    #[error("no main")]
    NoMain,
    /// The function with this name is defined again.
    #[error("two functions")]
    TwoFunctions(Name),
    /// This label stands again in its function.
    #[error("two labels")]
    TwoLabels(Name),
    /// The call at this place has another number of arguments than the function has parameters.
    #[error("arity")]
    Arity(u32),
    /// At this place stands a call of a defined function that is no statement of its own or whose arguments hold a call, the name
    /// of a defined function that isn't called, or the second external call of an expression.
    #[error("call form")]
    CallForm(u32),
    /// `main` is called at this place.
    #[error("main called")]
    MainCalled(u32),
    /// The name at this place begins with `cw_` or `CW_`.
    #[error("reserved")]
    Reserved(u32),
    /// The `break` or `continue` at this place stands in no loop.
    #[error("jump")]
    Jump(u32),
    /// There are more functions or labels than there may be.
    #[error("limit")]
    Limit(Quantity),
    /// There was no memory.
    #[error("out of memory")]
    NoMemory,
}

impl From<AllocError> for ScopeFault {
    ghost from_gives = { λ _ refused. refused ≡ fault.NoMemory };

    fn from(_refused: AllocError) -> ScopeFault {
        ScopeFault::NoMemory
    }
}
