//! Why tokens aren't a program.

ghost use Rattle.std.specs.Prelude.{◌≡◌};
ghost use Rattle.cw_parse.specs.declared.fault.ParseFault.TheVariants.{NoMemory as Memory};

use cw_core::NoMemory;
use thiserror::Error;

/// Why the tokens of a source aren't a program. Places are counted in bytes from the front of the source.
#[derive(Clone, Copy, Debug, PartialEq, Eq, Error)]
pub enum ParseFault {
    /// The tokens up to this place continue to no text of the grammar: it is that of the first token that doesn't, or the end of
    /// the source.
    #[error("syntax at {0}")]
    Syntax(u32),
    /// The tokens are of the grammar, and statements or expressions nest more than 64 deep.
    #[error("nesting")]
    TooDeep,
    /// There was no memory.
    #[error("out of memory")]
    NoMemory,
}

impl From<NoMemory> for ParseFault {
    ghost from_gives = { λ _ fault. fault ≡ Memory };

    fn from(_refused: NoMemory) -> ParseFault {
        ParseFault::NoMemory
    }
}
