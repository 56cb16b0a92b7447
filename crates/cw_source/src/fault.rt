//! Why a source is refused.

use cw_lex::LexFault;
use cw_scope::ScopeFault;
use thiserror::Error;

/// Why a source is refused, in the order in which it is tested. Places are counted in bytes from the front of the source.
#[derive(Debug, Drop, Error)]
pub enum SourceFault {
    /// It isn't made of tokens.
    #[error("{0}")]
    Lex(LexFault),
    /// The tokens up to this place continue to no program: it is that of the first token that doesn't, or the end of the source.
    #[error("syntax at {0}")]
    Syntax(u32),
    /// Statements or expressions nest more than 64 deep.
    #[error("nesting")]
    TooDeep,
    /// A scope rule is broken.
    #[error("{0}")]
    Scope(ScopeFault),
    /// There was no memory.
    #[error("out of memory")]
    NoMemory,
}
