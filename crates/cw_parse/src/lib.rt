//! The parser: declarations, statements, functions and files, read from the tokens of a source.
#![tactic(auto)]

mod declarations;
pub mod fault;
mod files;
mod headers;
mod heads;
mod initialisers;
pub mod laws;
mod parser;
mod specifiers;
mod statements;

pub use fault::ParseFault;
pub use parser::{parse, parse_lexemes};
