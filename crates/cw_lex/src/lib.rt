//! The tokens of a source of the C subset.
#![tactic(auto)]

mod bytes;
mod characters;
mod front;
mod keywords;
mod laws;
mod lexer;
mod numbers;
mod punctuators;
mod tokens;

pub use characters::character_value;
pub use laws::{laws_of_sources, laws_of_texts, laws_of_tokens};
pub use lexer::{LexFault, OfToken, lex, lex_as};
pub use numbers::number_value;
pub use tokens::{Token, TokenKind};
