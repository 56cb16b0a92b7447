//! Tokens.

/// What a token is: a name, a keyword, a number, a character, a string, or punctuation. Which one it is the slice of the
/// source tells. Public source: ISO/IEC 9899:2011, 6.4.
#[derive(Clone, Copy, Drop, Debug, PartialEq, Eq)]
pub enum TokenKind {
    Name,
    Keyword,
    Number,
    Character,
    Text,
    Punctuation,
}

/// A token: the place of its first byte in the source, and the place after its last.
#[derive(Clone, Copy, Drop, Debug, PartialEq, Eq)]
pub struct Token {
    pub kind: TokenKind,
    pub from: u32,
    pub to: u32,
}
