//! The terminals of a source's tokens.

ghost use Rattle.std.specs.Prelude.{◌≡◌, ◌^◌, ◌<◌, ◌≤◌, ◌∷◌, [], length, IfOk};
ghost use Rattle.cw_lex.specs.declared.tokens.TokenKind.TheVariants.{Number};
ghost use Rattle.cw_syntax.specs.Names.{slice};
ghost use Rattle.cw_lex.specs.Numbers.{number_of};
ghost use Rattle.cw_lex.specs.Tokens.{AreTokens};
ghost use Rattle.cw_grammar.specs.Spelling.{keywords, long_punctuators, short_punctuators, spelled, punctuator, terminal_of, lexeme_of, lexemes_of};

use crate::terminals::{Lexeme, Terminal};
use cw_core::NoMemory;
use cw_lex::{OfToken, Token, TokenKind, character_value, number_value};
use std::alloc::Global;

/// The keyword of the grammar that this text is.
fn keyword(text: &[u8]) -> Option<Terminal>
    ensures { result ≡ spelled keywords text.now }
{
    match text {
        b"extern" => Some(Terminal::Extern),
        b"static" => Some(Terminal::Static),
        b"const" => Some(Terminal::Const),
        b"void" => Some(Terminal::Void),
        b"unsigned" => Some(Terminal::Unsigned),
        b"char" => Some(Terminal::Char),
        b"int" => Some(Terminal::Int),
        b"long" => Some(Terminal::Long),
        b"if" => Some(Terminal::If),
        b"else" => Some(Terminal::Else),
        b"while" => Some(Terminal::While),
        b"do" => Some(Terminal::Do),
        b"for" => Some(Terminal::For),
        b"break" => Some(Terminal::Break),
        b"continue" => Some(Terminal::Continue),
        b"return" => Some(Terminal::Return),
        b"sizeof" => Some(Terminal::SizeOf),
        _ => None,
    }
}

/// The punctuator of two or three bytes that this text is.
fn long_punctuator(text: &[u8]) -> Option<Terminal>
    ensures { result ≡ spelled long_punctuators text.now }
{
    let [first, rest @ ..] = text else {
        return None;
    };
    match *first {
        b'<' => match rest {
            [b'<', b'='] => Some(Terminal::LeftShiftAssign),
            [b'<'] => Some(Terminal::LeftShift),
            [b'='] => Some(Terminal::LessEqual),
            _ => None,
        },
        b'>' => match rest {
            [b'>', b'='] => Some(Terminal::RightShiftAssign),
            [b'>'] => Some(Terminal::RightShift),
            [b'='] => Some(Terminal::GreaterEqual),
            _ => None,
        },
        b'=' => match rest {
            [b'='] => Some(Terminal::Equal),
            _ => None,
        },
        b'!' => match rest {
            [b'='] => Some(Terminal::NotEqual),
            _ => None,
        },
        b'&' => match rest {
            [b'&'] => Some(Terminal::AmpersandAmpersand),
            [b'='] => Some(Terminal::AndAssign),
            _ => None,
        },
        b'|' => match rest {
            [b'|'] => Some(Terminal::BarBar),
            [b'='] => Some(Terminal::OrAssign),
            _ => None,
        },
        b'+' => match rest {
            [b'+'] => Some(Terminal::PlusPlus),
            [b'='] => Some(Terminal::AddAssign),
            _ => None,
        },
        b'-' => match rest {
            [b'-'] => Some(Terminal::MinusMinus),
            [b'='] => Some(Terminal::SubtractAssign),
            _ => None,
        },
        b'*' => match rest {
            [b'='] => Some(Terminal::MultiplyAssign),
            _ => None,
        },
        b'/' => match rest {
            [b'='] => Some(Terminal::DivideAssign),
            _ => None,
        },
        b'%' => match rest {
            [b'='] => Some(Terminal::RemainderAssign),
            _ => None,
        },
        b'^' => match rest {
            [b'='] => Some(Terminal::XorAssign),
            _ => None,
        },
        _ => None,
    }
}

/// The punctuator of one byte that this is.
fn short_punctuator(byte: u8) -> Option<Terminal>
    ensures { result ≡ spelled short_punctuators (byte ∷ []) }
{
    match byte {
        b'(' => Some(Terminal::Open),
        b')' => Some(Terminal::Close),
        b'[' => Some(Terminal::OpenBracket),
        b']' => Some(Terminal::CloseBracket),
        b'{' => Some(Terminal::OpenBrace),
        b'}' => Some(Terminal::CloseBrace),
        b';' => Some(Terminal::Semicolon),
        b',' => Some(Terminal::Comma),
        b':' => Some(Terminal::Colon),
        b'=' => Some(Terminal::Assign),
        b'+' => Some(Terminal::Plus),
        b'-' => Some(Terminal::Minus),
        b'*' => Some(Terminal::Star),
        b'/' => Some(Terminal::Slash),
        b'%' => Some(Terminal::Percent),
        b'&' => Some(Terminal::Ampersand),
        b'|' => Some(Terminal::Bar),
        b'^' => Some(Terminal::Caret),
        b'~' => Some(Terminal::Tilde),
        b'!' => Some(Terminal::Exclamation),
        b'<' => Some(Terminal::Less),
        b'>' => Some(Terminal::Greater),
        _ => None,
    }
}

/// The terminal of a punctuator, by its bytes (ISO C11, 6.4.6).
fn punctuator_of(text: &[u8]) -> Option<Terminal>
    ensures { result ≡ punctuator text.now }
{
    match text {
        [byte] => short_punctuator(*byte),
        _ => long_punctuator(text),
    }
}

/// The terminal of a token of this kind with this text.
#[tactic(auto, unfolding(crate::specs::Spelling::terminal_of))]
fn terminal_at(kind: TokenKind, text: &[u8]) -> Terminal
    requires small { kind ≡ Number → number_of text.now < 2 ^ 64 }
    ensures { result ≡ terminal_of kind text.now }
{
    match kind {
        TokenKind::Name => Terminal::Name,
        TokenKind::Keyword => keyword(text).unwrap_or(Terminal::OtherKeyword),
        TokenKind::Number => Terminal::Number(number_value(text)),
        TokenKind::Character => Terminal::Character(character_value(text)),
        TokenKind::Text => Terminal::Text,
        TokenKind::Punctuation => punctuator_of(text).unwrap_or(Terminal::OtherKeyword),
    }
}

/// A token with its terminal.
fn lexeme_at(source: &[u8], token: Token) -> Lexeme
    requires order { token.from ≤ token.to }
    requires within { token.to ≤ length source.now }
    requires small { token.kind ≡ Number → number_of (slice source.now token.from token.to) < 2 ^ 64 }
    ensures { result ≡ lexeme_of source.now token }
{
    let text = &source[token.from as usize..token.to as usize];
    Lexeme {
        terminal: terminal_at(token.kind, text),
        from: token.from,
        to: token.to,
    }
}

/// Each token as it is read.
impl OfToken for Lexeme {
    ghost made = { lexeme_of };

    #[inline(always)]
    fn of(source: &[u8], token: Token) -> Lexeme {
        lexeme_at(source, token)
    }
}

/// The tokens of a source by their terminals, in their order. Public source: ISO/IEC 9899:2011, 6.4.
pub fn lexemes(alloc: Global, source: &[u8], tokens: &[Token]) -> Result<Vec<Lexeme>, NoMemory>
    requires tokens { AreTokens source.now tokens.now }
    ensures terminals { IfOk result (λ list. list.items ≡ lexemes_of source.now tokens.now) }
{
    let mut list = Vec::with_capacity(alloc, tokens.len())?;
    'tokens: for token in tokens {
        list.push_reserved(lexeme_at(source, *token));
    }
    Ok(list)
}
