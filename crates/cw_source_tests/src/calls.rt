//! What each call answers for a text, as a text: the rows of the tests are a text and what is told of it.

ghost use Rattle.std.specs.Prelude.{◌≤◌, length};

use crate::trees::{Part, written};
use cw_core::limits::SOURCE_BYTES;
use cw_expressions::expressions::{fact_one_expression, read_expression};
use cw_grammar::spelling::lexemes;
use cw_grammar::terminals::Lexeme;
use cw_lex::{Token, TokenKind, laws_of_sources, laws_of_texts, laws_of_tokens, lex};
use cw_parse::laws::laws_of_programs;
use cw_parse::parse;
use cw_policy::read_policy;
use cw_recogniser::recognise;
use cw_scope::descriptors::check_descriptors;
use cw_source::read_source;
use cw_syntax::checked::Checked;
use std::alloc::{AllocError, Global};
use std::process::Abort;

/// A call, and what is told of its answer. Where it refuses, the refusal is told.
#[derive(Clone, Copy)]
pub enum Call {
    /// `lex`: the kinds and places of the tokens.
    Tokens,
    /// `lexemes`: the first terminal.
    FirstTerminal,
    /// `read_expression`: the tree of the expression at the front, and how many tokens are left.
    Expression,
    /// `read_expression`: that there is one.
    HasExpression,
    /// `recognise`: the number of the token at fault.
    Fault,
    /// `parse`: the program.
    Program,
    /// `parse`: that there is one.
    HasProgram,
    /// `read_source`, whose scope rules are those of `check_scope`: that the source is read.
    Source,
    /// `check_descriptors`, with a policy of the variable `fd`: that the rules are kept.
    Descriptors,
}

/// Texts, each so many times; behind each time stands its number with the third text, if that is not empty.
pub type Parts<'t> = &'t [(&'t str, usize, &'t str)];

fn letter_of(kind: TokenKind) -> &'static str {
    match kind {
        TokenKind::Name => "n",
        TokenKind::Keyword => "k",
        TokenKind::Number => "0",
        TokenKind::Character => "c",
        TokenKind::Text => "t",
        TokenKind::Punctuation => "p",
    }
}

/// The kinds and places of tokens, one after the other: `n` a name, `k` a keyword, `0` a number, `c` a character, `t` a string, `p`
/// punctuation, then the place of the first byte, `-` and the place behind the last.
fn listed(alloc: Global, tokens: &[Token]) -> Result<String, AllocError> {
    let mut text = String::new(alloc);
    for token in tokens {
        let letter = letter_of(token.kind);
        write!(text, "{letter}{}-{} ", token.from, token.to)?;
    }
    Ok(text)
}

fn tokens_told(alloc: Global, source: &[u8]) -> Result<String, AllocError>
    requires short { length source.now ≤ SOURCE_BYTES }
{
    match lex(alloc, source) {
        Ok(tokens) => listed(alloc, &tokens),
        Err(fault) => format!(in alloc; "{fault}"),
    }
}

/// The terminals of a text; none where it is not made of tokens, or memory is wanting.
pub fn terminals_of(alloc: Global, source: &[u8]) -> Vec<Lexeme> {
    if source.len() > 262144 {
        return Vec::new(alloc);
    }
    let Ok(tokens) = lex(alloc, source) else {
        return Vec::new(alloc);
    };
    match lexemes(alloc, source, &tokens) {
        Ok(terminals) => terminals,
        Err(_) => Vec::new(alloc),
    }
}

fn expression_told(alloc: Global, terminals: &[Lexeme], whole: bool) -> Result<String, AllocError> {
    match read_expression(alloc, terminals) {
        Ok((tree, rest)) => {
            if whole {
                written(alloc, &[Part::Expression(&tree), Part::Left(rest.len())])
            } else {
                String::from_str(alloc, "read")
            }
        }
        Err(refusal) => format!(in alloc; "{refusal}"),
    }
}

/// What is told of terminals.
pub fn terminals_told(
    alloc: Global,
    call: Call,
    terminals: &[Lexeme],
) -> Result<String, AllocError> {
    match call {
        Call::Expression => expression_told(alloc, terminals, true),
        Call::HasExpression => expression_told(alloc, terminals, false),
        Call::Fault => match recognise(alloc, terminals) {
            Ok(None) => String::from_str(alloc, "none"),
            Ok(Some(place)) => format!(in alloc; "at {place}"),
            Err(_) => Err(AllocError),
        },
        _ => match terminals {
            [] => String::from_str(alloc, "none"),
            [first, ..] => format!(in alloc; "{:?}", first.terminal),
        },
    }
}

fn program_told(alloc: Global, source: &[u8], whole: bool) -> Result<String, AllocError>
    requires short { length source.now ≤ SOURCE_BYTES }
{
    let Ok(tokens) = lex(alloc, source) else {
        return String::from_str(alloc, "no tokens");
    };
    match parse(alloc, source, &tokens) {
        Ok(program) => {
            if whole {
                written(
                    alloc,
                    &[
                        Part::Prototypes(&program.protos),
                        Part::Declarations(&program.globals),
                        Part::Functions(&program.functions),
                    ],
                )
            } else {
                String::from_str(alloc, "read")
            }
        }
        Err(fault) => format!(in alloc; "{fault}"),
    }
}

fn uses_told(alloc: Global, checked: &Checked) -> Result<String, AllocError> {
    let Ok(policy) = read_policy(alloc, b"format = 1\n[[descriptor]]\nname = \"fd\"\n") else {
        return String::from_str(alloc, "no policy");
    };
    match check_descriptors(alloc, checked, &policy) {
        Ok(()) => String::from_str(alloc, "kept"),
        Err(fault) => format!(in alloc; "{fault:?}"),
    }
}

fn source_told(alloc: Global, source: &[u8], uses: bool) -> Result<String, AllocError>
    requires short { length source.now ≤ SOURCE_BYTES }
{
    match read_source(alloc, source) {
        Ok(checked) => {
            if uses {
                uses_told(alloc, &checked)
            } else {
                String::from_str(alloc, "read")
            }
        }
        Err(fault) => format!(in alloc; "{fault:?}"),
    }
}

/// What is told of a text.
fn told(alloc: Global, call: Call, source: &[u8]) -> Result<String, AllocError> {
    if source.len() > 262144 {
        return String::from_str(alloc, "too long");
    }
    match call {
        Call::Tokens => tokens_told(alloc, source),
        Call::Program => program_told(alloc, source, true),
        Call::HasProgram => program_told(alloc, source, false),
        Call::Source => source_told(alloc, source, false),
        Call::Descriptors => source_told(alloc, source, true),
        _ => terminals_told(alloc, call, &terminals_of(alloc, source)),
    }
}

/// Asserts what is told of a text with this name.
pub fn tells(rt: &impl Abort, alloc: Global, call: Call, name: &str, source: &[u8], want: &str) {
    let told = told(alloc, call, source).expect(rt, name);
    assert_eq!(rt; told.as_str(), want, "at {name}");
}

/// Asserts what is told of each of these texts.
pub fn all_tell(rt: &impl Abort, alloc: Global, call: Call, rows: &[(&str, &str)]) {
    for (source, want) in rows {
        tells(rt, alloc, call, source, source.as_bytes(), want);
    }
}

/// Asserts what is told of the so many texts of a list: a line has a text, a tab and what is told of it.
pub fn all_lines_tell(rt: &impl Abort, alloc: Global, call: Call, list: &str, count: usize) {
    let mut lines: usize = 0;
    for line in list.lines() {
        if let Some((source, want)) = line.split_once("\t") {
            tells(rt, alloc, call, source, source.as_bytes(), want);
            lines = lines.saturating_add(1);
        }
    }
    assert_eq!(rt; lines, count);
}

/// Appends a text so many times; behind each time stands its number with the other text, if that is not empty.
pub fn put(text: &mut String, front: &str, count: usize, behind: &str) -> Result<(), AllocError> {
    for number in 0..count {
        text.push_str(front)?;
        if !behind.is_empty() {
            write!(text, "{number}{behind}")?;
        }
    }
    Ok(())
}

/// Asserts what is told of the text that these make.
pub fn joined_tell(
    rt: &impl Abort,
    alloc: Global,
    call: Call,
    parts: &[(&str, usize, &str)],
    want: &str,
) {
    let mut source = String::new(alloc);
    for (front, count, behind) in parts {
        put(&mut source, front, *count, behind).expect(rt, want);
    }
    tells(rt, alloc, call, want, source.as_bytes(), want);
}

/// Asserts what is told of the text that each of these makes.
pub fn all_joined_tell(rt: &impl Abort, alloc: Global, call: Call, rows: &[(Parts, &str)]) {
    for (parts, want) in rows {
        joined_tell(rt, alloc, call, parts, want);
    }
}

/// Laws of what is read: each can be called.
#[test]
fn laws_are_told() {
    laws_of_sources();
    laws_of_tokens();
    laws_of_texts();
    fact_one_expression();
    laws_of_programs();
}
