//! Programs, read from the tokens of a source.

ghost use Rattle.std.specs.Prelude.{◌≡◌, ◌≤◌, length, slice_get, IfErr, IfOk};
ghost use Rattle.cw_syntax.specs.Trees.{File, file_of};
ghost use Rattle.cw_lex.specs.Tokens.{AreTokens};
ghost use Rattle.cw_grammar.specs.Files.{IsProgram};
ghost use Rattle.cw_parse.specs.Faults.{place_of, IsFaultIn, IsParsed, IsParseFault};

use crate::fault::ParseFault;
use crate::files::read_file;
use cw_core::limits::SOURCE_BYTES;
use cw_expressions::refusal::Refusal;
use cw_grammar::spelling::lexemes;
use cw_grammar::terminals::Lexeme;
use cw_lex::Token;
use cw_recogniser::recognise;
use cw_syntax::program::Program;
use std::alloc::Global;

/// Where a token begins, or the length of the source where there is none.
fn place_of(source: &[u8], lexemes: &[Lexeme], at: usize) -> u32
    requires short { length source.now ≤ SOURCE_BYTES }
    ensures { result ≡ place_of source.now (slice_get lexemes.now at) }
{
    match lexemes.get(at) {
        Some(lexeme) => lexeme.from,
        None => source.len() as u32,
    }
}

/// Why tokens that are no program are refused: by the place where they leave the grammar, however deep they nest, and by the
/// nesting only where they don't leave it.
fn fault_of(alloc: Global, source: &[u8], lexemes: &[Lexeme]) -> ParseFault
    requires short { length source.now ≤ SOURCE_BYTES }
    requires refused { (file : File) → ¬ (IsProgram lexemes.now file) }
    ensures { IsFaultIn source.now lexemes.now result }
{
    match recognise(alloc, lexemes) {
        Ok(Some(at)) => ParseFault::Syntax(place_of(source, lexemes, at)),
        Ok(None) => ParseFault::TooDeep,
        Err(_) => ParseFault::NoMemory,
    }
}

/// The program of the tokens of a source, by their terminals. Whether they leave the grammar, and where, is only asked where no program is read.
///
/// What is refused, and why, is as [`parse`] has it.
pub fn parse_lexemes(
    alloc: Global,
    source: &[u8],
    lexemes: &[Lexeme],
) -> Result<Program, ParseFault>
    requires short { length source.now ≤ SOURCE_BYTES }
    ensures program { IfOk result (λ program. IsProgram lexemes.now (file_of program)) }
    ensures fault { IfErr result (IsFaultIn source.now lexemes.now) }
{
    match read_file(alloc, lexemes) {
        Ok(program) => Ok(program),
        Err(Refusal::NoMemory) => Err(ParseFault::NoMemory),
        Err(_) => Err(fault_of(alloc, source, lexemes)),
    }
}

/// The program of a source, by its tokens. A span goes from the first byte of a part's tokens to the last; expressions and
/// statements nest at most 64 deep. The stack that is taken is bounded.
///
/// The program is handed over exactly where the grammar gives one, unless memory runs out. Syntax comes exactly where the tokens
/// aren't of the grammar at any nesting: its place is that of the first token with which the tokens are a front of no text, or the
/// length of the source where all tokens are a front. TooDeep comes exactly where they are of the grammar and nest deeper.
///
/// Public source: ISO/IEC 9899:2011, 6.5, 6.7, 6.8 and 6.9.
pub fn parse(alloc: Global, source: &[u8], tokens: &[Token]) -> Result<Program, ParseFault>
    requires short { length source.now ≤ SOURCE_BYTES }
    requires tokens { AreTokens source.now tokens.now }
    ensures program { IfOk result (λ program. IsParsed source.now tokens.now (file_of program)) }
    ensures fault { IfErr result (IsParseFault source.now tokens.now) }
{
    let lexemes = lexemes(alloc, source, tokens)?;
    parse_lexemes(alloc, source, &lexemes)
}
