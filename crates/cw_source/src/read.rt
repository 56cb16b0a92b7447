//! Sources read.

ghost use Rattle.std.specs.Prelude.{◌≡◌, ◌≤◌, length, IfErr, IfOk};
ghost use Rattle.cw_syntax.specs.Trees.{file_of};
ghost use Rattle.cw_lex.specs.Tokens.{AreMadeOf};
ghost use Rattle.cw_grammar.specs.Spelling.{lexeme_of};
ghost use Rattle.cw_source.specs.Read.{Derives, IsFaultOf, ReadsAs};

use crate::fault::SourceFault;
use cw_core::limits::SOURCE_BYTES;
use cw_grammar::terminals::Lexeme;
use cw_lex::{LexFault, lex_as};
use cw_parse::{ParseFault, parse_lexemes};
use cw_scope::{ScopeFault, check_scope};
use cw_syntax::checked::Checked;
use cw_syntax::program::Program;
use std::alloc::Global;

/// The tokens of a source, by their terminals.
fn lexemes_of(alloc: Global, source: &[u8]) -> Result<Vec<Lexeme>, SourceFault>
    requires short { length source.now ≤ SOURCE_BYTES }
    ensures lexemes { IfOk result (λ v. AreMadeOf (lexeme_of source.now) source.now v.items) }
    ensures fault { IfErr result (IsFaultOf source.now) }
{
    match lex_as::<Lexeme>(alloc, source) {
        Ok(lexemes) => Ok(lexemes),
        Err(LexFault::NoMemory) => Err(SourceFault::NoMemory),
        Err(fault) => Err(SourceFault::Lex(fault)),
    }
}

/// The program that the tokens of a source derive; they are given back before the scope rules are tested.
fn program_of(alloc: Global, source: &[u8]) -> Result<Program, SourceFault>
    requires short { length source.now ≤ SOURCE_BYTES }
    ensures program { IfOk result (λ program. Derives source.now (file_of program)) }
    ensures fault { IfErr result (IsFaultOf source.now) }
{
    let lexemes = lexemes_of(alloc, source)?;
    match parse_lexemes(alloc, source, &lexemes) {
        Ok(program) => Ok(program),
        Err(ParseFault::Syntax(at)) => Err(SourceFault::Syntax(at)),
        Err(ParseFault::TooDeep) => Err(SourceFault::TooDeep),
        Err(ParseFault::NoMemory) => Err(SourceFault::NoMemory),
    }
}

/// The program of a source of at most 262,144 bytes, with the source.
///
/// Refused is, in this order: a source that isn't made of tokens, by the first fault of its tokens; one that isn't of the grammar, by
/// the place of the first token that no program goes on with, or the end of the source where only more tokens are wanting; one whose
/// statements or expressions nest more than 64 deep; one that breaks a scope rule, by the first that it breaks.
///
/// Public source: ISO/IEC 9899:2011, 5.1.1.2, 6.2.1 and 6.9.
pub fn read_source<'s>(alloc: Global, source: &'s [u8]) -> Result<Checked<'s>, SourceFault>
    requires short { length source.now ≤ SOURCE_BYTES }
    ensures source { IfOk result (λ checked. checked.source.now ≡ source.now) }
    ensures program { IfOk result (λ checked. ReadsAs source.now (file_of checked.program)) }
    ensures fault { IfErr result (IsFaultOf source.now) }
{
    let program = program_of(alloc, source)?;
    match check_scope(alloc, source, program) {
        Ok(checked) => Ok(checked),
        Err(ScopeFault::NoMemory) => Err(SourceFault::NoMemory),
        Err(fault) => Err(SourceFault::Scope(fault)),
    }
}
