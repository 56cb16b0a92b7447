//! Functions and files, read from tokens by their terminals.

ghost use Rattle.std.specs.Prelude.{◌≡◌, ◌≢◌, IfErr, IfOk, Ok};
ghost use Rattle.cw_syntax.specs.Trees.{File, file_of, prototype_of};
ghost use Rattle.cw_grammar.specs.Files.{IsProgram};
ghost use Rattle.cw_expressions.specs.declared.refusal.Refusal.TheVariants.{NoMemory};
ghost use Rattle.cw_expressions.specs.Cursor.{Gives};
ghost use Rattle.cw_parse.specs.StatementReading.{all_named, body, headed_behind, part, some_left, added, one_part, parts, file};
ghost use Rattle.cw_parse.specs.DeclarationView.{specifiers_of};
ghost use Rattle.cw_parse.specs.StatementView.{part_of, file_part, filed};

use crate::declarations::declaration_at;
use crate::headers::{front_at, header_at};
use crate::specifiers::Specifiers;
use crate::statements::statements_at;
use cw_expressions::cursor::{begins_with, past, take};
use cw_expressions::refusal::Refusal;
use cw_grammar::terminals::{Lexeme, Terminal};
use cw_syntax::program::{Decl, Function, Name, Param, Program, Proto};
use std::alloc::Global;
use std::mem::forget;

/// What a file is made of.
#[derive(Drop)]
pub enum FilePart {
    Prototype(Proto),
    Global(Decl),
    Function(Function),
}

/// Whether each parameter has a name.
fn has_names(params: &[Param]) -> bool
    ensures { result ≡ all_named params.now }
{
    let mut left = params;
    'params: while let [first, rest @ ..] = left {
        if first.name.is_none() {
            return false;
        }
        left = rest;
    }
    true
}

/// Behind the header of a function.
#[tactic(auto, unfolding(crate::specs::StatementReading::body))]
fn body_at<'t>(
    alloc: Global,
    header: Proto,
    tokens: &'t [Lexeme],
) -> Result<(FilePart, &'t [Lexeme]), Refusal>
    ensures { Gives file_part result (body (prototype_of header) tokens.now) }
{
    if has_names(header.params.as_slice()) {
        let (brace, rest) = take(tokens, Terminal::OpenBrace)?;
        let (body, rest) = statements_at(alloc, rest)?;
        let (_, rest) = take(rest, Terminal::CloseBrace)?;
        let function = Function {
            name: header.name,
            result: header.result,
            params: header.params,
            brace: brace.to,
            body,
        };
        Ok((FilePart::Function(function), rest))
    } else {
        Err(Refusal::Syntax)
    }
}

/// A prototype or a function, behind its specifiers, stars and name.
#[tactic(auto, unfolding(crate::specs::StatementReading::headed_behind))]
fn headed_at<'t>(
    alloc: Global,
    specifiers: Specifiers,
    stars: u8,
    name: Name,
    tokens: &'t [Lexeme],
) -> Result<(FilePart, &'t [Lexeme]), Refusal>
    ensures { Gives file_part result (headed_behind ((specifiers_of specifiers, stars), name) tokens.now) }
{
    let (header, rest) = header_at(alloc, specifiers, stars, name, tokens)?;
    if begins_with(rest, Terminal::Semicolon) {
        Ok((FilePart::Prototype(header), past(rest)))
    } else {
        body_at(alloc, header, rest)
    }
}

/// A prototype or a function, or a declaration outside functions (ISO C11, 6.9). Which it is shows behind what all begin with: so
/// that is read once where a parenthesis follows, and again as a part of a declaration.
#[tactic(auto, unfolding(crate::specs::StatementReading::part, crate::specs::StatementReading::held))]
fn part_at<'t>(alloc: Global, tokens: &'t [Lexeme]) -> Result<(FilePart, &'t [Lexeme]), Refusal>
    ensures { Gives file_part result (part tokens.now) }
{
    let ((specifiers, stars, name), rest) = front_at(tokens)?;
    if begins_with(rest, Terminal::Open) {
        headed_at(alloc, specifiers, stars, name, rest)
    } else {
        let (declaration, rest) = declaration_at(alloc, tokens)?;
        Ok((FilePart::Global(declaration), rest))
    }
}

/// A program with one part more, behind those of its kind.
fn with_part(program: Program, part: FilePart) -> Result<Program, Refusal>
    ensures { Gives file_of result (Ok (added (file_of program) (part_of part))) }
{
    let Program {
        mut protos,
        mut globals,
        mut functions,
    } = program;
    match part {
        FilePart::Prototype(prototype) => protos.push(prototype)?,
        FilePart::Global(declaration) => globals.push(declaration)?,
        FilePart::Function(function) => functions.push(function)?,
    }
    Ok(Program {
        protos,
        globals,
        functions,
    })
}

/// One part more.
#[tactic(auto, unfolding(crate::specs::StatementReading::one_part))]
fn part_after<'t>(
    alloc: Global,
    before: (Program, &'t [Lexeme]),
) -> Result<(Program, &'t [Lexeme]), Refusal>
    ensures { Gives filed result (one_part (filed before.entry)) }
{
    let (program, rest) = before;
    match part_at(alloc, rest) {
        Ok((part, rest)) => {
            let program = with_part(program, part)?;
            Ok((program, rest))
        }
        Err(refusal) => {
            // A file that is refused ends the run: the end of the process gives the blocks of the tree back at once.
            forget(program);
            Err(refusal)
        }
    }
}

/// Whether a token is left.
fn has_more(tokens: &[Lexeme]) -> bool
    ensures { result ≡ some_left tokens.now }
{
    match tokens {
        [] => false,
        [_, ..] => true,
    }
}

/// All parts behind those before.
fn parts_after<'t>(
    alloc: Global,
    first: (Program, &'t [Lexeme]),
) -> Result<(Program, &'t [Lexeme]), Refusal>
    ensures { Gives filed result (parts (filed first.entry)) }
{
    let mut so_far = first;
    'parts: while has_more(so_far.1) {
        so_far = part_after(alloc, so_far)?;
    }
    Ok(so_far)
}

/// The same program, in lists with no room to spare.
fn fitted(program: Program) -> Program
    ensures { file_of result ≡ file_of program }
{
    let Program {
        mut protos,
        mut globals,
        mut functions,
    } = program;
    protos.shrink_to_fit();
    globals.shrink_to_fit();
    functions.shrink_to_fit();
    Program {
        protos,
        globals,
        functions,
    }
}

/// All parts of a file, up to the last token.
#[tactic(auto, unfolding(crate::specs::StatementReading::file))]
fn file_at(alloc: Global, lexemes: &[Lexeme]) -> Result<Program, Refusal>
    ensures { Gives file_of result (file lexemes.now) }
{
    let none = Program {
        protos: Vec::new(alloc),
        globals: Vec::new(alloc),
        functions: Vec::new(alloc),
    };
    let (program, _) = parts_after(alloc, (none, lexemes))?;
    Ok(fitted(program))
}

/// The program that these tokens are, all of them, where they nest at most 64 deep.
pub(crate) fn read_file(alloc: Global, lexemes: &[Lexeme]) -> Result<Program, Refusal>
    ensures found { IfOk result (λ program. IsProgram lexemes.now (file_of program)) }
    ensures none { IfErr result (λ refusal. refusal ≢ NoMemory → (file : File) → ¬ (IsProgram lexemes.now file)) }
{
    file_at(alloc, lexemes)
}
