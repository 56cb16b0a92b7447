//! The recogniser.

ghost use Rattle.std.specs.Prelude.{◌≡◌, ◌+◌, ◌<◌, ◌≤◌, length, take, reverse, IfOk, IfSome, IfNone};
ghost use Rattle.std.specs.List.{list_all};
ghost use Rattle.cw_recogniser.specs.Language.{AreOfGrammar, IsFront};
ghost use Rattle.cw_recogniser.specs.Machine.{may_be_empty, IsVerdict};

use crate::kinds::kind_of;
use crate::machine::{is_optional, step};
use crate::symbols::Symbol;
use cw_core::NoMemory;
use cw_grammar::terminals::Lexeme;
use std::alloc::Global;

/// Whether nothing more needs to come.
fn may_end(stack: &[Symbol]) -> bool
    ensures { result ≡ list_all may_be_empty stack.now }
{
    stack.iter().all(|symbol| is_optional(*symbol))
}

/// Where the tokens leave the grammar, if they do.
fn fault_of(alloc: Global, lexemes: &[Lexeme]) -> Result<Option<usize>, NoMemory>
    ensures { IfOk result (λ fault. IsVerdict lexemes.now fault) }
{
    let mut stack = Vec::new(alloc);
    stack.push(Symbol::Parts)?;
    for (index, lexeme) in lexemes.iter().enumerate() {
        if !step(&mut stack, kind_of(lexeme.terminal))? {
            return Ok(Some(index));
        }
    }
    if may_end(&stack) {
        Ok(None)
    } else {
        Ok(Some(lexemes.len()))
    }
}

/// Whether the tokens are of the grammar, at any nesting, and else the number of those that are a front of some text of it:
/// the token with that number is the first that no text goes on with, and where the number is that of all tokens, only more
/// tokens are wanting. Tokens are counted from 0; their places and values aren't looked at. Public source: ISO/IEC 9899:2011,
/// 6.9 (a translation unit is what the rules of the grammar derive).
pub fn recognise(alloc: Global, lexemes: &[Lexeme]) -> Result<Option<usize>, NoMemory>
    ensures text { IfOk result (λ fault. IfNone fault (AreOfGrammar lexemes.now)) }
    ensures no_text { IfOk result (λ fault. IfSome fault (λ at. ¬ (AreOfGrammar lexemes.now))) }
    ensures within { IfOk result (λ fault. IfSome fault (λ at. at ≤ length lexemes.now)) }
    ensures front { IfOk result (λ fault. IfSome fault (λ at. IsFront (take at lexemes.now))) }
    ensures first { IfOk result (λ fault. IfSome fault (λ at. at < length lexemes.now → ¬ (IsFront (take (at + 1) lexemes.now)))) }
{
    fault_of(alloc, lexemes)
}
