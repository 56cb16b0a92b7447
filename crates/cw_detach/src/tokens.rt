//! The tokens of a source that are names which its form brings in.

ghost use Rattle.std.specs.Prelude.{◌≡◌, ◌≤◌, List, false, length, IfOk};
ghost use Rattle.cw_syntax.specs.Trees.{file_of};
ghost use Rattle.cw_lex.specs.declared.tokens.Token.{Token as TokenOf};
ghost use Rattle.cw_lex.specs.Tokens.{AreTokens};
ghost use Rattle.cw_source.specs.Read.{ReadsAs};
ghost use Rattle.cw_detach.specs.Faults.{is_taken, taken};

use crate::faults::ProcFault;
use cw_core::NoMemory;
use cw_core::limits::SOURCE_BYTES;
use cw_lex::{LexFault, Token, lex};
use cw_syntax::checked::Checked;
use cw_syntax::names::slice;
use memchr::memmem;
use std::alloc::Global;

/// Whether the bytes of a name that the form brings in stand in a source, be it in a comment or within another name: where they don't, no token is one.
fn has_name(source: &[u8]) -> bool
    ensures { result ≡ false → (t : TokenOf) → is_taken source.now t ≡ false }
{
    memmem::find(source, b"fork").is_some() || memmem::find(source, b"_exit").is_some()
}

/// The tokens of a source that was read.
fn tokens_of(alloc: Global, checked: &Checked) -> Result<Vec<Token>, NoMemory>
    requires short { length checked.now.source.now ≤ SOURCE_BYTES }
    requires reads { ReadsAs checked.now.source.now (file_of checked.now.program) }
    ensures { IfOk result (λ tokens. AreTokens checked.now.source.now tokens.items) }
{
    match lex(alloc, checked.source) {
        Ok(tokens) => Ok(tokens),
        Err(fault) => match fault {
            LexFault::NoMemory => Err(NoMemory),
            _ => unreachable!(),
        },
    }
}

/// Whether a token is `fork` or `_exit`.
fn is_taken(source: &[u8], token: Token) -> bool
    ensures { result ≡ is_taken source.now token }
{
    let bytes = slice(source, token.from, token.to);
    bytes == b"fork".as_slice() || bytes == b"_exit".as_slice()
}

/// The first of these tokens that is such a name.
#[tactic(auto, unfolding(crate::specs::Faults::taken))]
fn first_taken(source: &[u8], tokens: &[Token]) -> Option<ProcFault>
    ensures { result ≡ taken source.now tokens.now }
{
    for token in tokens {
        if is_taken(source, *token) {
            return Some(ProcFault::Taken(token.from));
        }
    }
    None
}

/// The first token of a source that is a name which the form brings in. Most sources have no such name anywhere in their bytes, and aren't cut into tokens again.
pub(crate) fn taken(alloc: Global, checked: &Checked) -> Result<Option<ProcFault>, NoMemory>
    requires short { length checked.now.source.now ≤ SOURCE_BYTES }
    requires reads { ReadsAs checked.now.source.now (file_of checked.now.program) }
    ensures { IfOk result (λ fault. (tokens : List TokenOf) × AreTokens checked.now.source.now tokens × (fault ≡ taken checked.now.source.now tokens)) }
{
    if !has_name(checked.source) {
        return Ok(None);
    }
    let tokens = tokens_of(alloc, checked)?;
    Ok(first_taken(checked.source, &tokens))
}
