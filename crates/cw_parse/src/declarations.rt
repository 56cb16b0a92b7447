//! Declarations.

ghost use Rattle.std.specs.Prelude.{◌≡◌};
ghost use Rattle.cw_expressions.specs.Cursor.{Gives, begins};
ghost use Rattle.cw_grammar.specs.declared.terminals.Terminal.TheVariants.{Comma};
ghost use Rattle.cw_parse.specs.Lists.{one_more, many, behind, separated};
ghost use Rattle.cw_parse.specs.DeclarationReading.{item, declaration};
ghost use Rattle.cw_parse.specs.DeclarationView.{specifiers_of, itemed, items, declared};

use crate::initialisers::{array_at, initialiser_at};
use crate::specifiers::{Specifiers, name_at, specifiers_at};
use cw_expressions::cursor::{begins_with, first_of, past, take};
use cw_expressions::refusal::Refusal;
use cw_expressions::types::stars_at;
use cw_grammar::terminals::{Lexeme, Terminal};
use cw_syntax::program::{CType, Decl, Item};
use std::alloc::Global;

/// One name of a declaration: stars, name, size, initialiser (ISO C11, 6.7).
#[tactic(auto, unfolding(crate::specs::DeclarationReading::item))]
fn item_at<'t>(
    alloc: Global,
    specifiers: Specifiers,
    tokens: &'t [Lexeme],
) -> Result<(Item, &'t [Lexeme]), Refusal>
    ensures { Gives itemed result (item (specifiers_of specifiers) tokens.now) }
{
    let (stars, rest) = stars_at(tokens);
    let (name, rest) = name_at(rest)?;
    let (array, rest) = array_at(alloc, rest)?;
    let ((init, braces), rest) = initialiser_at(alloc, rest)?;
    let kind = CType {
        base: specifiers.base,
        unsigned: specifiers.unsigned,
        stars,
    };
    Ok((
        Item {
            kind,
            name,
            array,
            init,
            braces,
        },
        rest,
    ))
}

/// An item behind a comma.
#[tactic(auto, unfolding(crate::specs::Lists::one_more))]
fn item_after<'t>(
    alloc: Global,
    specifiers: Specifiers,
    before: (Vec<Item>, &'t [Lexeme]),
) -> Result<(Vec<Item>, &'t [Lexeme]), Refusal>
    ensures { Gives items result (one_more (behind (item (specifiers_of specifiers))) (items before.entry)) }
{
    let (mut list, rest) = before;
    let (item, rest) = item_at(alloc, specifiers, past(rest))?;
    list.push(item)?;
    Ok((list, rest))
}

/// The items behind the first.
fn items_after<'t>(
    alloc: Global,
    specifiers: Specifiers,
    first: (Vec<Item>, &'t [Lexeme]),
) -> Result<(Vec<Item>, &'t [Lexeme]), Refusal>
    ensures { Gives items result (many (behind (item (specifiers_of specifiers))) (begins Comma) (items first.entry)) }
{
    let mut so_far = first;
    'items: while begins_with(so_far.1, Terminal::Comma) {
        so_far = item_after(alloc, specifiers, so_far)?;
    }
    Ok(so_far)
}

/// The names of a declaration, with commas between them.
#[tactic(auto, unfolding(crate::specs::Lists::separated))]
fn items_at<'t>(
    alloc: Global,
    specifiers: Specifiers,
    tokens: &'t [Lexeme],
) -> Result<(Vec<Item>, &'t [Lexeme]), Refusal>
    ensures { Gives items result (separated (item (specifiers_of specifiers)) (begins Comma) tokens.now) }
{
    let (first, rest) = item_at(alloc, specifiers, tokens)?;
    let list = Vec::from_array(alloc, [first])?;
    let (mut list, rest) = items_after(alloc, specifiers, (list, rest))?;
    list.shrink_to_fit();
    Ok((list, rest))
}

/// The declaration that is next, with its `;`, and the tokens after it. Its span goes from the first byte of its tokens to the
/// last. Public source: ISO/IEC 9899:2011, 6.7.
#[tactic(auto, unfolding(crate::specs::DeclarationReading::declaration))]
pub(crate) fn declaration_at<'t>(
    alloc: Global,
    tokens: &'t [Lexeme],
) -> Result<(Decl, &'t [Lexeme]), Refusal>
    ensures { Gives declared result (declaration tokens.now) }
{
    let (first, _) = first_of(tokens)?;
    let (specifiers, rest) = specifiers_at(tokens)?;
    let (items, rest) = items_at(alloc, specifiers, rest)?;
    let (semicolon, rest) = take(rest, Terminal::Semicolon)?;
    Ok((
        Decl {
            external: specifiers.external,
            fixed: specifiers.fixed,
            constant: specifiers.constant,
            items,
            from: first.from,
            to: semicolon.to,
        },
        rest,
    ))
}
