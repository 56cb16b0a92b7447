//! The slow way of matching: every cut of the word is tried.

ghost use Rattle.std.specs.Prelude.{◌≡◌, ◌↔◌, length, IsTrue};
ghost use Rattle.cw_rights.specs.Words.{Matches};
ghost use Rattle.cw_rights.specs.Plain.{plain, is_letter, chain};
ghost use Rattle.cw_rights.specs.Trees.{literal_of, tree_of, seq_of, alt_of};

use crate::words::{Letter, Lit, Regex, lit_matches};

/// Whether a word is one letter that a literal matches.
fn is_letter(lit: &Lit, word: &[Letter]) -> bool
    ensures { result ≡ is_letter (literal_of lit.now) word.now }
{
    match word {
        [letter] => lit_matches(lit, letter),
        _ => false,
    }
}

/// Whether an expression matches a word.
#[cycle(plain)]
#[tactic(auto, using(crate::proofs::Rows::cat_plain, crate::proofs::Rows::or_plain))]
fn plain(r: &Regex, word: &[Letter]) -> bool
    ensures { result ≡ plain (tree_of r.now) word.now }
{
    match r {
        Regex::Lit(lit) => is_letter(lit, word),
        Regex::Cat(parts) => plain_cat(parts, word),
        Regex::Or(parts) => plain_or(parts, word),
        Regex::Star(body) => plain_star(body, word),
        Regex::Plus(body) => {
            if word.is_empty() {
                plain(body, word)
            } else {
                plain_star(body, word)
            }
        }
        Regex::Maybe(body) => word.is_empty() || plain(body, word),
    }
}

/// Whether parts one after the other match a word.
#[cycle(plain)]
fn plain_cat(parts: &[Regex], word: &[Letter]) -> bool
    ensures { result ≡ plain (seq_of parts.now) word.now }
{
    match parts {
        [] => word.is_empty(),
        [first, rest @ ..] => {
            for i in 0..=word.len() {
                if plain(first, &word[..i]) && plain_cat(rest, &word[i..]) {
                    return true;
                }
            }
            false
        }
    }
}

/// Whether one of some parts matches a word.
#[cycle(plain)]
fn plain_or(parts: &[Regex], word: &[Letter]) -> bool
    ensures { result ≡ plain (alt_of parts.now) word.now }
{
    match parts {
        [] => false,
        [first, rest @ ..] => plain(first, word) || plain_or(rest, word),
    }
}

/// Whether a word is cut into words, none of them empty, which all match.
#[cycle(plain)]
fn plain_star(body: &Regex, word: &[Letter]) -> bool
    ensures { result ≡ chain (plain (tree_of body.now)) (length word.now) word.now }
{
    if word.is_empty() {
        return true;
    }
    for i in 0..word.len() {
        if plain(body, &word[..i + 1]) && plain_star(body, &word[i + 1..]) {
            return true;
        }
    }
    false
}

/// Whether a regular expression matches a word whole: the plain, slow program, for small inputs.
///
/// The contract asks nothing of the expression; the depth of calls grows with its nesting, the number of parts of
/// its sequences and the length of the word.
pub fn matches_plain(regex: &Regex, word: &[Letter]) -> bool
    ensures { IsTrue result ↔ Matches (tree_of regex.now) word.now }
{
    plain(regex, word)
}
