//! The tree of an expression, built from left to right.

ghost use Rattle.std.specs.Prelude.{◌≡◌, ◌∷◌, [], ◌++◌, map, IfOk};
ghost use Rattle.cw_rights.specs.Trees.{tree_of, one, literal_of, star, plus, maybe};
ghost use Rattle.cw_regex.specs.Meaning.{joined_seq, joined_alt};
ghost use Rattle.cw_regex.specs.Items.{level_of, levels_of, finished, empty, with_factor, on_last, closed_into, repeated, with_literal, with_begin, with_close, with_bar, repeated_by, with_sign};

use crate::text::Sign;
use cw_rights::{Lit, Regex};
use std::alloc::{AllocError, Global};

/// The terms that were closed by `|`, and the factors of the term after them.
#[derive(Drop)]
pub struct Frame {
    pub terms: Vec<Regex>,
    pub factors: Vec<Regex>,
}

/// The level that is open, and those around it, the innermost last.
#[derive(Drop)]
pub struct Building {
    pub inner: Frame,
    pub outer: Vec<Frame>,
}

/// Factors one after the other; one alone is itself.
fn sequence(mut factors: Vec<Regex>) -> Regex
    ensures { tree_of result ≡ joined_seq (map tree_of factors.items) }
{
    if factors.len() != 1 {
        return Regex::Cat(factors);
    }
    match factors.pop() {
        Some(only) => only,
        None => Regex::Cat(factors),
    }
}

/// Terms of which one is taken; one alone is itself.
fn alternative(mut terms: Vec<Regex>) -> Regex
    ensures { tree_of result ≡ joined_alt (map tree_of terms.items) }
{
    if terms.len() != 1 {
        return Regex::Or(terms);
    }
    match terms.pop() {
        Some(only) => only,
        None => Regex::Or(terms),
    }
}

/// The expression of a level.
pub fn finish(frame: Frame) -> Result<Regex, AllocError>
    ensures { IfOk result (λ r. tree_of r ≡ finished (level_of frame)) }
{
    let Frame { mut terms, factors } = frame;
    terms.push(sequence(factors))?;
    Ok(alternative(terms))
}

/// Nothing is built yet.
pub fn nothing(alloc: Global) -> Building
    ensures { levels_of result ≡ record { inner = empty; outer = [] } }
{
    Building {
        inner: new_frame(alloc),
        outer: Vec::new(alloc),
    }
}

/// A level without terms and factors.
fn new_frame(alloc: Global) -> Frame
    ensures { level_of result ≡ empty }
{
    Frame {
        terms: Vec::new(alloc),
        factors: Vec::new(alloc),
    }
}

/// A level with one factor more.
fn with_factor(frame: Frame, factor: Regex) -> Result<Frame, AllocError>
    ensures { IfOk result (λ f. level_of f ≡ with_factor (level_of frame) (tree_of factor)) }
{
    let Frame { terms, mut factors } = frame;
    factors.push(factor)?;
    Ok(Frame { terms, factors })
}

/// A literal comes.
pub fn put_literal(building: Building, lit: Lit) -> Result<Building, AllocError>
    ensures { IfOk result (λ b. levels_of b ≡ with_literal (levels_of building) (literal_of lit)) }
{
    let Building { inner, outer } = building;
    Ok(Building {
        inner: with_factor(inner, Regex::Lit(lit))?,
        outer,
    })
}

/// Begins a level, at `(`.
fn put_begin(alloc: Global, building: Building) -> Result<Building, AllocError>
    ensures { IfOk result (λ b. levels_of b ≡ with_begin (levels_of building)) }
{
    let Building { inner, mut outer } = building;
    outer.push(inner)?;
    Ok(Building {
        inner: new_frame(alloc),
        outer,
    })
}

/// Ends a level, at `)`: it becomes a factor of the level around it.
fn put_close(alloc: Global, building: Building) -> Result<Building, AllocError>
    ensures { IfOk result (λ b. levels_of b ≡ with_close (levels_of building)) }
{
    let Building { inner, mut outer } = building;
    let done = finish(inner)?;
    let below = match outer.pop() {
        Some(frame) => frame,
        None => new_frame(alloc),
    };
    Ok(Building {
        inner: with_factor(below, done)?,
        outer,
    })
}

/// Begins a new term, at `|`.
fn put_bar(alloc: Global, building: Building) -> Result<Building, AllocError>
    ensures { IfOk result (λ b. levels_of b ≡ with_bar (levels_of building)) }
{
    let Building { inner, outer } = building;
    let Frame { mut terms, factors } = inner;
    terms.push(sequence(factors))?;
    Ok(Building {
        inner: Frame {
            terms,
            factors: Vec::new(alloc),
        },
        outer,
    })
}

/// An expression under `*`, `+` or `?`.
fn repeated(sign: Sign, body: Box<Regex>) -> Regex
    ensures { tree_of result ≡ repeated_by sign (tree_of body.value) }
{
    match sign {
        Sign::Star => Regex::Star(body),
        Sign::Plus => Regex::Plus(body),
        _ => Regex::Maybe(body),
    }
}

/// Repeats the last factor.
fn repeat_last(alloc: Global, mut factors: Vec<Regex>, sign: Sign) -> Result<Vec<Regex>, AllocError>
    ensures { IfOk result (λ v. map tree_of v.items ≡ on_last (repeated_by sign) (map tree_of factors.items)) }
{
    match factors.pop() {
        None => Ok(factors),
        Some(last) => {
            factors.push(repeated(sign, Box::new(alloc, last)?))?;
            Ok(factors)
        }
    }
}

/// Repeats the last factor of the innermost level, at `*`, `+` or `?`.
fn put_repeat(alloc: Global, building: Building, sign: Sign) -> Result<Building, AllocError>
    ensures { IfOk result (λ b. levels_of b ≡ repeated (repeated_by sign) (levels_of building)) }
{
    let Building { inner, outer } = building;
    let Frame { terms, factors } = inner;
    Ok(Building {
        inner: Frame {
            terms,
            factors: repeat_last(alloc, factors, sign)?,
        },
        outer,
    })
}

/// A sign comes that is no dot.
pub fn put_sign(alloc: Global, building: Building, sign: Sign) -> Result<Building, AllocError>
    ensures { IfOk result (λ b. levels_of b ≡ with_sign (levels_of building) sign) }
{
    match sign {
        Sign::ParenOpen => put_begin(alloc, building),
        Sign::ParenClose => put_close(alloc, building),
        Sign::Bar => put_bar(alloc, building),
        _ => put_repeat(alloc, building, sign),
    }
}
