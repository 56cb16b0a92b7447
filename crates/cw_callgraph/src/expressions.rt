//! The places in an expression that forbid splitting.

ghost use Rattle.std.specs.Prelude.{◌≡◌, ◌++◌, IfOk};
ghost use Rattle.cw_syntax.specs.Trees.{tree_of, trees_of};
ghost use Rattle.cw_callgraph.specs.Scoping.{meaning_of, first_means};
ghost use Rattle.cw_callgraph.specs.Forbidding.{place_if, first_role, element_at, is_element, first_is_element, writes, prefix_forbids, name_forbids, forbids_itself, places, places_in};

use crate::scopes::{Known, Meaning, Scope, is_array, is_parameter, is_shared, meaning_at};
use cw_core::NoMemory;
use cw_syntax::program::{Expr, Op};

/// How an expression stands in the one around it: its value is taken; it is the base of an index whose value is taken; or it is
/// assigned, changed, or has its address taken.
#[derive(Clone, Copy, Drop)]
pub(crate) enum Role {
    Value,
    Base,
    Target,
}

/// The role of the first part of an expression that has this operator and this role.
fn first_role(role: Role, op: Op) -> Role
    ensures { result ≡ first_role role op }
{
    match op {
        Op::Index => match role {
            Role::Target => Role::Value,
            Role::Value | Role::Base => Role::Base,
        },
        Op::Assign(_) => Role::Target,
        Op::Suffix(_) => Role::Target,
        Op::Prefix(n) => {
            if n >= 5 && n <= 7 {
                Role::Target
            } else {
                Role::Value
            }
        }
        _ => Role::Value,
    }
}

/// What an expression that is a name means there.
fn meaning_of(scope: &Scope, e: &Expr) -> Option<Meaning>
    ensures { result ≡ meaning_of scope.now.source.now scope.now.file.now scope.now.inner.now (tree_of e.now) }
{
    meaning_at(scope, e.op, e.from, e.to)
}

/// What the first part of an expression means, where it is a name.
fn first_means(scope: &Scope, parts: &[Expr]) -> Option<Meaning>
    ensures { result ≡ first_means scope.now.source.now scope.now.file.now scope.now.inner.now (trees_of parts.now) }
{
    match parts {
        [] => None,
        [first, ..] => meaning_of(scope, first),
    }
}

/// Whether an expression of this operator and these parts is an element of an array of file scope.
fn element_at(scope: &Scope, op: Op, parts: &[Expr]) -> bool
    ensures { result ≡ element_at scope.now.source.now scope.now.file.now scope.now.inner.now op (trees_of parts.now) }
{
    match op {
        Op::Index => is_array(first_means(scope, parts)),
        _ => false,
    }
}

/// Whether an expression is an element of an array of file scope.
fn is_element(scope: &Scope, e: &Expr) -> bool
    ensures { result ≡ is_element scope.now.source.now scope.now.file.now scope.now.inner.now (tree_of e.now) }
{
    element_at(scope, e.op, &e.parts)
}

/// Whether the first part of an expression is one.
fn first_is_element(scope: &Scope, parts: &[Expr]) -> bool
    ensures { result ≡ first_is_element scope.now.source.now scope.now.file.now scope.now.inner.now (trees_of parts.now) }
{
    match parts {
        [] => false,
        [first, ..] => is_element(scope, first),
    }
}

/// Whether a change of the first part changes what the file's functions share.
fn writes(scope: &Scope, parts: &[Expr]) -> bool
    ensures { result ≡ writes scope.now.source.now scope.now.file.now scope.now.inner.now (trees_of parts.now) }
{
    is_shared(first_means(scope, parts)) || first_is_element(scope, parts)
}

/// Whether `*`, `&`, `++` or `--`, by its number, forbids splitting before these parts.
fn prefix_forbids(scope: &Scope, n: u8, parts: &[Expr]) -> bool
    ensures { result ≡ prefix_forbids scope.now.source.now scope.now.file.now scope.now.inner.now n (trees_of parts.now) }
{
    let means = first_means(scope, parts);
    n == 4 && is_parameter(means)
        || n == 5 && (is_shared(means) || is_parameter(means))
        || (n == 6 || n == 7) && writes(scope, parts)
}

/// Whether a name of this meaning forbids splitting in this role.
fn name_forbids(role: Role, means: Option<Meaning>) -> bool
    ensures { result ≡ name_forbids role means }
{
    match role {
        Role::Base => false,
        Role::Value | Role::Target => is_array(means),
    }
}

/// Whether an expression of this operator, these parts and this span forbids splitting by itself.
fn forbids_itself(scope: &Scope, role: Role, op: Op, parts: &[Expr], from: u32, to: u32) -> bool
    ensures { result ≡ forbids_itself scope.now.source.now scope.now.file.now scope.now.inner.now role op (trees_of parts.now) from to }
{
    match op {
        Op::Name => name_forbids(role, meaning_at(scope, op, from, to)),
        Op::Assign(_) => writes(scope, parts),
        Op::Suffix(_) => writes(scope, parts),
        Op::Prefix(n) => prefix_forbids(scope, n, parts),
        _ => false,
    }
}

/// Appends a place, where something forbids splitting there.
pub(crate) fn put_if(forbids: bool, place: u32, out: &mut Vec<u32>) -> Result<(), NoMemory>
    ensures { IfOk result (λ _. out.new.items ≡ out.old.items ++ place_if forbids place) }
{
    if forbids {
        out.push(place)?;
    }
    Ok(())
}

/// Appends the places in an expression that forbid splitting.
#[cycle(places)]
pub(crate) fn put_places(
    scope: &Scope,
    role: Role,
    e: &Expr,
    out: &mut Vec<u32>,
) -> Result<(), NoMemory>
    ensures { IfOk result (λ _. out.new.items ≡ out.old.items ++ places scope.now.source.now scope.now.file.now scope.now.inner.now role (tree_of e.now)) }
{
    let forbids = forbids_itself(scope, role, e.op, &e.parts, e.from, e.to);
    put_if(forbids, e.from, out)?;
    put_places_in(scope, first_role(role, e.op), &e.parts, out)
}

/// Appends those in these parts, of which the first has this role.
#[cycle(places)]
pub(crate) fn put_places_in(
    scope: &Scope,
    first: Role,
    parts: &[Expr],
    out: &mut Vec<u32>,
) -> Result<(), NoMemory>
    ensures { IfOk result (λ _. out.new.items ≡ out.old.items ++ places_in scope.now.source.now scope.now.file.now scope.now.inner.now first (trees_of parts.now)) }
{
    let mut role = first;
    for part in parts {
        put_places(scope, role, part, out)?;
        role = Role::Value;
    }
    Ok(())
}
