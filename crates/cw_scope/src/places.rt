//! The soonest places of a program at which a scope rule fails.

ghost use Rattle.std.specs.Prelude.{◌≡◌, map};
ghost use Rattle.cw_syntax.specs.Trees.{file_of};
ghost use Rattle.cw_scope.specs.Rules.{wrong_arity, function_name, defined_call, main_call, reserved, loose_jump};
ghost use Rattle.cw_resolve.specs.Soonest.{soonest};
ghost use Rattle.cw_scope.specs.Held.{nested_of, tree_at};
ghost use Rattle.cw_scope.specs.Known.{IsKnown};
ghost use Rattle.cw_scope.specs.Mentions.{every_call};
ghost use Rattle.cw_scope.specs.Walks.{every_node};

use crate::functions::Functions;
use crate::rules;
use crate::walks::Nested;
use cw_resolve::sooner;
use cw_syntax::program::{Expr, Name};

/// The soonest place of a call with a wrong number of arguments.
#[tactic(auto, using(cw_resolve::proofs::Lesser::sooner_assoc))]
fn wrong_arities(known: &Functions, calls: &[&Expr]) -> Option<u32>
    requires known { IsKnown known.now }
    ensures { result ≡ soonest (map (wrong_arity known.now.source.now (file_of known.now.program.now)) (map tree_at calls.now)) }
{
    let mut place = None;
    for e in calls {
        place = sooner(place, rules::wrong_arity(known, e));
    }
    place
}

/// That of a program, whose calls these are.
pub(crate) fn wrong_arity(known: &Functions, calls: &[&Expr]) -> Option<u32>
    requires known { IsKnown known.now }
    requires calls { map tree_at calls.now ≡ every_call (file_of known.now.program.now) }
    ensures { result ≡ soonest (map (wrong_arity known.now.source.now (file_of known.now.program.now)) (every_node (file_of known.now.program.now))) }
{
    wrong_arities(known, calls)
}

/// The soonest place of a name that is one of a defined function.
#[tactic(auto, using(cw_resolve::proofs::Lesser::sooner_assoc))]
pub(crate) fn function_names(known: &Functions, names: &[Name]) -> Option<u32>
    requires known { IsKnown known.now }
    ensures { result ≡ soonest (map (function_name known.now.source.now (file_of known.now.program.now)) names.now) }
{
    let mut place = None;
    for name in names {
        place = sooner(place, rules::function_name(known, *name));
    }
    place
}

/// The soonest place of a call of a defined function.
#[tactic(auto, using(cw_resolve::proofs::Lesser::sooner_assoc))]
pub(crate) fn defined_calls(known: &Functions, nodes: &[&Expr]) -> Option<u32>
    requires known { IsKnown known.now }
    ensures { result ≡ soonest (map (defined_call known.now.source.now (file_of known.now.program.now)) (map tree_at nodes.now)) }
{
    let mut place = None;
    for e in nodes {
        place = sooner(place, rules::defined_call(known, e));
    }
    place
}

/// The soonest place of a call of `main`.
#[tactic(auto, using(cw_resolve::proofs::Lesser::sooner_assoc))]
fn main_calls(source: &[u8], calls: &[&Expr]) -> Option<u32>
    ensures { result ≡ soonest (map (main_call source.now) (map tree_at calls.now)) }
{
    let mut place = None;
    for e in calls {
        place = sooner(place, rules::main_call(source, e));
    }
    place
}

/// That of a program, whose calls these are.
pub(crate) fn main_call(known: &Functions, calls: &[&Expr]) -> Option<u32>
    requires calls { map tree_at calls.now ≡ every_call (file_of known.now.program.now) }
    ensures { result ≡ soonest (map (main_call known.now.source.now) (every_node (file_of known.now.program.now))) }
{
    main_calls(known.source, calls)
}

/// The soonest place of a name that is reserved.
#[tactic(auto, using(cw_resolve::proofs::Lesser::sooner_assoc))]
pub(crate) fn reserved_names(source: &[u8], names: &[Name]) -> Option<u32>
    ensures { result ≡ soonest (map (reserved source.now) names.now) }
{
    let mut place = None;
    for name in names {
        place = sooner(place, rules::reserved(source, *name));
    }
    place
}

/// The soonest place of a `break` or `continue` outside loops.
#[tactic(auto, using(cw_resolve::proofs::Lesser::sooner_assoc))]
pub(crate) fn loose_jumps(statements: &[Nested]) -> Option<u32>
    ensures { result ≡ soonest (map (λ p. loose_jump p.looped p.statement) (map nested_of statements.now)) }
{
    let mut place = None;
    for nested in statements {
        place = sooner(place, rules::loose_jump(*nested));
    }
    place
}
