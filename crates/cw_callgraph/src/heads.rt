//! The head of a function: whether its result and its parameters forbid splitting it.

ghost use Rattle.std.specs.Prelude.{◌≡◌, map};
ghost use Rattle.std.specs.List.{list_all};
ghost use Rattle.cw_syntax.specs.Trees.{definition_of};
ghost use Rattle.cw_callgraph.specs.Forbidding.{is_result, may_be_result, is_void, may_be_parameter, head_places};
ghost use Rattle.cw_callgraph.specs.Lowest.{lowest};

use cw_syntax::program::{Base, CType, Function, Param};

/// Whether the result of a function that is split may have this keyword: `void`, or `int` that isn't `unsigned`.
fn is_result(base: Base, unsigned: bool) -> bool
    ensures { result ≡ is_result base unsigned }
{
    match base {
        Base::Void => true,
        Base::Int => !unsigned,
        Base::Char | Base::Long => false,
    }
}

/// Whether a function with this result may be split: what a process can give back by its exit status.
fn may_be_result(kind: CType) -> bool
    ensures { result ≡ may_be_result kind }
{
    kind.stars == 0 && is_result(kind.base, kind.unsigned)
}

/// Whether a type's keyword is `void`.
fn is_void(base: Base) -> bool
    ensures { result ≡ is_void base }
{
    match base {
        Base::Void => true,
        Base::Char | Base::Int | Base::Long => false,
    }
}

/// Whether a function with this parameter may be split: a number, no pointer and no array.
fn may_be_parameter(param: &Param) -> bool
    ensures { result ≡ may_be_parameter param.now }
{
    !is_void(param.kind.base) && param.kind.stars == 0 && !param.array
}

/// Whether a function with these parameters may be split.
fn may_be_parameters(params: &[Param]) -> bool
    ensures { result ≡ list_all may_be_parameter params.now }
{
    for param in params {
        if !may_be_parameter(param) {
            return false;
        }
    }
    true
}

/// The place at which the head of a function forbids splitting it: its name.
pub(crate) fn head_place(function: &Function) -> Option<u32>
    ensures { result ≡ lowest (head_places (definition_of function.now)) }
{
    if may_be_result(function.result) && may_be_parameters(&function.params) {
        None
    } else {
        Some(function.name.from)
    }
}
