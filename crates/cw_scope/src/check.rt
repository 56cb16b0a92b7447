//! The scope rules over a whole program, in their order.

ghost use Rattle.std.specs.Prelude.{◌≡◌, None, map, IfOk, IfErr};
ghost use Rattle.cw_syntax.specs.Trees.{definition_of, file_of};
ghost use Rattle.cw_scope.specs.Rules.{second_label, wrong_form};
ghost use Rattle.cw_resolve.specs.Soonest.{soonest};
ghost use Rattle.cw_scope.specs.Faults.{no_main, two_functions, two_labels, arity, call_form, main_called, reserved_name, jump, limit, ◌or_else◌, scope_fault, IsDue};
ghost use Rattle.cw_scope.specs.Held.{nested_of, whole_of, tree_at};
ghost use Rattle.cw_scope.specs.Mentions.{every_call};
ghost use Rattle.cw_scope.specs.Names.{uses, labels_of, every_label, every_name};
ghost use Rattle.cw_scope.specs.Walks.{body_of, every_node, every_statement, every_whole};
ghost use Rattle.cw_scope.specs.Known.{IsKnown};

use crate::faults::ScopeFault;
use crate::forms::every_mention;
use crate::functions::{Functions, by_names};
use crate::lists::{every_statement, every_whole};
use crate::names::{every_name, function_names, labels, put_labels, uses};
use crate::places;
use crate::rules::{are_more, has_main, repeated};
use crate::walks::{Nested, Whole, put_statements};
use cw_core::{Quantity, limits};
use cw_resolve::sooner;
use cw_syntax::checked::Checked;
use cw_syntax::program::{Expr, Function, Name, Program};
use std::alloc::{AllocError, Global};

/// A program that doesn't define `main`.
#[tactic(auto, unfolding(crate::specs::Faults::no_main))]
fn no_main(source: &[u8], program: &Program) -> Option<ScopeFault>
    ensures { result ≡ no_main source.now (file_of program.now) }
{
    if has_main(source, program) {
        None
    } else {
        Some(ScopeFault::NoMain)
    }
}

/// A function that is defined twice.
#[tactic(auto, unfolding(crate::specs::Faults::two_functions))]
fn two_functions(
    alloc: Global,
    source: &[u8],
    program: &Program,
) -> Result<Option<ScopeFault>, AllocError>
    ensures { IfOk result (λ fault. fault ≡ two_functions source.now (file_of program.now)) }
{
    let names = function_names(alloc, program)?;
    match repeated(alloc, source, &names)? {
        None => Ok(None),
        Some(name) => Ok(Some(ScopeFault::TwoFunctions(name))),
    }
}

/// The labels of a function, in place of those that stood there. Its statements stand in the other list on the way: both lists keep their memory
/// from function to function.
fn put_body_labels<'p>(
    function: &'p Function,
    statements: &mut Vec<Nested<'p>>,
    names: &mut Vec<Name>,
) -> Result<(), AllocError>
    ensures { IfOk result (λ _. names.new.items ≡ labels_of (body_of (definition_of function.now))) }
{
    statements.clear();
    put_statements(&function.body, false, statements)?;
    names.clear();
    put_labels(statements, names)
}

/// Function by function, the first label that stands there again.
fn second_label(
    alloc: Global,
    source: &[u8],
    functions: &[Function],
) -> Result<Option<Name>, AllocError>
    ensures { IfOk result (λ name. name ≡ second_label source.now (map definition_of functions.now)) }
{
    let mut statements = Vec::new(alloc);
    let mut names = Vec::new(alloc);
    for function in functions {
        put_body_labels(function, &mut statements, &mut names)?;
        if let Some(name) = repeated(alloc, source, &names)? {
            return Ok(Some(name));
        }
    }
    Ok(None)
}

/// The same of a program with these labels. Mostly none of them stands twice: then none does in one function, and no function is walked over.
fn second_among(
    alloc: Global,
    source: &[u8],
    program: &Program,
    labels: &[Name],
) -> Result<Option<Name>, AllocError>
    requires labels { labels.now ≡ every_label (file_of program.now) }
    ensures { IfOk result (λ name. name ≡ second_label source.now (file_of program.now).functions) }
{
    match repeated(alloc, source, labels)? {
        None => Ok(None),
        Some(_) => second_label(alloc, source, &program.functions),
    }
}

/// A label that stands twice in one function, of a program with these labels.
#[tactic(auto, unfolding(crate::specs::Faults::two_labels))]
fn two_labels(
    alloc: Global,
    source: &[u8],
    program: &Program,
    labels: &[Name],
) -> Result<Option<ScopeFault>, AllocError>
    requires labels { labels.now ≡ every_label (file_of program.now) }
    ensures { IfOk result (λ fault. fault ≡ two_labels source.now (file_of program.now)) }
{
    match second_among(alloc, source, program, labels)? {
        None => Ok(None),
        Some(name) => Ok(Some(ScopeFault::TwoLabels(name))),
    }
}

/// A call with another number of arguments than its function has parameters.
#[tactic(auto, unfolding(crate::specs::Faults::arity))]
fn arity(known: &Functions, calls: &[&Expr]) -> Option<ScopeFault>
    requires known { IsKnown known.now }
    requires calls { map tree_at calls.now ≡ every_call (file_of known.now.program.now) }
    ensures { result ≡ arity known.now.source.now (file_of known.now.program.now) (every_node (file_of known.now.program.now)) }
{
    match places::wrong_arity(known, calls) {
        None => None,
        Some(place) => Some(ScopeFault::Arity(place)),
    }
}

/// A name of a function that is no call, or a call that stands where none may.
#[tactic(auto, unfolding(crate::specs::Faults::call_form))]
fn call_form(
    known: &Functions,
    names: &[Name],
    _wholes: &[Whole],
    misformed: Option<u32>,
) -> Option<ScopeFault>
    requires known { IsKnown known.now }
    requires misformed { misformed ≡ soonest (map (wrong_form known.now.source.now (file_of known.now.program.now)) (map whole_of _wholes.now)) }
    ensures { result ≡ call_form known.now.source.now (file_of known.now.program.now) names.now (map whole_of _wholes.now) }
{
    let named = places::function_names(known, names);
    match sooner(named, misformed) {
        None => None,
        Some(place) => Some(ScopeFault::CallForm(place)),
    }
}

/// A call of `main`.
#[tactic(auto, unfolding(crate::specs::Faults::main_called))]
fn main_called(known: &Functions, calls: &[&Expr]) -> Option<ScopeFault>
    requires calls { map tree_at calls.now ≡ every_call (file_of known.now.program.now) }
    ensures { result ≡ main_called known.now.source.now (every_node (file_of known.now.program.now)) }
{
    match places::main_call(known, calls) {
        None => None,
        Some(place) => Some(ScopeFault::MainCalled(place)),
    }
}

/// A name that begins with `cw_` or `CW_`.
#[tactic(auto, unfolding(crate::specs::Faults::reserved_name))]
fn reserved_name(source: &[u8], names: &[Name]) -> Option<ScopeFault>
    ensures { result ≡ reserved_name source.now names.now }
{
    match places::reserved_names(source, names) {
        None => None,
        Some(place) => Some(ScopeFault::Reserved(place)),
    }
}

/// A `break` or `continue` outside loops.
#[tactic(auto, unfolding(crate::specs::Faults::jump))]
fn jump(statements: &[Nested]) -> Option<ScopeFault>
    ensures { result ≡ jump (map nested_of statements.now) }
{
    match places::loose_jumps(statements) {
        None => None,
        Some(place) => Some(ScopeFault::Jump(place)),
    }
}

/// Too many functions, or labels of different names.
#[tactic(auto, unfolding(crate::specs::Faults::limit))]
fn limit(
    alloc: Global,
    source: &[u8],
    program: &Program,
    labels: &[Name],
) -> Result<Option<ScopeFault>, AllocError>
    ensures { IfOk result (λ fault. fault ≡ limit source.now (file_of program.now) labels.now) }
{
    if program.functions.len() > limits::FUNCTIONS {
        return Ok(Some(ScopeFault::Limit(Quantity::Functions)));
    }
    if are_more(alloc, source, labels, limits::LABELS)? {
        Ok(Some(ScopeFault::Limit(Quantity::Labels)))
    } else {
        Ok(None)
    }
}

/// The fault of the first rule on whole functions that the program, which has these labels, breaks.
fn early_fault(
    alloc: Global,
    source: &[u8],
    program: &Program,
    labels: &[Name],
) -> Result<Option<ScopeFault>, AllocError>
    requires labels { labels.now ≡ every_label (file_of program.now) }
    ensures { IfOk result (λ fault. fault ≡ no_main source.now (file_of program.now)
        or_else two_functions source.now (file_of program.now)
        or_else two_labels source.now (file_of program.now)) }
{
    let functions = two_functions(alloc, source, program)?;
    let labels = two_labels(alloc, source, program, labels)?;
    Ok(no_main(source, program).or(functions).or(labels))
}

/// The fault that an earlier rule has, or else that of the first rule on calls and names that the program breaks. The statements and
/// whole expressions are those of the program.
fn mention_fault(
    alloc: Global,
    known: Functions,
    statements: &[Nested],
    wholes: &[Whole],
    early: Option<ScopeFault>,
) -> Result<Option<ScopeFault>, AllocError>
    requires known { IsKnown known }
    requires statements { map nested_of statements.now ≡ every_statement (file_of known.program.now) }
    requires wholes { map whole_of wholes.now ≡ every_whole (file_of known.program.now) }
    ensures { IfOk result (λ fault. fault ≡ early
        or_else arity known.entry.source.now (file_of known.entry.program.now) (every_node (file_of known.entry.program.now))
        or_else call_form known.entry.source.now (file_of known.entry.program.now) (uses (file_of known.entry.program.now)) (every_whole (file_of known.entry.program.now))
        or_else main_called known.entry.source.now (every_node (file_of known.entry.program.now))
        or_else reserved_name known.entry.source.now (every_name (file_of known.entry.program.now))) }
{
    let mentioned = every_mention(alloc, &known, wholes)?;
    let used = uses(alloc, known.program, statements, &mentioned.names)?;
    let called = call_form(&known, &used, wholes, mentioned.misformed);
    let names = every_name(known.program, used, &mentioned.calls)?;
    Ok(
        early
            .or(arity(&known, &mentioned.calls))
            .or(called)
            .or(main_called(&known, &mentioned.calls))
            .or(reserved_name(known.source, &names)),
    )
}

/// The same, of a program whose statements these are.
fn called_fault(
    alloc: Global,
    source: &[u8],
    program: &Program,
    statements: &[Nested],
    early: Option<ScopeFault>,
) -> Result<Option<ScopeFault>, AllocError>
    requires { map nested_of statements.now ≡ every_statement (file_of program.now) }
    ensures { IfOk result (λ fault. fault ≡ early
        or_else arity source.now (file_of program.now) (every_node (file_of program.now))
        or_else call_form source.now (file_of program.now) (uses (file_of program.now)) (every_whole (file_of program.now))
        or_else main_called source.now (every_node (file_of program.now))
        or_else reserved_name source.now (every_name (file_of program.now))) }
{
    let wholes = every_whole(alloc, program, statements)?;
    let known = by_names(alloc, source, program)?;
    mention_fault(alloc, known, statements, &wholes, early)
}

/// The fault of the first rule that the program breaks.
fn scope_fault(
    alloc: Global,
    source: &[u8],
    program: &Program,
) -> Result<Option<ScopeFault>, AllocError>
    ensures { IfOk result (λ fault. fault ≡ scope_fault source.now (file_of program.now)) }
{
    let statements = every_statement(alloc, program)?;
    let labels = labels(alloc, &statements)?;
    let early = early_fault(alloc, source, program, &labels)?;
    let called = called_fault(alloc, source, program, &statements, early)?;
    let limited = limit(alloc, source, program, &labels)?;
    Ok(called.or(jump(&statements)).or(limited))
}

/// A program with its source, where the scope rules hold.
///
/// The program is the one that was read from the source. The rules are tested in the order of the variants of `ScopeFault`, each
/// over the whole source; the first that is broken is answered, and nothing is handed back. Public source: ISO/IEC 9899:2011,
/// sections 6.2.1, 6.5.2.2, 6.8.1, 6.8.6 and 6.9, and this project's subset of C.
pub fn check_scope<'s>(
    alloc: Global,
    source: &'s [u8],
    program: Program,
) -> Result<Checked<'s>, ScopeFault>
    ensures ok { IfOk result (λ checked. scope_fault source.now (file_of program) ≡ None) }
    ensures source { IfOk result (λ checked. checked.source.now ≡ source.now) }
    ensures program { IfOk result (λ checked. checked.program ≡ program) }
    ensures fault { IfErr result (λ fault. IsDue (scope_fault source.now (file_of program)) fault) }
{
    match scope_fault(alloc, source, &program)? {
        None => Ok(Checked { source, program }),
        Some(fault) => Err(fault),
    }
}
