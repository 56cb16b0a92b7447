//! What the names in a function mean, by the scopes of C.

ghost use Rattle.std.specs.Prelude.{◌≡◌, None, ◌++◌, map, IfOk};
ghost use Rattle.std.specs.List.{filter, flat_map};
ghost use Rattle.cw_syntax.specs.Trees.{declared_of, declaration_of, file_of};
ghost use Rattle.cw_callgraph.specs.Scoping.{latest, name_means, meaning_at, is_shared, is_array, is_parameter, has_shape, global, globals_in, file_scope, parameters, local_meaning};

use cw_core::NoMemory;
use cw_syntax::names::{slice, text};
use cw_syntax::program::{Decl, Item, Name, Op, Param, Program};
use std::alloc::Global;

/// What a name may mean: a variable or an array at file scope, a parameter, or a local variable.
#[derive(Clone, Copy, Drop)]
pub(crate) enum Meaning {
    Variable,
    Array,
    Parameter,
    Local,
}

/// A declared name and its meaning.
#[derive(Clone, Copy, Drop)]
pub(crate) struct Known {
    pub name: Name,
    pub means: Meaning,
}

/// The names that are known at a place: those at file scope, and those of the function, of which a later one hides an earlier one.
#[derive(Clone, Copy, Drop)]
pub(crate) struct Scope<'a> {
    pub source: &'a [u8],
    pub file: &'a [Known],
    pub inner: &'a [Known],
}

/// What a name means by the last of some names that is the same, and what it meant before where none is.
fn latest(source: &[u8], before: Option<Meaning>, known: &[Known], name: &[u8]) -> Option<Meaning>
    ensures { result ≡ latest source.now before known.now name.now }
{
    let mut means = before;
    for one in known {
        if name == text(source, one.name) {
            means = Some(one.means);
        }
    }
    means
}

/// What a name means in a function: the names known within it stand before those of file scope, which are looked through only where
/// none of these is the name.
fn name_means(scope: &Scope, name: &[u8]) -> Option<Meaning>
    ensures { result ≡ name_means scope.now.source.now scope.now.file.now scope.now.inner.now name.now }
{
    match latest(scope.source, None, scope.inner, name) {
        Some(means) => Some(means),
        None => latest(scope.source, None, scope.file, name),
    }
}

/// What an expression of this operator and span means, where it is a name.
pub(crate) fn meaning_at(scope: &Scope, op: Op, from: u32, to: u32) -> Option<Meaning>
    ensures { result ≡ meaning_at scope.now.source.now scope.now.file.now scope.now.inner.now op from to }
{
    match op {
        Op::Name => name_means(scope, slice(scope.source, from, to)),
        _ => None,
    }
}

/// Whether a name is one of file scope.
pub(crate) fn is_shared(means: Option<Meaning>) -> bool
    ensures { result ≡ is_shared means }
{
    match means {
        Some(Meaning::Variable | Meaning::Array) => true,
        Some(Meaning::Parameter | Meaning::Local) | None => false,
    }
}

/// Whether a name is an array of file scope.
pub(crate) fn is_array(means: Option<Meaning>) -> bool
    ensures { result ≡ is_array means }
{
    match means {
        Some(Meaning::Array) => true,
        Some(Meaning::Variable | Meaning::Parameter | Meaning::Local) | None => false,
    }
}

/// Whether what a name means is a parameter of the function.
pub(crate) fn is_parameter(means: Option<Meaning>) -> bool
    ensures { result ≡ is_parameter means }
{
    match means {
        Some(Meaning::Parameter) => true,
        Some(Meaning::Variable | Meaning::Array | Meaning::Local) | None => false,
    }
}

/// Whether a declared name is an array, or whether it is none.
fn has_shape(arrays: bool, item: &Item) -> bool
    ensures { result ≡ has_shape arrays (declared_of item.now) }
{
    if arrays {
        item.array.is_some()
    } else {
        item.array.is_none()
    }
}

/// What a name that is declared outside functions means.
fn global(arrays: bool, item: &Item) -> Known
    ensures { result ≡ global arrays (declared_of item.now) }
{
    Known {
        name: item.name,
        means: if arrays {
            Meaning::Array
        } else {
            Meaning::Variable
        },
    }
}

/// Appends the arrays of a declaration, or its other names.
fn put_items(arrays: bool, items: &[Item], out: &mut Vec<Known>) -> Result<(), NoMemory>
    ensures { IfOk result (λ _. out.new.items ≡ out.old.items ++ map (global arrays) (filter (has_shape arrays) (map declared_of items.now))) }
{
    for item in items {
        if has_shape(arrays, item) {
            out.push(global(arrays, item))?;
        }
    }
    Ok(())
}

/// Appends the arrays of all declarations outside functions, or their other names.
fn put_globals(arrays: bool, declarations: &[Decl], out: &mut Vec<Known>) -> Result<(), NoMemory>
    ensures { IfOk result (λ _. out.new.items ≡ out.old.items ++ flat_map (globals_in arrays) (map declaration_of declarations.now)) }
{
    for declaration in declarations {
        put_items(arrays, &declaration.items, out)?;
    }
    Ok(())
}

/// The names at file scope.
pub(crate) fn file_scope(alloc: Global, program: &Program) -> Result<Vec<Known>, NoMemory>
    ensures { IfOk result (λ known. known.items ≡ file_scope (file_of program.now)) }
{
    let mut known = Vec::new(alloc);
    put_globals(false, &program.globals, &mut known)?;
    put_globals(true, &program.globals, &mut known)?;
    Ok(known)
}

/// Appends the names of a function's parameters.
pub(crate) fn put_parameters(params: &[Param], known: &mut Vec<Known>) -> Result<(), NoMemory>
    ensures { IfOk result (λ _. known.new.items ≡ known.old.items ++ parameters params.now) }
{
    for param in params {
        if let Some(name) = param.name {
            known.push(Known {
                name,
                means: Meaning::Parameter,
            })?;
        }
    }
    Ok(())
}

/// What a name means that is declared in a function: with `extern` the file's own variable, where there is one.
pub(crate) fn local_meaning(source: &[u8], file: &[Known], external: bool, name: Name) -> Meaning
    ensures { result ≡ local_meaning source.now file.now external name }
{
    if !external {
        return Meaning::Local;
    }
    match latest(source, None, file, text(source, name)) {
        Some(means) => means,
        None => Meaning::Local,
    }
}
