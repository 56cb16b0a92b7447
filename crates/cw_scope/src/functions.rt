//! The functions of a program by their names.

ghost use Rattle.std.specs.Prelude.{◌≡◌, [], map, slice_index, true, None, IfOk};
ghost use Rattle.std.specs.Option.{option_map};
ghost use Rattle.cw_syntax.specs.Trees.{definition_of, file_of};
ghost use Rattle.cw_scope.specs.Rules.{defined, is_defined};
ghost use Rattle.cw_scope.specs.Known.{AreFirst, Begin, IsKnown};
ghost use Rattle.cw_syntax.specs.Names.{text};

use cw_syntax::names::text;
use cw_syntax::program::{Function, Name, Program};
use std::alloc::{AllocError, Global};
use std::collections::HashMap;

/// A program with its source, and its functions by their names.
#[derive(Drop)]
pub(crate) struct Functions<'p> {
    pub source: &'p [u8],
    pub program: &'p Program,
    pub by_name: HashMap<&'p [u8], &'p Function>,
    /// The bytes with which the names of functions begin: most other names begin with none of them.
    pub first_bytes: [bool; 256],
}

/// The byte with which a name begins, and 0 where it has none.
fn first_byte(name: &[u8]) -> u8
    ensures { result ≡ slice_index name.now 0 }
{
    match name {
        [] => 0,
        [first, ..] => *first,
    }
}

/// The bytes with which the names of these functions begin.
fn first_bytes(source: &[u8], functions: &[Function]) -> [bool; 256]
    ensures { Begin source.now (map definition_of functions.now) result }
{
    let mut begins = [false; 256];
    let mut at = functions.len();
    while at > 0 {
        at -= 1;
        let function = &functions[at];
        let byte = first_byte(text(source, function.name));
        begins[byte as usize] = true;
    }
    begins
}

/// Of the functions with one name the first.
fn by_name<'p>(
    alloc: Global,
    source: &'p [u8],
    functions: &'p [Function],
) -> Result<HashMap<&'p [u8], &'p Function>, AllocError>
    ensures { IfOk result (λ held. AreFirst source.now (map definition_of functions.now) held.entries) }
{
    let mut held = HashMap::new(alloc);
    let mut at = functions.len();
    while at > 0 {
        at -= 1;
        let function = &functions[at];
        held.insert(text(source, function.name), function)?;
    }
    Ok(held)
}

/// The functions of a program by their names.
pub(crate) fn by_names<'p>(
    alloc: Global,
    source: &'p [u8],
    program: &'p Program,
) -> Result<Functions<'p>, AllocError>
    ensures known { IfOk result IsKnown }
    ensures source { IfOk result (λ known. known.source.now ≡ source.now) }
    ensures program { IfOk result (λ known. known.program.now ≡ program.now) }
{
    let by_name = by_name(alloc, source, &program.functions)?;
    let first_bytes = first_bytes(source, &program.functions);
    Ok(Functions {
        source,
        program,
        by_name,
        first_bytes,
    })
}

/// The definition of the function with this name.
pub(crate) fn found<'p>(known: &Functions<'p>, name: &[u8]) -> Option<&'p Function>
    requires known { IsKnown known.now }
    ensures { option_map (λ f. definition_of f.now) result ≡ defined known.now.source.now (file_of known.now.program.now) name.now }
{
    if !known.first_bytes[first_byte(name) as usize] {
        return None;
    }
    match known.by_name.get(name) {
        Some(function) => Some(*function),
        None => None,
    }
}

/// Whether a name begins in the source with a byte with which no function's name begins.
#[tactic(auto, using(crate::proofs::Beginnings::unfound))]
fn begins_apart(known: &Functions, name: Name) -> bool
    requires known { IsKnown known.now }
    ensures { result ≡ true → defined known.now.source.now (file_of known.now.program.now) (text known.now.source.now name) ≡ None }
{
    let from = name.from as usize;
    if name.to <= name.from || known.source.len() <= from {
        return false;
    }
    !known.first_bytes[known.source[from] as usize]
}

/// Whether a function with this name is defined.
pub(crate) fn is_defined(known: &Functions, name: Name) -> bool
    requires known { IsKnown known.now }
    ensures { result ≡ is_defined known.now.source.now (file_of known.now.program.now) (text known.now.source.now name) }
{
    !begins_apart(known, name) && found(known, text(known.source, name)).is_some()
}
