//! What is drawn from a source before it runs.

ghost use Rattle.std.specs.Prelude.{◌≡◌, map, IfOk};
ghost use Rattle.std.specs.List.{filter_map};
ghost use Rattle.cw_syntax.specs.Names.{text};
ghost use Rattle.cw_syntax.specs.Trees.{definition_of, File};
ghost use Rattle.cw_value.specs.Deeds.{said_all};
ghost use Rattle.cw_value.specs.Expressions.{given_for};
ghost use Rattle.cw_value.specs.Machines.{own_names, shared_names};
ghost use Rattle.cw_slots.specs.Shown.{scope_of};
ghost use Rattle.cw_machine.specs.Knowing.{said_in, seen_by};

use crate::said::Said;
use cw_slots::{Names, NamesAt, Scope, own_names, said};
use cw_syntax::program::{Function, Param};
use std::alloc::{AllocError, Global};

/// The names of each function.
pub fn all_own_names<'s>(
    alloc: Global,
    source: &'s [u8],
    functions: &[Function],
) -> Result<Vec<Names<'s>>, AllocError>
    ensures names { IfOk result (λ own. own.items ≡ map (own_names source.now) (map definition_of functions.now)) }
{
    let mut own = Vec::new(alloc);
    for function in functions {
        own.push(own_names(alloc, source, function)?)?;
    }
    Ok(own)
}

/// Where a body begins, and where it ends.
fn span_of(function: Option<&Function>) -> (u32, u32) {
    let Some(function) = function else {
        return (0, 0);
    };
    match function.body.last() {
        None => (function.brace, function.brace),
        Some(last) => (function.brace, last.to),
    }
}

/// Where the names are kept that stand in each function, which has these names of its own beside those of its file.
pub fn all_names_at<'s>(
    alloc: Global,
    source: &'s [u8],
    functions: &[Function],
    own: &[Names<'s>],
    shared: &Names<'s>,
) -> Result<Vec<NamesAt<'s>>, AllocError>
    ensures standing { (file : File) → own.now ≡ map (own_names source.now) file.functions → shared.now ≡ shared_names source.now file
        → IfOk result (λ all. all.items ≡ map (λ f. seen_by source.now file (own_names source.now f)) file.functions) }
{
    let mut all = Vec::new(alloc);
    let mut number = 0_usize;
    for names in own {
        let (from, to) = span_of(functions.get(number));
        all.push(NamesAt::of(alloc, source, names, shared, from, to)?)?;
        number = number.saturating_add(1);
    }
    Ok(all)
}

/// The statements of each function.
pub fn all_said(alloc: Global, functions: &[Function]) -> Result<Vec<Said<'_>>, AllocError>
    ensures said { IfOk result (λ all. map said_in all.items ≡ map (λ f. said_all f.body) (map definition_of functions.now)) }
{
    let mut all = Vec::new(alloc);
    for function in functions {
        all.push(Said::of(alloc, said(alloc, &function.body)?)?)?;
    }
    Ok(all)
}

/// The values that are handed in for parameters.
pub fn given_cells(scope: &Scope, params: &[Param]) -> Result<Vec<Option<i64>>, AllocError>
    ensures cells { IfOk result (λ cells. cells.items ≡ map (given_for (scope_of scope.now)) (map (text (scope_of scope.now).source) (filter_map (λ p. p.name) params.now))) }
{
    let mut cells = Vec::new(scope.alloc);
    for param in params {
        if let Some(name) = param.name {
            cells.push(scope.given(scope.text(name.from, name.to)))?;
        }
    }
    Ok(cells)
}
