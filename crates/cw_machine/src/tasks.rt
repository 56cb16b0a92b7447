//! What is to be done at each point of a program.

ghost use Rattle.std.specs.Prelude.{◌≡◌, List, map, slice_get, IfOk};
ghost use Rattle.std.specs.List.{All};
ghost use Rattle.cw_syntax.specs.Trees.{Definition};
ghost use Rattle.cw_value.specs.Deeds.{said_all};
ghost use Rattle.cw_eval.specs.Passings.{deed_in};
ghost use Rattle.cw_machine.specs.Knowing.{IsTask, deed_for, place_of, rows_in, said_in};

use crate::said::Said;
use cw_deeds::{Row, deed_by};
use cw_eval::Deed;
use std::alloc::{AllocError, Global};

/// What is to be done at a point: its row, the number of a function, and what passing the row does in that function.
#[derive(Clone, Copy, Drop)]
pub struct Task<'s> {
    pub row: Row,
    pub function: usize,
    pub deed: Deed<'s>,
}

/// The place of the statement that a row stands for.
fn place_of(row: Row) -> u32
    ensures { result ≡ place_of row }
{
    match row {
        Row::Rests | Row::Ends => 0,
        Row::Plain(at) | Row::Returns(at) | Row::Opens(at) | Row::Closes(at) => at,
        Row::Calls(at, _, _) => at,
        Row::Decides(at) | Row::Steps(at) => at,
    }
}

/// What passing a row does in the function with this number, where the functions have these statements.
pub(crate) fn deed_of<'s>(said: &[Said<'s>], number: usize, row: Row) -> Deed<'s>
    ensures { (functions : List Definition) → map said_in said.now ≡ map (λ f. said_all f.body) functions → deed_in result ≡ deed_for (slice_get functions number) row }
{
    if number >= said.len() {
        return Deed::Rests;
    }
    deed_by(said[number].behind(place_of(row)), row)
}

/// What is to be done at a point with this row in the function with this number.
fn task_of<'s>(said: &[Said<'s>], function: usize, row: Row) -> Task<'s>
    ensures row { result.row ≡ row }
    ensures task { (functions : List Definition) → map said_in said.now ≡ map (λ f. said_all f.body) functions → IsTask functions result }
{
    Task {
        row,
        function,
        deed: deed_of(said, function, row),
    }
}

/// The number of the function of the row behind this one.
fn function_behind(row: Row, number: usize) -> usize {
    match row {
        Row::Ends => number.saturating_add(1),
        _ => number,
    }
}

/// What is to be done at the points with these rows, where the functions have these statements.
///
/// Each task is right for the function that it names. No clause says that this is the function of the point: who goes by a task tests that.
pub fn all_tasks<'s>(
    alloc: Global,
    said: &[Said<'s>],
    rows: &[Row],
) -> Result<Vec<Task<'s>>, AllocError>
    ensures rows { IfOk result (λ tasks. rows_in tasks.items ≡ rows.now) }
    ensures tasks { (functions : List Definition) → map said_in said.now ≡ map (λ f. said_all f.body) functions → IfOk result (λ tasks. All (IsTask functions) tasks.items) }
{
    let mut tasks = Vec::new(alloc);
    let mut number = 0_usize;
    for row in rows {
        tasks.push(task_of(said, number, *row))?;
        number = function_behind(*row, number);
    }
    Ok(tasks)
}
