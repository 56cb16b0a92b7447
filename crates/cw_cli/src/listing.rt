//! What is due for a source whose graph is asked for.

ghost use Rattle.std.specs.Prelude.{◌≤◌, length, IfOk};
ghost use Rattle.cw_syntax.specs.Trees.{file_of};
ghost use Rattle.cw_source.specs.Read.{ReadsAs};
ghost use Rattle.cw_source_graph.specs.Own.{own_names, IsDrawn};
ghost use Rattle.cw_commands.specs.Outcomes.{due_of};
ghost use Rattle.cw_commands.specs.Starts.{Starts, StartsLine};
ghost use Rattle.cw_cli.specs.Listings.{IsListed, IsListingDue};

use cw_commands::{Outcome, Reply};
use cw_core::limits::SOURCE_BYTES;
use cw_core::{NoMemory, Quantity};
use cw_io::{Sink, Writer};
use cw_listing::{Names, put_graph};
use cw_points::PointsFault;
use cw_resolve::function_names;
use cw_source::read_source;
use cw_source_graph::{Drawn, draw_own};
use cw_stages::{over, source_refusal};
use cw_syntax::checked::Checked;
use std::alloc::Global;
use std::mem::forget;

/// The lines of a program's graph.
fn listed<O: Sink, N: Sink>(
    alloc: Global,
    checked: &Checked,
    drawn: &Drawn,
    out: &mut O,
    note: &mut N,
) -> Result<Outcome<O, N>, NoMemory>
    requires drawn { IsDrawn (own_names checked.now.source.now (file_of checked.now.program)) checked.now.source.now (file_of checked.now.program) drawn.now }
    ensures due { IfOk result (λ outcome. IsListed checked.now.source.now (file_of checked.now.program) (due_of outcome)) }
    ensures puts { Starts O.taken O.faults O.refused out.old out.new result }
    ensures notes { StartsLine N.taken N.faults N.refused note.old note.new result }
{
    let functions = function_names(alloc, checked.source, &checked.program)?;
    let names = Names {
        functions: &functions,
        labels: &drawn.labels,
        descriptors: &[],
    };
    let mut writer = Writer::begin(out);
    put_graph(names, &drawn.calls, &drawn.graph, &mut writer, out);
    Ok(Outcome::Told(Reply::Yes, writer))
}

/// What is due for a program whose graph is asked for.
fn of_program<O: Sink, N: Sink>(
    alloc: Global,
    checked: &Checked,
    out: &mut O,
    note: &mut N,
) -> Result<Outcome<O, N>, NoMemory>
    requires reads { ReadsAs checked.now.source.now (file_of checked.now.program) }
    ensures due { IfOk result (λ outcome. IsListed checked.now.source.now (file_of checked.now.program) (due_of outcome)) }
    ensures puts { Starts O.taken O.faults O.refused out.old out.new result }
    ensures notes { StartsLine N.taken N.faults N.refused note.old note.new result }
{
    match draw_own(alloc, checked) {
        Ok(drawn) => listed(alloc, checked, &drawn, out, note),
        Err(PointsFault::TooManyPoints) => Ok(over(Quantity::Points, note)),
        Err(PointsFault::NoMemory) => Err(NoMemory),
    }
}

/// What is due for the bytes of a source whose graph is asked for.
pub fn listing_due<O: Sink, N: Sink>(
    alloc: Global,
    source: &[u8],
    out: &mut O,
    note: &mut N,
) -> Result<Outcome<O, N>, NoMemory>
    requires short { length source.now ≤ SOURCE_BYTES }
    ensures due { IfOk result (λ outcome. IsListingDue source.now (due_of outcome)) }
    ensures puts { Starts O.taken O.faults O.refused out.old out.new result }
    ensures notes { StartsLine N.taken N.faults N.refused note.old note.new result }
{
    match read_source(alloc, source) {
        Ok(checked) => {
            let outcome = of_program(alloc, &checked, out, note);
            // As in `check`: the end of the process gives the blocks of the tree back at once.
            forget(checked);
            outcome
        }
        Err(fault) => source_refusal(source, &fault, note),
    }
}
