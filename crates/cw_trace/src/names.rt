//! The names that a trace tells.

ghost use Rattle.std.specs.Prelude.{◌≡◌, map, IfOk};
ghost use Rattle.cw_syntax.specs.Names.{Names as PolicyNames};
ghost use Rattle.cw_syntax.specs.Trees.{file_of};
ghost use Rattle.cw_syntax.specs.Plans.{plan_of};
ghost use Rattle.cw_points.specs.Graphs.{IsGraph};
ghost use Rattle.cw_resolve.specs.Held.{lists, name_in};
ghost use Rattle.cw_trace.specs.Labels.{label_at, names_of, name_lists};

use cw_core::{NoMemory, SeamId};
use cw_points::{Graph, Seam};
use cw_resolve::{Labelled, function_names, labels_in, name_in};
use cw_syntax::checked::Checked;
use cw_syntax::names::text;
use std::alloc::Global;

/// The names of a program's functions by their numbers, and of its labels by the numbers of their seams; other seams have the
/// empty name.
#[derive(Drop)]
pub struct Names {
    pub functions: Vec<Vec<u8>>,
    pub labels: Vec<Vec<u8>>,
}

impl Names {
    /// The name of the function with this number.
    pub fn function(&self, number: u32) -> &[u8]
        ensures name { result.now ≡ name_in (name_lists self.now).functions number }
    {
        name_in(&self.functions, number as usize)
    }

    /// The name of the label at a seam.
    pub fn label(&self, seam: SeamId) -> &[u8]
        ensures name { result.now ≡ name_in (name_lists self.now).labels seam.0 }
    {
        name_in(&self.labels, seam.0 as usize)
    }
}

/// The name of the label whose mark is at this place; none where no label's is.
fn label_at<'s>(source: &'s [u8], labels: &[Labelled], place: u32) -> &'s [u8]
    ensures { result.now ≡ label_at source.now labels.now place }
{
    match labels.iter().find(|label| label.mark == place) {
        Some(label) => text(source, label.name),
        None => &[],
    }
}

/// The name of the label of each seam.
fn seam_names(
    alloc: Global,
    source: &[u8],
    labels: &[Labelled],
    seams: &[Seam],
) -> Result<Vec<Vec<u8>>, NoMemory>
    ensures { IfOk result (λ names. lists names.items ≡ map (λ s. label_at source.now labels.now s.place) seams.now) }
{
    let mut names = Vec::new(alloc);
    for seam in seams {
        let name = label_at(source, labels, seam.place).to_vec(alloc)?;
        names.push(name)?;
    }
    Ok(names)
}

/// The names that a trace of a program tells, beside those of the policy under whose names the graph was drawn.
#[tactic(auto, using(crate::proofs::Named::all_named))]
pub fn trace_names(alloc: Global, checked: &Checked, graph: &Graph) -> Result<Names, NoMemory>
    ensures names { IfOk result (λ names. (given : PolicyNames)
        → IsGraph given checked.now.source.now (file_of checked.now.program) graph.now
        → name_lists names ≡ names_of checked.now.source.now (file_of checked.now.program) (plan_of given checked.now.source.now (file_of checked.now.program))) }
{
    let functions = function_names(alloc, checked.source, &checked.program)?;
    let labelled = labels_in(alloc, &checked.program)?;
    let labels = seam_names(alloc, checked.source, &labelled, &graph.seams)?;
    Ok(Names { functions, labels })
}
