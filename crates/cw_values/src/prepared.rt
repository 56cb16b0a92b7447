//! What is drawn from a program before it runs.

ghost use Rattle.std.specs.Prelude.{◌≡◌, map, IfOk};
ghost use Rattle.cw_rights.specs.Policies.{PlainPolicy, policy_of};
ghost use Rattle.cw_syntax.specs.Trees.{file_of};
ghost use Rattle.cw_resolve.specs.Scenes.{names_of};
ghost use Rattle.cw_points.specs.Graphs.{IsGraph};
ghost use Rattle.cw_starts.specs.Sources.{source_in};
ghost use Rattle.cw_machine.specs.Knowing.{IsKnown};
ghost use Rattle.cw_values.specs.Running.{IsRunOf, IsPrepared};

use crate::running::Run;
use cw_core::NoMemory;
use cw_deeds::rows;
use cw_machine::{Known, Said, Task, all_names_at, all_own_names, all_said, all_tasks};
use cw_points::Graph;
use cw_rights::Policy;
use cw_slots::{Names, NamesAt, shared_names};
use cw_starts::Source;
use cw_syntax::checked::Checked;
use cw_syntax::program::Function;
use std::alloc::Global;

/// What is drawn from a program before it runs: what is to be done at each point, the names of the file and of its functions, the
/// statements of each function, and where the names are kept that stand in it.
#[derive(Drop)]
pub struct Prepared<'s> {
    pub tasks: Vec<Task<'s>>,
    pub shared: Names<'s>,
    pub none: Names<'s>,
    pub own: Vec<Names<'s>>,
    pub said: Vec<Said<'s>>,
    pub standing: Vec<NamesAt<'s>>,
    pub nowhere: NamesAt<'s>,
}

/// Draws from a program what its runs go by.
pub fn prepare<'s>(
    alloc: Global,
    checked: &'s Checked<'s>,
    policy: &Policy,
) -> Result<Prepared<'s>, NoMemory>
    ensures { IfOk result (λ prepared. IsPrepared (policy_of policy.now) checked.now.source.now (file_of checked.now.program) prepared) }
{
    let rows = rows(alloc, checked, policy)?;
    let shared = shared_names(alloc, checked.source, &checked.program)?;
    let own = all_own_names(alloc, checked.source, &checked.program.functions)?;
    let said = all_said(alloc, &checked.program.functions)?;
    let tasks = all_tasks(alloc, &said, &rows)?;
    let functions: &[Function] = &checked.program.functions;
    let standing = all_names_at(alloc, checked.source, functions, &own, &shared)?;
    let none = Names::none(alloc);
    let nowhere = NamesAt::none(alloc, checked.source, &none, &shared);
    Ok(Prepared {
        tasks,
        shared,
        none,
        own,
        said,
        standing,
        nowhere,
    })
}

impl<'s> Prepared<'s> {
    /// What a run goes by.
    pub fn run<'a>(&'a self, source: Source<'s>, graph: &'a Graph) -> Run<'a, 's>
        ensures known { (policy : PlainPolicy) → IsPrepared policy (source_in source.entry).bytes (source_in source.entry).file self.now → IsKnown result.known }
        ensures is_run { (policy : PlainPolicy) → IsPrepared policy (source_in source.entry).bytes (source_in source.entry).file self.now → IsGraph (names_of policy) (source_in source.entry).bytes (source_in source.entry).file graph.now → IsRunOf policy result }
        ensures source { result.known.source ≡ source.entry }
    {
        Run {
            known: Known {
                source,
                shared: &self.shared,
                none: &self.none,
                own: &self.own,
                said: &self.said,
                tasks: &self.tasks,
                standing: &self.standing,
                nowhere: &self.nowhere,
            },
            graph,
        }
    }
}
