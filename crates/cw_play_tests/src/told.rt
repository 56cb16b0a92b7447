//! Games of programs and policies by their texts, and what goes through them by lists of tapes.

ghost use Rattle.std.specs.Prelude.{◌≤◌, length};
ghost use Rattle.cw_rights.specs.Policies.{policy_of};
ghost use Rattle.cw_rights.specs.Valid.{IsValid};
ghost use Rattle.cw_syntax.specs.Trees.{file_of};
ghost use Rattle.cw_resolve.specs.Scenes.{names_of};
ghost use Rattle.cw_points.specs.Graphs.{IsGraph};
ghost use Rattle.cw_source.specs.Read.{ReadsAs};

use crate::plays::every_play;
use crate::runs::every_run;
use cw_certs::{EnvCert, WeaverCert};
use cw_points::Graph;
use cw_points::build::build;
use cw_policy::read_policy;
use cw_product::Game;
use cw_rights::Policy;
use cw_source::read_source;
use cw_strategy_text::read_env;
use cw_syntax::checked::Checked;
use cw_woven::{accept_woven, open_woven};
use std::alloc::Global;
use std::process::Abort;

/// What goes by a tape, by its texts.
#[derive(Clone, Copy)]
pub enum Given<'t> {
    /// The play of a source against a strategy.
    Play(&'t str, &'t str),
    /// The run of a woven text.
    Run(&'t str),
}

/// A policy, what goes by a tape, the list of tapes, and how many these are.
pub type Row<'t> = (&'t str, Given<'t>, &'t str, usize);

/// What is tested before a tape is taken.
#[derive(Clone, Copy)]
enum Cert<'t> {
    Strategy(&'t EnvCert),
    Table(&'t WeaverCert),
}

/// How many tapes of a list are told so, by a strategy or a table over a program's graph; none where one isn't.
fn by_graph(
    alloc: Global,
    policy: &Policy,
    checked: &Checked,
    graph: &Graph,
    cert: Cert,
    list: &str,
) -> usize
    requires valid { IsValid (policy_of policy.now) }
    requires reads { ReadsAs checked.now.source.now (file_of checked.now.program) }
    requires graph { IsGraph (names_of (policy_of policy.now)) checked.now.source.now (file_of checked.now.program) graph.now }
{
    if graph.nodes.len() > 8192 {
        return 0;
    }
    let Ok(game) = Game::make(alloc, graph, policy) else {
        return 0;
    };
    match cert {
        Cert::Strategy(cert) => every_play(alloc, checked, &game, cert, list),
        Cert::Table(table) => every_run(alloc, checked, &game, table, list),
    }
}

/// How many plays of a source against a strategy are told so.
fn played(alloc: Global, policy: &Policy, source: &str, strategy: &str, list: &str) -> usize
    requires valid { IsValid (policy_of policy.now) }
{
    if source.len() > 262144 {
        return 0;
    }
    let Ok(cert) = read_env(alloc, strategy.as_bytes(), 1) else {
        return 0;
    };
    let Ok(checked) = read_source(alloc, source.as_bytes()) else {
        return 0;
    };
    match build(alloc, &checked, policy) {
        Ok(graph) => by_graph(alloc, policy, &checked, &graph, Cert::Strategy(&cert), list),
        Err(_) => 0,
    }
}

/// How many runs of a woven text are told so.
fn ran(alloc: Global, policy: &Policy, text: &str, list: &str) -> usize
    requires valid { IsValid (policy_of policy.now) }
{
    if text.len() > 65536 {
        return 0;
    }
    let Ok(opened) = open_woven(alloc, text.as_bytes(), policy) else {
        return 0;
    };
    match accept_woven(alloc, &opened, policy) {
        Ok(program) => by_graph(
            alloc,
            policy,
            &program.checked,
            &program.graph,
            Cert::Table(&opened.table),
            list,
        ),
        Err(_) => 0,
    }
}

/// How many tapes of a list are told as the list has it; none where one isn't.
fn told(alloc: Global, policy: &str, given: Given, list: &str) -> usize {
    let Ok(policy) = read_policy(alloc, policy.as_bytes()) else {
        return 0;
    };
    match given {
        Given::Play(source, strategy) => played(alloc, &policy, source, strategy, list),
        Given::Run(text) => ran(alloc, &policy, text, list),
    }
}

/// Asserts that each of the so many tapes of a list is told as the list has it.
pub fn all_told(rt: &impl Abort, alloc: Global, rows: &[Row]) {
    for (policy, given, list, tapes) in rows {
        assert_eq!(rt; told(alloc, policy, *given, list), *tapes);
    }
}
