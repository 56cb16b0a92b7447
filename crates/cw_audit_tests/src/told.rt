//! What is told of an audit of a program under a policy, all by their texts.

ghost use Rattle.cw_rights.specs.Policies.{policy_of};
ghost use Rattle.cw_rights.specs.Valid.{IsValid};
ghost use Rattle.cw_syntax.specs.Trees.{file_of};
ghost use Rattle.cw_resolve.specs.Scenes.{names_of};
ghost use Rattle.cw_points.specs.Graphs.{IsGraph};
ghost use Rattle.cw_source.specs.Read.{ReadsAs};

use crate::tables::{check, find, print};
use cw_points::Graph;
use cw_points::build::build;
use cw_policy::read_policy;
use cw_product::Game;
use cw_rights::Policy;
use cw_source::read_source;
use cw_syntax::checked::Checked;
use std::alloc::Global;
use std::process::Abort;

/// What is asked of an audit's text.
#[derive(Clone, Copy)]
pub enum Question {
    /// Whether the audit that is read of it is exact.
    Checked,
    /// Whether the audit that is read of it is printed so.
    Printed,
    /// Whether the audit that is found is printed so.
    Found,
}

/// What is told of an audit.
#[derive(Clone, Copy, PartialEq, Eq)]
pub enum Told {
    /// It is exact.
    Exact,
    /// Its table is good, but its moves don't show its distance.
    NotShown,
    /// The group, the row and the condition that fails.
    Bad(u32, u32, u8),
    /// The line at which it is no audit's text.
    Line(u32),
    /// It is printed as the text.
    Printed,
    /// It is printed otherwise: its distance, how many moves it has, and how many rows.
    Other(Option<u32>, usize, usize),
    /// It would have too many rows.
    TooManyRows,
    /// It would have too many moves.
    TooManyMoves,
    /// There is none: no memory, or no game.
    Nothing,
}

/// A policy, a source and an audit, each by its text, and what is to be told.
pub type Row<'t> = (&'t str, &'t str, &'t str, Told);

/// What is told by a program's graph.
fn by_graph(
    alloc: Global,
    policy: &Policy,
    checked: &Checked,
    graph: &Graph,
    question: Question,
    text: &str,
) -> Told
    requires valid { IsValid (policy_of policy.now) }
    requires reads { ReadsAs checked.now.source.now (file_of checked.now.program) }
    requires graph { IsGraph (names_of (policy_of policy.now)) checked.now.source.now (file_of checked.now.program) graph.now }
{
    if graph.nodes.len() > 8192 {
        return Told::Nothing;
    }
    let Ok(game) = Game::make(alloc, graph, policy) else {
        return Told::Nothing;
    };
    match question {
        Question::Checked => check(alloc, &game, text),
        Question::Printed => print(alloc, text),
        Question::Found => find(alloc, &game, text),
    }
}

/// What is told by a source.
fn by_source(alloc: Global, policy: &Policy, source: &str, question: Question, text: &str) -> Told
    requires valid { IsValid (policy_of policy.now) }
{
    if source.len() > 262144 {
        return Told::Nothing;
    }
    let Ok(checked) = read_source(alloc, source.as_bytes()) else {
        return Told::Nothing;
    };
    match build(alloc, &checked, policy) {
        Ok(graph) => by_graph(alloc, policy, &checked, &graph, question, text),
        Err(_) => Told::Nothing,
    }
}

/// What is told by the texts of a policy, a source and an audit.
pub fn answer(alloc: Global, policy: &str, source: &str, question: Question, text: &str) -> Told {
    match read_policy(alloc, policy.as_bytes()) {
        Ok(policy) => by_source(alloc, &policy, source, question, text),
        Err(_) => Told::Nothing,
    }
}

/// Asserts what is told of audits.
pub fn all_told(rt: &impl Abort, alloc: Global, question: Question, rows: &[Row]) {
    for (policy, source, text, want) in rows {
        assert!(rt;
            answer(alloc, policy, source, question, text) == *want,
            "{text}"
        );
    }
}
