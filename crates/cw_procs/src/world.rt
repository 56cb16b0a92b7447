//! The world of processes by a list of steps.

ghost use Rattle.std.specs.Prelude.{◌≡◌, ◌+◌, ◌-◌, ◌∷◌, ◌++◌, ◌<◌, ◌≤◌, ◌^◌, [], List, Some, None, map, length, slice_get, option_map, vec_len, vec_capacity, IfOk, IfSome, OnErr, Bool, true, false};
ghost use Rattle.std.specs.List.{All};
ghost use Rattle.cw_rights.specs.Policies.{policy_of};
ghost use Rattle.cw_rights.specs.Valid.{IsValid};
ghost use Rattle.cw_resolve.specs.Scenes.{names_of};
ghost use Rattle.cw_syntax.specs.Trees.{file_of};
ghost use Rattle.cw_syntax.specs.Plans.{plan_of};
ghost use Rattle.cw_syntax.specs.Runnable.{IsRunnable};
ghost use Rattle.cw_points.specs.Graphs.{IsGraph};
ghost use Rattle.cw_positions.specs.Opens.{AssignsNames};
ghost use Rattle.cw_states.specs.States.{lists_of, caps_at, AreLists};
ghost use Rattle.cw_product.specs.Product.{game_of};
ghost use Rattle.cw_product.specs.Uses.{uses_of};
ghost use Rattle.cw_model.specs.Boards.{problem_of};
ghost use Rattle.cw_game.specs.Conditions.{IsGoodTable};
ghost use Rattle.cw_io.specs.Written.{Follows};
ghost use Rattle.cw_trace.specs.Labels.{name_lists, names_of as trace_names_of};
ghost use Rattle.cw_run.specs.Lines.{own_of};
ghost use Rattle.cw_run.specs.Walks.{here_of, wait_of, next_is, landing_in, entered, enters, IsHere, IsWait, IsLanding, IsNextIn};
ghost use Rattle.cw_worlds.specs.Forks.{fork_places};
ghost use Rattle.cw_procs.specs.Told.{fork_line};
ghost use Rattle.cw_procs.specs.Played.{end_of, entry_of, TellsWorld};
ghost use Rattle.cw_procs.specs.Walks.{links_of, process_of, AreKept, Moved, LeadsTo, MovesBy, Parts, ForksBy, Cover, IsFlag, Acted, is_fork, is_entry, forks_in, entries_in, one_if};

use crate::stacks::{Link, follow, innermost};
use cw_certs::{Move, WeaverCert};
use cw_core::NoMemory;
use cw_io::{Sink, Writer};
use cw_items::fork_points;
use cw_product::Game;
use cw_run::{Here, Landing, Next, begin, land, lead, put_own_move};
use cw_steps::Step;
use cw_syntax::checked::Checked;
use cw_trace::{Names, trace_names};
use std::alloc::Global;

/// How a world by a list of steps ends.
#[derive(Clone, Copy, Drop, Debug, PartialEq, Eq)]
pub enum WorldEnd {
    /// After all steps, with so many processes, those that are over among them.
    Done(u32),
    /// The step with this number, from 0, is none of the world there: the process isn't there, or it doesn't do that.
    BadStep(u32),
}

/// A process: where it is, and its calls that wait.
#[derive(Clone, Copy, Drop)]
pub(crate) struct Process {
    pub landing: Landing,
    pub calls: Option<u32>,
}

/// Whether a step can enter a function.
fn is_entry(step: Step) -> bool
    ensures { result ≡ is_entry step }
{
    !step.fork && matches!(step.by, Move::On)
}

/// How many steps can enter a function.
fn entries(steps: &[Step]) -> usize
    ensures { result ≡ entries_in steps.now }
{
    steps.iter().filter(|step| is_entry(**step)).count()
}

/// Whether a step is a fork.
fn is_fork(step: Step) -> bool
    ensures { result ≡ is_fork step }
{
    step.fork
}

/// How many steps are forks.
fn forks(steps: &[Step]) -> usize
    ensures { result ≡ forks_in steps.now }
{
    steps.iter().filter(|step| is_fork(**step)).count()
}

/// Whether the program forks at a landing.
fn forks_at(game: &Game, flags: &[bool], here: Here) -> bool
    requires here { IsHere (game_of game.now) (here_of here) }
    requires flags { Cover game.now flags.now }
    ensures flag { IsFlag game.now flags.now (here_of here) result }
{
    flags[game.site(here.pos).point.0 as usize]
}

/// Puts `PROCESS fork CHILD`.
fn put_fork<S: Sink>(process: u32, child: u32, writer: &mut Writer<S>, out: &mut S)
    requires follows { Follows S.taken S.faults S.refused writer.old out.old }
    ensures text { writer.new.text ≡ writer.old.text ++ fork_line process child }
    ensures begun { writer.new.begun ≡ writer.old.begun }
    ensures follows { Follows S.taken S.faults S.refused writer.new out.new }
{
    writer.put_number(u64::from(process), out);
    writer.put(b" fork ", out);
    writer.put_number(u64::from(child), out);
    writer.put(b"\n", out);
}

/// Where a move leads from a landing, over the calls that wait.
fn find(
    game: &Game,
    table: &WeaverCert,
    here: Here,
    calls: Option<u32>,
    links: &[Link],
    by: Move,
) -> Option<Next>
    requires here { IsHere (game_of game.now) (here_of here) }
    requires links { All (λ l. IsWait (game_of game.now) (wait_of l.wait)) links.now }
    ensures leads { LeadsTo (game_of game.now) table.now (here_of here) calls (links_of links.now) by (option_map next_is result) }
    ensures range { IfSome result (λ next. IsNextIn (game_of game.now) (next_is next)) }
    ensures few { IfSome result (λ next. entered (next_is next) ≤ enters by) }
{
    lead(
        game,
        table,
        here,
        innermost(links, calls),
        game.spot(here.pos),
        by,
    )
}

/// A move of the process with this number, found to lead there: the process after it, when the weaver has made its moves.
fn go<S: Sink>(
    game: &Game,
    table: &WeaverCert,
    names: &Names,
    number: u32,
    here: Here,
    by: Move,
    next: Next,
    calls: Option<u32>,
    links: &mut Vec<Link>,
    writer: &mut Writer<S>,
    out: &mut S,
) -> Process
    requires here { IsHere (game_of game.now) (here_of here) }
    requires next { IsNextIn (game_of game.now) (next_is next) }
    requires links { All (λ l. IsWait (game_of game.now) (wait_of l.wait)) links.old.items }
    requires room { vec_len links.old + entered (next_is next) ≤ vec_capacity links.old }
    requires few { vec_len links.old < 2 ^ 32 }
    requires follows { Follows S.taken S.faults S.refused writer.old out.old }
    ensures moved { Moved (name_lists names.now) (game_of game.now) table.now (caps_at (lists_of game.now.states)) (own_of (Some number)) (here_of here) by (next_is next) calls
        (links_of links.old.items) (links_of links.new.items) (process_of result) writer.old.text writer.new.text }
    ensures range { IsLanding (game_of game.now) (landing_in result.landing) }
    ensures kept { AreKept (links_of links.old.items) (links_of links.new.items) }
    ensures links { All (λ l. IsWait (game_of game.now) (wait_of l.wait)) links.new.items }
    ensures length { vec_len links.new ≡ vec_len links.old + entered (next_is next) }
    ensures capacity { vec_capacity links.new ≡ vec_capacity links.old }
    ensures begun { writer.new.begun ≡ writer.old.begun }
    ensures follows { Follows S.taken S.faults S.refused writer.new out.new }
{
    let spot = game.spot(here.pos);
    put_own_move(
        Some(number),
        names,
        game.policy(),
        game.main(),
        spot,
        by,
        writer,
        out,
    );
    let calls = follow(links, calls, next);
    let landing = land(game, table, names, Some(number), next, writer, out);
    Process { landing, calls }
}

/// A move of the process with this number: the process after it, or none where it is no move there.
fn move_one<S: Sink>(
    game: &Game,
    table: &WeaverCert,
    names: &Names,
    number: u32,
    here: Here,
    calls: Option<u32>,
    by: Move,
    links: &mut Vec<Link>,
    writer: &mut Writer<S>,
    out: &mut S,
) -> Option<Process>
    requires here { IsHere (game_of game.now) (here_of here) }
    requires links { All (λ l. IsWait (game_of game.now) (wait_of l.wait)) links.old.items }
    requires room { vec_len links.old + enters by ≤ vec_capacity links.old }
    requires few { vec_len links.old < 2 ^ 32 }
    requires follows { Follows S.taken S.faults S.refused writer.old out.old }
    ensures moves { MovesBy (name_lists names.now) (game_of game.now) table.now (caps_at (lists_of game.now.states)) number (here_of here) calls by (option_map process_of result)
        (links_of links.old.items) (links_of links.new.items) writer.old.text writer.new.text }
    ensures range { IfSome result (λ p. IsLanding (game_of game.now) (landing_in p.landing)) }
    ensures links { All (λ l. IsWait (game_of game.now) (wait_of l.wait)) links.new.items }
    ensures length { vec_len links.new ≤ vec_len links.old + enters by }
    ensures capacity { vec_capacity links.new ≡ vec_capacity links.old }
    ensures begun { writer.new.begun ≡ writer.old.begun }
    ensures follows { Follows S.taken S.faults S.refused writer.new out.new }
{
    match find(game, table, here, calls, links, by) {
        None => None,
        Some(next) => Some(go(
            game, table, names, number, here, by, next, calls, links, writer, out,
        )),
    }
}

/// The parent and the child of a fork that leads there.
fn part<S: Sink>(
    game: &Game,
    table: &WeaverCert,
    names: &Names,
    number: u32,
    child: u32,
    here: Here,
    calls: Option<u32>,
    right: Next,
    left: Next,
    links: &mut Vec<Link>,
    writer: &mut Writer<S>,
    out: &mut S,
) -> (Process, Process)
    requires here { IsHere (game_of game.now) (here_of here) }
    requires right { IsNextIn (game_of game.now) (next_is right) }
    requires left { IsNextIn (game_of game.now) (next_is left) }
    requires right_enters { entered (next_is right) ≡ 0 }
    requires left_enters { entered (next_is left) ≡ 0 }
    requires links { All (λ l. IsWait (game_of game.now) (wait_of l.wait)) links.old.items }
    requires room { vec_len links.old ≤ vec_capacity links.old }
    requires few { vec_len links.old < 2 ^ 32 }
    requires follows { Follows S.taken S.faults S.refused writer.old out.old }
    ensures parts { Parts (name_lists names.now) (game_of game.now) table.now (caps_at (lists_of game.now.states)) number child (here_of here) calls (next_is right) (next_is left)
        (process_of result.0) (process_of result.1) (links_of links.old.items) (links_of links.new.items) writer.old.text writer.new.text }
    ensures parent { IsLanding (game_of game.now) (landing_in result.0.landing) }
    ensures child { IsLanding (game_of game.now) (landing_in result.1.landing) }
    ensures links { All (λ l. IsWait (game_of game.now) (wait_of l.wait)) links.new.items }
    ensures length { vec_len links.new ≡ vec_len links.old }
    ensures capacity { vec_capacity links.new ≡ vec_capacity links.old }
    ensures begun { writer.new.begun ≡ writer.old.begun }
    ensures follows { Follows S.taken S.faults S.refused writer.new out.new }
{
    put_fork(number, child, writer, out);
    let parent = go(
        game,
        table,
        names,
        number,
        here,
        Move::Right,
        right,
        calls,
        links,
        writer,
        out,
    );
    let forked = go(
        game,
        table,
        names,
        child,
        here,
        Move::Left,
        left,
        calls,
        links,
        writer,
        out,
    );
    (parent, forked)
}

/// A fork of the process with this number: the process gone right, and its child, the same gone left; none where it can't be made there.
fn fork_one<S: Sink>(
    game: &Game,
    table: &WeaverCert,
    names: &Names,
    number: u32,
    child: u32,
    here: Here,
    calls: Option<u32>,
    links: &mut Vec<Link>,
    writer: &mut Writer<S>,
    out: &mut S,
) -> Option<(Process, Process)>
    requires here { IsHere (game_of game.now) (here_of here) }
    requires links { All (λ l. IsWait (game_of game.now) (wait_of l.wait)) links.old.items }
    requires room { vec_len links.old ≤ vec_capacity links.old }
    requires few { vec_len links.old < 2 ^ 32 }
    requires follows { Follows S.taken S.faults S.refused writer.old out.old }
    ensures forks { ForksBy (name_lists names.now) (game_of game.now) table.now (caps_at (lists_of game.now.states)) number child (here_of here) calls
        (option_map (λ two. (process_of two.0, process_of two.1)) result) (links_of links.old.items) (links_of links.new.items) writer.old.text writer.new.text }
    ensures parent { IfSome result (λ two. IsLanding (game_of game.now) (landing_in two.0.landing)) }
    ensures child { IfSome result (λ two. IsLanding (game_of game.now) (landing_in two.1.landing)) }
    ensures links { All (λ l. IsWait (game_of game.now) (wait_of l.wait)) links.new.items }
    ensures length { vec_len links.new ≡ vec_len links.old }
    ensures capacity { vec_capacity links.new ≡ vec_capacity links.old }
    ensures begun { writer.new.begun ≡ writer.old.begun }
    ensures follows { Follows S.taken S.faults S.refused writer.new out.new }
{
    match find(game, table, here, calls, links, Move::Right) {
        None => None,
        Some(right) => match find(game, table, here, calls, links, Move::Left) {
            None => None,
            Some(left) => Some(part(
                game, table, names, number, child, here, calls, right, left, links, writer, out,
            )),
        },
    }
}

/// A step at the landing of a process: whether it was one. Then the process is the one after it, and at a fork the child is the last one.
fn act_at<S: Sink>(
    game: &Game,
    table: &WeaverCert,
    names: &Names,
    flags: &[bool],
    process: Process,
    here: Here,
    step: Step,
    processes: &mut Vec<Process>,
    links: &mut Vec<Link>,
    writer: &mut Writer<S>,
    out: &mut S,
) -> bool
    requires process { slice_get processes.old.items step.process ≡ Some process }
    requires within { step.process < vec_len processes.old }
    requires landing { landing_in process.landing ≡ Some (here_of here) }
    requires here { IsHere (game_of game.now) (here_of here) }
    requires flags { Cover game.now flags.now }
    requires links { All (λ l. IsWait (game_of game.now) (wait_of l.wait)) links.old.items }
    requires processes { All (λ p. IsLanding (game_of game.now) (landing_in p.landing)) processes.old.items }
    requires entries { vec_len links.old + one_if (is_entry step) ≤ vec_capacity links.old }
    requires forks { vec_len processes.old + one_if (is_fork step) ≤ vec_capacity processes.old }
    requires few_links { vec_len links.old < 2 ^ 32 }
    requires few_processes { vec_len processes.old < 2 ^ 32 }
    requires follows { Follows S.taken S.faults S.refused writer.old out.old }
    ensures acted { Acted (name_lists names.now) (game_of game.now) table.now (caps_at (lists_of game.now.states)) (IsFlag game.now flags.now) step.process step.fork step.by result
        (map process_of processes.old.items) (map process_of processes.new.items) (links_of links.old.items) (links_of links.new.items) writer.old.text writer.new.text }
    ensures links { All (λ l. IsWait (game_of game.now) (wait_of l.wait)) links.new.items }
    ensures processes { All (λ p. IsLanding (game_of game.now) (landing_in p.landing)) processes.new.items }
    ensures entries { vec_len links.new ≤ vec_len links.old + one_if (is_entry step) }
    ensures forks { vec_len processes.new ≤ vec_len processes.old + one_if (is_fork step) }
    ensures link_room { vec_capacity links.new ≡ vec_capacity links.old }
    ensures process_room { vec_capacity processes.new ≡ vec_capacity processes.old }
    ensures begun { writer.new.begun ≡ writer.old.begun }
    ensures follows { Follows S.taken S.faults S.refused writer.new out.new }
{
    if forks_at(game, flags, here) {
        if !step.fork {
            return false;
        }
        let child = processes.as_slice().len() as u32;
        match fork_one(
            game,
            table,
            names,
            step.process,
            child,
            here,
            process.calls,
            links,
            writer,
            out,
        ) {
            None => false,
            Some((parent, forked)) => {
                processes[step.process as usize] = parent;
                processes.push_reserved(forked);
                true
            }
        }
    } else {
        if step.fork {
            return false;
        }
        match move_one(
            game,
            table,
            names,
            step.process,
            here,
            process.calls,
            step.by,
            links,
            writer,
            out,
        ) {
            None => false,
            Some(after) => {
                processes[step.process as usize] = after;
                true
            }
        }
    }
}

/// The process with this number.
fn process_at(processes: &[Process], number: u32) -> Option<Process>
    ensures is { result ≡ slice_get processes.now number }
    ensures within { IfSome result (λ p. number < length processes.now) }
{
    processes.get(number as usize).copied()
}

/// A step of the world: whether it was one.
fn act<S: Sink>(
    game: &Game,
    table: &WeaverCert,
    names: &Names,
    flags: &[bool],
    step: Step,
    processes: &mut Vec<Process>,
    links: &mut Vec<Link>,
    writer: &mut Writer<S>,
    out: &mut S,
) -> bool
    requires flags { Cover game.now flags.now }
    requires links { All (λ l. IsWait (game_of game.now) (wait_of l.wait)) links.old.items }
    requires processes { All (λ p. IsLanding (game_of game.now) (landing_in p.landing)) processes.old.items }
    requires entries { vec_len links.old + one_if (is_entry step) ≤ vec_capacity links.old }
    requires forks { vec_len processes.old + one_if (is_fork step) ≤ vec_capacity processes.old }
    requires few_links { vec_len links.old < 2 ^ 32 }
    requires few_processes { vec_len processes.old < 2 ^ 32 }
    requires follows { Follows S.taken S.faults S.refused writer.old out.old }
    ensures acted { Acted (name_lists names.now) (game_of game.now) table.now (caps_at (lists_of game.now.states)) (IsFlag game.now flags.now) step.process step.fork step.by result
        (map process_of processes.old.items) (map process_of processes.new.items) (links_of links.old.items) (links_of links.new.items) writer.old.text writer.new.text }
    ensures links { All (λ l. IsWait (game_of game.now) (wait_of l.wait)) links.new.items }
    ensures processes { All (λ p. IsLanding (game_of game.now) (landing_in p.landing)) processes.new.items }
    ensures entries { vec_len links.new ≤ vec_len links.old + one_if (is_entry step) }
    ensures forks { vec_len processes.new ≤ vec_len processes.old + one_if (is_fork step) }
    ensures link_room { vec_capacity links.new ≡ vec_capacity links.old }
    ensures process_room { vec_capacity processes.new ≡ vec_capacity processes.old }
    ensures begun { writer.new.begun ≡ writer.old.begun }
    ensures follows { Follows S.taken S.faults S.refused writer.new out.new }
{
    let Some(process) = process_at(processes, step.process) else {
        return false;
    };
    match process.landing {
        Landing::Over => false,
        Landing::At(here) => act_at(
            game, table, names, flags, process, here, step, processes, links, writer, out,
        ),
    }
}

/// Makes the steps of a world of processes, which begins with one process at the start of the woven program, and appends its trace: the lines of each
/// process behind its number and a blank, and for each fork `PROCESS fork CHILD`, then the parent's lines up to the environment's next turn there, then
/// the child's. Processes are numbered from 0 as they come.
///
/// Errors: `NoMemory` where the allocator refuses, before the first byte is put: then nothing was appended. Public source: fork(2).
pub fn run_world<S: Sink>(
    alloc: Global,
    checked: &Checked,
    game: &Game,
    table: &WeaverCert,
    steps: &[Step],
    writer: &mut Writer<S>,
    out: &mut S,
) -> Result<WorldEnd, NoMemory>
    requires valid { IsValid (policy_of game.now.states.policy) }
    requires lists { AreLists (uses_of (policy_of game.now.states.policy) game.now.graph.nodes.items) (lists_of game.now.states) }
    requires drawn { IsGraph (names_of (policy_of game.now.states.policy)) checked.now.source.now (file_of checked.now.program) game.now.graph }
    requires runnable { IsRunnable (plan_of (names_of (policy_of game.now.states.policy)) checked.now.source.now (file_of checked.now.program)) }
    requires assigns { AssignsNames checked.now.source.now (file_of checked.now.program) }
    requires good { IsGoodTable (game_of game.now) table.now }
    requires short { length steps.now < 2 ^ 32 - 1 }
    requires follows { Follows S.taken S.faults S.refused writer.old out.old }
    ensures world { IfOk result (λ end. TellsWorld
        (problem_of (policy_of game.now.states.policy) checked.now.source.now (file_of checked.now.program))
        (trace_names_of checked.now.source.now (file_of checked.now.program) (plan_of (names_of (policy_of game.now.states.policy)) checked.now.source.now (file_of checked.now.program)))
        table.now (fork_places checked.now.source.now (file_of checked.now.program)) (map entry_of steps.now) (end_of end) writer.old.text writer.new.text) }
    ensures refused { OnErr result ((writer.new ≡ writer.old) × (out.new ≡ out.old)) }
    ensures begun { writer.new.begun ≡ writer.old.begun }
    ensures follows { Follows S.taken S.faults S.refused writer.new out.new }
{
    let names = trace_names(alloc, checked, game.graph())?;
    let flags = fork_points(alloc, checked)?;
    let mut links = Vec::with_capacity(alloc, entries(steps))?;
    let mut processes = Vec::with_capacity(alloc, forks(steps) + 1)?;
    let first = Landing::At(begin(game, table, &names, Some(0), writer, out));
    processes.push_reserved(Process {
        landing: first,
        calls: None,
    });
    for i in 0..steps.len() {
        if !act(
            game,
            table,
            &names,
            &flags,
            steps[i],
            &mut processes,
            &mut links,
            writer,
            out,
        ) {
            return Ok(WorldEnd::BadStep(i as u32));
        }
    }
    Ok(WorldEnd::Done(processes.as_slice().len() as u32))
}
