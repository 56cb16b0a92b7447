//! What waits for a pair, and which calls return to a position, the same in all contexts.

ghost use Rattle.std.specs.Prelude.{◌≡◌, ℕ, ◌<◌, ◌≤◌, ◌+◌, ◌*◌, true, false, Some, min, length, slice_get, OnOk, IfOk, IfSome};
ghost use Rattle.cw_game.specs.Games.{weavers_in};
ghost use Rattle.cw_links.specs.Flags.{is_flagged, number};
ghost use Rattle.cw_product.specs.Product.{game_of};
ghost use Rattle.cw_product.specs.Moves.{IsPosition, IsState, next_at, numbers};
ghost use Rattle.cw_product.specs.MovesAt.{first_move, second_move};
ghost use Rattle.cw_product.specs.Routed.{AreRouted};
ghost use Rattle.cw_solve.specs.Rounds.{positions};
ghost use Rattle.cw_linked.specs.Edges.{first_kept, second_kept, AddsSource, refusal, first_target, second_asked, second_target, FlagsTarget, AddsMove, AddsMoves, changes_state, AreSourcesTo, AreReached, AreReachedTo, AreChangesTo, AreReturnsTo};
ghost use Rattle.cw_linked.specs.Grants.{AreGrantsAt, AreAllGrants};
ghost use Rattle.cw_linked.specs.Plain.{IsPlain, ArePlain};
ghost use Rattle.cw_linked.specs.Returns.{AreReturns};
ghost use Rattle.cw_linked.specs.Runs.{AreRuns};
ghost use Rattle.cw_linked.specs.Steps.{IsMoveIn, Leads};
ghost use Rattle.cw_linked.specs.Waiting.{keeps_state, is_step, source_at, IsStepTo, IsVisit, lone, next_by, pair_of, AreSources, AreChanges, AreWaits};

use crate::divisor::Divisor;
use crate::grants::{Grants, granted, grants_at};
use crate::waiting::list_of;
use cw_certs::Move;
use cw_core::limits::POSITIONS_TIMES_STATES;
use cw_core::{NoMemory, PosId, StateId};
use cw_game::Spot;
use cw_links::{Chains, RankedFlags, Rows, Trails};
use cw_product::{Game, Turn};
use cw_rights::Primitive;
use cw_rights::policy::is_refusable;
use cw_solve::table::positions;
use std::alloc::Global;

/// A position and a state, and whether one move at most leads anywhere from there.
#[derive(Clone, Copy, Drop)]
pub(crate) struct Pair {
    pub pos: PosId,
    pub state: StateId,
    pub sole: bool,
}

/// A position from which a move leads to another one, whatever the state is; whether that is a step: then it is its one move; and
/// whether a visit stands there.
#[derive(Clone, Copy, Drop)]
pub(crate) struct Source {
    pub pos: PosId,
    pub step: bool,
    pub visit: bool,
}

/// For each pair those at positions that may change the state, from which a move leads there. Only the positions to which such a move
/// leads are flagged, and only their pairs have a list.
#[derive(Drop)]
pub(crate) struct Changes {
    pub flags: RankedFlags,
    pub pairs: Chains<Pair>,
}

/// What waits for a pair: for each position those from which a move leads there in the same state, whatever the state is; and all others.
#[derive(Drop)]
pub(crate) struct Waits {
    pub sources: Rows<Source>,
    pub changes: Changes,
}

/// What waits for a pair; for each position those of the calls that return there, and whether nothing waits for it but what leads
/// there in the same state; for each function its number of positions.
#[derive(Drop)]
pub(crate) struct Edges {
    pub waits: Waits,
    pub returns: Rows<PosId>,
    pub plain: Vec<bool>,
    pub runs: Vec<Divisor>,
}

/// Whether moves lead from where this stands that may change the state: none leads anywhere from a call or an exit.
fn is_changing(spot: Spot) -> bool
    ensures { changes_state (Some spot) ≡ result }
{
    match spot {
        Spot::Asked(_, _, _) | Spot::Label(_, _, _) => true,
        Spot::Open(_, _, _) | Spot::Close(_, _, _) => true,
        Spot::Visit(_, _, _) | Spot::Step(_) | Spot::Branch(_, _) => false,
        Spot::Call(_, _, _) | Spot::SplitCall(_, _, _) | Spot::Exit(_) => false,
    }
}

/// Whether this is a step.
fn is_step(spot: Spot) -> bool
    ensures { result ≡ is_step (Some spot) }
{
    match spot {
        Spot::Step(_) => true,
        _ => false,
    }
}

/// Whether this is a visit.
fn is_visit(spot: Spot) -> bool
    ensures { result ≡ weavers_in (Some spot) }
{
    match spot {
        Spot::Visit(_, _, _) => true,
        _ => false,
    }
}

/// The position where this stands as a source.
fn as_source(game: &Game, pos: PosId, spot: Spot) -> Source
    requires { Some spot ≡ slice_get (game_of game.now).spots pos.0 }
    ensures { result ≡ source_at (game_of game.now) pos.0 }
{
    let _ = game;
    Source {
        pos,
        step: is_step(spot),
        visit: is_visit(spot),
    }
}

/// Where the first move leads from where this stands, if it keeps the state.
fn first_kept(pos: PosId, spot: Spot) -> Option<u32>
    requires { pos.0 < POSITIONS_TIMES_STATES }
    ensures { result ≡ first_kept pos.0 (Some spot) }
{
    match spot {
        Spot::Visit(_, _, _) => Some(pos.0 + 2),
        Spot::Step(next) => Some(next),
        Spot::Branch(left, _) => Some(left),
        Spot::Asked(_, _, _) | Spot::Label(_, _, _) => None,
        Spot::Open(_, _, _) | Spot::Close(_, _, _) => None,
        Spot::Call(_, _, _) | Spot::SplitCall(_, _, _) | Spot::Exit(_) => None,
    }
}

/// And the second one.
fn second_kept(pos: PosId, spot: Spot) -> Option<u32>
    requires { pos.0 < POSITIONS_TIMES_STATES }
    ensures { result ≡ second_kept pos.0 (Some spot) }
{
    match spot {
        Spot::Visit(_, _, _) => Some(pos.0 + 1),
        Spot::Branch(_, right) => Some(right),
        Spot::Step(_) | Spot::Asked(_, _, _) | Spot::Label(_, _, _) => None,
        Spot::Open(_, _, _) | Spot::Close(_, _, _) => None,
        Spot::Call(_, _, _) | Spot::SplitCall(_, _, _) | Spot::Exit(_) => None,
    }
}

/// Puts a source into the list of the position to which it leads, if there is one.
#[inline(always)]
fn add_source(
    game: &Game,
    sources: &mut Trails<Source>,
    source: Source,
    to: Option<u32>,
) -> Result<(), NoMemory>
    requires within { IfSome to (λ r. r < length sources.old.lists) }
    requires step { (r : ℕ) → to ≡ Some r → IsStepTo (game_of game.now) source r }
    requires visit { IsVisit (game_of game.now) source }
    requires few { length sources.old.values ≤ 16777216 }
    ensures { OnOk result (AddsSource (game_of game.now) sources.old sources.new source to) }
{
    let _ = game;
    if let Some(to) = to {
        sources.push_front(to, source)?;
    }
    Ok(())
}

/// Puts a position that keeps the state into the lists of those to which its moves lead.
fn add_sources(game: &Game, sources: &mut Trails<Source>, pos: PosId) -> Result<(), NoMemory>
    requires routed { AreRouted (game_of game.now) (length game.now.graph.parts.items) }
    requires position { IsPosition (game_of game.now) pos.0 }
    requires before { AreSourcesTo (game_of game.now) sources.old pos.0 }
    ensures { OnOk result (AreSourcesTo (game_of game.now) sources.new (pos.0 + 1)) }
{
    game.fact_is_closed();
    let spot = game.spot(pos);
    let source = as_source(game, pos, spot);
    add_source(game, sources, source, first_kept(pos, spot))?;
    add_source(game, sources, source, second_kept(pos, spot))?;
    Ok(())
}

/// For each position those that keep the state and lead there.
#[inline(never)]
fn make_sources(alloc: Global, game: &Game) -> Result<Rows<Source>, NoMemory>
    requires routed { AreRouted (game_of game.now) (length game.now.graph.parts.items) }
    ensures { IfOk result (AreSources (game_of game.now)) }
{
    let mut sources = Trails::make(alloc, game.positions())?;
    sources.reserve(game.positions())?;
    for p in 0..game.positions() {
        add_sources(game, &mut sources, PosId(p))?;
    }
    let rows = Rows::of(alloc, &sources)?;
    Ok(rows)
}

/// The second position to which a primitive may lead that is asked at one: behind a call, where it splits.
fn second_asked(pos: PosId, prim: Primitive) -> Option<u32>
    requires { pos.0 < POSITIONS_TIMES_STATES }
    ensures { result ≡ second_asked pos.0 prim }
{
    match prim {
        Primitive::Split => Some(pos.0 + 2),
        Primitive::Enter | Primitive::Limit(_) => None,
    }
}

/// The first position to which moves may lead from where this stands that may change the state.
fn first_target(pos: PosId, spot: Spot) -> Option<u32>
    requires { pos.0 < POSITIONS_TIMES_STATES }
    ensures { result ≡ first_target pos.0 (Some spot) }
{
    match spot {
        Spot::Asked(_, _, _) => Some(pos.0 + 1),
        Spot::Label(_, _, next) => Some(next),
        Spot::Open(_, _, next) => Some(next),
        Spot::Close(_, _, next) => Some(next),
        Spot::Visit(_, _, _) | Spot::Step(_) | Spot::Branch(_, _) => None,
        Spot::Call(_, _, _) | Spot::SplitCall(_, _, _) | Spot::Exit(_) => None,
    }
}

/// And the second one.
fn second_target(pos: PosId, spot: Spot) -> Option<u32>
    requires { pos.0 < POSITIONS_TIMES_STATES }
    ensures { result ≡ second_target pos.0 (Some spot) }
{
    match spot {
        Spot::Asked(_, _, prim) => second_asked(pos, prim),
        Spot::Label(_, _, _) | Spot::Open(_, _, _) | Spot::Close(_, _, _) => None,
        Spot::Visit(_, _, _) | Spot::Step(_) | Spot::Branch(_, _) => None,
        Spot::Call(_, _, _) | Spot::SplitCall(_, _, _) | Spot::Exit(_) => None,
    }
}

/// Flags a position, if there is one.
fn flag_target(flags: &mut [bool], to: Option<u32>)
    requires { IfSome to (λ r. r < length flags.old) }
    ensures { FlagsTarget flags.old flags.new to }
{
    if let Some(to) = to {
        flags[to as usize] = true;
    }
}

/// Flags the positions to which the moves of a position may lead that may change the state, whatever the state is.
fn flag_pairs(game: &Game, flags: &mut [bool], pos: PosId)
    requires position { IsPosition (game_of game.now) pos.0 }
    requires short { length (game_of game.now).spots ≤ POSITIONS_TIMES_STATES }
    requires before { AreReachedTo (game_of game.now) flags.old pos.0 0 }
    ensures { AreReachedTo (game_of game.now) flags.new (pos.0 + 1) 0 }
{
    game.fact_is_closed();
    let spot = game.spot(pos);
    flag_target(flags, first_target(pos, spot));
    flag_target(flags, second_target(pos, spot));
}

/// Flags the positions to which a move leads that may change the state.
fn flag_all(game: &Game, flags: &mut [bool])
    requires long { length flags.old ≡ length (game_of game.now).spots }
    requires short { length (game_of game.now).spots ≤ POSITIONS_TIMES_STATES }
    ensures { AreReached (game_of game.now) flags.new }
{
    for p in 0..game.positions() {
        flag_pairs(game, flags, PosId(p));
    }
}

/// The flags, with how many come before an index.
fn ranked(alloc: Global, flags: &[bool]) -> Result<RankedFlags, NoMemory>
    requires { length flags.now ≤ POSITIONS_TIMES_STATES }
    ensures { IfOk result (λ all. all ≡ flags.now) }
{
    let mut all = RankedFlags::make(alloc, flags.len())?;
    for flag in flags {
        all.push(*flag)?;
    }
    Ok(all)
}

/// Flags of the positions to which a move leads that may change the state.
fn make_flags(alloc: Global, game: &Game) -> Result<RankedFlags, NoMemory>
    requires routed { AreRouted (game_of game.now) (length game.now.graph.parts.items) }
    ensures { IfOk result (AreReached (game_of game.now)) }
{
    let mut reached = vec![in alloc; false; game.positions() as usize]?;
    flag_all(game, &mut reached);
    ranked(alloc, &reached)
}

/// Where something is asked, whether it may be refused in states that may grant it.
fn refusal(game: &Game, spot: Spot) -> Option<bool>
    ensures { result ≡ refusal (game_of game.now) (Some spot) }
{
    match spot {
        Spot::Asked(_, _, prim) => {
            let policy = game.policy();
            Some(is_refusable(policy, prim) && !policy.stop)
        }
        _ => None,
    }
}

/// Where the first move leads, by the grants of what is asked there, if these are given.
#[inline(always)]
fn first_next(
    game: &Game,
    grants: Option<&Grants>,
    pos: PosId,
    state: StateId,
    by: Move,
) -> Option<(PosId, StateId)>
    requires routed { AreRouted (game_of game.now) (length game.now.graph.parts.items) }
    requires position { IsPosition (game_of game.now) pos.0 }
    requires state { IsState (game_of game.now) state.0 }
    requires grants { IfSome grants (λ own. AreGrantsAt (game_of game.now) pos.0 own.now) }
    requires by { by ≡ first_move (slice_get (game_of game.now).spots pos.0) }
    ensures is { numbers result ≡ next_at (game_of game.now) pos.0 state.0 by }
    ensures within { IfSome result (λ r. IsPosition (game_of game.now) r.0.0 × IsState (game_of game.now) r.1.0) }
{
    match grants {
        None => game.next(pos, state, by),
        Some(own) => granted(game, own, pos, state),
    }
}

/// Where the second move leads, if there is one.
fn next_by(game: &Game, pos: PosId, state: StateId, by: Option<Move>) -> Option<(PosId, StateId)>
    requires position { IsPosition (game_of game.now) pos.0 }
    requires state { IsState (game_of game.now) state.0 }
    ensures is { numbers result ≡ next_by (game_of game.now) pos.0 state.0 (slice_get (game_of game.now).spots pos.0) by }
    ensures within { IfSome result (λ r. IsPosition (game_of game.now) r.0.0 × IsState (game_of game.now) r.1.0) }
{
    match by {
        None => None,
        Some(by) => game.next(pos, state, by),
    }
}

/// The same, where the first move leads there. What is asked is refused where it isn't granted.
#[inline(always)]
fn second_next(
    game: &Game,
    pos: PosId,
    state: StateId,
    refuses: Option<bool>,
    first: Option<(PosId, StateId)>,
    by: Option<Move>,
) -> Option<(PosId, StateId)>
    requires routed { AreRouted (game_of game.now) (length game.now.graph.parts.items) }
    requires position { IsPosition (game_of game.now) pos.0 }
    requires state { IsState (game_of game.now) state.0 }
    requires refuses { refuses ≡ refusal (game_of game.now) (slice_get (game_of game.now).spots pos.0) }
    requires first { numbers first ≡ next_at (game_of game.now) pos.0 state.0 (first_move (slice_get (game_of game.now).spots pos.0)) }
    requires by { by ≡ second_move (slice_get (game_of game.now).spots pos.0) }
    ensures is { numbers result ≡ next_by (game_of game.now) pos.0 state.0 (slice_get (game_of game.now).spots pos.0) by }
    ensures within { IfSome result (λ r. IsPosition (game_of game.now) r.0.0 × IsState (game_of game.now) r.1.0) }
{
    game.fact_is_closed();
    match refuses {
        None => next_by(game, pos, state, by),
        Some(true) => Some((PosId(pos.0 + 1), state)),
        Some(false) => match first {
            None => Some((PosId(pos.0 + 1), state)),
            Some(_) => None,
        },
    }
}

/// Whether one at most of two moves leads anywhere.
fn is_lone(first: Option<(PosId, StateId)>, second: Option<(PosId, StateId)>) -> bool
    ensures { result ≡ lone (numbers first) (numbers second) }
{
    match first {
        None => true,
        Some(_) => match second {
            None => true,
            Some(_) => false,
        },
    }
}

/// Puts a pair into the list of the one to which a move leads, if it leads to one.
#[inline(always)]
fn add_move(
    game: &Game,
    flags: &RankedFlags,
    pairs: &mut Chains<Pair>,
    pair: Pair,
    target: Option<(PosId, StateId)>,
    by: Move,
) -> Result<(), NoMemory>
    requires routed { AreRouted (game_of game.now) (length game.now.graph.parts.items) }
    requires is_pair { pair ≡ pair_of (game_of game.now) pair.pos.0 pair.state.0 }
    requires position { IsPosition (game_of game.now) pair.pos.0 }
    requires state { IsState (game_of game.now) pair.state.0 }
    requires changing { keeps_state (slice_get (game_of game.now).spots pair.pos.0) ≡ false }
    requires moved { IsMoveIn (slice_get (game_of game.now).spots pair.pos.0) by }
    requires leads { numbers target ≡ next_at (game_of game.now) pair.pos.0 pair.state.0 by }
    requires within { IfSome target (λ r. IsPosition (game_of game.now) r.0.0 × IsState (game_of game.now) r.1.0) }
    requires long { length flags.now ≡ length (game_of game.now).spots }
    requires flagged { (r x : ℕ) → next_at (game_of game.now) pair.pos.0 pair.state.0 by ≡ Some (r, x) → is_flagged flags.now r ≡ true }
    requires lists { length pairs.old.lists ≡ number flags.now * (game_of game.now).states.count }
    requires few { length pairs.old.values ≤ 16777216 }
    ensures { OnOk result (AddsMove (game_of game.now) flags.now pairs.old pairs.new pair.pos.0 pair.state.0 by) }
{
    let _ = by;
    if let Some((to, then)) = target {
        let list = list_of(game, flags, to, then);
        pairs.push_front(list, pair)?;
    }
    Ok(())
}

/// Puts a pair into the lists of those to which its moves lead.
#[inline(always)]
fn add_moves(
    game: &Game,
    flags: &RankedFlags,
    pairs: &mut Chains<Pair>,
    grants: Option<&Grants>,
    pos: PosId,
    state: StateId,
    refuses: Option<bool>,
    moves: &(Move, Option<Move>),
) -> Result<(), NoMemory>
    requires routed { AreRouted (game_of game.now) (length game.now.graph.parts.items) }
    requires position { IsPosition (game_of game.now) pos.0 }
    requires state { IsState (game_of game.now) state.0 }
    requires changing { keeps_state (slice_get (game_of game.now).spots pos.0) ≡ false }
    requires grants { IfSome grants (λ own. AreGrantsAt (game_of game.now) pos.0 own.now) }
    requires refuses { refuses ≡ refusal (game_of game.now) (slice_get (game_of game.now).spots pos.0) }
    requires first { moves.now.0 ≡ first_move (slice_get (game_of game.now).spots pos.0) }
    requires second { moves.now.1 ≡ second_move (slice_get (game_of game.now).spots pos.0) }
    requires long { length flags.now ≡ length (game_of game.now).spots }
    requires flagged { (r x : ℕ) → Leads (game_of game.now) pos.0 state.0 r x → is_flagged flags.now r ≡ true }
    requires lists { length pairs.old.lists ≡ number flags.now * (game_of game.now).states.count }
    requires few { length pairs.old.values ≤ 16777200 }
    ensures { OnOk result (AddsMoves (game_of game.now) flags.now pairs.old pairs.new pos.0 state.0) }
{
    let first = first_next(game, grants, pos, state, moves.0);
    let second = second_next(game, pos, state, refuses, first, moves.1);
    let sole = is_lone(first, second);
    let pair = Pair { pos, state, sole };
    add_move(game, flags, pairs, pair, first, moves.0)?;
    match moves.1 {
        None => Ok(()),
        Some(by) => {
            add_move(game, flags, pairs, pair, second, by)?;
            Ok(())
        }
    }
}

/// Puts the pairs of a position that may change the state into the lists of those to which their moves lead.
#[inline(always)]
fn add_states(
    game: &Game,
    flags: &RankedFlags,
    pairs: &mut Chains<Pair>,
    grants: Option<&Grants>,
    pos: PosId,
    spot: Spot,
) -> Result<(), NoMemory>
    requires routed { AreRouted (game_of game.now) (length game.now.graph.parts.items) }
    requires position { IsPosition (game_of game.now) pos.0 }
    requires spot { Some spot ≡ slice_get (game_of game.now).spots pos.0 }
    requires changing { changes_state (slice_get (game_of game.now).spots pos.0) ≡ true }
    requires grants { IfSome grants (λ own. AreGrantsAt (game_of game.now) pos.0 own.now) }
    requires flagged { AreReached (game_of game.now) flags.now }
    requires before { AreChangesTo (game_of game.now) flags.now pairs.old pos.0 0 }
    ensures { OnOk result (AreChangesTo (game_of game.now) flags.now pairs.new (pos.0 + 1) 0) }
{
    let moves = game.moves(pos);
    let refuses = refusal(game, spot);
    for q in 0..game.states() {
        add_moves(game, flags, pairs, grants, pos, StateId(q), refuses, &moves)?;
    }
    Ok(())
}

/// The same: of what is asked there the grants are looked for, or made.
#[inline(never)]
fn add_changing(
    alloc: Global,
    game: &Game,
    flags: &RankedFlags,
    pairs: &mut Chains<Pair>,
    all: &mut Vec<Grants>,
    pos: PosId,
) -> Result<(), NoMemory>
    requires routed { AreRouted (game_of game.now) (length game.now.graph.parts.items) }
    requires position { IsPosition (game_of game.now) pos.0 }
    requires changing { changes_state (slice_get (game_of game.now).spots pos.0) ≡ true }
    requires grants { AreAllGrants (game_of game.now) all.old.items }
    requires flagged { AreReached (game_of game.now) flags.now }
    requires before { AreChangesTo (game_of game.now) flags.now pairs.old pos.0 0 }
    ensures pairs { OnOk result (AreChangesTo (game_of game.now) flags.now pairs.new (pos.0 + 1) 0) }
    ensures grants { OnOk result (AreAllGrants (game_of game.now) all.new.items) }
{
    let spot = game.spot(pos);
    match spot {
        Spot::Asked(_, _, prim) => {
            let k = grants_at(alloc, game, all, pos, prim)?;
            add_states(game, flags, pairs, Some(&all[k]), pos, spot)
        }
        _ => add_states(game, flags, pairs, None, pos, spot),
    }
}

/// Puts the pairs of a position into the lists of those to which their moves lead, if it may change the state. Most don't: so what is
/// done at one that does stands in a function of its own, for which nothing is made ready at the others.
#[inline(always)]
fn add_pairs(
    alloc: Global,
    game: &Game,
    flags: &RankedFlags,
    pairs: &mut Chains<Pair>,
    all: &mut Vec<Grants>,
    pos: PosId,
) -> Result<(), NoMemory>
    requires routed { AreRouted (game_of game.now) (length game.now.graph.parts.items) }
    requires position { IsPosition (game_of game.now) pos.0 }
    requires grants { AreAllGrants (game_of game.now) all.old.items }
    requires flagged { AreReached (game_of game.now) flags.now }
    requires before { AreChangesTo (game_of game.now) flags.now pairs.old pos.0 0 }
    ensures pairs { OnOk result (AreChangesTo (game_of game.now) flags.now pairs.new (pos.0 + 1) 0) }
    ensures grants { OnOk result (AreAllGrants (game_of game.now) all.new.items) }
{
    if !is_changing(game.spot(pos)) {
        return Ok(());
    }
    add_changing(alloc, game, flags, pairs, all, pos)
}

/// For each pair at a flagged position those at positions that may change the state, from which a move leads there.
#[inline(never)]
fn make_pairs(alloc: Global, game: &Game, flags: &RankedFlags) -> Result<Chains<Pair>, NoMemory>
    requires routed { AreRouted (game_of game.now) (length game.now.graph.parts.items) }
    requires flagged { AreReached (game_of game.now) flags.now }
    ensures { IfOk result (λ pairs. AreChanges (game_of game.now) (record { flags = flags.now; pairs = pairs })) }
{
    let lists = flags.flagged() * u32::from(game.states());
    let mut pairs = Chains::make(alloc, lists)?;
    pairs.reserve(lists)?;
    let mut grants = Vec::new(alloc);
    for p in 0..game.positions() {
        add_pairs(alloc, game, flags, &mut pairs, &mut grants, PosId(p))?;
    }
    Ok(pairs)
}

/// For each pair those at positions that may change the state, from which a move leads there.
fn make_changes(alloc: Global, game: &Game) -> Result<Changes, NoMemory>
    requires routed { AreRouted (game_of game.now) (length game.now.graph.parts.items) }
    ensures { IfOk result (AreChanges (game_of game.now)) }
{
    let flags = make_flags(alloc, game)?;
    let pairs = make_pairs(alloc, game, &flags)?;
    Ok(Changes { flags, pairs })
}

/// Puts a position into the list of the one to which it returns, if a call stands there.
fn add_return(game: &Game, returns: &mut Trails<PosId>, pos: PosId) -> Result<(), NoMemory>
    requires position { IsPosition (game_of game.now) pos.0 }
    requires few { length (game_of game.now).spots ≤ POSITIONS_TIMES_STATES }
    requires before { AreReturnsTo (game_of game.now) returns.old pos.0 }
    ensures { OnOk result (AreReturnsTo (game_of game.now) returns.new (pos.0 + 1)) }
{
    game.fact_is_closed();
    match game.turn(pos) {
        Turn::Call { back, .. } => {
            returns.push_front(back.0, pos)?;
            Ok(())
        }
        Turn::Exit { .. } => Ok(()),
        Turn::Weaver | Turn::Environment => Ok(()),
    }
}

/// For each position those of the calls that return there.
fn make_returns(alloc: Global, game: &Game) -> Result<Rows<PosId>, NoMemory>
    requires few { length (game_of game.now).spots ≤ POSITIONS_TIMES_STATES }
    ensures { IfOk result (AreReturns (game_of game.now)) }
{
    let mut returns = Trails::make(alloc, game.positions())?;
    for p in 0..game.positions() {
        add_return(game, &mut returns, PosId(p))?;
    }
    let rows = Rows::of(alloc, &returns)?;
    Ok(rows)
}

/// Whether no pair leads to a position that may change the state, and no call returns there.
fn is_bare(game: &Game, changes: &Changes, returns: &Rows<PosId>, pos: PosId) -> bool
    requires position { IsPosition (game_of game.now) pos.0 }
    requires changes { AreChanges (game_of game.now) changes.now }
    requires returns { AreReturns (game_of game.now) returns.now }
    ensures { result ≡ true → IsPlain (game_of game.now) 0 pos.0 }
{
    let _ = game;
    if changes.flags.is_flagged(pos.0 as usize) {
        return false;
    }
    returns.row(pos.0).is_empty()
}

/// For each position whether no pair leads there that may change the state, and no call returns there.
fn make_bare(
    alloc: Global,
    game: &Game,
    changes: &Changes,
    returns: &Rows<PosId>,
) -> Result<Vec<bool>, NoMemory>
    requires changes { AreChanges (game_of game.now) changes.now }
    requires returns { AreReturns (game_of game.now) returns.now }
    ensures { IfOk result (λ plain. ArePlain (game_of game.now) 0 (length (game_of game.now).spots) plain.items) }
{
    let mut plain = Vec::with_capacity(alloc, game.positions() as usize)?;
    for p in 0..game.positions() {
        plain.push(is_bare(game, changes, returns, PosId(p)))?;
    }
    Ok(plain)
}

/// The same, and no function begins there.
fn make_plain(
    alloc: Global,
    game: &Game,
    changes: &Changes,
    returns: &Rows<PosId>,
) -> Result<Vec<bool>, NoMemory>
    requires changes { AreChanges (game_of game.now) changes.now }
    requires returns { AreReturns (game_of game.now) returns.now }
    ensures { IfOk result (λ plain. ArePlain (game_of game.now) (min (length game.now.graph.parts.items) 65536) (length (game_of game.now).spots) plain.items) }
{
    let mut plain = make_bare(alloc, game, changes, returns)?;
    for f in 0..game.graph().parts.len().min(65536) {
        let entry = game.entry(f as u16);
        plain[entry.0 as usize] = false;
    }
    Ok(plain)
}

/// The divisor by the number of positions of a function.
fn run(game: &Game, function: u16) -> Divisor
    requires routed { AreRouted (game_of game.now) (length game.now.graph.parts.items) }
    requires there { function < length game.now.graph.parts.items }
    ensures { result ≡ positions (game_of game.now) function }
{
    game.fact_is_closed();
    Divisor::of(positions(game, function))
}

/// For each function its number of positions.
fn make_runs(alloc: Global, game: &Game) -> Result<Vec<Divisor>, NoMemory>
    requires routed { AreRouted (game_of game.now) (length game.now.graph.parts.items) }
    ensures { IfOk result (λ runs. AreRuns (game_of game.now) (length game.now.graph.parts.items) runs.items) }
{
    let mut runs = Vec::new(alloc);
    for f in 0..game.graph().parts.len().min(65536) {
        runs.push(run(game, f as u16))?;
    }
    Ok(runs)
}

impl Edges {
    ghost use Rattle.std.specs.Prelude.{length, min, IfOk};
    ghost use Rattle.cw_product.specs.Product.{game_of};
    ghost use Rattle.cw_product.specs.Routed.{AreRouted};
    ghost use Rattle.cw_linked.specs.Plain.{ArePlain};
    ghost use Rattle.cw_linked.specs.Returns.{AreReturns};
    ghost use Rattle.cw_linked.specs.Runs.{AreRuns};
    ghost use Rattle.cw_linked.specs.Waiting.{AreWaits};

    /// The edges of a game. The one error is want of memory.
    pub fn make(alloc: Global, game: &Game) -> Result<Edges, NoMemory>
        requires routed { AreRouted (game_of game.now) (length game.now.graph.parts.items) }
        ensures waits { IfOk result (λ edges. AreWaits (game_of game.now) edges.waits) }
        ensures returns { IfOk result (λ edges. AreReturns (game_of game.now) edges.returns) }
        ensures plain { IfOk result (λ edges. ArePlain (game_of game.now) (min (length game.now.graph.parts.items) 65536) (length (game_of game.now).spots) edges.plain.items) }
        ensures runs { IfOk result (λ edges. AreRuns (game_of game.now) (length game.now.graph.parts.items) edges.runs.items) }
    {
        let sources = make_sources(alloc, game)?;
        let changes = make_changes(alloc, game)?;
        let returns = make_returns(alloc, game)?;
        let plain = make_plain(alloc, game, &changes, &returns)?;
        let runs = make_runs(alloc, game)?;
        Ok(Edges {
            waits: Waits { sources, changes },
            returns,
            plain,
            runs,
        })
    }
}
