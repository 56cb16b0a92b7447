//! The game of a program's graph and a policy.

use crate::fault::GameFault;
use crate::moves::{branched, gone_on, visited};
use crate::site::{Site, begun, is_asked, is_split, stage_of};
use crate::stages::stages_of;
use crate::turn::Turn;
use crate::uses::uses_of;
use cw_certs::Move;
use cw_core::limits::{POINTS, POSITIONS_TIMES_STATES};
use cw_core::{PointId, PosId, Quantity, SeamId, StateId};
use cw_game::Spot;
use cw_points::{Graph, Part};
use cw_positions::{Positions, count};
use cw_rights::policy::is_refusable;
use cw_rights::{Caps, Policy, Primitive};
use cw_states::States;
use std::alloc::Global;
use std::marker::Model;

/// The game of a program's graph and a policy: the positions of the program's points beside the states of the policy.
/// A contract sees the graph and the states, which give the game of the definition.
///
/// Public source: the visibly pushdown games of Löding, Madhusudan and Serre (2004).
#[derive(Drop)]
pub struct Game<'g> {
    graph: &'g Graph,
    policy: &'g Policy,
    states: States<'g>,
    positions: Positions,
}

impl<'g> Model for Game<'g> {
    ghost use Rattle.std.specs.Coded.{codes};
    ghost use Rattle.cw_rights.specs.contracts.words.Regex as e;
    ghost use Rattle.cw_product.specs.Product.{Held};
    ghost use Rattle.cw_product.specs.Kept.{IsKept};

    ghost Value = { Held };

    ghost coded = { Prim.hlevel (codes, e.the_row.coded) };

    ghost view = { λ s. record { graph = s.graph.now; states = s.states } };

    ghost invariant = { λ s. IsKept (record { graph = s.graph.now; states = s.states }) s.policy.now s.positions };
}

impl<'g> Game<'g> {
    ghost use Rattle.std.specs.Prelude.{◌≡◌, ◌<◌, ◌≤◌, ◌*◌, ℕ, List, [], Some, None, is_some, length, option_map, slice_get, IfOk, IfErr, IfSome};
    ghost use Rattle.cw_product.specs.Product.{IsProgramsGraph, IsCause, game_of};
    ghost use Rattle.cw_positions.specs.Opens.{AssignsNames};
    ghost use Rattle.cw_product.specs.Uses.{uses_of};
    ghost use Rattle.cw_product.specs.Routes.{IsRoute};
    ghost use Rattle.cw_positions.specs.Closed.{LeadsWithin};
    ghost use Rattle.cw_states.specs.Below.{StayBelow};
    ghost use Rattle.cw_game.specs.declared.spots.Spot.{Spot as SpotOf};
    ghost use Rattle.cw_rights.specs.Valid.{IsValid};
    ghost use Rattle.cw_core.specs.declared.quantity.Quantity.TheVariants.{PositionsTimesStates};
    ghost use Rattle.cw_core.specs.Quantities.{limit_of};
    ghost use Rattle.cw_syntax.specs.Trees.{File};
    ghost use Rattle.cw_syntax.specs.Plans.{plan_of};
    ghost use Rattle.cw_syntax.specs.Runnable.{IsRunnable};
    ghost use Rattle.cw_resolve.specs.Scenes.{names_of};
    ghost use Rattle.cw_points.specs.Graphs.{IsGraph};
    ghost use Rattle.cw_model.specs.Boards.{problem_of};
    ghost use Rattle.cw_game.specs.Standing.{IsGameOf};
    ghost use Rattle.cw_product.specs.Moves.{IsPosition, IsState, pair_of, numbers, next_in, next_at, turn_in, violated_at};
    ghost use Rattle.cw_product.specs.MovesAt.{first_move, second_move};
    ghost use Rattle.cw_product.specs.Sites.{IsPointOf, stage_in, is_asked_in, is_split_in};
    ghost use Rattle.cw_product.specs.Kept.{IsSound, IsFine, IsPart, IsPrimitive, IsDescriptor, IsLabel};
    ghost use Rattle.cw_game.specs.Conditions.{is_seam, is_stage};
    ghost use Rattle.cw_positions.specs.Positions.{base_of};
    ghost use Rattle.cw_rights.specs.Policies.{policy_of};
    ghost use Rattle.cw_game.specs.Games.{bad_in, can_stop_in, refuses_in, past_asked, resumed, returned};
    ghost use Rattle.cw_game.specs.Pairs.{kept_at};
    ghost use Rattle.cw_states.specs.States.{AreFew, AreLists, caps_at, lists_of};

    /// The game of the graph of a program that can be run and of the policy under whose names the graph was drawn. A graph has at most 8,192
    /// points.
    ///
    /// TooManyCaps comes exactly where the rights states are more than 128, then TooManyWords where the policy states are
    /// more than 64, then TooManyStates where their pairs are more than 512, or 1,024 in format 2, then TooManyPositions
    /// where the positions times the states are more than 1,048,576.
    pub fn make(alloc: Global, graph: &'g Graph, policy: &'g Policy) -> Result<Game<'g>, GameFault>
        requires valid { IsValid (policy_of policy.now) }
        requires graph { IsProgramsGraph (policy_of policy.now) graph.now }
        requires few { length graph.now.nodes.items ≤ POINTS }
        ensures graph { IfOk result (λ g. g.graph ≡ graph.now) }
        ensures policy { IfOk result (λ g. g.states.policy ≡ policy.now) }
        ensures lists { IfOk result (λ g.
            AreLists (uses_of (policy_of policy.now) graph.now.nodes.items) (lists_of g.states)) }
        ensures few { IfOk result (λ g. AreFew (lists_of g.states)) }
        ensures pairs { IfOk result (λ g. length (game_of g).spots * (game_of g).states.count ≤ limit_of PositionsTimesStates) }
        ensures cause { IfErr result (λ fault. IsCause (policy_of policy.now) graph.now fault) }
        ensures is_game { IfOk result (λ g. (source : List ℕ) (file : File)
            → IsGraph (names_of (policy_of policy.now)) source file graph.now
            → IsRunnable (plan_of (names_of (policy_of policy.now)) source file)
            → AssignsNames source file
            → IsGameOf (problem_of (policy_of policy.now) source file) (game_of g)) }
    {
        let states = States::make(alloc, policy, uses_of(&graph.nodes, policy))?;
        let pairs = u64::from(count(graph, policy)) * u64::from(states.count());
        if pairs > Quantity::PositionsTimesStates.limit() {
            return Err(GameFault::TooManyPositions);
        }
        let positions = Positions::make(alloc, graph, policy)?;
        Ok(Game {
            graph,
            policy,
            states,
            positions,
        })
    }

    // What stands at the positions, the functions and the seams are in range, and states lead to states.
    fn fact_is_sound(&self)
        ensures { IsSound self.now }
    {
        let _ = &self.graph;
    }

    // What stands at a position, which is in range.
    fn fine_spot(&self, pos: PosId) -> Spot
        requires { IsPosition (game_of self.now) pos.0 }
        ensures spot { Some result ≡ slice_get (game_of self.now).spots pos.0 }
        ensures fine { IsFine self.now pos.0 result }
    {
        self.fact_is_sound();
        self.spot(pos)
    }

    /// What holds of every game: each position leads to positions and calls functions that there are, `main` is one of them; each function begins and ends
    /// at positions, and those from the one to the other lead to one another, an exit at the last alone; from states each call leads to states; the rights
    /// states, the policy states and their pairs are within their limits, and so are the pairs of a position and a state.
    pub fn fact_is_closed(&self)
        ensures leads { (p : ℕ) (s : SpotOf) → slice_get (game_of self.now).spots p ≡ Some s
            → LeadsWithin (length (game_of self.now).spots) (length self.now.graph.parts.items) p s }
        ensures main { self.now.graph.main < length self.now.graph.parts.items }
        ensures routes { (f : ℕ) → f < length self.now.graph.parts.items → IsRoute (game_of self.now) f }
        ensures states { StayBelow (game_of self.now).states }
        ensures few { AreFew (lists_of self.now.states) }
        ensures pairs { length (game_of self.now).spots * (game_of self.now).states.count ≤ limit_of PositionsTimesStates }
    {
        self.fact_is_sound();
    }

    /// How many states there are.
    pub fn states(&self) -> u16
        ensures { result ≡ (game_of self.now).states.count }
    {
        self.states.count()
    }

    /// How many positions there are.
    pub fn positions(&self) -> u32
        ensures { result ≡ length (game_of self.now).spots }
    {
        self.positions.spots.len() as u32
    }

    /// What stands at a position.
    pub fn spot(&self, pos: PosId) -> Spot
        requires { IsPosition (game_of self.now) pos.0 }
        ensures { Some result ≡ slice_get (game_of self.now).spots pos.0 }
    {
        self.positions.spots[pos.0 as usize]
    }

    /// The number of `main` among the program's functions.
    pub fn main(&self) -> u16
        ensures { result ≡ (game_of self.now).main }
    {
        self.graph.main
    }

    /// The first position of a point.
    pub fn first(&self, point: PointId) -> PosId
        requires { point.0 < length self.now.graph.nodes.items }
        ensures is { result.0 ≡ base_of self.now.graph (policy_of self.now.states.policy) point.0 }
        ensures within { IsPosition (game_of self.now) result.0 }
    {
        self.fact_is_sound();
        self.positions.first(point)
    }

    // Where a function begins and ends.
    fn part(&self, function: u16) -> Part
        requires { function < length self.now.graph.parts.items }
        ensures is { slice_get self.now.graph.parts.items function ≡ Some result }
        ensures within { IsPart self.now.graph result }
    {
        self.fact_is_sound();
        self.graph.parts[function as usize]
    }

    /// Where a function begins.
    pub fn entry(&self, function: u16) -> PosId
        requires { function < length self.now.graph.parts.items }
        ensures is { result.0 ≡ (game_of self.now).entry function }
        ensures within { IsPosition (game_of self.now) result.0 }
    {
        self.first(self.part(function).entry)
    }

    /// Where a function ends.
    pub fn exit(&self, function: u16) -> PosId
        requires { function < length self.now.graph.parts.items }
        ensures is { result.0 ≡ (game_of self.now).exit function }
        ensures within { IsPosition (game_of self.now) result.0 }
    {
        self.first(self.part(function).exit)
    }

    /// The pair at which the program begins: the entry of `main`, in the state of the empty word.
    pub fn start(&self) -> (PosId, StateId)
        ensures position { result.0.0 ≡ (game_of self.now).entry (game_of self.now).main }
        ensures state { result.1.0 ≡ (game_of self.now).states.start }
        ensures within { IsPosition (game_of self.now) result.0.0 × IsState (game_of self.now) result.1.0 }
    {
        self.fact_is_sound();
        (self.entry(self.main()), self.states.start())
    }

    /// Whether some position has this seam.
    pub fn has_seam(&self, seam: SeamId) -> bool
        ensures { result ≡ is_seam (game_of self.now) seam }
    {
        self.fact_is_sound();
        (seam.0 as usize) < self.graph.seams.len()
    }

    /// Whether some position visits this stage of a seam.
    pub fn has_stage(&self, seam: SeamId, stage: u8) -> bool
        ensures { result ≡ is_stage (game_of self.now) seam stage }
    {
        self.fact_is_sound();
        (stage as usize) < stages_of(self.graph, self.policy(), seam)
    }

    /// The graph of which the game was made.
    pub fn graph(&self) -> &'g Graph
        ensures { result.now ≡ self.now.graph }
    {
        self.graph
    }

    /// The policy of which the game was made.
    pub fn policy(&self) -> &'g Policy
        ensures { result.now ≡ self.now.states.policy }
    {
        self.policy
    }

    /// The capabilities of a state.
    pub fn caps(&self, state: StateId) -> &Caps
        requires { IsState (game_of self.now) state.0 }
        ensures { result.now ≡ caps_at (lists_of self.now.states) state.0 }
    {
        self.states.caps(state)
    }

    // Whether the weaver can stop when a primitive is refused.
    fn can_stop(&self, state: StateId, prim: Primitive) -> bool
        requires state { IsState (game_of self.now) state.0 }
        requires primitive { IsPrimitive (game_of self.now) prim }
        ensures { result ≡ can_stop_in (game_of self.now) state.0 prim }
    {
        let policy = self.policy();
        policy.stop && is_refusable(policy, prim) && self.states.may_grant(state, prim)
    }

    // Whether a refusal is a move: the environment may refuse, and no stop answers it.
    fn refuses(&self, state: StateId, prim: Primitive) -> bool
        requires state { IsState (game_of self.now) state.0 }
        requires primitive { IsPrimitive (game_of self.now) prim }
        ensures { result ≡ refuses_in (game_of self.now) state.0 prim }
    {
        let policy = self.policy();
        if self.states.may_grant(state, prim) {
            is_refusable(policy, prim) && !policy.stop
        } else {
            true
        }
    }

    // The position and the state after a granted primitive.
    fn granted(&self, pos: PosId, state: StateId, prim: Primitive) -> (PosId, StateId)
        requires position { pos.0 < POSITIONS_TIMES_STATES }
        requires state { IsState (game_of self.now) state.0 }
        requires primitive { IsPrimitive (game_of self.now) prim }
        ensures { (result.0.0, result.1.0) ≡ pair_of (past_asked (game_of self.now) pos.0 state.0 prim []) }
    {
        match prim {
            Primitive::Split => (PosId(pos.0 + 2), state),
            Primitive::Limit(_) | Primitive::Enter => (
                PosId(pos.0 + 1),
                self.states.granted(state, prim),
            ),
        }
    }

    // Where a primitive leads that is asked.
    fn answered(
        &self,
        pos: PosId,
        state: StateId,
        prim: Primitive,
        by: Move,
    ) -> Option<(PosId, StateId)>
        requires position { pos.0 < POSITIONS_TIMES_STATES }
        requires state { IsState (game_of self.now) state.0 }
        requires primitive { IsPrimitive (game_of self.now) prim }
        ensures { numbers result ≡ next_in (game_of self.now) pos.0 state.0 (Some (Spot.Asked 0 0 prim)) by }
    {
        match by {
            Move::Grant => {
                if self.states.may_grant(state, prim) {
                    Some(self.granted(pos, state, prim))
                } else {
                    None
                }
            }
            Move::Refuse => {
                if self.refuses(state, prim) {
                    Some((PosId(pos.0 + 1), state))
                } else {
                    None
                }
            }
            Move::Skip | Move::Try | Move::On | Move::Left => None,
            Move::Right | Move::Opened | Move::Failed | Move::Stop => None,
        }
    }

    // Where a label leads: nowhere, where its letter is bad.
    fn lettered(
        &self,
        state: StateId,
        label: u16,
        next: PosId,
        by: Move,
    ) -> Option<(PosId, StateId)>
        requires state { IsState (game_of self.now) state.0 }
        requires label { IsLabel self.now label }
        ensures { numbers result ≡ next_in (game_of self.now) 0 state.0 (Some (Spot.Label 0 label next.0)) by }
    {
        if self.states.bad(state, label) {
            return None;
        }
        match by {
            Move::On => Some((next, self.states.lettered(state, label))),
            Move::Skip | Move::Try | Move::Grant | Move::Refuse | Move::Left => None,
            Move::Right | Move::Opened | Move::Failed | Move::Stop => None,
        }
    }

    // Where an open of a descriptor leads.
    fn opened(
        &self,
        state: StateId,
        descriptor: u8,
        next: PosId,
        by: Move,
    ) -> Option<(PosId, StateId)>
        requires state { IsState (game_of self.now) state.0 }
        requires descriptor { IsDescriptor self.now descriptor }
        ensures { numbers result ≡ next_in (game_of self.now) 0 state.0 (Some (Spot.Open 0 descriptor next.0)) by }
    {
        match by {
            Move::Opened => Some((next, self.states.opened(state, descriptor))),
            Move::Failed => Some((next, self.states.closed(state, descriptor))),
            Move::Skip | Move::Try | Move::Grant | Move::Refuse => None,
            Move::On | Move::Left | Move::Right | Move::Stop => None,
        }
    }

    // Where a close of a descriptor leads.
    fn closed(
        &self,
        state: StateId,
        descriptor: u8,
        next: PosId,
        by: Move,
    ) -> Option<(PosId, StateId)>
        requires state { IsState (game_of self.now) state.0 }
        requires descriptor { IsDescriptor self.now descriptor }
        ensures { numbers result ≡ next_in (game_of self.now) 0 state.0 (Some (Spot.Close 0 descriptor next.0)) by }
    {
        match by {
            Move::On => Some((next, self.states.closed(state, descriptor))),
            Move::Skip | Move::Try | Move::Grant | Move::Refuse | Move::Left => None,
            Move::Right | Move::Opened | Move::Failed | Move::Stop => None,
        }
    }

    // Where a position leads where this stands.
    fn led(&self, spot: Spot, pos: PosId, state: StateId, by: Move) -> Option<(PosId, StateId)>
        requires position { pos.0 < POSITIONS_TIMES_STATES }
        requires fine { IsFine self.now pos.0 spot }
        requires state { IsState (game_of self.now) state.0 }
        ensures { numbers result ≡ next_in (game_of self.now) pos.0 state.0 (Some spot) by }
    {
        match spot {
            Spot::Visit(_, _, _) => visited(pos, state, by),
            Spot::Asked(_, _, prim) => self.answered(pos, state, prim, by),
            Spot::Step(next) => gone_on(PosId(next), state, by),
            Spot::Branch(left, right) => branched(PosId(left), PosId(right), state, by),
            Spot::Label(_, label, next) => self.lettered(state, label, PosId(next), by),
            Spot::Open(_, descriptor, next) => self.opened(state, descriptor, PosId(next), by),
            Spot::Close(_, descriptor, next) => self.closed(state, descriptor, PosId(next), by),
            Spot::Call(_, _, _) | Spot::SplitCall(_, _, _) | Spot::Exit(_) => None,
        }
    }

    /// Where a move leads from a pair: to none where the game has no such move there, where the pair is bad, and at a call or
    /// an exit. A refusal that a stop can answer is no move of the game, nor is the stop.
    pub fn next(&self, pos: PosId, state: StateId, by: Move) -> Option<(PosId, StateId)>
        requires position { IsPosition (game_of self.now) pos.0 }
        requires state { IsState (game_of self.now) state.0 }
        ensures is { numbers result ≡ next_at (game_of self.now) pos.0 state.0 by }
        ensures within { IfSome result (λ r. IsPosition (game_of self.now) r.0.0 × IsState (game_of self.now) r.1.0) }
    {
        self.fact_is_sound();
        self.led(self.fine_spot(pos), pos, state, by)
    }

    /// Where going on arrives after a refusal that a stop can answer: at the next stage of the visit or its free position, in the
    /// same state. None where nothing is asked at the position, and where no stop can answer a refusal there.
    pub fn resumed(&self, pos: PosId, state: StateId) -> Option<(PosId, StateId)>
        requires position { IsPosition (game_of self.now) pos.0 }
        requires state { IsState (game_of self.now) state.0 }
        ensures is { numbers result ≡ resumed (game_of self.now) pos.0 state.0 }
        ensures within { IfSome result (λ r. IsPosition (game_of self.now) r.0.0 × IsState (game_of self.now) r.1.0) }
    {
        self.fact_is_sound();
        match self.fine_spot(pos) {
            Spot::Asked(_, _, prim) if self.can_stop(state, prim) => Some((
                PosId(pos.0 + 1),
                state,
            )),
            _ => None,
        }
    }

    /// The moves at a position, one or two.
    pub fn moves(&self, pos: PosId) -> (Move, Option<Move>)
        requires { IsPosition (game_of self.now) pos.0 }
        ensures first { result.0 ≡ first_move (slice_get (game_of self.now).spots pos.0) }
        ensures second { result.1 ≡ second_move (slice_get (game_of self.now).spots pos.0) }
    {
        match self.spot(pos) {
            Spot::Visit(_, _, _) => (Move::Skip, Some(Move::Try)),
            Spot::Asked(_, _, _) => (Move::Grant, Some(Move::Refuse)),
            Spot::Branch(_, _) => (Move::Left, Some(Move::Right)),
            Spot::Open(_, _, _) => (Move::Opened, Some(Move::Failed)),
            Spot::Step(_) | Spot::Label(_, _, _) | Spot::Close(_, _, _) => (Move::On, None),
            Spot::Call(_, _, _) | Spot::SplitCall(_, _, _) | Spot::Exit(_) => (Move::On, None),
        }
    }

    /// Who moves at a position.
    pub fn turn(&self, pos: PosId) -> Turn
        requires { IsPosition (game_of self.now) pos.0 }
        ensures { Some result ≡ option_map (turn_in (game_of self.now)) (slice_get (game_of self.now).spots pos.0) }
    {
        match self.fine_spot(pos) {
            Spot::Visit(_, _, _) => Turn::Weaver,
            Spot::Call(_, function, back) => Turn::Call {
                callee: function as u16,
                split: false,
                back: PosId(back),
            },
            Spot::SplitCall(_, function, back) => Turn::Call {
                callee: function as u16,
                split: true,
                back: PosId(back),
            },
            Spot::Exit(function) => Turn::Exit {
                main: function == self.main() as u32,
            },
            Spot::Asked(_, _, _) | Spot::Step(_) | Spot::Branch(_, _) => Turn::Environment,
            Spot::Label(_, _, _) | Spot::Open(_, _, _) | Spot::Close(_, _, _) => Turn::Environment,
        }
    }

    // The point of a position.
    fn point(&self, pos: PosId) -> PointId
        requires { IsPosition (game_of self.now) pos.0 }
        ensures { IsPointOf self.now pos.0 result.0 }
    {
        self.fact_is_sound();
        PointId((begun(&self.positions.bases, pos.0) - 1) as u32)
    }

    /// Where a position stands in the program.
    pub fn site(&self, pos: PosId) -> Site
        requires { IsPosition (game_of self.now) pos.0 }
        ensures point { IsPointOf self.now pos.0 result.point.0 }
        ensures stage { Some result.stage ≡ option_map stage_in (slice_get (game_of self.now).spots pos.0) }
        ensures asked { Some result.asked ≡ option_map is_asked_in (slice_get (game_of self.now).spots pos.0) }
        ensures split { Some result.split ≡ option_map is_split_in (slice_get (game_of self.now).spots pos.0) }
    {
        let spot = self.spot(pos);
        Site {
            point: self.point(pos),
            stage: stage_of(spot),
            asked: is_asked(spot),
            split: is_split(spot),
        }
    }

    /// Whether the pair is bad: the label that stands there makes the word bad.
    pub fn bad(&self, pos: PosId, state: StateId) -> bool
        requires position { IsPosition (game_of self.now) pos.0 }
        requires state { IsState (game_of self.now) state.0 }
        ensures { result ≡ bad_in (game_of self.now) state.0 (slice_get (game_of self.now).spots pos.0) }
    {
        match self.fine_spot(pos) {
            Spot::Label(_, label, _) => self.states.bad(state, label),
            _ => false,
        }
    }

    /// The number of the least rule that the label that stands there breaks: None where none stands there, and where it
    /// breaks none. It takes a step of the policy's rules.
    pub fn violated(&self, pos: PosId, state: StateId) -> Option<u8>
        requires position { IsPosition (game_of self.now) pos.0 }
        requires state { IsState (game_of self.now) state.0 }
        ensures is { result ≡ violated_at (lists_of self.now.states) state.0 (slice_get (game_of self.now).spots pos.0) }
        ensures bad { is_some result ≡ bad_in (game_of self.now) state.0 (slice_get (game_of self.now).spots pos.0) }
    {
        match self.fine_spot(pos) {
            Spot::Label(_, label, _) => self.states.violated(state, label),
            _ => None,
        }
    }

    /// The state after a return: of a plain call the state at the callee's end; of a split call its word, with the capabilities
    /// of the state at the call.
    pub fn returned(&self, call: StateId, exit: StateId, split: bool) -> StateId
        requires call { IsState (game_of self.now) call.0 }
        requires exit { IsState (game_of self.now) exit.0 }
        ensures is { result.0 ≡ returned (game_of self.now).states (kept_at split call.0) exit.0 }
        ensures within { IsState (game_of self.now) result.0 }
    {
        self.fact_is_sound();
        if split {
            self.states.with_rights(exit, call)
        } else {
            exit
        }
    }
}
