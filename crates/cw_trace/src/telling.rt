//! What each move tells.

ghost use Rattle.std.specs.Prelude.{◌≡◌, ◌++◌, Some, slice_get};
ghost use Rattle.cw_rights.specs.Policies.{policy_of};
ghost use Rattle.cw_io.specs.Written.{Follows};
ghost use Rattle.cw_states.specs.States.{caps_at, lists_of};
ghost use Rattle.cw_product.specs.Moves.{IsPosition, IsState};
ghost use Rattle.cw_product.specs.Product.{game_of};
ghost use Rattle.cw_trace.specs.Traces.{answered_lines, opened_lines, returned_lines};
ghost use Rattle.cw_trace.specs.Labels.{name_lists};
ghost use Rattle.cw_trace.specs.Told.{spot_lines, label_lines, lines_at, label_at};

use crate::{Names, put_call, put_close, put_label, put_open, put_return, put_try};
use cw_certs::Move;
use cw_core::{PosId, SeamId, StateId};
use cw_game::Spot;
use cw_io::{Sink, Writer};
use cw_product::Game;
use cw_rights::{Caps, Policy, Primitive};
use cw_text::descriptor_name;

/// Puts the line of an answer to a primitive; other moves have none here.
fn put_answered<S: Sink>(
    seam: SeamId,
    stage: u8,
    prim: Primitive,
    by: Move,
    writer: &mut Writer<S>,
    out: &mut S,
)
    requires follows { Follows S.taken S.faults S.refused writer.old out.old }
    ensures text { writer.new.text ≡ writer.old.text ++ answered_lines (Some seam.0) stage prim by }
    ensures begun { writer.new.begun ≡ writer.old.begun }
    ensures follows { Follows S.taken S.faults S.refused writer.new out.new }
{
    match by {
        Move::Grant => put_try(seam, stage, prim, true, writer, out),
        Move::Refuse => put_try(seam, stage, prim, false, writer, out),
        _ => {}
    }
}

/// Puts the line of an open; other moves have none here.
fn put_opened<S: Sink>(name: &[u8], by: Move, writer: &mut Writer<S>, out: &mut S)
    requires follows { Follows S.taken S.faults S.refused writer.old out.old }
    ensures text { writer.new.text ≡ writer.old.text ++ opened_lines name.now by }
    ensures begun { writer.new.begun ≡ writer.old.begun }
    ensures follows { Follows S.taken S.faults S.refused writer.new out.new }
{
    match by {
        Move::Opened => put_open(name, true, writer, out),
        Move::Failed => put_open(name, false, writer, out),
        _ => {}
    }
}

/// The end of a function is told, but that of `main`.
fn put_returned<S: Sink>(
    names: &Names,
    main: u16,
    function: u32,
    writer: &mut Writer<S>,
    out: &mut S,
)
    requires follows { Follows S.taken S.faults S.refused writer.old out.old }
    ensures text { writer.new.text ≡ writer.old.text ++ returned_lines (name_lists names.now) main function }
    ensures begun { writer.new.begun ≡ writer.old.begun }
    ensures follows { Follows S.taken S.faults S.refused writer.new out.new }
{
    if function != u32::from(main) {
        put_return(names.function(function), writer, out);
    }
}

/// Appends what a move tells that is made where this stands.
pub fn put_move<S: Sink>(
    names: &Names,
    policy: &Policy,
    main: u16,
    spot: Spot,
    by: Move,
    writer: &mut Writer<S>,
    out: &mut S,
)
    requires follows { Follows S.taken S.faults S.refused writer.old out.old }
    ensures text { writer.new.text ≡ writer.old.text ++ spot_lines (name_lists names.now) (policy_of policy.now) main spot by }
    ensures begun { writer.new.begun ≡ writer.old.begun }
    ensures follows { Follows S.taken S.faults S.refused writer.new out.new }
{
    match spot {
        Spot::Asked(seam, stage, prim) => put_answered(SeamId(seam), stage, prim, by, writer, out),
        Spot::Open(_, d, _) => put_opened(descriptor_name(policy, d), by, writer, out),
        Spot::Close(_, d, _) => put_close(descriptor_name(policy, d), writer, out),
        Spot::Call(_, f, _) => put_call(names.function(f), false, writer, out),
        Spot::SplitCall(_, f, _) => put_call(names.function(f), true, writer, out),
        Spot::Exit(f) => put_returned(names, main, f, writer, out),
        Spot::Visit(..) | Spot::Step(_) | Spot::Branch(..) | Spot::Label(..) => {}
    }
}

/// Appends what is told where this is reached with these capabilities: the label that stands there, if one does.
pub fn put_reached<S: Sink>(
    names: &Names,
    policy: &Policy,
    caps: &Caps,
    spot: Spot,
    writer: &mut Writer<S>,
    out: &mut S,
)
    requires follows { Follows S.taken S.faults S.refused writer.old out.old }
    ensures text { writer.new.text ≡ writer.old.text ++ label_lines (name_lists names.now) (policy_of policy.now) caps.now spot }
    ensures begun { writer.new.begun ≡ writer.old.begun }
    ensures follows { Follows S.taken S.faults S.refused writer.new out.new }
{
    match spot {
        Spot::Label(seam, _, _) => put_label(
            names.label(SeamId(seam)),
            &policy.descriptors,
            caps,
            writer,
            out,
        ),
        _ => {}
    }
}

/// Appends the lines of a move from a position to a pair: what was done there, and the label that is reached.
pub fn put_step<S: Sink>(
    names: &Names,
    game: &Game,
    pos: PosId,
    by: Move,
    next: (PosId, StateId),
    writer: &mut Writer<S>,
    out: &mut S,
)
    requires position { IsPosition (game_of game.now) pos.0 }
    requires next { IsPosition (game_of game.now) next.0.0 }
    requires state { IsState (game_of game.now) next.1.0 }
    requires follows { Follows S.taken S.faults S.refused writer.old out.old }
    ensures told { let g = game_of game.now in
        writer.new.text ≡ writer.old.text
        ++ (lines_at (name_lists names.now) g.policy g.main (slice_get g.spots pos.0) by
        ++ label_at (name_lists names.now) g.policy (caps_at (lists_of game.now.states) next.1.0) (slice_get g.spots next.0.0)) }
    ensures begun { writer.new.begun ≡ writer.old.begun }
    ensures follows { Follows S.taken S.faults S.refused writer.new out.new }
{
    let policy = game.policy();
    put_move(names, policy, game.main(), game.spot(pos), by, writer, out);
    put_reached(
        names,
        policy,
        game.caps(next.1),
        game.spot(next.0),
        writer,
        out,
    );
}
