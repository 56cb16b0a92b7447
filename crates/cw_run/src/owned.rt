//! The lines of a run, and those of a process among others: behind its number and a blank.

ghost use Rattle.std.specs.Prelude.{◌≡◌, ◌++◌};
ghost use Rattle.cw_rights.specs.Policies.{policy_of};
ghost use Rattle.cw_io.specs.Written.{Follows};
ghost use Rattle.cw_trace.specs.Labels.{name_lists};
ghost use Rattle.cw_trace.specs.Lines.{stop_line};
ghost use Rattle.cw_trace.specs.Told.{spot_lines, label_lines};
ghost use Rattle.cw_run.specs.Lines.{lead_of, own_of};
ghost use Rattle.cw_run.specs.Walks.{is_answer, is_success, has_line, is_label};

use cw_certs::Move;
use cw_core::SeamId;
use cw_game::Spot;
use cw_io::{Sink, Writer};
use cw_rights::{Caps, Policy};
use cw_trace::{Names, put_move, put_reached, put_stop};

/// Puts the number of a process and a blank, where it is one among others.
pub fn put_process<S: Sink>(process: Option<u32>, writer: &mut Writer<S>, out: &mut S)
    requires follows { Follows S.taken S.faults S.refused writer.old out.old }
    ensures text { writer.new.text ≡ writer.old.text ++ lead_of process }
    ensures begun { writer.new.begun ≡ writer.old.begun }
    ensures follows { Follows S.taken S.faults S.refused writer.new out.new }
{
    if let Some(number) = process {
        writer.put_number(u64::from(number), out);
        writer.put(b" ", out);
    }
}

/// Whether a move answers what was asked.
fn is_answer(by: Move) -> bool
    ensures { result ≡ is_answer by }
{
    matches!(by, Move::Grant | Move::Refuse)
}

/// Whether a move tells how an open ended.
fn is_success(by: Move) -> bool
    ensures { result ≡ is_success by }
{
    matches!(by, Move::Opened | Move::Failed)
}

/// Whether a move has a line that is made where this stands.
fn has_line(main: u16, spot: Spot, by: Move) -> bool
    ensures { result ≡ has_line main spot by }
{
    match spot {
        Spot::Asked(..) => is_answer(by),
        Spot::Open(..) => is_success(by),
        Spot::Close(..) | Spot::Call(..) | Spot::SplitCall(..) => true,
        Spot::Exit(function) => function != u32::from(main),
        Spot::Visit(..) | Spot::Step(_) | Spot::Branch(..) | Spot::Label(..) => false,
    }
}

/// Appends what a move tells that is made where this stands, by a run, or by this process among others.
pub fn put_own_move<S: Sink>(
    process: Option<u32>,
    names: &Names,
    policy: &Policy,
    main: u16,
    spot: Spot,
    by: Move,
    writer: &mut Writer<S>,
    out: &mut S,
)
    requires follows { Follows S.taken S.faults S.refused writer.old out.old }
    ensures text { writer.new.text ≡ writer.old.text ++ own_of process (spot_lines (name_lists names.now) (policy_of policy.now) main spot by) }
    ensures begun { writer.new.begun ≡ writer.old.begun }
    ensures follows { Follows S.taken S.faults S.refused writer.new out.new }
{
    if has_line(main, spot, by) {
        put_process(process, writer, out);
    }
    put_move(names, policy, main, spot, by, writer, out);
}

/// Whether a label stands there.
fn is_label(spot: Spot) -> bool
    ensures { result ≡ is_label spot }
{
    matches!(spot, Spot::Label(..))
}

/// Appends what is told where this is reached with these capabilities.
pub(crate) fn put_own_reached<S: Sink>(
    process: Option<u32>,
    names: &Names,
    policy: &Policy,
    caps: &Caps,
    spot: Spot,
    writer: &mut Writer<S>,
    out: &mut S,
)
    requires follows { Follows S.taken S.faults S.refused writer.old out.old }
    ensures text { writer.new.text ≡ writer.old.text ++ own_of process (label_lines (name_lists names.now) (policy_of policy.now) caps.now spot) }
    ensures begun { writer.new.begun ≡ writer.old.begun }
    ensures follows { Follows S.taken S.faults S.refused writer.new out.new }
{
    if is_label(spot) {
        put_process(process, writer, out);
    }
    put_reached(names, policy, caps, spot, writer, out);
}

/// Appends that the weaver ended the program, or this process, after a refusal at this seam.
pub(crate) fn put_own_stop<S: Sink>(
    process: Option<u32>,
    seam: SeamId,
    writer: &mut Writer<S>,
    out: &mut S,
)
    requires follows { Follows S.taken S.faults S.refused writer.old out.old }
    ensures text { writer.new.text ≡ writer.old.text ++ own_of process (stop_line seam.0) }
    ensures begun { writer.new.begun ≡ writer.old.begun }
    ensures follows { Follows S.taken S.faults S.refused writer.new out.new }
{
    put_process(process, writer, out);
    put_stop(seam, writer, out);
}
