//! The lines of a trace. Each call appends one line, LF included, to the text that a writer puts piece by piece.

ghost use Rattle.std.specs.Prelude.{◌≡◌, ◌<◌, ◌++◌, ◌/◌, ◌%◌, ◌∷◌, [], map};
ghost use Rattle.std.specs.Char.{digit_char};
ghost use Rattle.cw_rights.specs.Capabilities.{hold_of};
ghost use Rattle.cw_rights.specs.Policies.{descriptor_of};
ghost use Rattle.cw_io.specs.Written.{Follows};
ghost use Rattle.cw_text.specs.RowLines.{numbered};
ghost use Rattle.cw_trace.specs.Lines.{primitive_text, answer_text, try_line, stop_line, success_text, open_line, close_line, mode_text, call_line, return_line, rights_text, hold_text, held_text, authority_text, caps_text, label_line};

use cw_core::SeamId;
use cw_io::{Sink, Writer};
use cw_rights::policy::Descriptor;
use cw_rights::{Caps, Hold, Primitive, Rights};

/// Puts the names for a primitive; a limit has its stage behind it.
fn put_primitive<S: Sink>(stage: u8, prim: Primitive, writer: &mut Writer<S>, out: &mut S)
    requires follows { Follows S.taken S.faults S.refused writer.old out.old }
    ensures text { writer.new.text ≡ writer.old.text ++ primitive_text stage prim }
    ensures begun { writer.new.begun ≡ writer.old.begun }
    ensures follows { Follows S.taken S.faults S.refused writer.new out.new }
{
    match prim {
        Primitive::Limit(_) => {
            writer.put(b"limit", out);
            writer.put_number(u64::from(stage), out);
        }
        Primitive::Enter => writer.put(b"enter", out),
        Primitive::Split => writer.put(b"split", out),
    }
}

/// The name of an answer.
fn answer_name(granted: bool) -> &'static [u8]
    ensures { result.now ≡ answer_text granted }
{
    if granted { b"granted" } else { b"refused" }
}

/// Appends `try SEAM PRIMITIVE granted` or `refused`: what was tried at this stage of a seam, cap_enter(2) and
/// cap_rights_limit(2), and the answer.
#[tactic(auto, unfolding(crate::specs::Lines::try_line))]
pub fn put_try<S: Sink>(
    seam: SeamId,
    stage: u8,
    prim: Primitive,
    granted: bool,
    writer: &mut Writer<S>,
    out: &mut S,
)
    requires follows { Follows S.taken S.faults S.refused writer.old out.old }
    ensures line { writer.new.text ≡ writer.old.text ++ try_line seam.0 stage prim granted }
    ensures begun { writer.new.begun ≡ writer.old.begun }
    ensures follows { Follows S.taken S.faults S.refused writer.new out.new }
{
    writer.put(b"try ", out);
    writer.put_number(u64::from(seam.0), out);
    writer.put(b" ", out);
    put_primitive(stage, prim, writer, out);
    writer.put(b" ", out);
    writer.put(answer_name(granted), out);
    writer.put(b"\n", out);
}

/// Appends `stop SEAM`: the weaver ended the program after a refusal at this seam.
#[tactic(auto, unfolding(crate::specs::Lines::stop_line))]
pub fn put_stop<S: Sink>(seam: SeamId, writer: &mut Writer<S>, out: &mut S)
    requires follows { Follows S.taken S.faults S.refused writer.old out.old }
    ensures line { writer.new.text ≡ writer.old.text ++ stop_line seam.0 }
    ensures begun { writer.new.begun ≡ writer.old.begun }
    ensures follows { Follows S.taken S.faults S.refused writer.new out.new }
{
    writer.put(b"stop ", out);
    writer.put_number(u64::from(seam.0), out);
    writer.put(b"\n", out);
}

/// The name of how an open ended.
fn success_name(opened: bool) -> &'static [u8]
    ensures { result.now ≡ success_text opened }
{
    if opened { b" opened" } else { b" failed" }
}

/// Appends `open NAME opened` or `failed`.
#[tactic(auto, unfolding(crate::specs::Lines::open_line))]
pub fn put_open<S: Sink>(name: &[u8], opened: bool, writer: &mut Writer<S>, out: &mut S)
    requires follows { Follows S.taken S.faults S.refused writer.old out.old }
    ensures line { writer.new.text ≡ writer.old.text ++ open_line name.now opened }
    ensures begun { writer.new.begun ≡ writer.old.begun }
    ensures follows { Follows S.taken S.faults S.refused writer.new out.new }
{
    writer.put(b"open ", out);
    writer.put(name, out);
    writer.put(success_name(opened), out);
    writer.put(b"\n", out);
}

/// Appends `close NAME`.
#[tactic(auto, unfolding(crate::specs::Lines::close_line))]
pub fn put_close<S: Sink>(name: &[u8], writer: &mut Writer<S>, out: &mut S)
    requires follows { Follows S.taken S.faults S.refused writer.old out.old }
    ensures line { writer.new.text ≡ writer.old.text ++ close_line name.now }
    ensures begun { writer.new.begun ≡ writer.old.begun }
    ensures follows { Follows S.taken S.faults S.refused writer.new out.new }
{
    writer.put(b"close ", out);
    writer.put(name, out);
    writer.put(b"\n", out);
}

/// The name of a call in a process of its own, nothing for another.
fn mode_name(split: bool) -> &'static [u8]
    ensures { result.now ≡ mode_text split }
{
    if split { b" split" } else { b"" }
}

/// Appends `call NAME`, and ` split` where the call runs in a process of its own.
#[tactic(auto, unfolding(crate::specs::Lines::call_line))]
pub fn put_call<S: Sink>(name: &[u8], split: bool, writer: &mut Writer<S>, out: &mut S)
    requires follows { Follows S.taken S.faults S.refused writer.old out.old }
    ensures line { writer.new.text ≡ writer.old.text ++ call_line name.now split }
    ensures begun { writer.new.begun ≡ writer.old.begun }
    ensures follows { Follows S.taken S.faults S.refused writer.new out.new }
{
    writer.put(b"call ", out);
    writer.put(name, out);
    writer.put(mode_name(split), out);
    writer.put(b"\n", out);
}

/// Appends `return NAME`, with the function that ends.
#[tactic(auto, unfolding(crate::specs::Lines::return_line))]
pub fn put_return<S: Sink>(name: &[u8], writer: &mut Writer<S>, out: &mut S)
    requires follows { Follows S.taken S.faults S.refused writer.old out.old }
    ensures line { writer.new.text ≡ writer.old.text ++ return_line name.now }
    ensures begun { writer.new.begun ≡ writer.old.begun }
    ensures follows { Follows S.taken S.faults S.refused writer.new out.new }
{
    writer.put(b"return ", out);
    writer.put(name, out);
    writer.put(b"\n", out);
}

/// The lower-case hexadecimal digit of a number below 16.
fn digit(number: u16) -> u8
    requires { number < 16 }
    ensures { result ≡ digit_char number }
{
    if number < 10 {
        b'0' + number as u8
    } else {
        b'a' + (number as u8 - 10)
    }
}

/// Appends rights in lower-case hexadecimal: three digits, and four where three are too few.
fn put_rights<S: Sink>(rights: Rights, writer: &mut Writer<S>, out: &mut S)
    requires follows { Follows S.taken S.faults S.refused writer.old out.old }
    ensures text { writer.new.text ≡ writer.old.text ++ rights_text rights.0 }
    ensures begun { writer.new.begun ≡ writer.old.begun }
    ensures follows { Follows S.taken S.faults S.refused writer.new out.new }
{
    let bits = rights.0;
    if bits >= 4096 {
        writer.put(&[digit(bits / 4096)], out);
    }
    writer.put(
        &[
            digit(bits / 256 % 16),
            digit(bits / 16 % 16),
            digit(bits % 16),
        ],
        out,
    );
}

/// Puts what a descriptor holds.
fn put_hold<S: Sink>(hold: Hold, writer: &mut Writer<S>, out: &mut S)
    requires follows { Follows S.taken S.faults S.refused writer.old out.old }
    ensures text { writer.new.text ≡ writer.old.text ++ hold_text hold }
    ensures begun { writer.new.begun ≡ writer.old.begun }
    ensures follows { Follows S.taken S.faults S.refused writer.new out.new }
{
    match hold {
        Hold::Closed => writer.put(b"closed", out),
        Hold::Open(rights) => put_rights(rights, writer, out),
    }
}

/// What is held of a descriptor, by its number.
fn hold_of(caps: &Caps, number: usize) -> Hold
    ensures { result ≡ hold_of caps.now number }
{
    match caps.holds.get(number) {
        Some(hold) => *hold,
        None => Hold::Closed,
    }
}

/// Puts a descriptor's name and what it holds.
fn put_held<S: Sink>(
    caps: &Caps,
    number: usize,
    descriptor: &Descriptor,
    writer: &mut Writer<S>,
    out: &mut S,
)
    requires follows { Follows S.taken S.faults S.refused writer.old out.old }
    ensures text { writer.new.text ≡ writer.old.text ++ held_text caps.now number (descriptor_of descriptor.now) }
    ensures begun { writer.new.begun ≡ writer.old.begun }
    ensures follows { Follows S.taken S.faults S.refused writer.new out.new }
{
    writer.put(b" ", out);
    writer.put(&descriptor.name, out);
    writer.put(b"=", out);
    put_hold(hold_of(caps, number), writer, out);
}

/// Puts that of all descriptors.
fn put_all_held<S: Sink>(
    caps: &Caps,
    descriptors: &[Descriptor],
    writer: &mut Writer<S>,
    out: &mut S,
)
    requires follows { Follows S.taken S.faults S.refused writer.old out.old }
    ensures text { writer.new.text ≡ writer.old.text ++ numbered (held_text caps.now) (map descriptor_of descriptors.now) }
    ensures begun { writer.new.begun ≡ writer.old.begun }
    ensures follows { Follows S.taken S.faults S.refused writer.new out.new }
{
    for number in 0..descriptors.len() {
        put_held(caps, number, &descriptors[number], writer, out);
    }
}

/// The name of ambient or capability mode.
fn authority_name(amb: bool) -> &'static [u8]
    ensures { result.now ≡ authority_text amb }
{
    if amb { b"amb" } else { b"cap" }
}

/// Puts the mode and what all descriptors hold.
#[tactic(auto, unfolding(crate::specs::Lines::caps_text))]
fn put_caps<S: Sink>(caps: &Caps, descriptors: &[Descriptor], writer: &mut Writer<S>, out: &mut S)
    requires follows { Follows S.taken S.faults S.refused writer.old out.old }
    ensures text { writer.new.text ≡ writer.old.text ++ caps_text (map descriptor_of descriptors.now) caps.now }
    ensures begun { writer.new.begun ≡ writer.old.begun }
    ensures follows { Follows S.taken S.faults S.refused writer.new out.new }
{
    writer.put(authority_name(caps.amb), out);
    put_all_held(caps, descriptors, writer, out);
}

/// Appends `label NAME CAPS`: `amb` or `cap`, and for each of the policy's descriptors ` DESCRIPTOR=` with `closed` or the rights
/// that are held, in lower-case hexadecimal of three digits at least, rights(4).
#[tactic(auto, unfolding(crate::specs::Lines::label_line))]
pub fn put_label<S: Sink>(
    name: &[u8],
    descriptors: &[Descriptor],
    caps: &Caps,
    writer: &mut Writer<S>,
    out: &mut S,
)
    requires follows { Follows S.taken S.faults S.refused writer.old out.old }
    ensures line { writer.new.text ≡ writer.old.text ++ label_line (map descriptor_of descriptors.now) name.now caps.now }
    ensures begun { writer.new.begun ≡ writer.old.begun }
    ensures follows { Follows S.taken S.faults S.refused writer.new out.new }
{
    writer.put(b"label ", out);
    writer.put(name, out);
    writer.put(b" ", out);
    put_caps(caps, descriptors, writer, out);
    writer.put(b"\n", out);
}
