//! The answers that a run over values is given, and what it shows.

use cw_certs::Move;
use cw_core::SeamId;
use cw_syntax::program::Name;

/// What is handed in to a run: values for names that the source doesn't declare and for the parameters of `main`, ascending by
/// name; what is answered to tries where either answer may come, each a grant or a refusal; what external calls give, in order.
#[derive(Drop)]
pub struct Answers {
    pub names: Vec<(Vec<u8>, i64)>,
    pub tries: Vec<Move>,
    pub calls: Vec<i64>,
}

/// An argument of an external call: its value, or, where it is no number, the place where it stands in the source.
#[derive(Clone, Copy, Drop, Debug, PartialEq, Eq)]
pub enum Arg {
    Number(i64),
    Text(Name),
}

/// An external call that was made: the place of its name in the source, its arguments, and what it gave.
#[derive(Drop)]
pub struct Made {
    pub name: Name,
    pub args: Vec<Arg>,
    pub answer: i64,
}

/// How a run ends. A place is that of the first byte of the innermost expression that stops, counted from the front of the source.
#[derive(Clone, Copy, Drop, Debug, PartialEq, Eq)]
pub enum Stop {
    /// The program has ended.
    Ended,
    /// An expression has no value, for a reason that none of those below is.
    Form(u32),
    /// An unset value is read.
    Unset(u32),
    /// A name is read that nothing declares and no value is handed in for.
    Unknown(u32),
    /// A result or a written number isn't from -2^63 to 2^63 - 1, or a shift's count not from 0 to 63.
    Overflow(u32),
    /// The right side of `/` or `%` is 0.
    Division(u32),
    /// An index is outside its array.
    Index(u32),
    /// An external call is made, and no answer is left.
    Answers(u32),
    /// 1,000,000 steps of the program were made, and it hasn't ended.
    Steps,
    /// The weaver ends the program, right after a refusal at this seam.
    Refused(SeamId),
}

/// What a run shows: the external calls that it made, in order, how many primitives were tried, and how it ended.
#[derive(Drop)]
pub struct Values {
    pub made: Vec<Made>,
    pub tried: u32,
    pub stop: Stop,
}
