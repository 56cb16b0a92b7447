//! What the numbers of binary operators and of assignments in the program data stand for.

ghost use Rattle.std.specs.Prelude.{◌≡◌};
ghost use Rattle.cw_figures.specs.Figures.{compound_of, joint_of};

use crate::operators::Operator;

/// What a binary operator joins its operands by.
#[derive(Clone, Copy, Drop, Debug, PartialEq, Eq)]
pub enum Joint {
    /// `||`: the right operand is left out where the left one isn't 0.
    Or,
    /// `&&`: the right operand is left out where the left one is 0.
    And,
    /// Every other one takes both.
    By(Operator),
    /// No operator has this number.
    Nothing,
}

/// A binary operator by its number in the program data.
pub fn joint_of(n: u8) -> Joint
    ensures joint { result ≡ joint_of n }
{
    match n {
        0 => Joint::Or,
        1 => Joint::And,
        2 => Joint::By(Operator::BitOr),
        3 => Joint::By(Operator::BitXor),
        4 => Joint::By(Operator::BitAnd),
        5 => Joint::By(Operator::Equal),
        6 => Joint::By(Operator::Unequal),
        7 => Joint::By(Operator::Less),
        8 => Joint::By(Operator::AtMost),
        9 => Joint::By(Operator::Greater),
        10 => Joint::By(Operator::AtLeast),
        11 => Joint::By(Operator::ShiftLeft),
        12 => Joint::By(Operator::ShiftRight),
        13 => Joint::By(Operator::Plus),
        14 => Joint::By(Operator::Minus),
        15 => Joint::By(Operator::Times),
        16 => Joint::By(Operator::Divide),
        17 => Joint::By(Operator::Modulo),
        _ => Joint::Nothing,
    }
}

/// The operator of a compound assignment, by the assignment's number in the program data; `=` has 0, and none.
pub fn compound_of(n: u8) -> Option<Operator>
    ensures operator { result ≡ compound_of n }
{
    match n {
        1 => Some(Operator::Plus),
        2 => Some(Operator::Minus),
        3 => Some(Operator::Times),
        4 => Some(Operator::Divide),
        5 => Some(Operator::Modulo),
        6 => Some(Operator::BitAnd),
        7 => Some(Operator::BitOr),
        8 => Some(Operator::BitXor),
        9 => Some(Operator::ShiftLeft),
        10 => Some(Operator::ShiftRight),
        _ => None,
    }
}
