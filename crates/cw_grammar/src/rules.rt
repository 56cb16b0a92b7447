//! The rules by which tokens are an expression.

/// What tokens are read as: an expression; a level of binary operators, where level 0 is an operand and level 10 that of
/// two bars; a unary; a postfix. Public source: ISO/IEC 9899:2011, 6.5.
#[derive(Clone, Copy, Drop, Debug, PartialEq, Eq)]
pub enum Rule {
    Expression,
    Level(u32),
    Unary,
    Postfix,
}
