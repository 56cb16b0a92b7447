//! The operators over numbers of 64 bits.

ghost use Rattle.std.specs.Prelude.{◌≡◌, ◌<◌, ◌≤◌, ◌^◌, ◌*ℤ◌, IfSome, pos, neg_ℤ};
ghost use Rattle.cw_figures.specs.Figures.{count_of, divided, fitting, is_zero, left_over, operated, shifted_left, shifted_right, truth};

/// Why an operator gives no value.
#[derive(Clone, Copy, Drop, Debug, PartialEq, Eq)]
pub enum Want {
    /// The result isn't from -2^63 to 2^63 - 1, or the count of a shift isn't from 0 to 63.
    Overflow,
    /// The right side of `/` or `%` is 0.
    Division,
}

/// A binary operator that takes both of its operands.
#[derive(Clone, Copy, Drop, Debug, PartialEq, Eq)]
pub enum Operator {
    BitOr,
    BitXor,
    BitAnd,
    Equal,
    Unequal,
    Less,
    AtMost,
    Greater,
    AtLeast,
    ShiftLeft,
    ShiftRight,
    Plus,
    Minus,
    Times,
    Divide,
    Modulo,
}

/// 1 or 0, as comparisons and `!` give it.
pub fn truth(b: bool) -> i64
    ensures truth { result ≡ truth b }
{
    if b { 1 } else { 0 }
}

/// Whether a number is 0.
pub fn is_zero(a: i64) -> bool
    ensures zero { result ≡ is_zero a }
{
    a == 0
}

/// A number as it is written, where it fits.
pub fn fitting(n: u64) -> Result<i64, Want>
    ensures fitting { result ≡ fitting (pos n) }
{
    i64::try_from(n).map_err(|_| Want::Overflow)
}

/// What unary `-` gives.
pub fn negated(a: i64) -> Result<i64, Want>
    ensures negated { result ≡ fitting (neg_ℤ a) }
{
    a.checked_neg().ok_or(Want::Overflow)
}

/// The sum, where 64 bits hold it.
fn plus(a: i64, b: i64) -> Result<i64, Want>
    ensures { result ≡ operated Operator.Plus a b }
{
    a.checked_add(b).ok_or(Want::Overflow)
}

/// The difference, where 64 bits hold it.
fn minus(a: i64, b: i64) -> Result<i64, Want>
    ensures { result ≡ operated Operator.Minus a b }
{
    a.checked_sub(b).ok_or(Want::Overflow)
}

/// The product, where 64 bits hold it.
fn times(a: i64, b: i64) -> Result<i64, Want>
    ensures { result ≡ operated Operator.Times a b }
{
    a.checked_mul(b).ok_or(Want::Overflow)
}

/// The quotient, cut towards zero, where there is one and 64 bits hold it.
fn divided(a: i64, b: i64) -> Result<i64, Want>
    ensures { result ≡ divided a b }
{
    if b == 0 {
        return Err(Want::Division);
    }
    a.checked_div(b).ok_or(Want::Overflow)
}

/// What a division cut towards zero leaves, where the divisor is not 0; 0 for -2^63 by -1.
fn left_over(a: i64, b: i64) -> Result<i64, Want>
    ensures { result ≡ left_over a b }
{
    if b == 0 {
        return Err(Want::Division);
    }
    Ok(a.wrapping_rem(b))
}

/// How many bits to shift by, where that is from 0 to 63.
fn count_of(b: i64) -> Option<u32>
    ensures count { result ≡ count_of b }
    ensures few { IfSome result (λ k. k < 64) }
{
    if 0 <= b && b < 64 {
        Some(b as u32)
    } else {
        None
    }
}

/// A power of two.
#[tactic(auto, using(crate::proofs::Powers::small_power, crate::proofs::Powers::is_power))]
fn power(k: u32) -> u64
    requires { k < 64 }
    ensures power { result ≡ 2 ^ k }
    ensures small { result ≤ 2 ^ 63 }
{
    1u64 << k
}

/// A product that fits 128 bits, as both factors fit 64.
fn product(a: i64, n: u64) -> i128
    requires { n ≤ 2 ^ 63 }
    ensures { result ≡ a *ℤ pos n }
{
    i128::from(a) * i128::from(n)
}

/// The number times a power of two, where the count is one and 64 bits hold it.
fn shifted_left(a: i64, by: Option<u32>) -> Result<i64, Want>
    requires { IfSome by (λ k. k < 64) }
    ensures { result ≡ shifted_left a by }
{
    match by {
        None => Err(Want::Overflow),
        Some(k) => i64::try_from(product(a, power(k))).map_err(|_| Want::Overflow),
    }
}

/// The number divided by a power of two, rounded down, where the count is one.
fn shifted_right(a: i64, by: Option<u32>) -> Result<i64, Want>
    requires { IfSome by (λ k. k < 64) }
    ensures { result ≡ shifted_right a by }
{
    match by {
        None => Err(Want::Overflow),
        Some(k) => Ok(a >> k),
    }
}

/// What an operator gives over two numbers.
///
/// Public source: ISO/IEC 9899:2011, 6.5.5 to 6.5.12; a shift to the right rounds down, also of negative numbers.
#[inline(always)]
pub fn operate(op: Operator, a: i64, b: i64) -> Result<i64, Want>
    ensures operated { result ≡ operated op a b }
{
    match op {
        Operator::BitOr => Ok(a | b),
        Operator::BitXor => Ok(a ^ b),
        Operator::BitAnd => Ok(a & b),
        Operator::Equal => Ok(truth(a == b)),
        Operator::Unequal => Ok(truth(a != b)),
        Operator::Less => Ok(truth(a < b)),
        Operator::AtMost => Ok(truth(a <= b)),
        Operator::Greater => Ok(truth(a > b)),
        Operator::AtLeast => Ok(truth(a >= b)),
        Operator::ShiftLeft => shifted_left(a, count_of(b)),
        Operator::ShiftRight => shifted_right(a, count_of(b)),
        Operator::Plus => plus(a, b),
        Operator::Minus => minus(a, b),
        Operator::Times => times(a, b),
        Operator::Divide => divided(a, b),
        Operator::Modulo => left_over(a, b),
    }
}
