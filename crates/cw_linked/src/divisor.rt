//! Division of rows by a number that stays the same.

use cw_core::limits::{CELLS, POSITIONS_TIMES_STATES};
use std::marker::Model;

/// A number by which rows are divided.
///
/// A quotient is a product with the inverse, 2^42 / by + 1, without its last 42 bits: a division takes as long as all else that
/// finds a cell. The inverse times the number is above 2^42 by no more than the number, and a row times the number is below 2^42,
/// so the quotient is exact.
#[derive(Drop)]
pub(crate) struct Divisor {
    by: u32,
    inverse: u64,
}

impl Model for Divisor {
    ghost use Rattle.std.specs.Prelude.{ℕ};
    ghost use Rattle.cw_linked.specs.Runs.{IsDivisor};

    ghost Value = { ℕ };

    ghost view = { λ d. d.by };

    ghost invariant = { λ d. IsDivisor d.by d.inverse };
}

impl Divisor {
    ghost use Rattle.std.specs.Prelude.{◌≡◌, ◌<◌, ◌≤◌, ◌/◌};

    /// The divisor by a number.
    pub fn of(by: u32) -> Divisor
        requires some { 0 < by }
        requires few { by ≤ POSITIONS_TIMES_STATES }
        ensures { result ≡ by }
    {
        Divisor {
            by,
            inverse: 4_398_046_511_104 / u64::from(by) + 1,
        }
    }

    /// The same divisor once more.
    pub fn again(&self) -> Divisor
        ensures { result ≡ self.now }
    {
        Divisor {
            by: self.by,
            inverse: self.inverse,
        }
    }

    /// The number.
    pub fn by(&self) -> u32
        ensures { result ≡ self.now }
    {
        self.by
    }

    /// How often the number goes into a row.
    pub fn quotient(&self, row: u32) -> u32
        requires { row < CELLS }
        ensures { result ≡ row / self.now }
    {
        ((u64::from(row) * self.inverse) >> 42) as u32
    }
}
