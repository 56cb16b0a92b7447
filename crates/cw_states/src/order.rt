//! The order of capabilities.

ghost use Rattle.std.specs.Prelude.{◌≡◌, map};
ghost use Rattle.std.proofs.Common.{rules};
ghost use Rattle.std.specs.Cmp.{partial_order_from_own_ties};
ghost use Rattle.std.specs.Cmp.Rules.{comparing};
ghost use Rattle.std.specs.Ordering.{eq_by_cmp, nat_cmp, on, then_cmp, as_partial_cmp};
ghost use Rattle.std.specs.Cmp.Lexicographic.{slice_cmp};
ghost use Rattle.cw_rights.specs.declared.capabilities.Caps.{Caps};
ghost use Rattle.cw_states.specs.Rights.{caps_cmp, mode_number, hold_number};

use cw_rights::{Caps, Hold};
use std::cmp::Ordering;

/// Capabilities in the order of the rights states: ambient authority first, then descriptor by descriptor, Closed
/// first, then by the rights as a number.
#[derive(Clone, Copy, Drop)]
pub(crate) struct Ranked {
    pub caps: Caps,
}

/// 0 in ambient mode, 1 in capability mode.
fn mode_number(amb: bool) -> u8
    ensures { result ≡ mode_number amb }
{
    if amb { 0 } else { 1 }
}

/// 0 for a closed descriptor, else 1 more than its set of rights.
fn hold_number(hold: Hold) -> u32
    ensures { result ≡ hold_number hold }
{
    match hold {
        Hold::Closed => 0,
        Hold::Open(rights) => rights.0 as u32 + 1,
    }
}

/// Holds, descriptor by descriptor, by the first that differs.
fn order_holds(a: &[Hold], b: &[Hold]) -> Ordering
    ensures { result ≡ slice_cmp nat_cmp (map hold_number a.now) (map hold_number b.now) }
{
    match a {
        [] => {
            if b.is_empty() {
                Ordering::Equal
            } else {
                Ordering::Less
            }
        }
        [first, rest @ ..] => match b {
            [] => Ordering::Greater,
            [other, others @ ..] => match hold_number(*first).cmp(&hold_number(*other)) {
                Ordering::Equal => order_holds(rest, others),
                differs => differs,
            },
        },
    }
}

/// Capabilities by their mode, and then by what each descriptor holds.
fn order(a: &Caps, b: &Caps) -> Ordering
    ensures { result ≡ caps_cmp a.now b.now }
{
    match mode_number(a.amb).cmp(&mode_number(b.amb)) {
        Ordering::Equal => order_holds(&a.holds, &b.holds),
        differs => differs,
    }
}

impl PartialEq for Ranked {
    ghost eq = { on (λ r. r.caps) (eq_by_cmp caps_cmp) };

    ghost laws = { Prim.search (comparing, rules) depth 9 };

    fn eq(&self, other: &Ranked) -> bool {
        order(&self.caps, &other.caps).is_eq()
    }
}

impl Eq for Ranked {
    ghost laws = { Prim.search (comparing, rules) depth 9 };
}

impl Ord for Ranked {
    ghost cmp = { on (λ r. r.caps) caps_cmp };

    ghost total = { Prim.search (comparing, rules) depth 9 };

    ghost matches_partial_cmp = { Prim.search (comparing, rules) };

    ghost matches_eq = { Prim.search (comparing, rules) };

    fn cmp(&self, other: &Ranked) -> Ordering {
        order(&self.caps, &other.caps)
    }
}

impl PartialOrd for Ranked {
    ghost partial_cmp = { as_partial_cmp (on (λ r. r.caps) caps_cmp) };

    ghost laws = { partial_order_from_own_ties (Prim.search (comparing, rules)) (Prim.search (comparing, rules)) };

    fn partial_cmp(&self, other: &Ranked) -> Option<Ordering> {
        Some(self.cmp(other))
    }
}
