//! Letters, literals and regular expressions over words.

ghost use Rattle.std.specs.Prelude.{◌≡◌};
ghost use Rattle.cw_rights.specs.Capabilities.{is_open_with};
ghost use Rattle.cw_rights.specs.Trees.{literal_of};
ghost use Rattle.cw_rights.specs.Words.{truth, tests_hold, fits};

use crate::capabilities::{Caps, Hold, Rights};

/// A label with the capabilities that are held when it is reached.
///
/// `label` is the label's number in the policy, or the number of the policy's labels for any other label.
#[derive(Clone, Copy, Drop, PartialEq, Eq)]
pub struct Letter {
    pub label: u16,
    pub caps: Caps,
}

/// A test of capabilities: ambient authority, or that a descriptor is open with every right of a set.
#[derive(Clone, Copy, Drop, PartialEq, Eq)]
pub enum Test {
    Amb,
    Holds { descriptor: u8, need: Rights },
}

/// A literal: a label, or any label, and tests with their wanted truths.
#[derive(Drop)]
pub struct Lit {
    pub label: Option<u16>,
    pub tests: Vec<(bool, Test)>,
}

/// A regular expression over letters.
#[cycle(ast)]
#[derive(Drop)]
pub enum Regex {
    Lit(Lit),
    Cat(Vec<Regex>),
    Or(Vec<Regex>),
    Star(Box<Regex>),
    Plus(Box<Regex>),
    Maybe(Box<Regex>),
}

/// Whether a descriptor is open and holds these rights.
fn is_open_with(hold: Hold, need: Rights) -> bool
    ensures { result ≡ is_open_with hold need.0 }
{
    match hold {
        Hold::Closed => false,
        Hold::Open(held) => need.0 & held.0 == need.0,
    }
}

/// Whether a test holds of what is held.
fn truth(test: Test, caps: &Caps) -> bool
    ensures { result ≡ truth caps.now test }
{
    match test {
        Test::Amb => caps.amb,
        Test::Holds { descriptor, need } => match caps.holds.get(descriptor as usize) {
            None => false,
            Some(hold) => is_open_with(*hold, need),
        },
    }
}

/// Whether all tests have the truth that is asked of them.
fn tests_hold(tests: &[(bool, Test)], caps: &Caps) -> bool
    ensures { result ≡ tests_hold caps.now tests.now }
{
    tests.iter().all(|t| t.0 == truth(t.1, caps))
}

/// Whether a literal matches the word of this one letter: its label is the letter's or any, and each test has the
/// wanted truth. A number that no descriptor has names one that is closed.
pub fn lit_matches(lit: &Lit, letter: &Letter) -> bool
    ensures { result ≡ fits (literal_of lit.now) letter.now }
{
    let named = match lit.label {
        None => true,
        Some(label) => label == letter.label,
    };
    named && tests_hold(&lit.tests, &letter.caps)
}
