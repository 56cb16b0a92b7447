//! The fields of a line.

ghost use Rattle.std.specs.Prelude.{◌≡◌, ℕ, ◌^◌, ◌<◌, ◌↔◌, ◌∷◌, [], List, IfSome, IfNone, IsTrue};
ghost use Rattle.std.specs.Fmt.{decimal};
ghost use Rattle.cw_text.specs.Lines.{fields_by, set_text, IsSetIn, Takes};

use crate::cutting::cut;
use crate::field::{number_of, set_of};
use cw_core::StateSet;
use std::marker::Model;

/// The fields of a line, what stands between its separators, from left to right. A contract sees those that are left.
#[derive(Drop)]
pub struct Fields<'t> {
    text: &'t [u8],
    separator: u8,
    more: bool,
}

impl<'t> Model for Fields<'t> {
    ghost use Rattle.std.specs.Prelude.{ℕ, List, [], if◌then◌else◌};
    ghost use Rattle.cw_text.specs.Lines.{fields_by};

    ghost Value = { List (List ℕ) };

    ghost view = { λ w. if w.more then fields_by w.separator w.text.now else [] };
}

impl<'t> Fields<'t> {
    /// The fields of a line. A line without a separator is one field.
    pub fn of(line: &'t [u8], separator: u8) -> Fields<'t>
        ensures fields { result ≡ fields_by separator line.now }
    {
        Fields {
            text: line,
            separator,
            more: true,
        }
    }

    /// The next field; none where none is left.
    pub fn take(&mut self) -> Option<&'t [u8]>
        ensures some { IfSome result (λ field. self.old ≡ field.now ∷ self.new) }
        ensures none { IfNone result (self.old ≡ []) }
        ensures left { IfNone result (self.new ≡ self.old) }
    {
        if !self.more {
            return None;
        }
        match cut(self.text, self.separator) {
            Some((field, rest)) => {
                self.text = rest;
                Some(field)
            }
            None => {
                self.more = false;
                Some(self.text)
            }
        }
    }

    /// Whether no field is left.
    pub fn is_done(&self) -> bool
        ensures done { IsTrue result ↔ (self.now ≡ []) }
    {
        !self.more
    }

    /// The next field as a number below 2 to the power 8.
    pub fn take_u8(&mut self) -> Option<u8>
        ensures { Takes (λ number. number < 2 ^ 8) decimal self.old self.new result }
    {
        let number = number_of(self.take()?, u64::from(u8::MAX))?;
        Some(number as u8)
    }

    /// The next field as a number below 2 to the power 16.
    pub fn take_u16(&mut self) -> Option<u16>
        ensures { Takes (λ number. number < 2 ^ 16) decimal self.old self.new result }
    {
        let number = number_of(self.take()?, u64::from(u16::MAX))?;
        Some(number as u16)
    }

    /// The next field as a number below 2 to the power 32.
    pub fn take_u32(&mut self) -> Option<u32>
        ensures { Takes (λ number. number < 2 ^ 32) decimal self.old self.new result }
    {
        let number = number_of(self.take()?, u64::from(u32::MAX))?;
        Some(number as u32)
    }

    /// The next field as a set of a text of this format.
    pub fn take_set(&mut self, format: u8) -> Option<StateSet>
        ensures { Takes (IsSetIn format) (set_text format) self.old self.new result }
    {
        set_of(self.take()?, format)
    }
}
