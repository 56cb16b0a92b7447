//! Policies read from TOML, exactly as their text spells them.
//!
//! A policy is a TOML document. Its root has `format`, which is 1 or 2, and may have `refusable`, an array of `"limit"`,
//! `"enter"` and `"split"`; `split`, an array of function names; `on_refusal`, which is `"go"` (as without the key) or
//! `"stop"`; in format 2 `detached`, an array of function names; and the arrays of tables `descriptor`, `limit`, `at` and
//! `rule`. Format 2 has two further names of rights, `CAP_PREAD` and `CAP_PWRITE`. Texts that spell no policy are refused
//! with the first of their faults, in a fixed order.
#![tactic(auto)]

mod fault;
mod form;
mod keys;
pub mod laws;
mod lines;
mod names;
mod parts;
mod read;
mod rules;
mod sources;

pub use fault::{Path, PolicyFault};
pub use lines::{put_fault, put_path};
pub use read::read_policy;
