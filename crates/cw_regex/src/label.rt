//! The labels that a text names.

ghost use Rattle.std.specs.Prelude.{◌≡◌, ◌+◌, ◌<◌, ◌≤◌, false, length, drop, map, OnOk, OnErr, IfOk, IfSome, IfNone};
ghost use Rattle.indexmap.specs.IndexSet.{index_set_len};
ghost use Rattle.cw_regex.specs.Parts.{parts};
ghost use Rattle.cw_regex.specs.Meaning.{with_name, with_names, labels_in};
ghost use Rattle.cw_regex.specs.Adding.{Adds};
ghost use Rattle.cw_regex.specs.Labels.{names_in, Gains};

use crate::text::{Sign, Token, token_at};
use indexmap::IndexSet;
use std::alloc::{AllocError, Global};

/// Numbers a label, where it has no number yet.
fn add_label(alloc: Global, labels: &mut IndexSet<Vec<u8>>, name: &[u8]) -> Result<(), AllocError>
    ensures added { OnOk result (names_in labels.new.keys ≡ with_name (names_in labels.old.keys) name.now) }
    ensures one { OnOk result (index_set_len labels.new ≤ index_set_len labels.old + 1) }
    ensures kept { OnErr result (names_in labels.new.keys ≡ names_in labels.old.keys) }
{
    if labels.contains(name) {
        return Ok(());
    }
    let copy = Vec::from_slice(alloc, name)?;
    labels.insert(copy)?;
    Ok(())
}

/// How far the identifiers outside brackets were added: the place, and whether it is inside brackets.
#[derive(Clone, Copy, Drop)]
struct Labelled {
    at: usize,
    inside: bool,
}

/// Goes over one part of the text, and numbers it where it is a label: an identifier outside brackets. None at the end.
fn label_token(
    alloc: Global,
    text: &[u8],
    labels: &mut IndexSet<Vec<u8>>,
    so_far: Labelled,
) -> Result<Option<Labelled>, AllocError>
    requires { so_far.at ≤ length text.now }
    ensures next { IfOk result (λ o. IfSome o (λ next.
        Adds (names_in labels.old.keys) (names_in labels.new.keys)
        (labels_in so_far.inside (parts (drop so_far.at text.now)))
        (labels_in next.inside (parts (drop next.at text.now))))) }
    ensures on { IfOk result (λ o. IfSome o (λ next. so_far.at < next.at)) }
    ensures within { IfOk result (λ o. IfSome o (λ next. next.at ≤ length text.now)) }
    ensures end { IfOk result (λ o. IfNone o (names_in labels.new.keys
        ≡ with_names (names_in labels.old.keys) (labels_in so_far.inside (parts (drop so_far.at text.now))))) }
    ensures one { OnOk result (index_set_len labels.new ≤ index_set_len labels.old + 1) }
    ensures same { IfOk result (λ o. IfNone o (index_set_len labels.new ≡ index_set_len labels.old)) }
    ensures kept { OnErr result (names_in labels.new.keys ≡ names_in labels.old.keys) }
{
    match token_at(text, so_far.at) {
        Token::End => Ok(None),
        Token::Identifier { from, to } => {
            if !so_far.inside {
                add_label(alloc, labels, &text[from..to])?;
            }
            Ok(Some(Labelled { at: to, ..so_far }))
        }
        Token::Sign { sign, to } => Ok(Some(Labelled {
            at: to,
            inside: match sign {
                Sign::BracketOpen => true,
                Sign::BracketClose => false,
                _ => so_far.inside,
            },
        })),
    }
}

/// Adds the labels of a text, its identifiers outside brackets, where they are new, from left to right.
pub fn add_labels(
    alloc: Global,
    text: &[u8],
    labels: &mut IndexSet<Vec<u8>>,
) -> Result<(), AllocError>
    ensures added { OnOk result (names_in labels.new.keys
        ≡ with_names (names_in labels.old.keys) (labels_in false (parts text.now))) }
    ensures few { OnOk result (index_set_len labels.new ≤ index_set_len labels.old + length text.now) }
    ensures gains { Gains text.now (names_in labels.old.keys) (names_in labels.new.keys) }
{
    let mut so_far = Labelled {
        at: 0,
        inside: false,
    };
    for _ in 0..=text.len() {
        match label_token(alloc, text, labels, so_far)? {
            None => return Ok(()),
            Some(next) => so_far = next,
        }
    }
    Ok(())
}
