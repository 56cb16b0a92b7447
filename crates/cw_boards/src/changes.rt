//! What a step changes of what is held, by the kind of the front item.

ghost use Rattle.std.specs.Prelude.{◌≡◌, ◌↔◌, ◌∷◌, [], ◌++◌, IsTrue, IfOk, Some, slice_get, option_map};
ghost use Rattle.cw_rights.specs.Capabilities.{closed};
ghost use Rattle.cw_rights.specs.Policies.{policy_of, IsBad};
ghost use Rattle.cw_rights.specs.Valid.{IsValid};
ghost use Rattle.cw_model.specs.Boards.{with_opened, after_open, given_back, way_of};
ghost use Rattle.cw_boards.specs.Held.{phase_by};
ghost use Rattle.cw_boards.specs.Choices.{primitives_by};
ghost use Rattle.cw_boards.specs.Changes.{kept_by, caps_by, letters_by, reached_letter, is_free};
ghost use Rattle.cw_boards.specs.Turns.{way_in};

use crate::choices::{Phase, primitive_at};
use crate::kinds::FrontKind;
use crate::turns::Way;
use cw_certs::Move;
use cw_rights::{Caps, Letter, Policy, close_hold, matches_plain, open_hold};
use std::alloc::AllocError;
use std::collections::VecDeque;

/// The way on that a move of the environment is, where it is one.
pub(crate) fn way_of(by: Move) -> Option<Way>
    ensures { option_map way_in result ≡ way_of by }
{
    match by {
        Move::On => Some(Way::On),
        Move::Left => Some(Way::Left),
        Move::Right => Some(Way::Right),
        Move::Opened => Some(Way::Opened),
        Move::Failed => Some(Way::Failed),
        Move::Skip | Move::Try | Move::Grant | Move::Refuse | Move::Stop => None,
    }
}

/// A call keeps by its mode, and an end forgets.
pub(crate) fn kept_after(
    kind: FrontKind,
    mode: Option<Caps>,
    mut kept: VecDeque<Option<Caps>>,
) -> Result<VecDeque<Option<Caps>>, AllocError>
    ensures { IfOk result (λ next. next.items ≡ kept_by kind mode kept.items) }
{
    match kind {
        FrontKind::Call { .. } => {
            kept.push_front(mode)?;
            Ok(kept)
        }
        FrontKind::End => {
            let _ = kept.pop_front();
            Ok(kept)
        }
        FrontKind::Entry
        | FrontKind::Plain
        | FrontKind::Break
        | FrontKind::Continue
        | FrontKind::Return => Ok(kept),
        FrontKind::Open(_) => Ok(kept),
        FrontKind::Close(_) => Ok(kept),
        FrontKind::Label(_) => Ok(kept),
        FrontKind::Test(_) => Ok(kept),
        FrontKind::Group | FrontKind::If | FrontKind::Loop | FrontKind::Step | FrontKind::LoopEnd =>
            Ok(kept),
    }
}

/// What is held after a close.
fn closed(caps: Caps, descriptor: usize) -> Caps
    ensures { result ≡ closed caps descriptor }
{
    let mut after = caps;
    if descriptor < 8 {
        close_hold(&mut after, descriptor as u8);
    }
    after
}

/// What is held after an open that succeeded: all rights that the policy gives the descriptor.
fn opened(policy: &Policy, caps: Caps, descriptor: usize) -> Caps
    requires { IsValid (policy_of policy.now) }
    ensures { result ≡ with_opened caps descriptor (slice_get (policy_of policy.now).descriptors descriptor) }
{
    let mut after = caps;
    if descriptor < policy.descriptors.len() {
        let rights = policy.descriptors[descriptor].rights;
        open_hold(&mut after, descriptor as u8, rights);
    }
    after
}

/// What is held after an open: where it failed the variable holds nothing.
fn after_open(policy: &Policy, caps: Caps, descriptor: usize, way: Way) -> Caps
    requires { IsValid (policy_of policy.now) }
    ensures { result ≡ after_open (policy_of policy.now) caps descriptor (way_in way) }
{
    match way {
        Way::Opened => opened(policy, caps, descriptor),
        Way::On | Way::Left | Way::Right | Way::Failed => closed(caps, descriptor),
    }
}

/// What is held behind a call: what its caller held, where it ran in a process of its own.
fn given_back(kept: &VecDeque<Option<Caps>>, caps: Caps) -> Caps
    ensures { result ≡ given_back kept.now.items caps }
{
    match kept.front() {
        None => caps,
        Some(top) => match top {
            None => caps,
            Some(before) => *before,
        },
    }
}

/// The capabilities after a step.
pub(crate) fn caps_after(
    policy: &Policy,
    kind: FrontKind,
    kept: &VecDeque<Option<Caps>>,
    way: Way,
    caps: Caps,
) -> Caps
    requires { IsValid (policy_of policy.now) }
    ensures { result ≡ caps_by (policy_of policy.now) kind kept.now.items (way_in way) caps }
{
    match kind {
        FrontKind::Open(d) => after_open(policy, caps, d, way),
        FrontKind::Close(d) => closed(caps, d),
        FrontKind::End => given_back(kept, caps),
        FrontKind::Entry
        | FrontKind::Plain
        | FrontKind::Break
        | FrontKind::Continue
        | FrontKind::Return => caps,
        FrontKind::Call { .. } => caps,
        FrontKind::Label(_) => caps,
        FrontKind::Test(_) => caps,
        FrontKind::Group | FrontKind::If | FrontKind::Loop | FrontKind::Step | FrontKind::LoopEnd =>
            caps,
    }
}

/// A word with the letter of a label that is passed.
pub(crate) fn with_letter(
    kind: FrontKind,
    mut word: Vec<Letter>,
    caps: Caps,
) -> Result<Vec<Letter>, AllocError>
    ensures { IfOk result (λ next. next.items ≡ word.items ++ letters_by kind caps) }
{
    match kind {
        FrontKind::Label(label) => {
            word.push(Letter { label, caps })?;
            Ok(word)
        }
        FrontKind::Entry
        | FrontKind::Plain
        | FrontKind::Break
        | FrontKind::Continue
        | FrontKind::Return => Ok(word),
        FrontKind::Open(_) => Ok(word),
        FrontKind::Close(_) => Ok(word),
        FrontKind::Call { .. } => Ok(word),
        FrontKind::Test(_) => Ok(word),
        FrontKind::Group
        | FrontKind::If
        | FrontKind::Loop
        | FrontKind::Step
        | FrontKind::LoopEnd
        | FrontKind::End => Ok(word),
    }
}

/// The letter of the label at the front, where its primitives have been passed.
pub(crate) fn reached_letter(
    policy: &Policy,
    kind: Option<FrontKind>,
    caps: Caps,
    phase: Phase,
) -> Option<Letter>
    requires { IsValid (policy_of policy.now) }
    ensures { result ≡ reached_letter (phase_by (primitives_by (policy_of policy.now) kind) phase) kind caps }
{
    if !is_free(policy, kind, phase) {
        return None;
    }
    match kind {
        Some(FrontKind::Label(label)) => Some(Letter { label, caps }),
        _ => None,
    }
}

/// Whether no primitive is left before the front item is passed.
fn is_free(policy: &Policy, kind: Option<FrontKind>, phase: Phase) -> bool
    requires { IsValid (policy_of policy.now) }
    ensures { result ≡ is_free (phase_by (primitives_by (policy_of policy.now) kind) phase) }
{
    match phase {
        Phase::Visit(stage) => match primitive_at(policy, kind, stage) {
            None => true,
            Some(_) => false,
        },
        Phase::Asked(_) | Phase::Refused(_) => false,
        Phase::Split | Phase::Over => false,
    }
}

/// Whether a word is bad.
fn is_bad(policy: &Policy, word: &[Letter]) -> bool
    ensures { IsTrue result ↔ IsBad (policy_of policy.now) word.now }
{
    if word.is_empty() {
        return false;
    }
    for rule in &policy.rules {
        if matches_plain(&rule.bad, word) {
            return true;
        }
    }
    false
}

/// Whether a word is bad with this letter behind it; and the word, as it was.
pub(crate) fn is_bad_with(
    policy: &Policy,
    mut word: Vec<Letter>,
    letter: Letter,
) -> Result<(Vec<Letter>, bool), AllocError>
    ensures same { IfOk result (λ r. r.0.items ≡ word.items) }
    ensures bad { IfOk result (λ r. IsTrue r.1 ↔ IsBad (policy_of policy.now) (word.items ++ letter ∷ [])) }
{
    let length = word.len();
    word.push(letter)?;
    let bad = is_bad(policy, &word);
    word.truncate(length);
    Ok((word, bad))
}
