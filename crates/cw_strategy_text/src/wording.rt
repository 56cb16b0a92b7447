//! The first two lines of a text.

ghost use Rattle.std.specs.Prelude.{◌≡◌, ◌≢◌, ℕ, ◌^◌, ◌<◌, ◌++◌, ◌∷◌, [], List, codes, IfSome, IfNone};
ghost use Rattle.std.specs.Fmt.{decimal};
ghost use Rattle.cw_text.specs.Lines.{states_line};
ghost use Rattle.cw_strategy_text.specs.StrategyText.{head_line};

use cw_text::{Fields, next_line};

/// The text after the head of a format; none where the text doesn't begin with it.
pub(crate) fn after_head(text: &[u8], format: u8) -> Option<&[u8]>
    ensures some { IfSome result (λ rest. text.now ≡ head_line format ++ rest.now) }
    ensures none { IfNone result ((rest : List ℕ) → text.now ≢ head_line format ++ rest) }
{
    let (line, rest) = next_line(text)?;
    let mut fields = Fields::of(line, b' ');
    if take_head(&mut fields)? != format {
        return None;
    }
    Some(rest)
}

/// The format that the fields of a head name.
fn take_head(fields: &mut Fields) -> Option<u8>
    ensures some { IfSome result (λ format. fields.old ≡ codes "capweave" ∷ codes "strategy" ∷ decimal format ∷ []) }
    ensures small { IfSome result (λ format. format < 2 ^ 8) }
    ensures none { IfNone result ((format : ℕ) → format < 2 ^ 8 → fields.old ≢ codes "capweave" ∷ codes "strategy" ∷ decimal format ∷ []) }
{
    take_field(fields, b"capweave")?;
    take_field(fields, b"strategy")?;
    let format = fields.take_u8()?;
    take_end(fields)?;
    Some(format)
}

/// The states that the next line tells, and the text after it.
pub(crate) fn after_states(text: &[u8]) -> Option<(u16, &[u8])>
    ensures some { IfSome result (λ (states, rest). text.now ≡ states_line states ++ rest.now) }
    ensures small { IfSome result (λ (states, _). states < 2 ^ 16) }
    ensures none { IfNone result ((states : ℕ) (rest : List ℕ) → states < 2 ^ 16 → text.now ≢ states_line states ++ rest) }
{
    let (line, rest) = next_line(text)?;
    let mut fields = Fields::of(line, b' ');
    let states = take_states(&mut fields)?;
    Some((states, rest))
}

/// The line that says how many states the game has.
fn take_states(fields: &mut Fields) -> Option<u16>
    ensures some { IfSome result (λ states. fields.old ≡ codes "states" ∷ decimal states ∷ []) }
    ensures none { IfNone result ((states : ℕ) → states < 2 ^ 16 → fields.old ≢ codes "states" ∷ decimal states ∷ []) }
{
    take_field(fields, b"states")?;
    let states = fields.take_u16()?;
    take_end(fields)?;
    Some(states)
}

/// Takes the next field, where it is this one.
fn take_field(fields: &mut Fields, field: &[u8]) -> Option<()>
    ensures some { IfSome result (λ _. fields.old ≡ field.now ∷ fields.new) }
    ensures none { IfNone result ((rest : List (List ℕ)) → fields.old ≢ field.now ∷ rest) }
{
    if fields.take()? != field {
        return None;
    }
    Some(())
}

/// That no field is left.
fn take_end(fields: &Fields) -> Option<()>
    ensures some { IfSome result (λ _. fields.now ≡ []) }
    ensures none { IfNone result (fields.now ≢ []) }
{
    if !fields.is_done() {
        return None;
    }
    Some(())
}
