//! Signed numbers as fields.

ghost use Rattle.std.specs.Fmt.{signed_decimal};
ghost use Rattle.cw_text.specs.Lines.{Reads};
ghost use Rattle.cw_answers.specs.AnswerLines.{FitsValue};
ghost use Rattle.cw_answers.specs.Reading.{IsNegative, unsigned};

use cw_text::number_of;

/// The number from -2^63 to 2^63 - 1 whose decimal a field is: `-` before a negative one, and no leading zero.
pub(crate) fn value_of(field: &[u8]) -> Option<i64>
    ensures { Reads FitsValue signed_decimal field.now result }
{
    let Some((first, digits)) = field.split_first() else {
        return None;
    };
    if *first == b'-' {
        negative(digits)
    } else {
        let size = number_of(field, i64::MAX as u64)?;
        Some(size as i64)
    }
}

/// The negative number whose decimal these digits are, without its sign.
fn negative(digits: &[u8]) -> Option<i64>
    ensures { Reads IsNegative unsigned digits.now result }
{
    let size = number_of(digits, 1 << 63)?;
    if size == 0 {
        return None;
    }
    Some(-1 - (size - 1) as i64)
}
