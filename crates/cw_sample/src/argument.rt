//! The number of a sample as an argument of a command.

ghost use Rattle.std.specs.Prelude.{◌≡◌, IfSome};
ghost use Rattle.cw_sample.specs.Samples.{sample_number, HasSample};

use cw_text::number_of;

/// The number from 1 to 400 whose decimal, without leading zeros, an argument is; none where it is that of none of them.
pub fn sample_number(argument: &[u8]) -> Option<u32>
    ensures number { result ≡ sample_number argument.now }
    ensures range { IfSome result HasSample }
{
    match number_of(argument, 400) {
        None => None,
        Some(number) => {
            if number == 0 {
                None
            } else {
                Some(number as u32)
            }
        }
    }
}
