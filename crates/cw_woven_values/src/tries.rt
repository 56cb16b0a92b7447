//! What is answered to tries.

ghost use Rattle.std.specs.Prelude.{◌≡◌, option_map};
ghost use Rattle.cw_value.specs.Runs.{taken};
ghost use Rattle.cw_run.specs.Walks.{next_is};
ghost use Rattle.cw_woven_values.specs.Standing.{by_answer, given};

use cw_certs::Move;
use cw_run::Next;

/// The answers to tries that are left, and how many primitives were tried.
#[derive(Drop)]
pub(crate) struct Tries<'c> {
    pub left: &'c [Move],
    pub made: u32,
}

/// The next answer that is left, or a grant where there is none.
fn take(tries: &mut Tries) -> Move
    ensures answer { result ≡ (taken tries.old.left.now).0 }
    ensures left { tries.new.left.now ≡ (taken tries.old.left.now).1 }
    ensures made { tries.new.made ≡ tries.old.made }
{
    match tries.left {
        [] => Move::Grant,
        [answer, rest @ ..] => {
            let answer = *answer;
            tries.left = rest;
            answer
        }
    }
}

/// Where an answer leads: where both a grant and a refusal are moves, the next answer that is left says which it is.
pub(crate) fn choose(
    granted: Option<Next>,
    refused: Option<Next>,
    tries: &mut Tries,
) -> Option<Next>
    ensures next { option_map next_is result ≡ by_answer (option_map next_is granted) (option_map next_is refused) (given (option_map next_is granted) (option_map next_is refused) tries.old.left.now).0 }
    ensures left { tries.new.left.now ≡ (given (option_map next_is granted) (option_map next_is refused) tries.old.left.now).1 }
    ensures made { tries.new.made ≡ tries.old.made }
{
    match granted {
        None => refused,
        Some(grant) => match refused {
            None => Some(grant),
            Some(refusal) => match take(tries) {
                Move::Refuse => Some(refusal),
                _ => Some(grant),
            },
        },
    }
}
