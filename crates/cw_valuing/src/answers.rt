//! Answers as a file of a command.

ghost use Rattle.std.specs.Prelude.{◌≤◌, ℕ, List, length, IfErr, IfOk};
ghost use Rattle.cw_rights.specs.Policies.{PlainPolicy};
ghost use Rattle.cw_value.specs.Shown.{answers_of, AreInOrder};
ghost use Rattle.cw_answers.specs.AnswersText.{Spells};
ghost use Rattle.cw_stages.specs.Stops.{IsStop};
ghost use Rattle.cw_valuing.specs.Refusals.{IsAnswersRefusal};

use cw_answers::{AnswersFault, read_answers};
use cw_core::limits::FILE_BYTES_IN_FORMAT_2;
use cw_stages::Stop;
use cw_value::Answers;
use std::alloc::Global;

/// The answers whose text this is; or its first line that doesn't fit.
pub(crate) fn answers_in(alloc: Global, text: &[u8]) -> Result<Answers, Stop>
    requires { length text.now ≤ FILE_BYTES_IN_FORMAT_2 }
    ensures spells { IfOk result (λ answers. Spells text.now (answers_of answers)) }
    ensures in_order { IfOk result (λ answers. AreInOrder (answers_of answers)) }
    ensures stop { IfErr result (λ stop. (whole : PlainPolicy) → (source : List ℕ) → IsStop whole source (IsAnswersRefusal text.now) stop) }
{
    match read_answers(alloc, text) {
        Ok(answers) => Ok(answers),
        Err(AnswersFault::Line(line)) => Err(Stop::Answers(line)),
        Err(AnswersFault::NoMemory) => Err(Stop::NoMemory),
    }
}
