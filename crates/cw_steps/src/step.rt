//! A step and its line.

ghost use Rattle.std.specs.Prelude.{Bool, IfSome, IfNone};
ghost use Rattle.cw_text.specs.Lines.{Reads};
ghost use Rattle.cw_text_lines.specs.Lines.{line_text, StartsWith, StartsWithNone};
ghost use Rattle.cw_certs.specs.declared.moves.Move.{Move as MoveOf};
ghost use Rattle.cw_steps.specs.Steps.{act_field, FitsAct, step_fields, FitsStep};

use cw_certs::Move;
use cw_text::{Fields, environments_move, next_line};

/// A step of the environment: a process, by its number from 0, and what it does. A fork has the move On.
#[derive(Clone, Copy, Debug, PartialEq, Eq)]
pub struct Step {
    /// The number of the process.
    pub process: u32,
    /// Whether the process forks.
    pub fork: bool,
    /// The environment's move, On at a fork.
    pub by: Move,
}

/// The step that a text begins with, and the text after its line.
pub(crate) fn next_step(text: &[u8]) -> Option<(Step, &[u8])>
    ensures some { IfSome result (λ (step, rest). StartsWith FitsStep step_fields text.now step rest.now) }
    ensures none { IfNone result (StartsWithNone FitsStep step_fields text.now) }
{
    let Some((line, rest)) = next_line(text) else {
        return None;
    };
    match read_step(line) {
        None => None,
        Some(step) => Some((step, rest)),
    }
}

/// The step that a line without its LF says.
fn read_step(line: &[u8]) -> Option<Step>
    ensures { Reads FitsStep (line_text step_fields) line.now result }
{
    let mut fields = Fields::of(line, b' ');
    take_step(&mut fields)
}

/// The step that a line says, by its fields.
fn take_step(fields: &mut Fields) -> Option<Step>
    ensures { Reads FitsStep step_fields fields.old result }
{
    let process = fields.take_u32()?;
    let (fork, by) = read_act(fields.take()?)?;
    if fields.is_done() {
        Some(Step { process, fork, by })
    } else {
        None
    }
}

/// Whether a field says a fork, and the move.
fn read_act(field: &[u8]) -> Option<(bool, Move)>
    ensures { Reads (λ (act : Bool × MoveOf). FitsAct act.0 act.1) (λ act. act_field act.0 act.1) field.now result }
{
    if field == b"fork".as_slice() {
        return Some((true, Move::On));
    }
    Some((false, environments_move(field)?))
}
