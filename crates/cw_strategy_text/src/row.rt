//! A row read from its line.

ghost use Rattle.std.specs.Prelude.{◌≡◌, ◌≢◌, ℕ, ◌^◌, ◌<◌, ◌∷◌, List, map, option_map, IfOk, IfSome, IfNone};
ghost use Rattle.std.specs.Fmt.{decimal};
ghost use Rattle.cw_certs.specs.Strategies.{how_of, row_of};
ghost use Rattle.cw_text.specs.Lines.{set_text, IsSetIn, Reads};
ghost use Rattle.cw_text.specs.Moves.{IsEnvironments};
ghost use Rattle.cw_strategy_text.specs.StrategyText.{back_field, how_fields, AreBacks, FitsHow};
ghost use Rattle.cw_strategy_text.specs.Fields.{backs_of, rest_fields, row_text, FitsBack, FitsKind, FitsNamed, IsOf};
ghost use Rattle.cw_strategy_text.specs.declared.kind.RowKind.TheVariants as kind;

use crate::kind::{RowKind, kind_of};
use cw_certs::{EnvRow, How, Move};
use cw_core::{NoMemory, PosId, StateId, StateSet};
use cw_text::Fields;
use std::alloc::Global;

/// Where a row stands, under which number.
#[derive(Drop)]
struct RowHead {
    number: u32,
    pos: u32,
    state: u16,
    aim: StateSet,
}

/// The row that a line is, with its number, in a text of this format; none where it is none.
pub(crate) fn read_row(
    alloc: Global,
    line: &[u8],
    format: u8,
) -> Result<Option<(u32, EnvRow)>, NoMemory>
    ensures { IfOk result (λ read. Reads (FitsNamed format) (row_text format) line.now (option_map (λ named. (named.0, row_of named.1)) read)) }
{
    let mut fields = Fields::of(line, b' ');
    let Some(head) = take_head(&mut fields, format) else {
        return Ok(None);
    };
    let Some(how) = read_how(alloc, &mut fields)? else {
        return Ok(None);
    };
    let row = EnvRow {
        pos: PosId(head.pos),
        state: StateId(head.state),
        aim: head.aim,
        how,
    };
    Ok(Some((head.number, row)))
}

/// Takes a row's number, position, state and aim.
fn take_head(fields: &mut Fields, format: u8) -> Option<RowHead>
    ensures some { IfSome result (λ head. fields.old ≡ decimal head.number ∷ decimal head.pos ∷ decimal head.state ∷ set_text format head.aim ∷ fields.new) }
    ensures fits { IfSome result (λ head. IsSetIn format head.aim) }
    ensures none { IfNone result ((number pos state aim : ℕ) (rest : List (List ℕ)) → number < 2 ^ 32 → pos < 2 ^ 32 → state < 2 ^ 16 → IsSetIn format aim
        → fields.old ≢ decimal number ∷ decimal pos ∷ decimal state ∷ set_text format aim ∷ rest) }
{
    let number = fields.take_u32()?;
    let pos = fields.take_u32()?;
    let state = fields.take_u16()?;
    let aim = fields.take_set(format)?;
    Some(RowHead {
        number,
        pos,
        state,
        aim,
    })
}

/// What a row does, of the fields that are left.
fn read_how(alloc: Global, fields: &mut Fields) -> Result<Option<How>, NoMemory>
    ensures { IfOk result (λ read. Reads FitsHow how_fields fields.old (option_map how_of read)) }
{
    let Some(field) = fields.take() else {
        return Ok(None);
    };
    let Some(kind) = kind_of(field) else {
        return Ok(None);
    };
    read_as(alloc, kind, fields)
}

/// What a row of this kind does, of the fields after its first.
fn read_as(alloc: Global, kind: RowKind, fields: &mut Fields) -> Result<Option<How>, NoMemory>
    requires named { FitsKind kind }
    ensures { IfOk result (λ read. Reads (IsOf kind) rest_fields fields.old (option_map how_of read)) }
{
    match kind {
        RowKind::Bad => Ok(read_bad(fields)),
        RowKind::Out => Ok(read_out(fields)),
        RowKind::Both => Ok(read_both(fields)),
        RowKind::Go(by) => Ok(read_go(by, fields)),
        RowKind::Into => read_into(alloc, fields),
    }
}

/// A row where the policy is violated: no fields more.
fn read_bad(fields: &Fields) -> Option<How>
    ensures { Reads (IsOf kind.Bad) rest_fields fields.now (option_map how_of result) }
{
    if fields.is_done() {
        Some(How::Bad)
    } else {
        None
    }
}

/// A row where the aimed exit is reached: no fields more.
fn read_out(fields: &Fields) -> Option<How>
    ensures { Reads (IsOf kind.Out) rest_fields fields.now (option_map how_of result) }
{
    if fields.is_done() {
        Some(How::Out)
    } else {
        None
    }
}

/// A row where the weaver moves: the rows after a skip and after a try.
fn read_both(fields: &mut Fields) -> Option<How>
    ensures { Reads (IsOf kind.Both) rest_fields fields.old (option_map how_of result) }
{
    let skip = fields.take_u32()?;
    let tried = fields.take_u32()?;
    if fields.is_done() {
        Some(How::Both { skip, tried })
    } else {
        None
    }
}

/// A row where the environment moves: the row after its move.
fn read_go(by: Move, fields: &mut Fields) -> Option<How>
    requires environments { IsEnvironments by }
    ensures { Reads (IsOf (kind.Go by)) rest_fields fields.old (option_map how_of result) }
{
    let row = fields.take_u32()?;
    if fields.is_done() {
        Some(How::Go { by, row })
    } else {
        None
    }
}

/// A row at a call: the row in its function, and those behind it by exit states.
fn read_into(alloc: Global, fields: &mut Fields) -> Result<Option<How>, NoMemory>
    ensures { IfOk result (λ read. Reads (IsOf kind.Into) rest_fields fields.old (option_map how_of read)) }
{
    let Some(callee) = fields.take_u32() else {
        return Ok(None);
    };
    let Some(backs) = read_backs(alloc, fields)? else {
        return Ok(None);
    };
    Ok(Some(How::Into { callee, backs }))
}

/// The backs that all fields that are left are, ascending strictly by exit state.
fn read_backs(alloc: Global, fields: &mut Fields) -> Result<Option<Vec<(StateId, u32)>>, NoMemory>
    ensures { IfOk result (λ read. Reads (AreBacks 0) (map back_field) fields.old (option_map (λ backs. backs_of backs.items) read)) }
{
    let mut backs = Vec::new(alloc);
    let mut low: u32 = 0;
    'backs: loop {
        let Some(field) = fields.take() else {
            return Ok(Some(backs));
        };
        let Some((exit, row)) = read_back(field) else {
            return Ok(None);
        };
        if u32::from(exit) < low {
            return Ok(None);
        }
        backs.push((StateId(exit), row))?;
        low = u32::from(exit) + 1;
    }
}

/// The exit state and the row of a back.
fn read_back(field: &[u8]) -> Option<(u16, u32)>
    ensures { Reads FitsBack back_field field.now result }
{
    let mut parts = Fields::of(field, b'=');
    let exit = parts.take_u16()?;
    let row = parts.take_u32()?;
    if parts.is_done() {
        Some((exit, row))
    } else {
        None
    }
}
