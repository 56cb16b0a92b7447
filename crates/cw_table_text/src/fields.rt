//! What the fields of rows say, one by one.

ghost use Rattle.std.specs.Prelude.{◌≡◌, ℕ, ◌^◌, ◌<◌};
ghost use Rattle.std.specs.Fmt.{decimal};
ghost use Rattle.cw_text.specs.Lines.{Takes};
ghost use Rattle.cw_text.specs.TableText.{answer, mode, live_fields, try_fields, after_fields, opened_fields, into_fields, back_fields};
ghost use Rattle.cw_table_text.specs.Grammar.{IsMem, IsAnswer, FitsMemory, FitsLive, FitsTry, FitsAfter, FitsOpened, FitsInto, FitsBack};
ghost use Rattle.cw_table_text.specs.Rows.{memory_fields};
ghost use Rattle.cw_table_text.specs.Working.{TakesRow};

use cw_certs::{AtRow, BackRow, IntoRow, OpenRow, TryRow};
use cw_core::{MemId, PosId, SeamId, StateId, StateSet};
use cw_text::{Fields, number_of};

/// A memory's number.
pub(crate) fn take_mem(fields: &mut Fields) -> Option<MemId>
    ensures { Takes IsMem (λ mem. decimal mem.0) fields.old fields.new result }
{
    Some(MemId(fields.take_u32()?))
}

/// A seam's number.
fn take_seam(fields: &mut Fields) -> Option<SeamId>
    ensures { Takes (λ seam. seam.0 < 2 ^ 32) (λ seam. decimal seam.0) fields.old fields.new result }
{
    Some(SeamId(fields.take_u32()?))
}

/// A position's number.
fn take_pos(fields: &mut Fields) -> Option<PosId>
    ensures { Takes (λ pos. pos.0 < 2 ^ 32) (λ pos. decimal pos.0) fields.old fields.new result }
{
    Some(PosId(fields.take_u32()?))
}

/// A state's number.
fn take_state(fields: &mut Fields) -> Option<StateId>
    ensures { Takes (λ state. state.0 < 2 ^ 16) (λ state. decimal state.0) fields.old fields.new result }
{
    Some(StateId(fields.take_u16()?))
}

/// A memory, or `CW_NONE` for an answer that never comes.
fn take_answer(fields: &mut Fields) -> Option<Option<MemId>>
    ensures { Takes IsAnswer answer fields.old fields.new result }
{
    let field = fields.take()?;
    if field == b"CW_NONE".as_slice() {
        return Some(None);
    }
    let number = number_of(field, u64::from(u32::MAX))?;
    Some(Some(MemId(number as u32)))
}

/// 0 for a plain call, 1 for a split one.
fn take_mode(fields: &mut Fields) -> Option<bool>
    ensures { Takes (λ _. Unit {0}) mode fields.old fields.new result }
{
    let number = fields.take_u8()?;
    if number > 1 {
        return None;
    }
    Some(number == 1)
}

/// The fields of a memory: its number, its state and its promise.
pub(crate) fn take_memory(fields: &mut Fields, format: u8) -> Option<(u32, (StateId, StateSet))>
    ensures { TakesRow (FitsMemory format) (memory_fields format) fields.old fields.new result }
{
    let number = fields.take_u32()?;
    let state = take_state(fields)?;
    let promise = fields.take_set(format)?;
    Some((number, (state, promise)))
}

/// The fields of a live pair: position and memory.
pub(crate) fn take_live(fields: &mut Fields) -> Option<(PosId, MemId)>
    ensures { TakesRow FitsLive live_fields fields.old fields.new result }
{
    let pos = take_pos(fields)?;
    let mem = take_mem(fields)?;
    Some((pos, mem))
}

/// The fields of a try: seam, stage, memory, and the memories after a grant and after a refusal.
pub(crate) fn take_try(fields: &mut Fields) -> Option<TryRow>
    ensures { TakesRow FitsTry try_fields fields.old fields.new result }
{
    let seam = take_seam(fields)?;
    let stage = fields.take_u8()?;
    let mem = take_mem(fields)?;
    let granted = take_answer(fields)?;
    let refused = take_answer(fields)?;
    Some(TryRow {
        seam,
        stage,
        mem,
        granted,
        refused,
    })
}

/// The fields of a label or a close: seam, memory, and the memory after it.
pub(crate) fn take_after(fields: &mut Fields) -> Option<AtRow>
    ensures { TakesRow FitsAfter after_fields fields.old fields.new result }
{
    let seam = take_seam(fields)?;
    let mem = take_mem(fields)?;
    let after = take_mem(fields)?;
    Some(AtRow { seam, mem, after })
}

/// The fields of an open: seam, memory, and the memories after it succeeded and after it failed.
pub(crate) fn take_opened(fields: &mut Fields) -> Option<OpenRow>
    ensures { TakesRow FitsOpened opened_fields fields.old fields.new result }
{
    let seam = take_seam(fields)?;
    let mem = take_mem(fields)?;
    let opened = take_mem(fields)?;
    let failed = take_mem(fields)?;
    Some(OpenRow {
        seam,
        mem,
        opened,
        failed,
    })
}

/// The fields of a call: seam, whether it is split, memory, and the memory with which its function begins.
pub(crate) fn take_into(fields: &mut Fields) -> Option<IntoRow>
    ensures { TakesRow FitsInto into_fields fields.old fields.new result }
{
    let seam = take_seam(fields)?;
    let split = take_mode(fields)?;
    let mem = take_mem(fields)?;
    let callee = take_mem(fields)?;
    Some(IntoRow {
        seam,
        split,
        mem,
        callee,
    })
}

/// The fields of a return: seam, whether the call is split, memory, exit state, and the memory behind the call.
pub(crate) fn take_back(fields: &mut Fields) -> Option<BackRow>
    ensures { TakesRow FitsBack back_fields fields.old fields.new result }
{
    let seam = take_seam(fields)?;
    let split = take_mode(fields)?;
    let mem = take_mem(fields)?;
    let exit = take_state(fields)?;
    let after = take_mem(fields)?;
    Some(BackRow {
        seam,
        split,
        mem,
        exit,
        after,
    })
}
