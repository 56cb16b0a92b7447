//! What is due for `play`.

ghost use Rattle.std.specs.Prelude.{◌≤◌, ◌<◌, ◌^◌, true, length, All, IfOk};
ghost use Rattle.cw_rights.specs.Policies.{policy_of};
ghost use Rattle.cw_rights.specs.Valid.{IsValid};
ghost use Rattle.cw_certs.specs.Strategies.{strategy_of};
ghost use Rattle.cw_text.specs.Tapes.{IsIn};
ghost use Rattle.cw_commands.specs.Outcomes.{due_of};
ghost use Rattle.cw_commands.specs.Starts.{Starts, StartsLine};
ghost use Rattle.cw_stages.specs.Games.{WhereFits};
ghost use Rattle.cw_stages.specs.Reading.{WithSource};
ghost use Rattle.cw_stages.specs.Stops.{file_in, source_of, whole_of, Answers, IsReading, StartsText};
ghost use Rattle.cw_playing.specs.Playing.{AfterPair, IsPlayDue, IsShown};

use crate::telling::play_told;
use cw_certs::{EnvCert, Move};
use cw_commands::Outcome;
use cw_core::NoMemory;
use cw_core::limits::{FILE_BYTES_IN_FORMAT_2, SOURCE_BYTES};
use cw_echeck::check_env;
use cw_io::{Sink, Writer};
use cw_play::play_env;
use cw_policy::read_policy;
use cw_rights::Policy;
use cw_stages::{
    Reading, Stop, Text, draw, ended, fits, make_game, moves_of, policy_refusal, read_strategy,
    read_under, tell_strategy_row,
};
use cw_trace::trace_names;
use std::alloc::Global;

/// That the policy doesn't fit the program, that no game of theirs comes, or what is told of the strategy: its play by a tape, or the first row that fails a condition.
fn fitted<O: Sink>(
    alloc: Global,
    reading: &Reading,
    strategy: &EnvCert,
    tape: &[Move],
    out: &mut O,
) -> Result<Text<O>, Stop>
    requires is { IsReading reading.now }
    requires few { length strategy.now.rows.items < 2 ^ 32 }
    requires tape { All (IsIn true) tape.now }
    ensures due { let whole = whole_of reading.now in let source = source_of reading.now in let file = file_in reading.now in
        Answers whole source (WhereFits (IsShown source whole file (strategy_of strategy.now) tape.now) source whole file) result }
    ensures puts { StartsText O.taken O.faults O.refused out.old out.new result }
{
    fits(alloc, reading)?;
    let graph = draw(alloc, reading)?;
    let game = make_game(alloc, reading, &graph)?;
    match check_env(&game, strategy) {
        Ok(()) => {
            let names = trace_names(alloc, &reading.checked, game.graph())?;
            let mut writer = Writer::begin(out);
            let end = play_env(alloc, &names, &game, strategy, tape, &mut writer, out)?;
            Ok(play_told(game.policy(), end, writer, out))
        }
        Err(bad) => Ok(tell_strategy_row(&bad, out)),
    }
}

/// That the strategy isn't spelled in the policy's format, that the tape isn't one of the weaver's moves, or what comes behind that.
fn spelled<O: Sink>(
    alloc: Global,
    reading: &Reading,
    text: &[u8],
    tape: &[u8],
    out: &mut O,
) -> Result<Text<O>, Stop>
    requires is { IsReading reading.now }
    requires short { length tape.now ≤ FILE_BYTES_IN_FORMAT_2 }
    ensures due { let whole = whole_of reading.now in let source = source_of reading.now in
        Answers whole source (AfterPair source text.now tape.now whole (file_in reading.now)) result }
    ensures puts { StartsText O.taken O.faults O.refused out.old out.new result }
{
    let strategy = read_strategy(alloc, reading.policy, text)?;
    let moves = moves_of(alloc, tape, true)?;
    fitted(alloc, reading, &strategy, &moves, out)
}

/// That the source is refused under the policy, or what comes behind that.
fn read<O: Sink>(
    alloc: Global,
    policy: &Policy,
    source: &[u8],
    text: &[u8],
    tape: &[u8],
    out: &mut O,
) -> Result<Text<O>, Stop>
    requires short { length source.now ≤ SOURCE_BYTES }
    requires short_tape { length tape.now ≤ FILE_BYTES_IN_FORMAT_2 }
    requires valid { IsValid (policy_of policy.now) }
    ensures due { let whole = policy_of policy.now in
        Answers whole source.now (WithSource (AfterPair source.now text.now tape.now whole) source.now whole) result }
    ensures puts { StartsText O.taken O.faults O.refused out.old out.new result }
{
    let reading = read_under(alloc, policy, source)?;
    spelled(alloc, &reading, text, tape, out)
}

/// What is due for `play`, by the bytes of a policy, of a source, of a strategy and of a tape.
pub fn play_due<O: Sink, N: Sink>(
    alloc: Global,
    policy: &[u8],
    source: &[u8],
    strategy: &[u8],
    tape: &[u8],
    out: &mut O,
    note: &mut N,
) -> Result<Outcome<O, N>, NoMemory>
    requires short { length source.now ≤ SOURCE_BYTES }
    requires short_tape { length tape.now ≤ FILE_BYTES_IN_FORMAT_2 }
    ensures due { IfOk result (λ outcome. IsPlayDue policy.now source.now strategy.now tape.now (due_of outcome)) }
    ensures puts { Starts O.taken O.faults O.refused out.old out.new result }
    ensures notes { StartsLine N.taken N.faults N.refused note.old note.new result }
{
    match read_policy(alloc, policy) {
        Ok(whole) => ended(
            read(alloc, &whole, source, strategy, tape, out),
            &whole,
            source,
            note,
        ),
        Err(fault) => policy_refusal(&fault, note),
    }
}
