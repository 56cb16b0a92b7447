//! What is due for `refute`.

ghost use Rattle.std.specs.Prelude.{◌≤◌, ◌<◌, ◌^◌, length, IfOk};
ghost use Rattle.cw_rights.specs.Policies.{policy_of};
ghost use Rattle.cw_rights.specs.Valid.{IsValid};
ghost use Rattle.cw_certs.specs.Strategies.{strategy_of};
ghost use Rattle.cw_product.specs.Product.{game_of};
ghost use Rattle.cw_commands.specs.Outcomes.{due_of};
ghost use Rattle.cw_commands.specs.Starts.{Starts, StartsLine};
ghost use Rattle.cw_stages.specs.Reading.{WithSource};
ghost use Rattle.cw_stages.specs.Stops.{file_in, source_of, told_of, whole_of, Answers, BeginsText, IsReading, StartsText};
ghost use Rattle.cw_checking.specs.Refuting.{AfterPair, IsJudgedBy, IsRefuteDue};

use cw_certs::EnvCert;
use cw_commands::{Outcome, Reply};
use cw_core::NoMemory;
use cw_core::limits::SOURCE_BYTES;
use cw_echeck::check_env;
use cw_io::Sink;
use cw_policy::read_policy;
use cw_product::Game;
use cw_rights::Policy;
use cw_stages::{
    Reading, Stop, Text, draw, ended, fits, make_game, policy_refusal, read_strategy, read_under,
    tell, tell_strategy_row,
};
use std::alloc::Global;

/// The judgement of a strategy.
fn judged<O: Sink>(game: &Game, strategy: &EnvCert, out: &mut O) -> Text<O>
    requires few { length strategy.now.rows.items < 2 ^ 32 }
    ensures due { IsJudgedBy (game_of game.now) (strategy_of strategy.now) (told_of result) }
    ensures puts { BeginsText O.taken O.faults O.refused out.old out.new result }
{
    match check_env(game, strategy) {
        Ok(()) => tell(Reply::Yes, b"yes\n", out),
        Err(bad) => tell_strategy_row(&bad, out),
    }
}

/// That the strategy isn't spelled in the policy's format, that the policy doesn't fit the program, that no game of theirs comes, or the judgement.
fn spelled<O: Sink>(
    alloc: Global,
    reading: &Reading,
    text: &[u8],
    out: &mut O,
) -> Result<Text<O>, Stop>
    requires is { IsReading reading.now }
    ensures due { let whole = whole_of reading.now in let source = source_of reading.now in
        Answers whole source (AfterPair source text.now whole (file_in reading.now)) result }
    ensures puts { StartsText O.taken O.faults O.refused out.old out.new result }
{
    let strategy = read_strategy(alloc, reading.policy, text)?;
    fits(alloc, reading)?;
    let graph = draw(alloc, reading)?;
    let game = make_game(alloc, reading, &graph)?;
    Ok(judged(&game, &strategy, out))
}

/// That the source is refused under the policy, or what comes behind that.
fn read<O: Sink>(
    alloc: Global,
    policy: &Policy,
    source: &[u8],
    text: &[u8],
    out: &mut O,
) -> Result<Text<O>, Stop>
    requires short { length source.now ≤ SOURCE_BYTES }
    requires valid { IsValid (policy_of policy.now) }
    ensures due { let whole = policy_of policy.now in
        Answers whole source.now (WithSource (AfterPair source.now text.now whole) source.now whole) result }
    ensures puts { StartsText O.taken O.faults O.refused out.old out.new result }
{
    let reading = read_under(alloc, policy, source)?;
    spelled(alloc, &reading, text, out)
}

/// What is due for `refute`, by the bytes of a policy, of a source and of a strategy.
pub fn refute_due<O: Sink, N: Sink>(
    alloc: Global,
    policy: &[u8],
    source: &[u8],
    strategy: &[u8],
    out: &mut O,
    note: &mut N,
) -> Result<Outcome<O, N>, NoMemory>
    requires short { length source.now ≤ SOURCE_BYTES }
    ensures due { IfOk result (λ outcome. IsRefuteDue policy.now source.now strategy.now (due_of outcome)) }
    ensures puts { Starts O.taken O.faults O.refused out.old out.new result }
    ensures notes { StartsLine N.taken N.faults N.refused note.old note.new result }
{
    match read_policy(alloc, policy) {
        Ok(whole) => ended(
            read(alloc, &whole, source, strategy, out),
            &whole,
            source,
            note,
        ),
        Err(fault) => policy_refusal(&fault, note),
    }
}
