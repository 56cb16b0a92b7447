//! Strategies as files of a command.

ghost use Rattle.std.specs.Prelude.{◌≡◌, ◌<◌, ◌^◌, ℕ, List, length, IfErr, IfOk};
ghost use Rattle.cw_rights.specs.Policies.{PlainPolicy, policy_of};
ghost use Rattle.cw_certs.specs.Strategies.{strategy_of};
ghost use Rattle.cw_strategy_text.specs.StrategyText.{Spells};
ghost use Rattle.cw_echeck.specs.Checks.{fault_of};
ghost use Rattle.cw_commands.specs.declared.outcome.Reply.TheVariants.{No};
ghost use Rattle.cw_commands.specs.Outcomes.{Told};
ghost use Rattle.cw_stages.specs.Stops.{told_of, BeginsText, IsStop};
ghost use Rattle.cw_stages.specs.Strategies.{told, IsStrategyRefusal};

use crate::stop::Stop;
use crate::told::Text;
use cw_certs::EnvCert;
use cw_commands::Reply;
use cw_echeck::BadEnvRow;
use cw_io::{Sink, Writer};
use cw_rights::Policy;
use cw_strategy_text::read_env;
use std::alloc::Global;

/// The strategy that is spelled in the policy's format; or the first fault of its text.
pub fn read_strategy(alloc: Global, policy: &Policy, text: &[u8]) -> Result<EnvCert, Stop>
    ensures spells { IfOk result (λ strategy. Spells (policy_of policy.now).format text.now (strategy_of strategy)) }
    ensures few { IfOk result (λ strategy. length strategy.rows.items < 2 ^ 32) }
    ensures stop { IfErr result (λ stop. (whole : PlainPolicy) → (source : List ℕ) → IsStop whole source (IsStrategyRefusal (policy_of policy.now).format text.now) stop) }
{
    match read_env(alloc, text, policy.format) {
        Ok(strategy) => Ok(strategy),
        Err(fault) => Err(Stop::Strategy(fault)),
    }
}

/// The line that tells which row of a strategy fails which condition.
pub fn tell_row<O: Sink>(bad: &BadEnvRow, out: &mut O) -> Text<O>
    ensures due { told_of result ≡ Told No (told (fault_of bad.now)) }
    ensures puts { BeginsText O.taken O.faults O.refused out.old out.new result }
{
    let mut writer = Writer::begin(out);
    writer.put(b"row ", out);
    writer.put_number(u64::from(bad.row), out);
    writer.put(b" condition ", out);
    writer.put_number(u64::from(bad.condition), out);
    writer.put(b"\n", out);
    Text {
        reply: Reply::No,
        writer,
    }
}
