//! Strategies read.

ghost use Rattle.std.specs.Prelude.{IfOk, IfErr};
ghost use Rattle.cw_certs.specs.Strategies.{strategy_of};
ghost use Rattle.cw_strategy_text.specs.StrategyText.{Spells};
ghost use Rattle.cw_strategy_text.specs.Faults.{IsCause};

use crate::steps::{next_row, rows_of};
use crate::wording::{after_head, after_states};
use cw_certs::EnvCert;
use cw_text::TextFault;
use std::alloc::Global;

/// The strategy whose text this is, in a text of this format: its head, the number of states, a line for each row, numbered from 0,
/// and `end`, each with its LF. Otherwise the first line at fault is answered: Line where it isn't of the form, Order where its number isn't
/// the next, Limit where the rows, backs counted, are more than 65,536 with it.
pub fn read_env(alloc: Global, text: &[u8], format: u8) -> Result<EnvCert, TextFault>
    ensures spells { IfOk result (λ cert. Spells format text.now (strategy_of cert)) }
    ensures fault { IfErr result (λ fault. IsCause format text.now fault) }
{
    let Some(after) = after_head(text, format) else {
        return Err(TextFault::Line(1));
    };
    let Some((states, first)) = after_states(after) else {
        return Err(TextFault::Line(2));
    };
    let mut rest = first;
    let mut rows = Vec::new(alloc);
    let mut count = 0;
    'rows: loop {
        let Some((row, more)) = next_row(alloc, rest, rows.len(), count, format)? else {
            return Ok(EnvCert { states, rows });
        };
        count += rows_of(&row.how);
        rows.push(row)?;
        rest = more;
    }
}
