//! The command lines of the commands, read by clap.

ghost use Rattle.std.specs.Prelude.{◌≡◌, length, map, option_map, string_bytes, IfOk, IfSome};
ghost use Rattle.clap.specs.Words.{app_of, found_of, rows_of};
ghost use Rattle.cw_commands.specs.Lines.{line_app, taken, values};

use clap::error::ErrorKind;
use clap::{Arg, ArgMatches, Command};
use cw_core::NoMemory;
use std::alloc::Global;

/// The command line of some operands: as many arguments, and no flag.
fn line_of<'w>(alloc: Global, operands: &[&'w str]) -> Result<Command<'w>, NoMemory>
    ensures { IfOk result (λ line. app_of line ≡ line_app (map (λ operand. operand.now) operands.now)) }
{
    let mut line = Command::new(alloc, "capweave")
        .no_binary_name(true)
        .disable_help_flag(true)
        .disable_version_flag(true);
    for operand in operands {
        line = line.arg(Arg::new(alloc, *operand).required(true))?;
    }
    Ok(line)
}

/// The values of the operands, where each has one.
fn values<'w>(
    alloc: Global,
    operands: &[&str],
    matches: &ArgMatches<'w>,
) -> Result<Option<Vec<&'w str>>, NoMemory>
    ensures found { IfOk result (λ found. option_map (λ names. map (λ name. name.now) names.items) found
        ≡ values (map (λ operand. operand.now) operands.now) (rows_of (found_of matches.now))) }
    ensures many { IfOk result (λ found. IfSome found (λ names. length names.items ≡ length operands.now)) }
{
    let mut names = Vec::new(alloc);
    for operand in operands {
        match matches.get_str(*operand) {
            Some(name) => names.push(name)?,
            None => return Ok(None),
        }
    }
    Ok(Some(names))
}

/// The values of some operands, where the arguments fit.
pub(crate) fn taken<'w>(
    alloc: Global,
    operands: &[&'w str],
    arguments: &'w [String],
) -> Result<Option<Vec<&'w str>>, NoMemory>
    ensures found { IfOk result (λ found. option_map (λ names. map (λ name. name.now) names.items) found
        ≡ taken (map (λ operand. operand.now) operands.now) (map string_bytes arguments.now)) }
    ensures many { IfOk result (λ found. IfSome found (λ names. length names.items ≡ length operands.now)) }
{
    let line = line_of(alloc, operands)?;
    match line.try_get_matches_from(arguments) {
        Ok(matches) => values(alloc, operands, &matches),
        Err(error) => {
            if error.kind() == ErrorKind::OutOfMemory {
                Err(NoMemory)
            } else {
                Ok(None)
            }
        }
    }
}
