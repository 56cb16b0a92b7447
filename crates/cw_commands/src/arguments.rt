//! The arguments of a command line.

ghost use Rattle.std.specs.Prelude.{◌≡◌, map, option_map, IfOk, IfSome, length};
ghost use Rattle.cw_commands.specs.Commands.{operands_of, quantities_of, IsNumbered};
ghost use Rattle.cw_commands.specs.Arguments.{asked, requested, first_command, sample_of, wish_of};

use crate::command::Command;
use crate::line::taken;
use crate::name::{Name, named_by};
use cw_core::NoMemory;
use cw_sample::sample_number;
use std::alloc::Global;

/// What the arguments of a command line ask for: a command, and the names of its files.
#[derive(Drop)]
pub struct Request<'w> {
    pub command: Command,
    pub names: Vec<&'w str>,
}

/// The command that the first argument names.
pub fn first_command(arguments: &[String]) -> Option<Name>
    ensures { result ≡ first_command arguments.now }
{
    match arguments {
        [] => None,
        [argument, ..] => named_by(argument),
    }
}

/// The sample whose number one argument tells.
fn sample_of<'w>(alloc: Global, arguments: &[&'w str]) -> Option<Request<'w>>
    ensures wish { option_map wish_of result ≡ sample_of (map (λ argument. argument.now) arguments.now) }
    ensures many { IfSome result (λ a. length a.names.items ≡ length (quantities_of a.command)) }
    ensures numbered { IfSome result (λ a. IsNumbered a.command) }
{
    let [argument] = arguments else {
        return None;
    };
    let number = sample_number(argument.as_bytes())?;
    Some(Request {
        command: Command::Sample(number),
        names: Vec::new(alloc),
    })
}

/// What a name asks for with the values of its operands.
fn asked<'w>(alloc: Global, name: Name, arguments: Vec<&'w str>) -> Option<Request<'w>>
    requires { length arguments.items ≡ length (operands_of name) }
    ensures wish { option_map wish_of result ≡ asked name (map (λ argument. argument.now) arguments.entry.items) }
    ensures many { IfSome result (λ a. length a.names.items ≡ length (quantities_of a.command)) }
    ensures numbered { IfSome result (λ a. IsNumbered a.command) }
{
    let command = match name {
        Name::Weave => Command::Weave,
        Name::Procs => Command::Procs,
        Name::Graph => Command::Graph,
        Name::Refute => Command::Refute,
        Name::Check => Command::Check,
        Name::Play => Command::Play,
        Name::Run => Command::Run,
        Name::World => Command::World,
        Name::Values => Command::Values,
        Name::Sample => return sample_of(alloc, &arguments),
        Name::Reaudit => Command::Reaudit,
        Name::Audit => Command::Audit,
    };
    Some(Request {
        command,
        names: arguments,
    })
}

/// What the arguments ask for: the first names a command, and those behind it fit the operands of that name, as clap reads them: the names of its
/// files, or the number of a sample. NoMemory is want of memory.
pub fn requested<'w>(
    alloc: Global,
    arguments: &'w [String],
) -> Result<Option<Request<'w>>, NoMemory>
    ensures wish { IfOk result (λ found. option_map wish_of found ≡ requested arguments.now) }
    ensures many { IfOk result (λ found. IfSome found (λ a. length a.names.items ≡ length (quantities_of a.command))) }
    ensures numbered { IfOk result (λ found. IfSome found (λ a. IsNumbered a.command)) }
{
    let [argument, others @ ..] = arguments else {
        return Ok(None);
    };
    let Some(name) = named_by(argument) else {
        return Ok(None);
    };
    match taken(alloc, name.operands(), others)? {
        Some(values) => Ok(asked(alloc, name, values)),
        None => Ok(None),
    }
}
