//! The commands.

ghost use Rattle.std.specs.Prelude.{◌≡◌};
ghost use Rattle.cw_commands.specs.Commands.{quantities_of};

use cw_core::Quantity;

/// A command: what is due for the bytes of its files, in the order of its arguments, or for the sample of a number from 1 to 400, which has no file.
#[derive(Clone, Copy, Debug, PartialEq, Eq, Drop)]
pub enum Command {
    Weave,
    Procs,
    Graph,
    Refute,
    Check,
    Play,
    Run,
    World,
    Values,
    Sample(u32),
    Reaudit,
    Audit,
}

impl Command {
    /// The quantities that the bytes of its files are, one a file, in the order of its arguments.
    pub fn quantities(self) -> &'static [Quantity]
        ensures { result.now ≡ quantities_of self }
    {
        match self {
            Command::Weave => &[Quantity::PolicyBytes, Quantity::SourceBytes],
            Command::Procs => &[Quantity::PolicyBytes, Quantity::SourceBytes],
            Command::Graph => &[Quantity::SourceBytes],
            Command::Refute => &[
                Quantity::PolicyBytes,
                Quantity::SourceBytes,
                Quantity::FileBytes,
            ],
            Command::Check => &[Quantity::PolicyBytes, Quantity::FileBytes],
            Command::Play => &[
                Quantity::PolicyBytes,
                Quantity::SourceBytes,
                Quantity::FileBytes,
                Quantity::FileBytes,
            ],
            Command::Run => &[
                Quantity::PolicyBytes,
                Quantity::FileBytes,
                Quantity::FileBytes,
            ],
            Command::World => &[
                Quantity::PolicyBytes,
                Quantity::FileBytes,
                Quantity::FileBytes,
            ],
            Command::Values => &[
                Quantity::PolicyBytes,
                Quantity::FileBytes,
                Quantity::FileBytes,
            ],
            Command::Sample(_) => &[],
            Command::Audit => &[Quantity::PolicyBytes, Quantity::SourceBytes],
            Command::Reaudit => &[
                Quantity::PolicyBytes,
                Quantity::SourceBytes,
                Quantity::FileBytes,
            ],
        }
    }
}
