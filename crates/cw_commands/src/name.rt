//! The names of the commands.

ghost use Rattle.std.specs.Prelude.{◌≡◌, map};
ghost use Rattle.cw_commands.specs.Commands.{named_by, operands_of, usage_of};

/// The name of a command.
#[derive(Clone, Copy, Debug, PartialEq, Eq, Drop)]
pub enum Name {
    Weave,
    Procs,
    Graph,
    Refute,
    Check,
    Play,
    Run,
    World,
    Values,
    Sample,
    Reaudit,
    Audit,
}

/// The name that an argument is.
pub(crate) fn named_by(argument: &str) -> Option<Name>
    ensures { result ≡ named_by argument.now }
{
    match argument {
        "weave" => Some(Name::Weave),
        "procs" => Some(Name::Procs),
        "graph" => Some(Name::Graph),
        "refute" => Some(Name::Refute),
        "check" => Some(Name::Check),
        "play" => Some(Name::Play),
        "run" => Some(Name::Run),
        "world" => Some(Name::World),
        "values" => Some(Name::Values),
        "sample" => Some(Name::Sample),
        "reaudit" => Some(Name::Reaudit),
        "audit" => Some(Name::Audit),
        _ => None,
    }
}

impl Name {
    /// The operands of the arguments behind it.
    pub(crate) fn operands(self) -> &'static [&'static str]
        ensures { map (λ operand. operand.now) result.now ≡ operands_of self }
    {
        match self {
            Name::Weave => &["POLICY", "SOURCE"],
            Name::Procs => &["POLICY", "SOURCE"],
            Name::Graph => &["SOURCE"],
            Name::Refute => &["POLICY", "SOURCE", "STRATEGY"],
            Name::Check => &["POLICY", "WOVEN"],
            Name::Play => &["POLICY", "SOURCE", "STRATEGY", "TAPE"],
            Name::Run => &["POLICY", "WOVEN", "TAPE"],
            Name::World => &["POLICY", "WOVEN", "STEPS"],
            Name::Values => &["POLICY", "WOVEN", "ANSWERS"],
            Name::Sample => &["N"],
            Name::Audit => &["POLICY", "SOURCE"],
            Name::Reaudit => &["POLICY", "SOURCE", "AUDIT"],
        }
    }

    /// The arguments of its command, as the line on usage tells them.
    pub(crate) fn usage(self) -> &'static [u8]
        ensures { result.now ≡ usage_of self }
    {
        match self {
            Name::Weave => b"weave POLICY SOURCE",
            Name::Procs => b"procs POLICY SOURCE",
            Name::Graph => b"graph SOURCE",
            Name::Refute => b"refute POLICY SOURCE STRATEGY",
            Name::Check => b"check POLICY WOVEN",
            Name::Play => b"play POLICY SOURCE STRATEGY TAPE",
            Name::Run => b"run POLICY WOVEN TAPE",
            Name::World => b"world POLICY WOVEN STEPS",
            Name::Values => b"values POLICY WOVEN ANSWERS",
            Name::Sample => b"sample N",
            Name::Audit => b"audit POLICY SOURCE",
            Name::Reaudit => b"reaudit POLICY SOURCE AUDIT",
        }
    }
}
