//! Texts that are due.

ghost use Rattle.std.specs.Prelude.{◌≡◌};
ghost use Rattle.cw_commands.specs.Outcomes.{Told};
ghost use Rattle.cw_stages.specs.Stops.{told_of, BeginsText};

use crate::numbers::Numbers;
use cw_commands::Reply;
use cw_io::{Sink, Writer};

/// A text that is due for the output, to which it was put, but for what waits in its writer; and which of a command's two answers it is.
#[derive(Drop)]
pub struct Text<O: Sink> {
    pub reply: Reply,
    pub writer: Writer<O>,
}

/// The text that says who wins a game, and the numbers of that game and of the text.
#[derive(Drop)]
pub struct Verdict<O: Sink> {
    pub text: Text<O>,
    pub numbers: Numbers,
}

/// Which of the two a verdict is whose text isn't put, and the numbers of its game and of that text.
#[derive(Clone, Copy, Drop)]
pub struct Count {
    pub reply: Reply,
    pub numbers: Numbers,
}

/// A text that is due, as it stands.
pub fn tell<O: Sink>(reply: Reply, text: &[u8], out: &mut O) -> Text<O>
    ensures due { told_of result ≡ Told reply text.now }
    ensures puts { BeginsText O.taken O.faults O.refused out.old out.new result }
{
    let mut writer = Writer::begin(out);
    writer.put(text, out);
    Text { reply, writer }
}
