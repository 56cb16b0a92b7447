//! How the lines of a sample are told.

ghost use Rattle.std.specs.Prelude.{◌≡◌, ◌++◌};
ghost use Rattle.cw_io.specs.Written.{Follows};
ghost use Rattle.cw_commands.specs.Outcomes.{Told};
ghost use Rattle.cw_stages.specs.Stops.{told_of, BeginsText};
ghost use Rattle.cw_cli.specs.Telling.{number_line, reply_line, summary};

use cw_commands::Reply;
use cw_io::{Sink, Writer};
use cw_stages::{Numbers, Text};

/// Puts a line of a name and a number.
fn put_number<O: Sink>(name: &[u8], number: u64, writer: &mut Writer<O>, out: &mut O)
    requires follows { Follows O.taken O.faults O.refused writer.old out.old }
    ensures text { writer.new.text ≡ writer.old.text ++ number_line name.now number }
    ensures begun { writer.new.begun ≡ writer.old.begun }
    ensures follows { Follows O.taken O.faults O.refused writer.new out.new }
{
    writer.put(name, out);
    writer.put(b" ", out);
    writer.put_number(number, out);
    writer.put(b"\n", out);
}

/// The line that tells the verdict.
fn reply_line(reply: Reply) -> &'static [u8]
    ensures { result.now ≡ reply_line reply }
{
    match reply {
        Reply::Yes => b"woven\n",
        Reply::No => b"refuted\n",
    }
}

/// The eight lines of a sample.
pub(crate) fn summary<O: Sink>(number: u32, numbers: &Numbers, reply: Reply, out: &mut O) -> Text<O>
    ensures due { told_of result ≡ Told reply (summary number numbers.now reply) }
    ensures puts { BeginsText O.taken O.faults O.refused out.old out.new result }
{
    let mut writer = Writer::begin(out);
    put_number(b"sample", u64::from(number), &mut writer, out);
    put_number(b"points", numbers.points, &mut writer, out);
    put_number(b"positions", numbers.positions, &mut writer, out);
    put_number(b"states", numbers.states, &mut writer, out);
    put_number(b"contexts", numbers.contexts, &mut writer, out);
    put_number(b"cells", numbers.cells, &mut writer, out);
    put_number(b"rows", numbers.rows, &mut writer, out);
    writer.put(reply_line(reply), out);
    Text { reply, writer }
}
