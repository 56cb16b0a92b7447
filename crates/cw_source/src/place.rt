//! Places in a source as people count them.

ghost use Rattle.std.specs.Prelude.{◌≡◌, ◌+◌, ◌-◌, ◌<◌, ◌^◌};
ghost use Rattle.cw_source.specs.Places.{behind, column_of, front_of, line_of};

/// The bytes before a place.
fn front_of(source: &[u8], at: u32) -> &[u8]
    ensures { result.now ≡ front_of source.now at }
{
    &source[..(at as usize).min(source.len())]
}

/// The line of a place, counted from 1: the line feeds before it, and one more.
pub fn line_of(source: &[u8], at: u32) -> usize
    ensures line { result ≡ line_of source.now at }
{
    front_of(source, at)
        .iter()
        .filter(|byte| **byte == b'\n')
        .count()
        + 1
}

/// The column behind a byte that stands at this column.
fn next_column(column: usize, byte: u8) -> usize
    requires room { column < 2 ^ 64 - 1 }
    ensures { result ≡ behind byte column }
{
    if byte == b'\n' { 1 } else { column + 1 }
}

/// The column of a place, counted in bytes from 1 on its line.
pub fn column_of(source: &[u8], at: u32) -> usize
    ensures column { result ≡ column_of source.now at }
{
    let front = front_of(source, at);
    let mut column = 1;
    for byte in front {
        column = next_column(column, *byte);
    }
    column
}
