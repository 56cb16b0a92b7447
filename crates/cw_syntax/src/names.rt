//! Names by their bytes.

ghost use Rattle.std.specs.Prelude.{◌≡◌};
ghost use Rattle.cw_syntax.specs.Names.{slice, text};

use crate::program::Name;

/// The bytes of a source from one place up to another, as far as the source goes.
pub fn slice(source: &[u8], from: u32, to: u32) -> &[u8]
    ensures bytes { result.now ≡ slice source.now from to }
{
    let start = source.len().min(from as usize);
    let end = source.len().min(to as usize).max(start);
    &source[start..end]
}

/// The bytes of a name in its source.
pub fn text(source: &[u8], name: Name) -> &[u8]
    ensures bytes { result.now ≡ text source.now name }
{
    slice(source, name.from, name.to)
}
