//! Names by their bytes.

ghost use Rattle.std.specs.Prelude.{◌≡◌};
ghost use Rattle.std.specs.Str.{bytes_eq};
ghost use Rattle.cw_syntax.specs.Names.{text, number_in};
ghost use Rattle.cw_syntax.specs.Plans.{function_names};
ghost use Rattle.cw_syntax.specs.Trees.{file_of};

use cw_syntax::checked::Checked;
use cw_syntax::names;
use cw_syntax::program::Name;

/// Whether two names are the same. Most that aren't are told apart by their lengths or their ends.
pub(crate) fn is_same(name: &[u8], other: &[u8]) -> bool
    ensures { result ≡ bytes_eq name.now other.now }
{
    let mut at = name.len();
    if at != other.len() {
        return false;
    }
    'bytes: while at > 0 {
        at -= 1;
        if name[at] != other[at] {
            return false;
        }
    }
    true
}

/// The bytes of a name.
pub fn text<'s>(checked: &Checked<'s>, name: Name) -> &'s [u8]
    ensures bytes { result.now ≡ text checked.now.source.now name }
{
    names::text(checked.source, name)
}

/// The number of the defined function with this name, in the order of definition, by a walk that takes no memory. Who asks for many has a
/// `Scene`.
pub fn function_named(checked: &Checked, name: &[u8]) -> Option<usize>
    ensures number { result ≡ number_in (function_names checked.now.source.now (file_of checked.now.program)) name.now }
{
    let source = checked.source;
    for (i, f) in checked.program.functions.iter().enumerate() {
        if is_same(name, names::text(source, f.name)) {
            return Some(i);
        }
    }
    None
}
