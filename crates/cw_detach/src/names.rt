//! Names among those of a policy.

ghost use Rattle.std.specs.Prelude.{◌≡◌};
ghost use Rattle.std.specs.Str.{bytes_eq};
ghost use Rattle.cw_detach.specs.Form.{is_among};
ghost use Rattle.cw_resolve.specs.Held.{lists};

/// Whether two names are the same.
fn is_same(name: &[u8], other: &[u8]) -> bool
    ensures { result ≡ bytes_eq name.now other.now }
{
    name == other
}

/// Whether a name is one of these.
pub(crate) fn is_among(names: &[Vec<u8>], name: &[u8]) -> bool
    ensures { result ≡ is_among (lists names.now) name.now }
{
    for other in names {
        if is_same(name, other) {
            return true;
        }
    }
    false
}
