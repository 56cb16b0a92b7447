//! The numbers of the calls that are to fail.
ghost use Rattle.std.specs.Prelude.{◌≡◌};
ghost use Rattle.cw_io.specs.Calls.{is_due};

/// Whether the call of this number, counted from 0, is one of those that are to fail.
pub(crate) fn is_due(failing: &[u32], call: u64) -> bool
    ensures { result ≡ is_due failing.now call }
{
    failing.iter().any(|number| u64::from(*number) == call)
}
