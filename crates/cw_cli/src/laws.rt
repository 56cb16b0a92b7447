//! What one command writes, another accepts. The function does nothing: its contract is the law.

ghost use Rattle.cw_cli.specs.Agreeing.{RefutedIsJudged, WovenIsChecked};

/// Where `weave` is due to write a woven text, with status 0, `check` is due to answer `yes` to it and nothing else, and where it is due to write a
/// strategy, with status 1, `refute` is. The source has at most 262,144 bytes, as one that is read from a file.
pub fn what_is_written_is_accepted()
    ensures checked { WovenIsChecked }
    ensures judged { RefutedIsJudged }
{}
