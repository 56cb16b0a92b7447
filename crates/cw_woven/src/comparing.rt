//! Marks of a text against those that are due.

ghost use Rattle.std.specs.Prelude.{◌≡◌, ◌≤◌, ◌^◌, ◌<◌, ◌+◌, ◌↔◌, length, map, IfOk, IfErr, IsTrue, slice_get};
ghost use Rattle.cw_rights.specs.Policies.{policy_of};
ghost use Rattle.cw_syntax.specs.Marks.{mark_of};
ghost use Rattle.cw_emit.specs.Woven.{placed};
ghost use Rattle.cw_woven.specs.Parts.{places, without};
ghost use Rattle.cw_woven.specs.Held.{insertion_of};
ghost use Rattle.cw_woven.specs.Reading.{IsFirstDifference};
ghost use Rattle.cw_woven.specs.Comparing.{IsDifference};

use crate::fault::WovenFault;
use crate::parts::Insertion;
use crate::spelling::is_spelled;
use cw_rights::Policy;
use cw_syntax::marks::SeamMark;

/// Whether these bytes stand at the place of a mark and are spelled as it is.
fn is_due(place: usize, bytes: &[u8], mark: &SeamMark, source: &[u8], policy: &Policy) -> bool
    ensures { IsTrue result ↔ ((place, bytes.now) ≡ placed (policy_of policy.now) source.now (mark_of mark.now)) }
{
    place == mark.place as usize && is_spelled(bytes, mark, source, policy)
}

/// That the parts of a text, with this behind the last, stand where the marks of a source do, and are spelled as these are; else the first that isn't.
pub(crate) fn compare(
    insertions: &[Insertion],
    left: &[u8],
    marks: &[SeamMark],
    source: &[u8],
    policy: &Policy,
) -> Result<(), WovenFault>
    requires whole { source.now ≡ without (map insertion_of insertions.now) left.now }
    requires few { length marks.now < 2 ^ 32 }
    ensures same { IfOk result (λ _. places (map insertion_of insertions.now) ≡ map (placed (policy_of policy.now) source.now) (map mark_of marks.now)) }
    ensures fault { IfErr result (IsDifference (places (map insertion_of insertions.now)) (map (placed (policy_of policy.now) source.now) (map mark_of marks.now))) }
{
    let mut place: usize = 0;
    let mut n: usize = 0;
    for insertion in insertions {
        if marks.len() <= n {
            return Err(WovenFault::Misplaced(n as u32));
        }
        place += insertion.gap.len();
        if is_due(place, insertion.inner, &marks[n], source, policy) {
            n += 1;
        } else {
            return Err(WovenFault::Misplaced(n as u32));
        }
    }
    if n < marks.len() {
        return Err(WovenFault::Misplaced(n as u32));
    }
    Ok(())
}
