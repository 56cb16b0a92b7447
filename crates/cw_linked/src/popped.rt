//! What waits under the least key is taken.

ghost use Rattle.std.specs.Prelude.{◌≤◌};
ghost use Rattle.cw_linked.specs.Popped.{Pops};
ghost use Rattle.cw_linked.specs.Queues.{AreLong};

use crate::work::Work;
use cw_core::limits::CELLS;
use cw_links::Popped as Taken;

/// What waited under the least key.
#[derive(Drop)]
pub(crate) enum Popped {
    Nothing,
    /// The cell at an index, with its height.
    Cell(usize, u32),
    /// The link at an index, with its number of moves.
    Link(usize, u32),
}

/// Takes what waits under the least key: a cell has its height then, a link doesn't wait any more.
pub(crate) fn pop(work: &mut Work) -> Popped
    requires long { AreLong work.old }
    requires counted { work.old.written ≤ CELLS }
    ensures { Pops work.old work.new result }
{
    match work.store.pop() {
        Taken::Nothing => Popped::Nothing,
        Taken::Cell(index, key) => {
            work.written += 1;
            Popped::Cell(index, key / 2)
        }
        Taken::Link(index, key) => Popped::Link(index, key / 2),
    }
}
