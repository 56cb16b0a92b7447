//! What gives files by name.
ghost use Rattle.std.specs.Prelude.{◌≡◌, ◌≤◌, ℕ, List, Option, IfOk, IsErrOf, vec_len};
ghost use Rattle.cw_io.specs.Answers.{answer_of};
ghost use Rattle.cw_io.specs.Causes.{Rose};
ghost use Rattle.cw_io.specs.Files.{FilesByName, IsAnswer, IsUnheld};

use crate::ReadFault;
use std::alloc::Global;

/// Gives files by name. It means the files that it holds, where it tells them, and for each name a count of
/// faults that never falls. A count that stands at its last value, 2^64 - 1, also counts as risen.
pub trait Shelf {
    /// The bytes of the file of each name, or `None` where the shelf doesn't tell.
    ghost files: { Self → Option FilesByName };

    /// How many reads of each name have failed.
    ghost faults: { Self → List ℕ → ℕ };

    /// Reads the whole file of a name, if it has at most `max` bytes. The files stay as they were.
    ///
    /// `Failed`: the file isn't there or can't be read, and the count of its name rose. `TooLong`: it has more
    /// than `max` bytes. `NoMemory`: there was no memory for its bytes.
    fn read(&mut self, alloc: Global, name: &str, max: usize) -> Result<Vec<u8>, ReadFault>
        ensures same { files self.new ≡ files self.old }
        ensures within { IfOk result (λ bytes. vec_len bytes ≤ max) }
        ensures answer { IsAnswer (files self.old) name.now max (answer_of result) }

        // No count falls, and that of the name rises where the read failed, and where the name isn't held.
        ensures later { (other : List ℕ) → faults self.old other ≤ faults self.new other }
        ensures failed { IsErrOf result ReadFault.Failed
            → Rose (faults self.old name.now) (faults self.new name.now) }
        ensures unheld { IsUnheld (files self.old) name.now
            → Rose (faults self.old name.now) (faults self.new name.now) };
}
