//! A shelf in memory that fails where it is told to.
ghost use Rattle.std.specs.Prelude.{◌≡◌, ◌≤◌, ◌<◌, ℕ, List, Some, None, Ok, Err, IfOk, OnOk, OnErr, IsErrOf, vec_len, slice_index, slice_set};
ghost use Rattle.cw_io.specs.Answers.{answer_of};
ghost use Rattle.cw_io.specs.Causes.{Rose, raised};
ghost use Rattle.cw_io.specs.Files.{IsAnswer, IsUnheld, IsDue};
ghost use Rattle.cw_io.specs.Shelves.{listed, padded, content_of, new_mem_shelf, faults_of, after_read, answer_due};

use crate::calls::is_due;
use crate::files::{copy_within, file_of};
use crate::{ReadFault, Shelf};
use std::alloc::{AllocError, Global};
use std::marker::Model;

/// Files in memory, and the numbers of the calls of `read` that are to fail.
///
/// Each file has its own count of faults, and all names that aren't held share one.
#[derive(Drop)]
pub struct MemShelf {
    files: Vec<(Vec<u8>, Vec<u8>)>,
    failing: Vec<u32>,
    calls: u64,
    /// The counts of the first files; that of a file past the end is 0.
    faults: Vec<u64>,
    unheld: u64,
}

impl Model for MemShelf {
    ghost use Rattle.std.specs.Prelude.{◌≤◌, vec_len};
    ghost use Rattle.cw_io.specs.Shelves.{MemShelfState, listed, padded};

    ghost Value = { MemShelfState };

    ghost view = { λ s. record {
      files = listed s.files.items;
      failing = s.failing.items;
      calls = s.calls;
      faults = padded (vec_len s.files) s.faults.items;
      unheld = s.unheld;
    } };

    ghost invariant = { λ s. vec_len s.faults ≤ vec_len s.files };
}

impl MemShelf {
    /// A shelf of these files, each a name and its bytes. Of two files of one name the first counts. `failing`
    /// has the numbers, from 0, of the calls of `read` that are to fail. It takes no memory.
    pub fn make(files: Vec<(Vec<u8>, Vec<u8>)>, failing: Vec<u32>) -> MemShelf
        ensures { result ≡ new_mem_shelf (listed files.items) failing.items }
    {
        let faults = Vec::new(*files.allocator());
        MemShelf {
            files,
            failing,
            calls: 0,
            faults,
            unheld: 0,
        }
    }
}

/// Raises the count at an index, of counts for so many files.
fn raise_at(counts: &mut Vec<u64>, index: usize, files: usize) -> Result<(), AllocError>
    requires held { index < files }
    requires room { vec_len counts.old ≤ files }
    ensures room { vec_len counts.new ≤ files }
    ensures ok { OnOk result (padded files counts.new.items
        ≡ slice_set (padded files counts.old.items) index
        (raised (slice_index (padded files counts.old.items) index))) }
    ensures later { OnOk result ((at : ℕ) → slice_index (padded files counts.old.items) at
        ≤ slice_index (padded files counts.new.items) at) }
    ensures err { OnErr result (counts.new.items ≡ counts.old.items) }
{
    counts.resize(files, 0)?;
    counts[index] = counts[index].saturating_add(1);
    Ok(())
}

impl Shelf for MemShelf {
    ghost files = { λ s. Some (content_of s.files) };

    ghost faults = { faults_of };

    fn read(&mut self, alloc: Global, name: &str, max: usize) -> Result<Vec<u8>, ReadFault>
        ensures same { Some (content_of self.new.files) ≡ Some (content_of self.old.files) }
        ensures within { IfOk result (λ bytes. vec_len bytes ≤ max) }
        ensures answer { IsAnswer (Some (content_of self.old.files)) name.now max (answer_of result) }
        ensures later { (other : List ℕ) → faults_of self.old other ≤ faults_of self.new other }
        ensures failed { IsErrOf result ReadFault.Failed
            → Rose (faults_of self.old name.now) (faults_of self.new name.now) }
        ensures unheld { IsUnheld (Some (content_of self.old.files)) name.now
            → Rose (faults_of self.old name.now) (faults_of self.new name.now) }

        // Which answer is due, and what the shelf is then. Only want of memory comes beside it, and only for a
        // name that is held.
        ensures due { IsDue (answer_due self.old name.now max) (answer_of result) }
        ensures absent { content_of self.old.files name.now ≡ None → result ≡ Err ReadFault.Failed }
        ensures after { self.new ≡ after_read self.old name.now (answer_of result) }
    {
        let due = is_due(&self.failing, self.calls);
        self.calls = self.calls.saturating_add(1);
        let Some((index, bytes)) = file_of(&self.files, name.as_bytes()) else {
            self.unheld = self.unheld.saturating_add(1);
            return Err(ReadFault::Failed);
        };
        if due {
            raise_at(&mut self.faults, index, self.files.len())?;
            return Err(ReadFault::Failed);
        }
        copy_within(alloc, bytes, max)
    }
}
