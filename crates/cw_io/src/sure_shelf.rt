//! A shelf in memory that never fails.
ghost use Rattle.std.specs.Prelude.{◌≡◌, ◌≤◌, ℕ, List, Some, None, Ok, IfOk, IsErrOf, vec_len};
ghost use Rattle.cw_io.specs.Answers.{answer_of};
ghost use Rattle.cw_io.specs.Files.{IsAnswer, IsDue, answer_for};
ghost use Rattle.cw_io.specs.Shelves.{listed, sure_content};

use crate::files::{copy_within, file_of};
use crate::{ReadFault, Shelf};
use std::alloc::Global;
use std::marker::Model;

/// Files in memory. A read never answers `Failed`, and a name that wasn't given is an empty file.
#[derive(Drop)]
pub struct SureShelf {
    files: Vec<(Vec<u8>, Vec<u8>)>,
}

/// Contracts see it as the names and the bytes of its files.
impl Model for SureShelf {
    ghost use Rattle.std.specs.Prelude.{ℕ, List};

    ghost Value = { List (List ℕ × List ℕ) };

    ghost use Rattle.cw_io.specs.Shelves.{listed};

    ghost view = { λ s. listed s.files.items };
}

impl SureShelf {
    /// A shelf of these files, each a name and its bytes. Of two files of one name the first counts. It takes
    /// no memory.
    pub fn make(files: Vec<(Vec<u8>, Vec<u8>)>) -> SureShelf
        ensures { result ≡ listed files.items }
    {
        SureShelf { files }
    }
}

impl Shelf for SureShelf {
    ghost files = { λ s. Some (λ name. Some (sure_content s name)) };

    ghost faults = { λ _ _. 0 };

    fn read(&mut self, alloc: Global, name: &str, max: usize) -> Result<Vec<u8>, ReadFault>
        ensures same { self.new ≡ self.old }
        ensures within { IfOk result (λ bytes. vec_len bytes ≤ max) }
        ensures answer { IsAnswer (Some (λ other. Some (sure_content self.old other))) name.now max
            (answer_of result) }
        ensures sure { IsErrOf result ReadFault.Failed → ⊥ }

        // The bytes, or `TooLong`, exactly; only want of memory comes beside it.
        ensures due { IsDue (answer_for (Some (sure_content self.old name.now)) max) (answer_of result) }
    {
        match file_of(&self.files, name.as_bytes()) {
            Some((_, bytes)) => copy_within(alloc, bytes, max),
            None => Ok(Vec::new(alloc)),
        }
    }
}
