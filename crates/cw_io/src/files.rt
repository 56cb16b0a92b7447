//! Files in memory, by name.
ghost use Rattle.std.specs.Prelude.{◌≡◌, ◌<◌, Option, Some, IfSome, option_map, length, position, bytes_eq};
ghost use Rattle.cw_io.specs.Answers.{answer_of};
ghost use Rattle.cw_io.specs.Files.{IsDue, answer_for};
ghost use Rattle.cw_io.specs.Shelves.{listed, content_of, index_of as first_index};

use crate::ReadFault;
use std::alloc::Global;

/// Where the first file of a name stands.
fn index_of(files: &[(Vec<u8>, Vec<u8>)], name: &[u8]) -> Option<usize>
    ensures { result ≡ position (λ file. bytes_eq file.0.items name.now) files.now }
{
    files.iter().position(|file| file.0.as_slice() == name)
}

/// Where the first file of a name stands, and its bytes.
pub(crate) fn file_of<'a>(files: &'a [(Vec<u8>, Vec<u8>)], name: &[u8]) -> Option<(usize, &'a [u8])>
    ensures index { option_map (λ file. file.0) result ≡ first_index (listed files.now) name.now }
    ensures bytes { option_map (λ file. file.1.now) result ≡ content_of (listed files.now) name.now }
    ensures bound { IfSome result (λ file. file.0 < length files.now) }
{
    let index = index_of(files, name)?;
    Some((index, files[index].1.as_slice()))
}

/// A copy of a file's bytes, if they are at most `max`.
pub(crate) fn copy_within(alloc: Global, bytes: &[u8], max: usize) -> Result<Vec<u8>, ReadFault>
    ensures { IsDue (answer_for (Some bytes.now) max) (answer_of result) }
{
    if bytes.len() > max {
        return Err(ReadFault::TooLong);
    }
    Ok(bytes.to_vec(alloc)?)
}
