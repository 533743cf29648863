//! The result of reading a statement's file.

ghost use Rattle.bw_engine.specs.Files.{IsBytesOf};

use bw_model::{FILE_LIMIT, Refusal};

/// The result of reading the file that a statement wants.
#[derive(Clone, Copy, Debug, Drop)]
pub enum FileAnswer<'a> {
    /// No file was read. For a statement that wants one, this counts as a missing file.
    NotAsked,
    /// The file's bytes.
    Bytes(&'a [u8]),
    /// There is no such file, or reading it failed.
    Unreadable,
    /// The file is longer than the size limit.
    TooLarge,
    /// Out of memory for the file's bytes.
    NoMemory,
}

/// The file's bytes, or why there are none.
pub(crate) fn bytes_of(file: FileAnswer<'_>) -> Result<&[u8], Refusal>
    ensures { IsBytesOf file.entry result }
{
    match file {
        FileAnswer::Bytes(bytes) => {
            if bytes.len() > FILE_LIMIT {
                Err(Refusal::FileTooLarge)
            } else {
                Ok(bytes)
            }
        }
        FileAnswer::TooLarge => Err(Refusal::FileTooLarge),
        FileAnswer::NotAsked | FileAnswer::Unreadable => Err(Refusal::UnreadableFile),
        FileAnswer::NoMemory => Err(Refusal::OutOfMemory),
    }
}
