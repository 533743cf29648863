//! Folders that hold the files of statements.

ghost use Rattle.std.specs.Prelude.{◌≡◌, ℕ, ◌<◌, ◌≤◌, ◌^◌, [], None, Option, Some, IfErr, IfOk, MatchOption, length};
ghost use Rattle.bw_shell.specs.Folders.{Files, IsWriteFault, Reads, Writes, failures_after, file_of};
ghost use Rattle.bw_shell.specs.declared.folders.FolderFault.TheVariants.{Memory};

use std::alloc::{AllocError, AllocFailed, Global};
use std::collections::BTreeMap;
use std::marker::Model;

/// Why a call to a folder failed.
#[derive(Clone, Copy, Debug, PartialEq, Eq, Drop)]
pub enum FolderFault {
    /// There is no such file.
    Missing,
    /// The file is longer than the limit.
    TooLarge,
    /// The folder failed.
    Failed,
    /// Out of memory.
    Memory,
}

impl From<AllocError> for FolderFault {
    ghost from_gives = { λ _ fault. fault ≡ Memory };

    fn from(_error: AllocError) -> FolderFault {
        FolderFault::Memory
    }
}

impl<T: Drop> From<AllocFailed<T>> for FolderFault {
    ghost from_gives = { λ _ fault. fault ≡ Memory };

    fn from(_error: AllocFailed<T>) -> FolderFault {
        FolderFault::Memory
    }
}

/// A folder that holds the files of statements. It counts its failures, and contracts may see its files.
pub trait Folder {
    /// The number of failures so far.
    ghost failure_count: { Self → ℕ };

    /// Its files, if they are known.
    ghost files: { Self → Option Files } = { λ _. None };

    /// Reads a file of at most `limit` bytes. No file changes.
    fn read(&mut self, name: &str, limit: usize) -> Result<Vec<u8>, FolderFault>
        requires { failure_count self.old < 2 ^ 63 }
        ensures failures { failure_count self.new ≡ failures_after result (failure_count self.old) }
        ensures within { IfOk result (λ bytes. length bytes.items ≤ limit) }
        ensures files { Reads limit name.now (files self.old) (files self.new) result };

    /// Creates or replaces the file with these bytes. Never returns `Missing` or `TooLarge`. After `Failed` the file
    /// may have any content or be gone; no other file changes.
    fn write(&mut self, name: &str, bytes: &[u8]) -> Result<(), FolderFault>
        requires { failure_count self.old < 2 ^ 63 }
        ensures failures { failure_count self.new ≡ failures_after result (failure_count self.old) }
        ensures files { Writes name.now bytes.now (files self.old) (files self.new) result }
        ensures fault { IfErr result IsWriteFault };

    /// The number of calls that returned `Failed`.
    fn failures(&self) -> u64
        ensures { result ≡ failure_count self.now };
}

/// A folder in memory, which never returns `Failed`. Contracts see the names and bytes of its files.
#[derive(Drop)]
pub struct MemoryFolder {
    alloc: Global,
    files: BTreeMap<String, Vec<u8>>,
}

impl Model for MemoryFolder {
    ghost use Rattle.std.specs.Prelude.{map, string_bytes};
    ghost use Rattle.bw_shell.specs.Folders.{Files};

    ghost Value = { Files };

    ghost view = { λ folder. map (λ file. (string_bytes file.0, file.1.items)) folder.files.entries };
}

impl MemoryFolder {
    /// A folder without files.
    pub fn new(alloc: Global) -> MemoryFolder
        ensures { result ≡ [] }
    {
        MemoryFolder {
            alloc,
            files: BTreeMap::new(alloc),
        }
    }

    /// The bytes of a file, if it exists.
    pub fn file(&self, name: &str) -> Option<&[u8]>
        ensures { MatchOption result (file_of self.now name.now ≡ None) (λ bytes. file_of self.now name.now ≡ Some bytes.now) }
    {
        let bytes = self.files.get(name)?;
        Some(bytes.as_slice())
    }
}

impl Folder for MemoryFolder {
    ghost failure_count = { λ _. 0 };

    ghost files = { λ folder. Some folder };

    fn read(&mut self, name: &str, limit: usize) -> Result<Vec<u8>, FolderFault> {
        let Some(bytes) = self.files.get(name) else {
            return Err(FolderFault::Missing);
        };
        if bytes.len() > limit {
            return Err(FolderFault::TooLarge);
        }
        Ok(Vec::from_slice(self.alloc, bytes.as_slice())?)
    }

    fn write(&mut self, name: &str, bytes: &[u8]) -> Result<(), FolderFault> {
        let name = String::from_str(self.alloc, name)?;
        let bytes = Vec::from_slice(self.alloc, bytes)?;
        self.files.insert(name, bytes)?;
        Ok(())
    }

    fn failures(&self) -> u64 {
        0
    }
}
