//! The host's files.

ghost use Rattle.std.specs.Prelude.{◌≡◌, ◌≤◌, ◌<◌, ◌^◌, ℕ, IfErr, IfOk, length};
ghost use Rattle.bw_shell.specs.Folders.{IsWriteFault, failures_after};

use crate::folders::{Folder, FolderFault};
use std::alloc::Global;
use std::fs::{self, Files, OpenFile};
use std::io::{Error, ErrorKind, Read, Write};
use std::marker::Model;

/// The host's files: a name is a path relative to the working directory. Contracts see the number of failures, and no
/// file.
#[derive(Drop)]
pub struct HostFolder<'a, H: Files> {
    alloc: Global,
    host: &'a H,
    failures: u64,
}

impl<'a, H: Files> Model for HostFolder<'a, H> {
    ghost use Rattle.std.specs.Prelude.{ℕ};

    ghost Value = { ℕ };

    ghost view = { λ folder. folder.failures };
}

impl<'a, H: Files> HostFolder<'a, H> {
    /// The host's files, with no failures so far.
    pub fn new(alloc: Global, host: &'a H) -> HostFolder<'a, H>
        ensures { result ≡ 0 }
    {
        HostFolder {
            alloc,
            host,
            failures: 0,
        }
    }
}

impl<'a, H: Files> Folder for HostFolder<'a, H> {
    ghost failure_count = { λ folder. folder };

    fn read(&mut self, name: &str, limit: usize) -> Result<Vec<u8>, FolderFault> {
        let answer = read_file(self.alloc, self.host, name, limit);
        count_failure(&mut self.failures, &answer);
        answer
    }

    fn write(&mut self, name: &str, bytes: &[u8]) -> Result<(), FolderFault> {
        let answer = write_file(self.host, name, bytes);
        count_failure(&mut self.failures, &answer);
        answer
    }

    fn failures(&self) -> u64 {
        self.failures
    }
}

// Counts the result if it is `Failed`.
fn count_failure<T>(failures: &mut u64, answer: &Result<T, FolderFault>)
    requires { failures.old < 2 ^ 63 }
    ensures { failures.new ≡ failures_after answer.now failures.old }
{
    if let Err(FolderFault::Failed) = answer {
        *failures += 1;
    }
}

// Reads a file, unless it is longer than the limit.
fn read_file<H: Files>(
    alloc: Global,
    host: &H,
    name: &str,
    limit: usize,
) -> Result<Vec<u8>, FolderFault>
    ensures { IfOk result (λ bytes. length bytes.items ≤ limit) }
{
    let file = match fs::open(host, name) {
        Ok(file) => file,
        Err(error) => return Err(fault_of(&error)),
    };
    let length = match file.metadata() {
        Ok(metadata) => metadata.len(),
        Err(error) => return Err(fault_of(&error)),
    };
    if length > limit as u64 {
        return Err(FolderFault::TooLarge);
    }
    // Room for one more byte, so that the read that finds the end doesn't make the vector grow.
    let mut bytes = Vec::with_capacity(alloc, (length as usize).saturating_add(1))?;
    // The file may have grown meanwhile; a byte past the limit shows that.
    let mut rest = file.take((limit as u64).saturating_add(1));
    match rest.read_to_end(&mut bytes) {
        Ok(_) if bytes.len() <= limit => Ok(bytes),
        Ok(_) => Err(FolderFault::TooLarge),
        Err(error) => Err(fault_of(&error)),
    }
}

// Creates or replaces a file with these bytes.
fn write_file<H: Files>(host: &H, name: &str, bytes: &[u8]) -> Result<(), FolderFault>
    ensures { IfErr result IsWriteFault }
{
    match fs::create(host, name) {
        Ok(mut file) => put_all(&mut file, bytes),
        Err(error) => Err(write_fault_of(&error)),
    }
}

fn put_all<W: Write>(writer: &mut W, bytes: &[u8]) -> Result<(), FolderFault>
    ensures { IfErr result IsWriteFault }
{
    if writer.write_all(bytes).is_err() || writer.flush().is_err() {
        return Err(FolderFault::Failed);
    }
    Ok(())
}

// Why a file can't be read.
fn fault_of(error: &Error) -> FolderFault {
    match error.kind() {
        ErrorKind::NotFound => FolderFault::Missing,
        ErrorKind::OutOfMemory => FolderFault::Memory,
        _ => FolderFault::Failed,
    }
}

// Why a file can't be written.
fn write_fault_of(error: &Error) -> FolderFault
    ensures { IsWriteFault result }
{
    match error.kind() {
        ErrorKind::OutOfMemory => FolderFault::Memory,
        _ => FolderFault::Failed,
    }
}
