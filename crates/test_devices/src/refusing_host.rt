//! A host that refuses to open files: only a file that doesn't exist counts as missing, and running out of memory
//! doesn't count as a failure.

use crate::seen::see_at;
use bw_shell::{Folder, FolderFault, HostFolder};
use std::alloc::Allocator;
use std::fs::{Files, Metadata, OpenOptions};
use std::io;
use std::io::ErrorKind;

/// The files of a host, none of which can be opened, for this reason.
#[derive(Drop)]
struct RefusingHost<'a, H: Files> {
    host: &'a H,
    reason: ErrorKind,
}

impl<'a, H: Files> Files for RefusingHost<'a, H> {
    type File = H::File;

    type Dir = H::Dir;

    fn open_file(&self, _how: &OpenOptions, _path: &str) -> io::Result<H::File> {
        Err(io::Error::from(self.reason))
    }

    fn open_dir(&self, path: &str) -> io::Result<H::Dir> {
        self.host.open_dir(path)
    }

    fn metadata(&self, path: &str) -> io::Result<Metadata> {
        self.host.metadata(path)
    }

    fn symlink_metadata(&self, path: &str) -> io::Result<Metadata> {
        self.host.symlink_metadata(path)
    }

    fn copy(&self, from: &str, to: &str) -> io::Result<u64> {
        self.host.copy(from, to)
    }

    fn rename(&self, from: &str, to: &str) -> io::Result<()> {
        self.host.rename(from, to)
    }

    fn remove_file(&self, path: &str) -> io::Result<()> {
        self.host.remove_file(path)
    }

    fn create_dir(&self, path: &str) -> io::Result<()> {
        self.host.create_dir(path)
    }

    fn remove_dir(&self, path: &str) -> io::Result<()> {
        self.host.remove_dir(path)
    }

    fn remove_dir_all<B: Allocator>(&self, alloc: B, path: &str) -> io::Result<()> {
        self.host.remove_dir_all(alloc, path)
    }
}

/// A reason, the faults of a read and of a write that the host refuses for it, and the folder's number of failures
/// after them.
type Row = (ErrorKind, FolderFault, FolderFault, u64);

const ROWS: [Row; 4] = [
    (
        ErrorKind::NotFound,
        FolderFault::Missing,
        FolderFault::Failed,
        1,
    ),
    (
        ErrorKind::PermissionDenied,
        FolderFault::Failed,
        FolderFault::Failed,
        2,
    ),
    (
        ErrorKind::OutOfMemory,
        FolderFault::Memory,
        FolderFault::Memory,
        0,
    ),
    (
        ErrorKind::Other,
        FolderFault::Failed,
        FolderFault::Failed,
        2,
    ),
];

#[test]
fn a_host_that_refuses_to_open_files(rt: HostRuntime) {
    for (reason, reading, writing, failures) in ROWS {
        let host = RefusingHost { host: &rt, reason };
        let mut folder = HostFolder::new(rt.alloc(), &host);
        let read = folder.read("f", 3).err();
        let written = folder.write("f", b"abc").err();
        see_at(
            &rt,
            failures,
            (read, written, folder.failures()),
            (Some(reading), Some(writing), failures),
        );
    }
}
