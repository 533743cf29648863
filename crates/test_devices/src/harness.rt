//! Shared by the tests: files in memory, and scripts made of pieces.

use bw_shell::{Folder, MemoryFolder, OnError, RunEnd, run};
use std::alloc::Global;
use std::io::{Read, Write};
use std::process::Abort;

/// A script and the replies to it.
pub(crate) type Example = (&'static str, &'static str);

/// A file: its name and its bytes.
pub(crate) type File<'a> = (&'a str, &'a [u8]);

/// A folder with these files.
pub(crate) fn folder_of<R: Abort + AllocGlobal>(rt: &R, files: &[File<'_>]) -> MemoryFolder {
    let mut folder = MemoryFolder::new(rt.alloc());
    for (name, bytes) in files {
        folder.write(name, bytes).expect(rt, "memory");
    }
    folder
}

/// Runs what a reader gives over an empty folder.
pub(crate) fn run_over<I: Read, O: Write>(
    alloc: Global,
    reader: &mut I,
    writer: &mut O,
    on_error: OnError,
) -> RunEnd {
    let mut folder = MemoryFolder::new(alloc);
    run(alloc, reader, writer, &mut folder, on_error)
}

/// Concatenates pieces, each repeated the given number of times.
pub(crate) fn joined<R: Abort + AllocGlobal>(rt: &R, pieces: &[(&str, usize)]) -> String {
    let mut text = String::new(rt.alloc());
    for (piece, times) in pieces {
        for _ in 0..*times {
            text.push_str(piece).expect(rt, "memory");
        }
    }
    text
}
