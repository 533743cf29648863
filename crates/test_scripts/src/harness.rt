//! Runs a script over bytes in memory, and by the plain program. If memory runs out, the test fails.

use crate::contents::content_for;
use crate::seen::{see_at, see_bytes};
use bw_engine::FILE_LIMIT;
use bw_model::{Refusal, Reply, Store, reply_text, step};
use bw_shell::{Folder, MemoryFolder, OnError, RunEnd, run};
use bw_sql::{LONGEST_STATEMENT, Statement, parts, statement};
use std::alloc::Global;
use std::io::{Read, Write};
use std::ops::Range;
use std::process::Abort;

/// A script and the replies to it.
pub(crate) type Example = (&'static str, &'static str);

/// A file: its name and its bytes.
pub(crate) type File<'a> = (&'a str, &'a [u8]);

/// A folder with these files.
pub(crate) fn folder_of<R: Abort + AllocGlobal>(rt: &R, files: &[File<'_>]) -> MemoryFolder {
    let mut folder = MemoryFolder::new(rt.alloc());
    for (name, bytes) in files {
        folder.write(name, bytes).expect(rt, "memory");
    }
    folder
}

/// Runs what a reader gives over an empty folder.
pub(crate) fn run_over<I: Read, O: Write>(
    alloc: Global,
    reader: &mut I,
    writer: &mut O,
    on_error: OnError,
) -> RunEnd {
    let mut folder = MemoryFolder::new(alloc);
    run(alloc, reader, writer, &mut folder, on_error)
}

/// The statement of a text.
pub(crate) fn statement_in<R: Abort + AllocGlobal>(rt: &R, text: &str) -> Statement {
    statement(rt.alloc(), text.as_bytes()).expect(rt, text)
}

/// The output of the plain program for a script: its step for each statement, over lists of rows. Files are read from
/// this folder and not written to it.
fn plain_output<R: Abort + AllocGlobal>(
    rt: &R,
    folder: &mut MemoryFolder,
    script: &[u8],
) -> Vec<u8> {
    let mut store = Store::new(rt.alloc());
    let mut output = Vec::new(rt.alloc());
    let parts = parts(rt.alloc(), script).expect(rt, "memory");
    for part in &parts {
        let text = script
            .get(part.span.start..part.span.end)
            .expect(rt, "a part of the script");
        let reply = plain_reply(rt, &mut store, folder, text, part.is_closed);
        let mut text = reply_text(rt.alloc(), &reply).expect(rt, "memory");
        output.append(&mut text).expect(rt, "memory");
    }
    output
}

fn plain_reply<R: Abort + AllocGlobal>(
    rt: &R,
    store: &mut Store,
    folder: &mut MemoryFolder,
    text: &[u8],
    is_closed: bool,
) -> Reply {
    if text.len() > LONGEST_STATEMENT {
        return Reply::Refused(Refusal::StatementTooLong);
    }
    if !is_closed {
        return Reply::Refused(Refusal::Syntax);
    }
    match statement(rt.alloc(), text) {
        Ok(statement) => step_over(rt, store, folder, &statement),
        Err(fault) => Reply::Refused(Refusal::from(fault)),
    }
}

/// The plain program's step for a statement, whose file is read from this folder.
fn step_over<R: Abort + AllocGlobal>(
    rt: &R,
    store: &mut Store,
    folder: &mut MemoryFolder,
    statement: &Statement,
) -> Reply {
    let content = content_for(rt, folder, store, statement);
    step(rt.alloc(), store, &content, statement).expect(rt, "memory")
}

/// Checks that a script gets these replies, from the run and from the plain program.
pub(crate) fn check_script<R: Abort + AllocGlobal>(rt: &R, script: &str, replies: &str) {
    check_files(rt, &[], script, replies);
}

/// Checks that a script gets these replies from the run. The plain program has no slots, so it can't count what is
/// read.
pub(crate) fn check_counts<R: Abort + AllocGlobal>(rt: &R, script: &str, replies: &str) {
    check_run(rt, &mut folder_of(rt, &[]), script, replies);
}

/// Checks that a script gets these replies over a folder with these files, from the run and from the plain program, and
/// returns the folder that the run left. The plain program reads that folder, so a script must not read a file before
/// it writes it, or write one twice.
pub(crate) fn check_files<R: Abort + AllocGlobal>(
    rt: &R,
    files: &[File<'_>],
    script: &str,
    replies: &str,
) -> MemoryFolder {
    let mut folder = folder_of(rt, files);
    check_run(rt, &mut folder, script, replies);
    check_plain(rt, &mut folder, script, replies);
    folder
}

fn check_run<R: Abort + AllocGlobal>(
    rt: &R,
    folder: &mut MemoryFolder,
    script: &str,
    replies: &str,
) {
    let mut reader = script.as_bytes();
    let mut output = Vec::new(rt.alloc());
    let end = run(
        rt.alloc(),
        &mut reader,
        &mut output,
        folder,
        OnError::Continue,
    );
    see_at(rt, script, end, RunEnd::Done);
    see_replies(rt, &output, script, replies);
}

fn check_plain<R: Abort + AllocGlobal>(
    rt: &R,
    folder: &mut MemoryFolder,
    script: &str,
    replies: &str,
) {
    let output = plain_output(rt, folder, script.as_bytes());
    see_replies(rt, &output, script, replies);
}

/// Checks that these are the replies to a script.
fn see_replies<R: Abort>(rt: &R, output: &[u8], script: &str, replies: &str) {
    assert_eq!(rt; output, replies.as_bytes(), "{script}");
}

/// Checks the bytes of a file in a folder.
pub(crate) fn check_file<R: Abort + AllocGlobal>(
    rt: &R,
    folder: &mut MemoryFolder,
    file: File<'_>,
) {
    let (name, bytes) = file;
    let found = folder.read(name, FILE_LIMIT).expect(rt, "a file");
    see_bytes(rt, &found, bytes);
}

/// Checks that each script gets its replies.
pub(crate) fn check_examples<R: Abort + AllocGlobal>(rt: &R, examples: &[Example]) {
    for (script, replies) in examples {
        check_script(rt, script, replies);
    }
}

/// Checks that a script, made of pieces repeated the given numbers of times, gets these replies.
pub(crate) fn check_pieces<R: Abort + AllocGlobal>(
    rt: &R,
    pieces: &[(&str, usize)],
    replies: &str,
) {
    let script = joined(rt, pieces);
    check_script(rt, script.as_str(), replies);
}

/// The layouts and kinds of a column.
const LAYINGS: [&str; 8] = [
    "USING P OFFSET",
    "USING V OFFSET",
    "USING H OFFSET",
    "USING S OFFSET",
    "USING P DICTIONARY",
    "USING V DICTIONARY",
    "USING H DICTIONARY",
    "USING S DICTIONARY",
];

/// The layouts and kinds of a BIGINT column.
const BIGINT_LAYINGS: [&str; 6] = [
    "USING P OFFSET",
    "USING V OFFSET",
    "USING S OFFSET",
    "USING P DICTIONARY",
    "USING V DICTIONARY",
    "USING S DICTIONARY",
];

/// Checks that a script gets these replies with each layout and kind in place of `{using}`.
pub(crate) fn check_layings<R: Abort + AllocGlobal>(rt: &R, script: &str, replies: &str) {
    check_each_laying(rt, &LAYINGS, script, replies);
}

/// The same for columns that may be BIGINT, which layout H doesn't hold.
pub(crate) fn check_bigint_layings<R: Abort + AllocGlobal>(rt: &R, script: &str, replies: &str) {
    check_each_laying(rt, &BIGINT_LAYINGS, script, replies);
}

fn check_each_laying<R: Abort + AllocGlobal>(
    rt: &R,
    layings: &[&str],
    script: &str,
    replies: &str,
) {
    for laying in layings {
        let laid = script
            .replace(rt.alloc(), "{using}", laying)
            .expect(rt, "memory");
        check_script(rt, laid.as_str(), replies);
    }
}

/// Concatenates pieces, each repeated the given number of times.
pub(crate) fn joined<R: Abort + AllocGlobal>(rt: &R, pieces: &[(&str, usize)]) -> String {
    let mut text = String::new(rt.alloc());
    for (piece, times) in pieces {
        for _ in 0..*times {
            text.push_str(piece).expect(rt, "memory");
        }
    }
    text
}

/// Each number between two texts, one after the other.
pub(crate) fn numbered<R: Abort + AllocGlobal>(
    rt: &R,
    before: &str,
    numbers: Range<u32>,
    after: &str,
) -> String {
    let mut text = String::new(rt.alloc());
    for number in numbers {
        let piece = format!(in rt.alloc(); "{before}{number}{after}").expect(rt, "memory");
        text.push_str(piece.as_str()).expect(rt, "memory");
    }
    text
}
