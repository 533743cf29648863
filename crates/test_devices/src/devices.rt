//! Devices that fail: each read, write, flush and call of a folder in turn, over scripts with files.

ghost use Rattle.std.specs.Prelude.{◌≡◌, ◌<◌, ◌≤◌, ◌^◌};
ghost use Rattle.bw_shell.specs.Folders.{IsWriteFault, failures_after};

use crate::harness::{File, folder_of};
use crate::seen::{see, see_bytes};
use crate::streams::{FailingReader, FullWriter, UnflushedWriter};
use bw_engine::FILE_LIMIT;
use bw_shell::{Folder, FolderFault, HostFolder, MemoryFolder, OnError, RunEnd, run};
use std::fs::{self, Files};
use std::io::{Read, Write};
use std::process::Abort;

// The table of one column A, an INTEGER, of three rows: 3, NULL, -1, in layout V and of kind OFFSET.
const SAVED: [u8; 32] = [
    0x42, 0x49, 0x54, 0x43, 0x4f, 0x4c, 0x02, 0x00, 0x01, 0x00, 0x03, 0x00, 0x00, 0x00, 0x01, 0x41,
    0x00, 0x01, 0x00, 0x05, 0xff, 0xff, 0xff, 0xff, 0xff, 0xff, 0xff, 0xff, 0x03, 0x01, 0x00, 0x00,
];

/// A statement with its `;`, and its reply.
pub(crate) type Answered = (&'static str, &'static str);

const LOADED: &[u8] = b"\xEF\xBB\xBF\"7\",\r\nnull,-2\r\n+5,08\r\n";

pub(crate) const LOADING: [Answered; 3] = [
    ("CREATE TABLE t (a INT, b INT);", "ok\n"),
    ("LOAD t FROM 'f';", "ok 3\n"),
    ("SELECT * FROM t;", "A,B\n7,NULL\nNULL,-2\n5,8\nrows 3\n"),
];

pub(crate) const SAVING: [Answered; 6] = [
    ("CREATE TABLE t (a INTEGER);", "ok\n"),
    ("INSERT INTO t VALUES (3), (NULL), (-1);", "ok 3\n"),
    ("SAVE t TO 'g';", "ok 3\n"),
    ("OPEN u FROM 'g';", "ok 3\n"),
    ("SELECT a FROM u;", "A\n3\nNULL\n-1\nrows 3\n"),
    ("TABLES;", "TABLE,COLUMNS,ROWS\nT,1,3\nU,1,3\nrows 2\n"),
];

/// The number of replies of the script before that of SAVE.
const BEFORE_SAVE: usize = 2;

pub(crate) fn files() -> [File<'static>; 1] {
    [("f", LOADED)]
}

/// The statements of a script, concatenated.
pub(crate) fn script_of<R: Abort + AllocGlobal>(rt: &R, script: &[Answered]) -> String {
    let mut text = String::new(rt.alloc());
    for (statement, _) in script {
        text.push_str(statement).expect(rt, "memory");
    }
    text
}

/// The replies to this many statements, concatenated.
pub(crate) fn replies_of<R: Abort + AllocGlobal>(
    rt: &R,
    script: &[Answered],
    count: usize,
) -> String {
    let mut text = String::new(rt.alloc());
    for (_, reply) in script.iter().take(count) {
        text.push_str(reply).expect(rt, "memory");
    }
    text
}

/// The number of statements that are complete within this many bytes of the script.
pub(crate) fn closed_in(script: &[Answered], bytes: usize) -> usize {
    let mut end: usize = 0;
    let mut count: usize = 0;
    for (statement, _) in script {
        end = end.wrapping_add(statement.len());
        if end <= bytes {
            count = count.wrapping_add(1);
        }
    }
    count
}

/// Runs a script that goes on after errors.
pub(crate) fn run_all<R: AllocGlobal, I: Read, O: Write, F: Folder>(
    rt: &R,
    reader: &mut I,
    writer: &mut O,
    folder: &mut F,
) -> RunEnd
    requires { F.failure_count folder.old ≤ 2 ^ 62 }
{
    run(rt.alloc(), reader, writer, folder, OnError::Continue)
}

// After any number of bytes, given any number at a time, the reader fails: the statements closed by then are answered.
#[test]
fn each_read_fails(rt: HostRuntime) {
    check_reads(&rt, &LOADING);
    check_reads(&rt, &SAVING);
}

fn check_reads<R: Abort + AllocGlobal>(rt: &R, script: &[Answered]) {
    let text = script_of(rt, script);
    let bytes = text.as_bytes();
    for given in 0..bytes.len() + 1 {
        let replies = replies_of(rt, script, closed_in(script, given));
        for step in 1..given + 2 {
            let rest = &bytes[..given];
            check_read(rt, FailingReader { rest, step }, replies.as_bytes());
        }
    }
}

/// Checks what was written if the reader fails.
fn check_read<R: Abort + AllocGlobal>(rt: &R, mut reader: FailingReader<'_>, replies: &[u8]) {
    let mut output = Vec::new(rt.alloc());
    let mut folder = folder_of(rt, &files());
    let end = run_all(rt, &mut reader, &mut output, &mut folder);
    see(rt, end, RunEnd::ReadFault);
    see_bytes(rt, &output, replies);
}

// After any number of bytes, taken any number at a time, the writer takes no more: what it took is a prefix of the
// replies, and the table is saved if the reply to SAVE was begun.
#[test]
fn each_write_fails(rt: HostRuntime) {
    check_writes(&rt, &LOADING);
    check_writes(&rt, &SAVING);
}

fn check_writes<R: Abort + AllocGlobal>(rt: &R, script: &[Answered]) {
    let text = script_of(rt, script);
    let replies = replies_of(rt, script, script.len());
    let all = replies.as_bytes();
    let before = replies_of(rt, script, BEFORE_SAVE);
    let is_saving = script.len() == SAVING.len();
    for room in 0..all.len() {
        let is_saved = is_saving && room >= before.len();
        for step in 1..room + 2 {
            check_write(rt, text.as_bytes(), (room, step), &all[..room], is_saved);
        }
    }
}

/// Checks what was written, and whether the table is saved, if the writer takes this many bytes, this many at a time.
fn check_write<R: Abort + AllocGlobal>(
    rt: &R,
    mut script: &[u8],
    (room, step): (usize, usize),
    replies: &[u8],
    is_saved: bool,
) {
    let taken = Vec::new(rt.alloc());
    let mut writer = FullWriter { taken, room, step };
    let mut folder = folder_of(rt, &files());
    let end = run_all(rt, &mut script, &mut writer, &mut folder);
    see(rt, end, RunEnd::WriteFault);
    see_bytes(rt, &writer.taken, replies);
    check_saved(rt, folder, is_saved);
}

// Checks that the table is saved in this folder, or that there is no such file.
fn check_saved<R: Abort>(rt: &R, mut folder: MemoryFolder, is_saved: bool) {
    match folder.read("g", 1000) {
        Ok(bytes) => {
            see(rt, is_saved, true);
            see_bytes(rt, &bytes, &SAVED);
        }
        Err(fault) => see(rt, (is_saved, fault), (false, FolderFault::Missing)),
    }
}

// The flush after any reply fails: the replies up to it are written.
#[test]
fn each_flush_fails(rt: HostRuntime) {
    check_flushes(&rt, &LOADING);
    check_flushes(&rt, &SAVING);
}

fn check_flushes<R: Abort + AllocGlobal>(rt: &R, script: &[Answered]) {
    let text = script_of(rt, script);
    let is_saving = script.len() == SAVING.len();
    for flushes_left in 0..script.len() {
        let replies = replies_of(rt, script, flushes_left + 1);
        let is_saved = is_saving && flushes_left >= BEFORE_SAVE;
        check_flush(
            rt,
            text.as_bytes(),
            flushes_left,
            replies.as_bytes(),
            is_saved,
        );
    }
}

/// Checks what was written, and whether the table is saved, if the flush after this many fails.
fn check_flush<R: Abort + AllocGlobal>(
    rt: &R,
    mut script: &[u8],
    flushes_left: usize,
    replies: &[u8],
    is_saved: bool,
) {
    let taken = Vec::new(rt.alloc());
    let mut writer = UnflushedWriter {
        taken,
        flushes_left,
    };
    let mut folder = folder_of(rt, &files());
    let end = run_all(rt, &mut script, &mut writer, &mut folder);
    see(rt, end, RunEnd::WriteFault);
    see_bytes(rt, &writer.taken, replies);
    check_saved(rt, folder, is_saved);
}

// A folder in memory of which one call, counted from 1, returns a fault and does nothing. Its files are not known to
// contracts.
#[derive(Drop)]
struct FailingFolder {
    folder: MemoryFolder,
    calls_left: u32,
    fault: FolderFault,
    failures: u64,
}

impl FailingFolder {
    // Whether this is the call that fails.
    fn fails_now(&mut self) -> bool
        ensures { self.new.failures ≡ self.old.failures }
    {
        let is_now = self.calls_left == 1;
        self.calls_left = self.calls_left.saturating_sub(1);
        is_now
    }
}

impl Folder for FailingFolder {
    ghost failure_count = { λ folder. folder.failures };

    fn read(&mut self, name: &str, limit: usize) -> Result<Vec<u8>, FolderFault> {
        let answer = if self.fails_now() {
            Err(self.fault)
        } else {
            self.folder.read(name, limit)
        };
        count_failure(&mut self.failures, &answer);
        answer
    }

    fn write(&mut self, name: &str, bytes: &[u8]) -> Result<(), FolderFault> {
        let answer = if self.fails_now() {
            Err(fault_at_writing(self.fault))
        } else {
            self.folder.write(name, bytes)
        };
        count_failure(&mut self.failures, &answer);
        answer
    }

    fn failures(&self) -> u64 {
        self.failures
    }
}

// A write is never too large, and needs no existing file.
fn fault_at_writing(fault: FolderFault) -> FolderFault
    ensures { IsWriteFault result }
{
    match fault {
        FolderFault::Memory => FolderFault::Memory,
        _ => FolderFault::Failed,
    }
}

// Counts the result if it is `Failed`.
fn count_failure<T>(failures: &mut u64, answer: &Result<T, FolderFault>)
    requires { failures.old < 2 ^ 63 }
    ensures { failures.new ≡ failures_after answer.now failures.old }
{
    if let Err(FolderFault::Failed) = answer {
        *failures += 1;
    }
}

/// A folder whose call of this number returns a fault.
fn failing_folder<R: Abort + AllocGlobal>(
    rt: &R,
    calls_left: u32,
    fault: FolderFault,
) -> FailingFolder
    ensures { result.failures ≡ 0 }
{
    FailingFolder {
        folder: folder_of(rt, &files()),
        calls_left,
        fault,
        failures: 0,
    }
}

// Checks the replies to a script, and how it ends, if this call of the folder returns a fault.
fn check_folder<R: Abort + AllocGlobal>(
    rt: &R,
    (call, fault): (u32, FolderFault),
    script: &str,
    replies: &str,
) {
    let mut folder = failing_folder(rt, call, fault);
    let mut output = Vec::new(rt.alloc());
    let mut reader = script.as_bytes();
    let end = run_all(rt, &mut reader, &mut output, &mut folder);
    let failures = u64::from(fault == FolderFault::Failed);
    see(rt, (end, folder.failures()), (RunEnd::Done, failures));
    see_bytes(rt, &output, replies.as_bytes());
}

const LOADS: &str =
    "CREATE TABLE t (a INT, b INT); LOAD t FROM 'f'; SELECT * FROM t; LOAD t FROM 'f';";

const SAVES: &str =
    "CREATE TABLE t (a INT); INSERT INTO t VALUES (3), (NULL), (-1); SAVE t TO 'g'; OPEN u FROM 'g'; \
     SELECT a FROM u; TABLES; SAVE t TO 'g';";

// The state is as if the statement hadn't been run, and the next one over the same file is answered.
#[test]
fn each_call_of_a_folder_fails(rt: HostRuntime) {
    let failed = FolderFault::Failed;
    check_folder(
        &rt,
        (1, failed),
        LOADS,
        "ok\nerror 40: file cannot be read\nA,B\nrows 0\nok 3\n",
    );
    check_folder(
        &rt,
        (1, failed),
        SAVES,
        "ok\nok 3\nerror 41: file cannot be written\nerror 40: file cannot be read\nerror 20: no such table\n\
         TABLE,COLUMNS,ROWS\nT,1,3\nrows 1\nok 3\n",
    );
    check_folder(
        &rt,
        (2, failed),
        SAVES,
        "ok\nok 3\nok 3\nerror 40: file cannot be read\nerror 20: no such table\nTABLE,COLUMNS,ROWS\nT,1,3\nrows 1\nok 3\n",
    );
    check_folder(
        &rt,
        (3, failed),
        SAVES,
        "ok\nok 3\nok 3\nok 3\nA\n3\nNULL\n-1\nrows 3\nTABLE,COLUMNS,ROWS\nT,1,3\nU,1,3\nrows 2\n\
         error 41: file cannot be written\n",
    );
}

#[test]
fn a_folder_whose_file_is_too_large(rt: HostRuntime) {
    let large = FolderFault::TooLarge;
    check_folder(
        &rt,
        (1, large),
        LOADS,
        "ok\nerror 46: file too large\nA,B\nrows 0\nok 3\n",
    );
    check_folder(
        &rt,
        (2, large),
        SAVES,
        "ok\nok 3\nok 3\nerror 46: file too large\nerror 20: no such table\nTABLE,COLUMNS,ROWS\nT,1,3\nrows 1\nok 3\n",
    );
}

#[test]
fn a_folder_without_memory(rt: HostRuntime) {
    let memory = FolderFault::Memory;
    check_folder(
        &rt,
        (1, memory),
        LOADS,
        "ok\nerror 90: out of memory\nA,B\nrows 0\nok 3\n",
    );
    check_folder(
        &rt,
        (1, memory),
        SAVES,
        "ok\nok 3\nerror 90: out of memory\nerror 40: file cannot be read\nerror 20: no such table\n\
         TABLE,COLUMNS,ROWS\nT,1,3\nrows 1\nok 3\n",
    );
    check_folder(
        &rt,
        (2, memory),
        SAVES,
        "ok\nok 3\nok 3\nerror 90: out of memory\nerror 20: no such table\nTABLE,COLUMNS,ROWS\nT,1,3\nrows 1\nok 3\n",
    );
}

#[test]
fn a_stop_where_a_folder_fails(rt: HostRuntime) {
    let mut folder = failing_folder(&rt, 1, FolderFault::Failed);
    let mut reader = LOADS.as_bytes();
    let mut output = Vec::new(rt.alloc());
    let end = run(
        rt.alloc(),
        &mut reader,
        &mut output,
        &mut folder,
        OnError::Stop,
    );
    see(&rt, end, RunEnd::Stopped);
    see_bytes(&rt, &output, b"ok\nerror 40: file cannot be read\n");
}

// The result of one read from a folder of the host, and its number of failures after it.
fn host_read<R: AllocGlobal + Files>(
    rt: &R,
    name: &str,
    limit: usize,
) -> (Result<Vec<u8>, FolderFault>, u64) {
    let mut folder = HostFolder::new(rt.alloc(), rt);
    let answer = folder.read(name, limit);
    (answer, folder.failures())
}

// The fault of one read from a folder of the host, if any, and its number of failures after it.
fn host_fault<R: AllocGlobal + Files>(
    rt: &R,
    name: &str,
    limit: usize,
) -> (Option<FolderFault>, u64) {
    let (answer, failures) = host_read(rt, name, limit);
    (answer.err(), failures)
}

// The fault of one write to a folder of the host, if any, and its number of failures after it.
fn host_write<R: AllocGlobal + Files>(
    rt: &R,
    name: &str,
    bytes: &[u8],
) -> (Option<FolderFault>, u64) {
    let mut folder = HostFolder::new(rt.alloc(), rt);
    let answer = folder.write(name, bytes);
    (answer.err(), folder.failures())
}

#[test]
fn files_of_the_host(rt: HostRuntime) {
    let name = "bitcol test file";
    see(&rt, host_write(&rt, name, b"a longer text"), (None, 0));
    see(&rt, host_write(&rt, name, b"abc"), (None, 0));
    let (answer, failures) = host_read(&rt, name, 3);
    see_bytes(&rt, &answer.expect(&rt, "a file"), b"abc");
    see(&rt, failures, 0);
    see(
        &rt,
        host_fault(&rt, name, 2),
        (Some(FolderFault::TooLarge), 0),
    );
    fs::remove_file(&rt, name).expect(&rt, "the file is gone");
    see(
        &rt,
        host_fault(&rt, name, 3),
        (Some(FolderFault::Missing), 0),
    );
}

// A folder isn't a file, and a file in a folder that doesn't exist can't be created.
#[test]
fn places_of_the_host_without_a_file(rt: HostRuntime) {
    let (missing, failed) = (Some(FolderFault::Missing), Some(FolderFault::Failed));
    see(&rt, host_fault(&rt, "no such folder/f", 3), (missing, 0));
    see(
        &rt,
        host_write(&rt, "no such folder/f", b"abc"),
        (failed, 1),
    );
    see(&rt, host_fault(&rt, ".", FILE_LIMIT), (failed, 1));
    see(&rt, host_write(&rt, ".", b"abc"), (failed, 1));
}
