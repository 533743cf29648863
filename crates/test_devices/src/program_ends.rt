//! The program over the tests' own words and streams: what it reads and writes, its line on standard error, and its
//! exit status.

ghost use Rattle.std.specs.Io.{WritesAtMost};

use crate::seen::see_bytes;
use crate::streams::{FailingReader, FullWriter};
use bw_program::{Ending, Request, WordsFault, end_with, program, request_of};
use bw_shell::{OnError, RunEnd};
use std::env::{Env, FillError};
use std::fs::Files;
use std::io::{Read, Write};
use std::process::{Abort, ExitCode};

// A command line.
#[derive(Drop)]
struct Words<'a> {
    words: &'a [&'a str],
}

impl Env for Words<'_> {
    fn arg(&self, i: usize, buf: &mut [u8]) -> Result<usize, FillError> {
        match self.words.get(i) {
            Some(word) => copied(word, buf),
            None => Err(FillError::NotPresent),
        }
    }

    fn var(&self, _name: &str, _buf: &mut [u8]) -> Result<usize, FillError> {
        Err(FillError::NotPresent)
    }

    fn var_at(&self, _i: usize, _buf: &mut [u8]) -> Result<usize, FillError> {
        Err(FillError::NotPresent)
    }
}

fn copied(word: &str, buf: &mut [u8]) -> Result<usize, FillError>
    ensures { WritesAtMost result buf.new }
{
    if word.len() > buf.len() {
        return Err(FillError::TooLong);
    }
    for (to, from) in buf.iter_mut().zip(word.as_bytes()) {
        *to = *from;
    }
    Ok(word.len())
}

fn check_status<R: Abort + AllocGlobal>(rt: &R, code: ExitCode, status: u8) {
    let found = format!(in rt.alloc(); "{code:?}").expect(rt, "memory");
    let wanted = format!(in rt.alloc(); "ExitCode(unix_exit_status({status}))").expect(
        rt, "memory",
    );
    see_bytes(rt, found.as_bytes(), wanted.as_bytes());
}

// Runs the program with these words after its name, and checks its exit status and its line on standard error.
fn check_end<R: Abort + AllocGlobal + Files, I: Read, O: Write + Drop>(
    rt: &R,
    words: &[&str],
    input: &mut I,
    output: O,
    (status, said): (u8, &str),
) {
    let mut errors = Vec::new(rt.alloc());
    let code = program(rt.alloc(), &Words { words }, rt, input, output, &mut errors);
    check_status(rt, code, status);
    see_bytes(rt, &errors, said.as_bytes());
}

const FAULTY: &[u8] = b"CREATE TABLE t (a INT); SELECT b FROM t; SELECT a FROM t;";

// Runs the program over a script with an error, and checks what it writes, too.
fn check_faulty<R: Abort + AllocGlobal + Files>(
    rt: &R,
    words: &[&str],
    replies: &str,
    end: (u8, &str),
) {
    let mut input = FAULTY;
    let mut output = Vec::new(rt.alloc());
    check_end(rt, words, &mut input, &mut output, end);
    see_bytes(rt, &output, replies.as_bytes());
}

fn asked(script: Option<&str>, on_error: OnError) -> Result<Request<'_>, WordsFault> {
    Ok(Request { script, on_error })
}

#[test]
fn words_that_ask(rt: HostRuntime) {
    for (words, request) in [
        (["bitcol"].as_slice(), asked(None, OnError::Continue)),
        (["bitcol", "--stop"].as_slice(), asked(None, OnError::Stop)),
        (
            ["bitcol", "a"].as_slice(),
            asked(Some("a"), OnError::Continue),
        ),
        (
            ["bitcol", "--stop", "a"].as_slice(),
            asked(Some("a"), OnError::Stop),
        ),
        (
            ["bitcol", "a", "--stop"].as_slice(),
            asked(Some("a"), OnError::Stop),
        ),
        (
            ["bitcol", "--", "--stop"].as_slice(),
            asked(Some("--stop"), OnError::Continue),
        ),
        (
            ["bitcol", "--stop", "--", "--"].as_slice(),
            asked(Some("--"), OnError::Stop),
        ),
        (
            ["bitcol", "-"].as_slice(),
            asked(Some("-"), OnError::Continue),
        ),
    ] {
        assert_eq!(rt; request_of(rt.alloc(), words), request);
    }
}

#[test]
fn words_that_are_refused(rt: HostRuntime) {
    for words in [
        ["bitcol", "--stop", "--stop"].as_slice(),
        ["bitcol", "--help"].as_slice(),
        ["bitcol", "-x"].as_slice(),
        ["bitcol", "--stop=true"].as_slice(),
        ["bitcol", "a", "b"].as_slice(),
        ["bitcol", "a", "--", "b"].as_slice(),
        ["bitcol", "a", "--stopped"].as_slice(),
    ] {
        assert_eq!(rt; request_of(rt.alloc(), words), Err(WordsFault::Usage));
        check_faulty(&rt, words, "", (64, "usage: bitcol [--stop] [SCRIPT]\n"));
    }
}

#[test]
fn ends_of_a_run(rt: HostRuntime) {
    let all = "ok\nerror 22: no such column\nA\nrows 0\n";
    let first = "ok\nerror 22: no such column\n";
    check_faulty(&rt, &["bitcol"], all, (0, ""));
    check_faulty(&rt, &["bitcol", "--stop"], first, (1, ""));
    check_faulty(
        &rt,
        &["bitcol", "no such folder/script.sql"],
        "",
        (2, "bitcol: cannot open the script\n"),
    );
}

#[test]
fn end_of_a_reader_that_fails(rt: HostRuntime) {
    let mut input = FailingReader {
        rest: b"CREATE TABLE t (a INT); SELECT",
        step: 5,
    };
    let mut output = Vec::new(rt.alloc());
    let end = (2, "bitcol: reading failed\n");
    check_end(&rt, &["bitcol"], &mut input, &mut output, end);
    see_bytes(&rt, &output, b"ok\n");
}

#[test]
fn end_of_a_writer_that_fails(rt: HostRuntime) {
    let mut input = FAULTY;
    let mut output = FullWriter {
        taken: Vec::new(rt.alloc()),
        room: 4,
        step: 4,
    };
    let end = (2, "bitcol: writing failed\n");
    check_end(&rt, &["bitcol"], &mut input, &mut output, end);
    see_bytes(&rt, &output.taken, b"ok\ne");
}

#[test]
fn status_and_line_of_each_end(rt: HostRuntime) {
    for (ending, status, said) in [
        (Ending::Ran(RunEnd::Done), 0, ""),
        (Ending::Ran(RunEnd::Stopped), 1, ""),
        (Ending::NotOpened, 2, "bitcol: cannot open the script\n"),
        (
            Ending::Ran(RunEnd::ReadFault),
            2,
            "bitcol: reading failed\n",
        ),
        (
            Ending::Ran(RunEnd::WriteFault),
            2,
            "bitcol: writing failed\n",
        ),
        (Ending::Ran(RunEnd::Memory), 2, "bitcol: out of memory\n"),
        (
            Ending::NotAsked(WordsFault::Memory),
            2,
            "bitcol: out of memory\n",
        ),
        (
            Ending::NotAsked(WordsFault::Usage),
            64,
            "usage: bitcol [--stop] [SCRIPT]\n",
        ),
    ] {
        let mut errors = Vec::new(rt.alloc());
        check_status(&rt, end_with(&mut errors, ending), status);
        see_bytes(&rt, &errors, said.as_bytes());
    }
}
