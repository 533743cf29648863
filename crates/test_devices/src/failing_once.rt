//! Devices of which one call fails, and which work before and after it: the failed call ends the run, and its device
//! isn't called again.

ghost use Rattle.std.specs.Prelude.{IfOk, ◌≡◌};

use crate::devices::{Answered, LOADING, SAVING, closed_in, files, replies_of, run_all, script_of};
use crate::harness::{folder_of, run_over};
use crate::seen::{see, see_at, see_bytes};
use bw_shell::{OnError, RunEnd};
use std::io;
use std::io::{ErrorKind, Read, Write};
use std::process::Abort;

/// How a call fails: with an error, or because no byte was given or taken.
#[derive(Clone, Copy, Debug, PartialEq, Eq)]
enum Failure {
    Error,
    Nothing,
}

impl Failure {
    /// The result of the failing call.
    fn answer(self) -> io::Result<usize>
        ensures { IfOk result (λ n. n ≡ 0) }
    {
        match self {
            Failure::Error => Err(io::Error::from(ErrorKind::Other)),
            Failure::Nothing => Ok(0),
        }
    }
}

/// The calls of a device: the number made, and which one fails, counted from 1.
#[derive(Clone, Copy)]
struct Calls {
    made: usize,
    failing: usize,
}

impl Calls {
    fn with_failing(failing: usize) -> Calls {
        Calls { made: 0, failing }
    }

    /// Counts a call, and returns whether it is the one that fails.
    fn fails_now(&mut self) -> bool {
        self.made = self.made.wrapping_add(1);
        self.made == self.failing
    }
}

/// Gives at most this many bytes per call.
#[derive(Drop)]
struct OnceReader<'a> {
    rest: &'a [u8],
    step: usize,
    calls: Calls,
    failure: Failure,
}

impl Read for OnceReader<'_> {
    fn read(&mut self, buf: &mut [u8]) -> io::Result<usize> {
        if self.calls.fails_now() {
            return self.failure.answer();
        }
        let n = self.step.min(self.rest.len()).min(buf.len());
        let (front, rest) = self.rest.split_at(n);
        for (to, from) in buf.iter_mut().zip(front) {
            *to = *from;
        }
        self.rest = rest;
        Ok(n)
    }
}

/// Takes at most this many bytes per call.
#[derive(Drop)]
struct OnceWriter {
    taken: Vec<u8>,
    step: usize,
    writes: Calls,
    flushes: Calls,
    failure: Failure,
}

impl Write for OnceWriter {
    fn write(&mut self, buf: &[u8]) -> io::Result<usize> {
        if self.writes.fails_now() {
            return self.failure.answer();
        }
        let n = self.step.min(buf.len());
        self.taken.extend_from_slice(&buf[..n])?;
        Ok(n)
    }

    fn flush(&mut self) -> io::Result<()> {
        if self.flushes.fails_now() {
            return Err(io::Error::from(ErrorKind::Other));
        }
        Ok(())
    }
}

/// The end of a run whose reader fails like this, and its reply after the statements that were closed before: if the
/// script ends too early, its rest isn't closed.
fn end_of_read(failure: Failure, is_whole: bool) -> (RunEnd, &'static str) {
    match failure {
        Failure::Error => (RunEnd::ReadFault, ""),
        Failure::Nothing if is_whole => (RunEnd::Done, ""),
        Failure::Nothing => (RunEnd::Done, "error 10: syntax error\n"),
    }
}

/// The length in bytes of the statements that are complete within this many bytes of a script.
fn closed_bytes(script: &[Answered], bytes: usize) -> usize {
    let mut end: usize = 0;
    for (statement, _) in script.iter().take(closed_in(script, bytes)) {
        end = end.wrapping_add(statement.len());
    }
    end
}

/// Runs a script over a reader whose call of this number fails, and checks the replies and that the reader isn't called
/// again.
fn check_read<R: Abort + AllocGlobal>(
    rt: &R,
    script: &[Answered],
    failing: usize,
    step: usize,
    failure: Failure,
) {
    let text = script_of(rt, script);
    let given = failing
        .saturating_sub(1)
        .saturating_mul(step)
        .min(text.len());
    let (end, last) = end_of_read(failure, closed_bytes(script, given) == given);
    let mut replies = replies_of(rt, script, closed_in(script, given));
    replies.push_str(last).expect(rt, "memory");
    let mut reader = OnceReader {
        rest: text.as_bytes(),
        step,
        calls: Calls::with_failing(failing),
        failure,
    };
    let mut output = Vec::new(rt.alloc());
    let mut folder = folder_of(rt, &files());
    let found = run_all(rt, &mut reader, &mut output, &mut folder);
    see_at(
        rt,
        (failing, step),
        (found, reader.calls.made),
        (end, failing),
    );
    see_bytes(rt, &output, replies.as_bytes());
}

/// Fails each read of a script in turn, including the last one, which finds its end.
fn check_reads<R: Abort + AllocGlobal>(rt: &R, script: &[Answered], step: usize) {
    let length = script_of(rt, script).len();
    for read in 0..length.div_ceil(step.max(1)).saturating_add(1) {
        check_read(rt, script, read.saturating_add(1), step, Failure::Error);
        check_read(rt, script, read.saturating_add(1), step, Failure::Nothing);
    }
}

#[test]
fn a_read_that_fails_is_the_last(rt: HostRuntime) {
    for step in [1, 7, 1000] {
        check_reads(&rt, &LOADING, step);
        check_reads(&rt, &SAVING, step);
    }
}

/// Runs a script over a writer of which one write and one flush fail, each counted from 1, or 0 for none. Returns how
/// the run ended, and the writer.
fn written<R: Abort + AllocGlobal>(
    rt: &R,
    script: &[Answered],
    (write, flush): (usize, usize),
    step: usize,
    failure: Failure,
) -> (RunEnd, OnceWriter) {
    let text = script_of(rt, script);
    let mut reader = text.as_bytes();
    let mut writer = OnceWriter {
        taken: Vec::new(rt.alloc()),
        step,
        writes: Calls::with_failing(write),
        flushes: Calls::with_failing(flush),
        failure,
    };
    let mut folder = folder_of(rt, &files());
    let end = run_all(rt, &mut reader, &mut writer, &mut folder);
    (end, writer)
}

/// Checks that the bytes are a prefix of all replies to a script.
fn see_prefix<R: Abort + AllocGlobal>(rt: &R, taken: &[u8], script: &[Answered]) {
    let replies = replies_of(rt, script, script.len());
    assert!(rt; taken.len() < replies.len());
    see_bytes(rt, taken, &replies.as_bytes()[..taken.len()]);
}

/// Fails each write of a script in turn, and checks that it is the last one, and that no flush follows it.
fn check_writes<R: Abort + AllocGlobal>(
    rt: &R,
    script: &[Answered],
    step: usize,
    failure: Failure,
) {
    let (_, whole) = written(rt, script, (0, 0), step, failure);
    for write in 0..whole.writes.made {
        let failing = write.saturating_add(1);
        let (end, writer) = written(rt, script, (failing, 0), step, failure);
        see_at(
            rt,
            (failing, step),
            (end, writer.writes.made),
            (RunEnd::WriteFault, failing),
        );
        assert!(rt; writer.flushes.made < whole.flushes.made);
        see_prefix(rt, &writer.taken, script);
    }
}

#[test]
fn a_write_that_fails_is_the_last(rt: HostRuntime) {
    for step in [1, 3, 1000] {
        for failure in [Failure::Error, Failure::Nothing] {
            check_writes(&rt, &LOADING, step, failure);
            check_writes(&rt, &SAVING, step, failure);
        }
    }
}

/// Fails each flush of a script in turn, and checks that it is the last one, and that no write follows it.
fn check_flushes<R: Abort + AllocGlobal>(rt: &R, script: &[Answered]) {
    for flush in 0..script.len() {
        let failing = flush.saturating_add(1);
        let (end, writer) = written(rt, script, (0, failing), 1000, Failure::Error);
        see_at(
            rt,
            failing,
            (end, writer.flushes.made),
            (RunEnd::WriteFault, failing),
        );
        let replies = replies_of(rt, script, failing);
        see_bytes(rt, &writer.taken, replies.as_bytes());
    }
}

#[test]
fn a_flush_that_fails_is_the_last(rt: HostRuntime) {
    check_flushes(&rt, &LOADING);
    check_flushes(&rt, &SAVING);
}

// The first statement has 16 bytes, given one at a time.
#[test]
fn nothing_is_read_after_a_stop(rt: HostRuntime) {
    let mut reader = OnceReader {
        rest: b"SELECT a FROM t;CREATE TABLE t (a INT);",
        step: 1,
        calls: Calls::with_failing(0),
        failure: Failure::Error,
    };
    let mut output = Vec::new(rt.alloc());
    let end = run_over(rt.alloc(), &mut reader, &mut output, OnError::Stop);
    see(&rt, (end, reader.calls.made), (RunEnd::Stopped, 16));
    see_bytes(&rt, &output, b"error 20: no such table\n");
}
