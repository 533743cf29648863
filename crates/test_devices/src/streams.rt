//! Readers and writers that give or take a few bytes at a time, and fail.

use crate::harness::run_over;
use crate::seen::{see, see_bytes};
use bw_shell::{OnError, RunEnd};
use std::io;
use std::io::{ErrorKind, Read, Write};
use std::process::Abort;

const SCRIPT: &[u8] =
    b"CREATE TABLE t (a INTEGER); INSERT INTO t VALUES (3), (NULL), (-1); SELECT a FROM t WHERE a < 3;";

// Gives this many bytes per call, and then fails.
#[derive(Drop)]
pub(crate) struct FailingReader<'a> {
    pub(crate) rest: &'a [u8],
    pub(crate) step: usize,
}

impl Read for FailingReader<'_> {
    fn read(&mut self, buf: &mut [u8]) -> io::Result<usize> {
        let n = self.step.min(self.rest.len()).min(buf.len());
        if n == 0 {
            return Err(io::Error::from(ErrorKind::Other));
        }
        let (front, rest) = self.rest.split_at(n);
        for (to, from) in buf.iter_mut().zip(front) {
            *to = *from;
        }
        self.rest = rest;
        Ok(n)
    }
}

// Takes this many bytes in all, this many per call, and then fails.
#[derive(Drop)]
pub(crate) struct FullWriter {
    pub(crate) taken: Vec<u8>,
    pub(crate) room: usize,
    pub(crate) step: usize,
}

impl Write for FullWriter {
    fn write(&mut self, buf: &[u8]) -> io::Result<usize> {
        let n = self
            .room
            .saturating_sub(self.taken.len())
            .min(self.step)
            .min(buf.len());
        if n == 0 {
            return Ok(0);
        }
        self.taken.extend_from_slice(&buf[..n])?;
        Ok(n)
    }

    fn flush(&mut self) -> io::Result<()> {
        Ok(())
    }
}

// Takes everything, and fails at a later flush.
#[derive(Drop)]
pub(crate) struct UnflushedWriter {
    pub(crate) taken: Vec<u8>,
    pub(crate) flushes_left: usize,
}

impl Write for UnflushedWriter {
    fn write(&mut self, buf: &[u8]) -> io::Result<usize> {
        self.taken.extend_from_slice(buf)?;
        Ok(buf.len())
    }

    fn flush(&mut self) -> io::Result<()> {
        if self.flushes_left == 0 {
            return Err(io::Error::from(ErrorKind::Other));
        }
        self.flushes_left -= 1;
        Ok(())
    }
}

// Checks how a run over what a reader gives ends, and what it writes.
fn check_reader<R: Abort + AllocGlobal, I: Read>(
    rt: &R,
    reader: &mut I,
    on_error: OnError,
    end: RunEnd,
    replies: &[u8],
) {
    let mut output = Vec::new(rt.alloc());
    let found = run_over(rt.alloc(), reader, &mut output, on_error);
    see(rt, found, end);
    see_bytes(rt, &output, replies);
}

#[test]
fn a_writer_that_takes_four_bytes(rt: HostRuntime) {
    for step in 1..5 {
        let mut reader = SCRIPT;
        let mut writer = FullWriter {
            taken: Vec::new(rt.alloc()),
            room: 4,
            step,
        };
        let end = run_over(rt.alloc(), &mut reader, &mut writer, OnError::Continue);
        see(&rt, end, RunEnd::WriteFault);
        see_bytes(&rt, &writer.taken, b"ok\no");
    }
}

#[test]
fn a_reader_that_fails_after_a_cut(rt: HostRuntime) {
    for step in [1, 5, 27] {
        let mut reader = FailingReader {
            rest: b"CREATE TABLE t (a INTEGER);",
            step,
        };
        check_reader(
            &rt,
            &mut reader,
            OnError::Continue,
            RunEnd::ReadFault,
            b"ok\n",
        );
    }
}

#[test]
fn a_reader_that_fails_before_a_cut(rt: HostRuntime) {
    let mut reader = FailingReader {
        rest: b"CREATE TABLE t (a INTEGER); SELECT a FROM t",
        step: 7,
    };
    check_reader(
        &rt,
        &mut reader,
        OnError::Continue,
        RunEnd::ReadFault,
        b"ok\n",
    );
}

#[test]
fn a_stop_at_the_first_error(rt: HostRuntime) {
    let mut reader: &[u8] = b"SELECT a FROM t; CREATE TABLE t (a INT);";
    check_reader(
        &rt,
        &mut reader,
        OnError::Stop,
        RunEnd::Stopped,
        b"error 20: no such table\n",
    );
}

#[test]
fn a_flush_that_fails_after_a_reply(rt: HostRuntime) {
    for (flushes_left, taken, end) in [
        (0, b"ok\n".as_slice(), RunEnd::WriteFault),
        (1, b"ok\nok 3\n".as_slice(), RunEnd::WriteFault),
        (3, b"ok\nok 3\nA\n-1\nrows 1\n".as_slice(), RunEnd::Done),
    ] {
        let mut reader = SCRIPT;
        let mut writer = UnflushedWriter {
            taken: Vec::new(rt.alloc()),
            flushes_left,
        };
        let found = run_over(rt.alloc(), &mut reader, &mut writer, OnError::Continue);
        see(&rt, found, end);
        see_bytes(&rt, &writer.taken, taken);
    }
}
