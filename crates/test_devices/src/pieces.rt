//! Scripts that come in pieces: the replies don't depend on how they are cut, and each statement is answered before
//! more is read.

use crate::harness::{Example, joined, run_over};
use crate::seen::{see, see_bytes};
use bw_shell::{OnError, RunEnd};
use std::cell::Cell;
use std::io;
use std::io::{Read, Write};
use std::process::Abort;

/// Scripts with cuts, texts, comments and signs, and their replies.
const SCRIPTS: [Example; 6] = [
    (
        "CREATE TABLE t (a INTEGER); -- one; two\nSAVE t TO 'x;y';;SELECT a FROM t",
        "ok\nok 0\nerror 10: syntax error\n",
    ),
    ("--;\n;TABLES;", "TABLE,COLUMNS,ROWS\nrows 0\n"),
    (
        "CREATE TABLE t (a INT)--;\n; INSERT INTO t VALUES (- 5), (--;\n6); SELECT a FROM t;",
        "ok\nok 2\nA\n-5\n6\nrows 2\n",
    ),
    (
        "SELECT 'it''s; one'; CREATE TABLE t (a INT); SAVE t TO 'it''s;';- ; -;",
        "error 10: syntax error\nok\nok 0\nerror 10: syntax error\nerror 10: syntax error\n",
    ),
    (
        "TABLES; SELECT 'not closed; SELECT",
        "TABLE,COLUMNS,ROWS\nrows 0\nerror 10: syntax error\n",
    ),
    (" \t\r\n;; -- nothing; here", ""),
];

// Gives one byte per call.
#[derive(Drop)]
struct SingleBytes<'a> {
    rest: &'a [u8],
}

impl Read for SingleBytes<'_> {
    fn read(&mut self, buf: &mut [u8]) -> io::Result<usize> {
        let ([first, rest @ ..], [to, ..]) = (self.rest, buf) else {
            return Ok(0);
        };
        *to = *first;
        self.rest = rest;
        Ok(1)
    }
}

// Gives a script in two pieces.
#[derive(Drop)]
struct TwoPieces<'a> {
    front: &'a [u8],
    back: &'a [u8],
}

impl Read for TwoPieces<'_> {
    fn read(&mut self, buf: &mut [u8]) -> io::Result<usize> {
        if self.front.is_empty() {
            self.back.read(buf)
        } else {
            self.front.read(buf)
        }
    }
}

fn check_reader<R: Abort + AllocGlobal, I: Read>(rt: &R, reader: &mut I, replies: &str) {
    let mut output = Vec::new(rt.alloc());
    let end = run_over(rt.alloc(), reader, &mut output, OnError::Continue);
    see(rt, end, RunEnd::Done);
    see_bytes(rt, &output, replies.as_bytes());
}

fn check_cut<R: Abort + AllocGlobal>(rt: &R, script: &[u8], at: usize, replies: &str) {
    let (front, back) = script.split_at(at.min(script.len()));
    let mut reader = TwoPieces { front, back };
    check_reader(rt, &mut reader, replies);
}

fn check_singly<R: Abort + AllocGlobal>(rt: &R, script: &[u8], replies: &str) {
    check_reader(rt, &mut SingleBytes { rest: script }, replies);
}

#[test]
fn however_a_script_is_cut(rt: HostRuntime) {
    for (script, replies) in SCRIPTS {
        let bytes = script.as_bytes();
        check_singly(&rt, bytes, replies);
        for at in 0..bytes.len() + 1 {
            check_cut(&rt, bytes, at, replies);
        }
    }
}

// A part of 65,536 bytes and one of one byte more, each between two other statements.
#[test]
fn a_part_that_is_too_long_in_pieces(rt: HostRuntime) {
    let told = "TABLE,COLUMNS,ROWS\nrows 0\nTABLE,COLUMNS,ROWS\nrows 0\n";
    let refused = "error 11: statement too long\nTABLE,COLUMNS,ROWS\nrows 0\n";
    for (blanks, replies) in [(65_530, told), (65_531, refused)] {
        let script = joined(
            &rt,
            &[("TABLES", 1), (" ", blanks), (";", 1), ("TABLES;", 1)],
        );
        check_singly(&rt, script.as_bytes(), replies);
        for at in [1, 6, 7, 65_535, 65_536, 65_537, 65_538] {
            check_cut(&rt, script.as_bytes(), at, replies);
        }
    }
}

// Gives one piece per call, and records how many bytes of replies were flushed by then.
#[derive(Drop)]
struct NotingReader<'a> {
    pieces: &'a [&'a [u8]],
    flushed: &'a Cell<usize>,
    noted: Vec<usize>,
}

impl Read for NotingReader<'_> {
    fn read(&mut self, buf: &mut [u8]) -> io::Result<usize> {
        self.noted.push(self.flushed.get())?;
        let [piece, pieces @ ..] = self.pieces else {
            return Ok(0);
        };
        self.pieces = pieces;
        let mut piece = *piece;
        piece.read(buf)
    }
}

// Counts the bytes of replies, and tells how many were flushed.
#[derive(Drop)]
struct CountingWriter<'a> {
    taken: usize,
    flushed: &'a Cell<usize>,
}

impl Write for CountingWriter<'_> {
    fn write(&mut self, buf: &[u8]) -> io::Result<usize> {
        self.taken = self.taken.wrapping_add(buf.len());
        Ok(buf.len())
    }

    fn flush(&mut self) -> io::Result<()> {
        self.flushed.set(self.taken);
        Ok(())
    }
}

// Replies of 3, 5 and 11 bytes, each flushed before the read after the piece that closes its statement, and one of 23
// to the rest.
#[test]
fn each_reply_before_the_next_read(rt: HostRuntime) {
    let pieces: [&[u8]; 5] = [
        b"CREATE TABLE t (a INT);",
        b" INSERT INTO t VALUES (1); SELECT",
        b" a FROM",
        b" t; DROP",
        b" TABLE t",
    ];
    let flushed = Cell::new(0);
    let mut reader = NotingReader {
        pieces: &pieces,
        flushed: &flushed,
        noted: Vec::new(rt.alloc()),
    };
    let mut writer = CountingWriter {
        taken: 0,
        flushed: &flushed,
    };
    let end = run_over(rt.alloc(), &mut reader, &mut writer, OnError::Continue);
    see(&rt, (end, flushed.get()), (RunEnd::Done, 42));
    assert!(rt; reader.noted.as_slice() == [0, 3, 8, 8, 19, 19].as_slice());
}
