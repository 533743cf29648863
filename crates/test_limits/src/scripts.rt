//! Long scripts.

use crate::harness::{check_end, check_run, repeated};
use crate::pieces::Piece;
use bw_shell::{MemoryFolder, OnError, RunEnd, run};
use std::io::{self, Read};
use std::process::Abort;

// Of lines of this many bytes, each a comment and a cut, 16,384 are a script of the largest length, 2^30 bytes.
const LINE_BYTES: usize = 65_536;

#[test]
fn statements_of_one_digit_values(rt: HostRuntime) {
    // 60,021 bytes, and nearly as many terminals
    let insert = repeated(&rt, "INSERT INTO t VALUES (1)", ",(1)", 14_999, ";");
    check_run(
        &rt,
        &[
            ("CREATE TABLE t (a INT);", 1),
            (insert.as_str(), 40),
            (
                "SELECT a FROM t WHERE a = 1;SELECT a FROM t WHERE a = 2;",
                1,
            ),
        ],
        &[
            ("ok\n", 1),
            ("ok 15000\n", 40),
            ("A\n", 1),
            ("1\n", 600_000),
            ("rows 600000\nA\nrows 0\n", 1),
        ],
    );
}

#[test]
fn a_statement_of_all_its_bytes(rt: HostRuntime) {
    // 65,536 bytes: 21, and 16,379 rows of 4 bytes with no comma after the last
    let insert = repeated(&rt, "INSERT INTO t VALUES ", "(1),", 16_378, "(1);");
    check_run(
        &rt,
        &[("CREATE TABLE t (a INT);", 1), (insert.as_str(), 1)],
        &[("ok\nok 16379\n", 1)],
    );
}

#[test]
fn a_hundred_thousand_statements(rt: HostRuntime) {
    check_run(
        &rt,
        &[
            ("CREATE TABLE t (a INT, b INT);", 1),
            ("INSERT INTO t (b) VALUES (7);", 1),
            ("SELECT a, b FROM t;", 100_000),
            ("SELECT c FROM t;", 10_000),
        ],
        &[
            ("ok\nok 1\n", 1),
            ("A,B\nNULL,7\nrows 1\n", 100_000),
            ("error 22: no such column\n", 10_000),
        ],
    );
}

#[test]
fn a_million_parts_without_a_statement(rt: HostRuntime) {
    let parts = repeated(&rt, "", "; ", 10_000, "");
    check_run(
        &rt,
        &[(parts.as_str(), 100), ("SELECT a FROM t;", 1)],
        &[("error 20: no such table\n", 1)],
    );
}

#[test]
fn comments_between_statements(rt: HostRuntime) {
    let comment = repeated(&rt, "", "-- a comment; it ends here '\n", 2_000, "");
    check_run(
        &rt,
        &[
            ("CREATE TABLE t (a INT);", 1),
            (comment.as_str(), 1),
            ("SELECT a FROM t;", 1),
        ],
        &[("ok\nA\nrows 0\n", 1)],
    );
}

// A script of the largest length, and one of one byte more, whose last `;` is too late.
#[test]
fn a_script_of_all_its_bytes(rt: HostRuntime) {
    let replies = [("TABLE,COLUMNS,ROWS\nrows 0\n", 1)];
    check_longest(&rt, LINE_BYTES - 7, &replies, RunEnd::Done);
    check_longest(&rt, LINE_BYTES - 6, &[], RunEnd::ReadFault);
}

// Runs 16,383 lines, these blanks and a statement of seven bytes.
fn check_longest<R: Abort + AllocGlobal>(
    rt: &R,
    blanks: usize,
    replies: &[Piece<'_>],
    end: RunEnd,
) {
    let line = repeated(rt, "", "-", LINE_BYTES - 2, "\n;");
    let blanks = repeated(rt, "", " ", blanks, "");
    let script = [
        (line.as_str(), 16_383),
        (blanks.as_str(), 1),
        ("TABLES;", 1),
    ];
    let mut folder = MemoryFolder::new(rt.alloc());
    check_end(rt, &mut folder, &script, replies, end);
}

// Gives endless blanks.
#[derive(Drop)]
struct Blanks;

impl Read for Blanks {
    fn read(&mut self, buf: &mut [u8]) -> io::Result<usize> {
        buf.fill(b' ');
        Ok(buf.len())
    }
}

#[test]
fn blanks_without_end(rt: HostRuntime) {
    let mut folder = MemoryFolder::new(rt.alloc());
    let mut output = Vec::new(rt.alloc());
    let end = run(
        rt.alloc(),
        &mut Blanks,
        &mut output,
        &mut folder,
        OnError::Continue,
    );
    assert_eq!(rt; end, RunEnd::ReadFault);
    assert!(rt; output.is_empty());
}
