//! Scripts over files: rows of CSV files, tables that are saved and opened, and files that are refused.

use crate::harness::{File, check_file, check_files, check_layings, folder_of, joined, numbered};
use crate::seen::{see, see_bytes};
use bw_shell::{Folder, OnError, RunEnd, run};
use std::process::Abort;

// Checks the replies to a script after a CREATE TABLE t (a, b), with one file f.
fn check_load<R: Abort + AllocGlobal>(rt: &R, bytes: &[u8], script: &str, replies: &str) {
    let script = format!(in rt.alloc(); "CREATE TABLE t (a INT, b INT); {script}").expect(
        rt, "memory",
    );
    let replies = format!(in rt.alloc(); "ok\n{replies}").expect(rt, "memory");
    check_files(rt, &[("f", bytes)], script.as_str(), replies.as_str());
}

#[test]
fn rows_of_a_csv_file(rt: HostRuntime) {
    let file = b"\xEF\xBB\xBF\"7\",\r\nnull,-2\r\n+5,08\r\n";
    check_load(
        &rt,
        file,
        "LOAD t FROM 'f'; SELECT * FROM t;",
        "ok 3\nA,B\n7,NULL\nNULL,-2\n5,8\nrows 3\n",
    );
    check_load(
        &rt,
        file,
        "LOAD t FROM 'f' WITH HEADER; SELECT * FROM t;",
        "ok 2\nA,B\nNULL,-2\n5,8\nrows 2\n",
    );
    check_load(
        &rt,
        file,
        "INSERT INTO t VALUES (1, 2); LOAD t FROM 'f'; LOAD t FROM 'f' WITH HEADER; SELECT a FROM t;",
        "ok 1\nok 3\nok 2\nA\n1\n7\nNULL\n5\nNULL\n5\nrows 6\n",
    );
}

/// Files of two columns, and their faults.
const FAULTS: [(&[u8], &str); 5] = [
    (
        b"\xEF\xBB\xBF\"7\",\r\nnull,-2\r\nx,08\r\n",
        "error 43: record 3 field 1 is not an integer\n",
    ),
    (
        b"\xEF\xBB\xBF\"7\",\r\n9\r\n+5,08\r\n",
        "error 42: record 2 has the wrong number of fields\n",
    ),
    // The number of fields is checked before the fields, and each record before the next one.
    (
        b"1,2\nx,y,z\n3\n",
        "error 42: record 2 has the wrong number of fields\n",
    ),
    (b"1,2147483648\nx,y\n", "error 26: value out of range\n"),
    (
        b"1,y\n2147483648,1\n",
        "error 43: record 1 field 2 is not an integer\n",
    ),
];

fn check_fault<R: Abort + AllocGlobal>(rt: &R, bytes: &[u8], error: &str) {
    let replies = joined(rt, &[(error, 1), ("A,B\nrows 0\n", 1)]);
    check_load(
        rt,
        bytes,
        "LOAD t FROM 'f'; SELECT * FROM t;",
        replies.as_str(),
    );
}

#[test]
fn a_csv_file_with_a_fault_gives_no_row(rt: HostRuntime) {
    for (bytes, error) in FAULTS {
        check_fault(&rt, bytes, error);
    }
}

#[test]
fn a_header_is_left_out_unread_and_is_record_1(rt: HostRuntime) {
    check_load(
        &rt,
        b"x,y,z\n1,-\n",
        "LOAD t FROM 'f' WITH HEADER;",
        "error 43: record 2 field 2 is not an integer\n",
    );
}

const NO_INTEGER: &str = "error 43: record 1 field 1 is not an integer\nA\nrows 0\n";

/// Files of one column, and the replies to a LOAD of each and a SELECT of all.
const FIELDS: [(&[u8], &str); 12] = [
    (b"\"\"\n4\n", "ok 2\nA\nNULL\n4\nrows 2\n"),
    (b"nUlL", "ok 1\nA\nNULL\nrows 1\n"),
    (b"", "ok 0\nA\nrows 0\n"),
    (b"\xEF\xBB\xBF", "ok 0\nA\nrows 0\n"),
    (
        b"99999999999999999999",
        "error 26: value out of range\nA\nrows 0\n",
    ),
    (
        b"-2147483648\r\n2147483647",
        "ok 2\nA\n-2147483648\n2147483647\nrows 2\n",
    ),
    (
        b"-2147483649\n",
        "error 26: value out of range\nA\nrows 0\n",
    ),
    (b"+\n", NO_INTEGER),
    (b"--1", NO_INTEGER),
    (b"1.0", NO_INTEGER),
    (b" 7", NO_INTEGER),
    (b"\xFF", NO_INTEGER),
];

fn check_field<R: Abort + AllocGlobal>(rt: &R, bytes: &[u8], replies: &str) {
    let script = "CREATE TABLE t (a INT); LOAD t FROM 'f'; SELECT * FROM t;";
    let replies = joined(rt, &[("ok\n", 1), (replies, 1)]);
    check_files(rt, &[("f", bytes)], script, replies.as_str());
}

#[test]
fn fields_of_one_column(rt: HostRuntime) {
    for (bytes, replies) in FIELDS {
        check_field(&rt, bytes, replies);
    }
}

#[test]
fn a_header_of_a_file_without_rows(rt: HostRuntime) {
    for bytes in [
        b"".as_slice(),
        b"\xEF\xBB\xBF".as_slice(),
        b"a,b\n".as_slice(),
    ] {
        check_load(&rt, bytes, "LOAD t FROM 'f' WITH HEADER;", "ok 0\n");
    }
}

// The table of one column A, an INTEGER, of three rows: 3, NULL, -1, in layout V and of kind OFFSET.
const SAVED: [u8; 32] = [
    0x42, 0x49, 0x54, 0x43, 0x4f, 0x4c, 0x02, 0x00, 0x01, 0x00, 0x03, 0x00, 0x00, 0x00, 0x01, 0x41,
    0x00, 0x01, 0x00, 0x05, 0xff, 0xff, 0xff, 0xff, 0xff, 0xff, 0xff, 0xff, 0x03, 0x01, 0x00, 0x00,
];

// The same table in the first version of the file.
const SAVED_FIRST: [u8; 31] = [
    0x42, 0x49, 0x54, 0x43, 0x4f, 0x4c, 0x01, 0x00, 0x01, 0x00, 0x03, 0x00, 0x00, 0x00, 0x01, 0x41,
    0x01, 0x00, 0x05, 0x03, 0x00, 0x00, 0x00, 0x00, 0x00, 0x00, 0x00, 0xff, 0xff, 0xff, 0xff,
];

#[test]
fn a_table_saved_and_opened(rt: HostRuntime) {
    let mut folder = check_files(
        &rt,
        &[],
        "CREATE TABLE t (a INTEGER); INSERT INTO t VALUES (3), (NULL), (-1); \
         SAVE t TO 'f'; OPEN u FROM 'f'; SELECT a FROM u; TABLES; OPEN u FROM 'none';",
        "ok\nok 3\nok 3\nok 3\nA\n3\nNULL\n-1\nrows 3\nTABLE,COLUMNS,ROWS\nT,1,3\nU,1,3\nrows 2\nerror 21: table exists\n",
    );
    check_file(&rt, &mut folder, ("f", SAVED.as_slice()));
}

// Its column is an INTEGER, and it is saved in the second version.
#[test]
fn a_table_of_the_first_version(rt: HostRuntime) {
    let mut folder = check_files(
        &rt,
        &[("f", SAVED_FIRST.as_slice())],
        "OPEN t FROM 'f'; SELECT a FROM t; SAVE t TO 'g'; OPEN u FROM 'g'; SELECT a FROM u; \
         INSERT INTO u VALUES (2147483648); REBUILD u (a USING H); INSERT INTO u VALUES (2147483647); SELECT a FROM u WHERE a > 3;",
        "ok 3\nA\n3\nNULL\n-1\nrows 3\nok 3\nok 3\nA\n3\nNULL\n-1\nrows 3\n\
         error 26: value out of range\nok\nok 1\nA\n2147483647\nrows 1\n",
    );
    check_file(&rt, &mut folder, ("g", SAVED.as_slice()));
}

// Rows that were deleted are not saved, and an opened table is filled and changed like any other.
#[test]
fn in_every_layout_and_kind(rt: HostRuntime) {
    check_layings(
        &rt,
        "CREATE TABLE t (a INT {using}, b INT); INSERT INTO t VALUES (2147483647, 1), (NULL, 2), (7, 3), (-2147483648, NULL); \
         DELETE FROM t WHERE b = 3; SAVE t TO 'f'; OPEN u FROM 'f'; INSERT INTO u VALUES (5, 5); \
         UPDATE u SET b = a WHERE b IS NULL; SELECT * FROM u; SELECT SUM(a), COUNT(b) FROM u WHERE a > 4; SELECT * FROM t;",
        "ok\nok 4\nok 1\nok 3\nok 3\nok 1\nok 1\nA,B\n2147483647,1\nNULL,2\n-2147483648,-2147483648\n5,5\nrows 4\n\
         SUM(A),COUNT(B)\n2147483652,2\nrows 1\nA,B\n2147483647,1\nNULL,2\n-2147483648,NULL\nrows 3\n",
    );
}

/// Statements after which a table has the rows of the saved one, though its column was encoded for values beyond, and the
/// replies to them.
const NARROWED: [(&str, &str); 4] = [
    (
        "INSERT INTO t VALUES (3), (NULL), (-100); UPDATE t SET a = -1 WHERE a = -100;",
        "ok 3\nok 1\n",
    ),
    (
        "INSERT INTO t VALUES (1000), (NULL), (-1); UPDATE t SET a = 3 WHERE a = 1000;",
        "ok 3\nok 1\n",
    ),
    (
        "INSERT INTO t VALUES (1000), (NULL), (-100); UPDATE t SET a = 3 WHERE a > 0; UPDATE t SET a = -1 WHERE a < 0;",
        "ok 3\nok 1\nok 1\n",
    ),
    (
        "INSERT INTO t VALUES (1000), (3), (NULL), (-100), (-1); DELETE FROM t WHERE a = 1000 OR a = -100;",
        "ok 5\nok 2\n",
    ),
];

/// Layouts and kinds, and the bytes that a file has for them.
const LAID: [(&str, u8, u8); 8] = [
    ("P", 0, 0),
    ("V", 1, 0),
    ("H", 2, 0),
    ("S", 3, 0),
    ("P DICTIONARY", 0, 1),
    ("V DICTIONARY", 1, 1),
    ("H DICTIONARY", 2, 1),
    ("S DICTIONARY", 3, 1),
];

fn check_narrowed<R: Abort + AllocGlobal>(rt: &R, laid: &str, layout: u8, kind: u8) {
    let mut bytes = SAVED;
    bytes[17] = layout;
    bytes[18] = kind;
    for (statements, replies) in NARROWED {
        let script = format!(in rt.alloc();
            "CREATE TABLE t (a INT USING {laid}); {statements} SAVE t TO 'f';"
        ).expect(rt, "memory");
        let replies = format!(in rt.alloc(); "ok\n{replies}ok 3\n").expect(rt, "memory");
        let mut folder = check_files(rt, &[], script.as_str(), replies.as_str());
        check_file(rt, &mut folder, ("f", bytes.as_slice()));
    }
}

// A file's base and width are those of the rows that are saved, whatever the column is encoded for.
#[test]
fn a_column_that_is_encoded_for_more(rt: HostRuntime) {
    for (laid, layout, kind) in LAID {
        check_narrowed(&rt, laid, layout, kind);
    }
}

// The saved table with one byte replaced.
fn saved_but(at: usize, byte: u8) -> [u8; 32] {
    let mut bytes = SAVED;
    if at < bytes.len() {
        bytes[at] = byte;
    }
    bytes
}

// The same for the first version.
fn first_but(at: usize, byte: u8) -> [u8; 31] {
    let mut bytes = SAVED_FIRST;
    if at < bytes.len() {
        bytes[at] = byte;
    }
    bytes
}

// Checks that a file isn't a table file.
fn check_no_table<R: Abort + AllocGlobal>(rt: &R, bytes: &[u8]) {
    let replies = "error 44: not a table file\nTABLE,COLUMNS,ROWS\nrows 0\n";
    check_files(rt, &[("f", bytes)], "OPEN v FROM 'f'; TABLES;", replies);
}

// Checks that no proper prefix of a file is a table file, nor the file with one more byte.
fn check_no_other_length<R: Abort + AllocGlobal>(rt: &R, bytes: &[u8]) {
    for length in 0..bytes.len() {
        check_no_table(rt, &bytes[..length]);
    }
    let mut longer = Vec::from_slice(rt.alloc(), bytes).expect(rt, "memory");
    longer.push(0).expect(rt, "memory");
    check_no_table(rt, &longer);
}

/// Replaced bytes after which the saved table isn't a table file.
const NO_TABLE: [(usize, u8); 10] = [
    (15, 0x61), // a small letter
    (16, 0x02), // no type
    (17, 0x04), // no layout
    (18, 0x02), // no kind
    (19, 0x0d), // a row more
    (27, 0x00), // a value that is no INTEGER
    (28, 0x04), // a plane more than there is
    (29, 0x00), // no bit in the highest plane
    (29, 0x03), // a bit at a NULL
    (31, 0x04), // no code of 0
];

#[test]
fn bytes_that_are_no_table(rt: HostRuntime) {
    check_no_other_length(&rt, &SAVED);
    for (at, byte) in NO_TABLE {
        check_no_table(&rt, &saved_but(at, byte));
    }
    let mut bigint_in_h = SAVED;
    bigint_in_h[16] = 0x01;
    bigint_in_h[17] = 0x02;
    check_no_table(&rt, &bigint_in_h);
    // 64 columns and 16,777,216 rows, with no data
    check_no_table(
        &rt,
        b"\x42\x49\x54\x43\x4f\x4c\x02\x00\x40\x00\x00\x00\x00\x01",
    );
}

#[test]
fn bytes_that_are_no_table_of_the_first_version(rt: HostRuntime) {
    check_no_other_length(&rt, &SAVED_FIRST);
    for (at, byte) in [(18, 0x0d), (23, 0x01), (16, 0x04), (15, 0x61), (6, 0x02)] {
        check_no_table(&rt, &first_but(at, byte));
    }
    check_no_table(
        &rt,
        b"\x42\x49\x54\x43\x4f\x4c\x01\x00\x40\x00\x00\x00\x00\x01",
    );
}

// With any byte replaced, a file isn't a table file, or it is saved again unchanged. Tries every fifth value of a byte,
// including 0 and 255.
#[test]
fn each_byte_of_a_table_file(rt: HostRuntime) {
    for at in 0..32 {
        for fifth in 0..=51 {
            check_opened_or_refused(&rt, &saved_but(at, 5 * fifth));
        }
    }
}

fn check_opened_or_refused<R: Abort + AllocGlobal>(rt: &R, bytes: &[u8]) {
    let mut folder = folder_of(rt, &[("f", bytes)]);
    let mut script = b"OPEN v FROM 'f'; SAVE v TO 'g';".as_slice();
    let mut output = Vec::new(rt.alloc());
    let end = run(
        rt.alloc(),
        &mut script,
        &mut output,
        &mut folder,
        OnError::Continue,
    );
    see(rt, end, RunEnd::Done);
    match folder.read("g", 1000) {
        Ok(saved) => see_bytes(rt, &saved, bytes),
        Err(_) => {
            let refused = b"error 44: not a table file\nerror 20: no such table\n";
            see_bytes(rt, &output, refused);
        }
    }
}

#[test]
fn a_cut_in_the_name_of_a_file(rt: HostRuntime) {
    let mut folder = check_files(
        &rt,
        &[],
        "CREATE TABLE t (a INTEGER); -- one; two\nSAVE t TO 'x;y';;SELECT a FROM t",
        "ok\nok 0\nerror 10: syntax error\n",
    );
    // The start of the file, a header with a name of one byte, and a column without rows: its base and its width.
    let file = folder.read("x;y", 28).expect(&rt, "a file");
    see(&rt, file.len(), 28);
}

#[test]
fn names_of_files(rt: HostRuntime) {
    check_pieces_over_files(
        &rt,
        &[
            ("CREATE TABLE t (a INT); SAVE t TO '", 1),
            ("n", 255),
            ("';", 1),
        ],
        "ok\nok 0\n",
    );
    check_pieces_over_files(
        &rt,
        &[
            ("CREATE TABLE t (a INT); SAVE t TO '", 1),
            ("n", 256),
            ("';", 1),
        ],
        "ok\nerror 10: syntax error\n",
    );
    check_pieces_over_files(
        &rt,
        &[(
            "CREATE TABLE t (a INT); SAVE t TO 'it''s'; LOAD t FROM 'it'; OPEN u FROM 'it''s'; OPEN w FROM '';",
            1,
        )],
        "ok\nok 0\nerror 40: file cannot be read\nok 0\nerror 10: syntax error\n",
    );
}

fn check_pieces_over_files<R: Abort + AllocGlobal>(
    rt: &R,
    pieces: &[(&str, usize)],
    replies: &str,
) {
    let script = joined(rt, pieces);
    check_files(rt, &[], script.as_str(), replies);
}

// Each refusal is the first that holds.
#[test]
fn refusals_in_their_order(rt: HostRuntime) {
    let files: [File<'_>; 2] = [("f", b"x\n".as_slice()), ("g", SAVED.as_slice())];
    check_files(
        &rt,
        &files,
        "LOAD t FROM 'none'; SAVE t TO 'f'; CREATE TABLE t (a INT); LOAD t FROM 'none'; LOAD t FROM 'f'; LOAD t FROM 'F'; \
         OPEN t FROM 'none'; OPEN t FROM 'f'; OPEN u FROM 'none'; OPEN u FROM 'f'; OPEN u FROM 'g'; SELECT a FROM u; \
         DROP TABLE t; OPEN t FROM 'g'; TABLES;",
        "error 20: no such table\nerror 20: no such table\nok\nerror 40: file cannot be read\n\
         error 43: record 1 field 1 is not an integer\nerror 40: file cannot be read\nerror 21: table exists\n\
         error 21: table exists\nerror 40: file cannot be read\nerror 44: not a table file\nok 3\nA\n3\nNULL\n-1\nrows 3\n\
         ok\nok 3\nTABLE,COLUMNS,ROWS\nU,1,3\nT,1,3\nrows 2\n",
    );
}

#[test]
fn a_table_too_many_is_not_opened(rt: HostRuntime) {
    let tables = numbered(&rt, "CREATE TABLE t", 0..64, " (a INT);");
    let script = joined(
        &rt,
        &[
            (tables.as_str(), 1),
            (
                "OPEN u FROM 'none'; OPEN t0 FROM 'none'; DROP TABLE t0; OPEN u FROM 'none'; OPEN u FROM 'g';",
                1,
            ),
        ],
    );
    let replies = joined(
        &rt,
        &[
            ("ok\n", 64),
            (
                "error 24: over a limit\nerror 21: table exists\nok\nerror 40: file cannot be read\nok 3\n",
                1,
            ),
        ],
    );
    let files: [File<'_>; 1] = [("g", SAVED.as_slice())];
    check_files(&rt, &files, script.as_str(), replies.as_str());
}
