//! Files of the largest size, and files that fill a table.

use crate::harness::{check_over_file, repeated};

// The largest size of a file, in bytes.
const MOST_BYTES: usize = 268_435_456;

const LOADED_ROWS: usize = 1_048_576;

// A file of one byte more than a file may have, and one of this many.
#[test]
fn a_file_too_large(rt: HostRuntime) {
    let script = [(
        "CREATE TABLE t (a INT); LOAD t FROM 'f'; OPEN u FROM 'f';",
        1,
    )];
    let mut bytes = Vec::new(rt.alloc());
    bytes.resize(MOST_BYTES + 1, b'x').expect(&rt, "memory");
    let too_large = [(
        "ok\nerror 46: file too large\nerror 46: file too large\n",
        1,
    )];
    check_over_file(&rt, &bytes, &script, &too_large);
    bytes.truncate(MOST_BYTES);
    let read = [(
        "ok\nerror 43: record 1 field 1 is not an integer\nerror 44: not a table file\n",
        1,
    )];
    check_over_file(&rt, &bytes, &script, &read);
}

// Sixteen files fill a table, and one more row is too many; after deleting the rows there is room again.
#[test]
fn a_table_filled_from_a_file(rt: HostRuntime) {
    let lines = repeated(&rt, "", "1\n", LOADED_ROWS, "");
    check_over_file(
        &rt,
        lines.as_bytes(),
        &[
            ("CREATE TABLE t (a INT);", 1),
            ("LOAD t FROM 'f';", 16),
            ("LOAD t FROM 'f';INSERT INTO t VALUES (2);", 1),
            ("DELETE FROM t; INSERT INTO t VALUES (2);", 1),
            ("SELECT COUNT(*) FROM t;", 1),
        ],
        &[
            ("ok\n", 1),
            ("ok 1048576\n", 16),
            ("error 28: table full\nerror 28: table full\n", 1),
            ("ok 16777216\nok 1\nCOUNT(*)\n1\nrows 1\n", 1),
        ],
    );
}

// Four columns of 32 bits: 4 * 33 planes of 2,097,152 bytes, including those of the non-null rows, are more than a file
// may have.
#[test]
fn a_table_too_large_for_a_file(rt: HostRuntime) {
    let first = "-2147483648,-2147483648,-2147483648,-2147483648\n";
    let other = "2147483647,2147483647,2147483647,2147483647\n";
    let lines = repeated(&rt, first, other, LOADED_ROWS - 1, "");
    check_over_file(
        &rt,
        lines.as_bytes(),
        &[
            ("CREATE TABLE t (a INT, b INT, c INT, d INT);", 1),
            ("LOAD t FROM 'f';", 16),
            ("SAVE t TO 'g';OPEN u FROM 'g';", 1),
        ],
        &[
            ("ok\n", 1),
            ("ok 1048576\n", 16),
            (
                "error 46: file too large\nerror 40: file cannot be read\n",
                1,
            ),
        ],
    );
}

// Columns of 32, 32, 32 and 28 bits: 128 planes of 2,097,152 bytes are as many as a file may have, and the start of the
// file, the headers and the bases and widths are 70 bytes too many. Without the least values each column has one bit.
#[test]
fn a_file_of_seventy_bytes_too_many(rt: HostRuntime) {
    let first = "-2147483648,-2147483648,-2147483648,0\n";
    let other = "2147483647,2147483647,2147483647,268435455\n";
    let lines = repeated(&rt, first, other, LOADED_ROWS - 1, "");
    check_over_file(
        &rt,
        lines.as_bytes(),
        &[
            ("CREATE TABLE t (a INT, b INT, c INT, d INT);", 1),
            ("LOAD t FROM 'f';", 16),
            (
                "SAVE t TO 'g';DELETE FROM t WHERE d = 0;SAVE t TO 'g';OPEN u FROM 'g';",
                1,
            ),
            ("SELECT COUNT(*) FROM u WHERE a = b;", 1),
        ],
        &[
            ("ok\n", 1),
            ("ok 1048576\n", 16),
            (
                "error 46: file too large\nok 16\nok 16777200\nok 16777200\n",
                1,
            ),
            ("COUNT(*)\n16777200\nrows 1\n", 1),
        ],
    );
}

// The greatest possible sum.
#[test]
fn a_full_table_of_the_greatest_bigint(rt: HostRuntime) {
    let lines = repeated(&rt, "", "9223372036854775807\n", LOADED_ROWS, "");
    check_over_file(
        &rt,
        lines.as_bytes(),
        &[
            ("CREATE TABLE t (a BIGINT);", 1),
            ("LOAD t FROM 'f';", 16),
            ("SELECT SUM(a), MIN(a), MEDIAN(a) FROM t;", 1),
        ],
        &[
            ("ok\n", 1),
            ("ok 1048576\n", 16),
            (
                "SUM(A),MIN(A),MEDIAN(A)\n\
                 154742504910672534345613312,9223372036854775807,9223372036854775807\nrows 1\n",
                1,
            ),
        ],
    );
}
