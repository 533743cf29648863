//! Columns of BIGINT: integers of 64 bits, copies between types, and the layout that doesn't hold them.

use crate::harness::{
    check_bigint_layings, check_examples, check_file, check_files, check_pieces, check_script,
    numbered,
};
use std::process::Abort;

#[test]
fn the_ends_of_both_types(rt: HostRuntime) {
    check_script(
        &rt,
        "CREATE TABLE t (a BIGINT, b INTEGER); INSERT INTO t VALUES (-9223372036854775808, 1), (9223372036854775807, 2); \
         SELECT SUM(a), MEDIAN(a), MAX(a) FROM t; SELECT b FROM t WHERE a > b; UPDATE t SET b = a WHERE b = 2; \
         UPDATE t SET b = a WHERE b = 3; REBUILD t (a USING H); CREATE TABLE u (a BIGINT USING H);",
        "ok\nok 2\nSUM(A),MEDIAN(A),MAX(A)\n-1,-9223372036854775808,9223372036854775807\nrows 1\nB\n2\nrows 1\n\
         error 26: value out of range\nok 0\nerror 60: layout H holds no BIGINT\nerror 60: layout H holds no BIGINT\n",
    );
}

#[test]
fn in_every_layout_and_kind(rt: HostRuntime) {
    check_bigint_layings(
        &rt,
        "CREATE TABLE t (a BIGINT {using}, b INTEGER); \
         INSERT INTO t VALUES (-9223372036854775808, 1), (NULL, 2), (9223372036854775807, 3), (7, 4); \
         SELECT COUNT(a), SUM(a), MIN(a), MAX(a), MEDIAN(a) FROM t; SELECT b FROM t WHERE a > b; \
         SELECT b FROM t WHERE a = 9223372036854775807 OR a BETWEEN 0 AND 10; SELECT a FROM t WHERE a <> 7; \
         INSERT INTO t VALUES (9223372036854775807, 5); SELECT SUM(a) FROM t WHERE a > 7; \
         DELETE FROM t WHERE a < -9223372036854775807; UPDATE t SET a = -4294967296 WHERE a IS NULL; SELECT * FROM t;",
        "ok\nok 4\nCOUNT(A),SUM(A),MIN(A),MAX(A),MEDIAN(A)\n3,6,-9223372036854775808,9223372036854775807,7\nrows 1\n\
         B\n3\n4\nrows 2\nB\n3\n4\nrows 2\nA\n-9223372036854775808\n9223372036854775807\nrows 2\n\
         ok 1\nSUM(A)\n18446744073709551614\nrows 1\nok 1\nok 1\n\
         A,B\n-4294967296,2\n9223372036854775807,3\n7,4\n9223372036854775807,5\nrows 4\n",
    );
}

// A column can be compared with a column or a number of either type.
#[test]
fn types_beside_each_other(rt: HostRuntime) {
    check_bigint_layings(
        &rt,
        "CREATE TABLE t (a BIGINT {using}, b INT USING H, c BIGINT); \
         INSERT INTO t VALUES (5, 5, 6), (2147483648, 2147483647, 2147483648), (-2147483649, -2147483648, NULL), (NULL, 1, 1); \
         SELECT c FROM t WHERE a = b; SELECT b FROM t WHERE a = c; SELECT b FROM t WHERE b < a; SELECT b FROM t WHERE a < b; \
         SELECT a FROM t WHERE b < 2147483648; SELECT a FROM t WHERE a IN (2147483648, NULL, 6);",
        "ok\nok 4\nC\n6\nrows 1\nB\n2147483647\nrows 1\nB\n2147483647\nrows 1\nB\n-2147483648\nrows 1\n\
         A\n5\n2147483648\n-2147483649\nNULL\nrows 4\nA\n2147483648\nrows 1\n",
    );
}

// A number in a statement has 64 bits, so a BIGINT holds each.
#[test]
fn values_by_the_type_of_their_column(rt: HostRuntime) {
    check_examples(
        &rt,
        &[
            (
                "CREATE TABLE t (a INTEGER, b BIGINT); INSERT INTO t VALUES (1, 2147483648); INSERT INTO t VALUES (2147483648, 1); \
                 INSERT INTO t (b, a) VALUES (1, 2147483648); INSERT INTO t (b, a) VALUES (-2147483649, -2147483648); \
                 INSERT INTO t (b) VALUES (9223372036854775808); INSERT INTO t (b) VALUES (-9223372036854775809); \
                 INSERT INTO t (b) VALUES (9223372036854775807), (-9223372036854775808); SELECT * FROM t;",
                "ok\nok 1\nerror 26: value out of range\nerror 26: value out of range\nok 1\n\
                 error 13: number too large\nerror 13: number too large\nok 2\n\
                 A,B\n1,2147483648\n-2147483648,-2147483649\nNULL,9223372036854775807\nNULL,-9223372036854775808\nrows 4\n",
            ),
            (
                "CREATE TABLE t (a INTEGER, b BIGINT); INSERT INTO t VALUES (1, 2); UPDATE t SET b = 2147483648; \
                 UPDATE t SET a = 2147483648 WHERE a = 7; UPDATE t SET b = 5, a = -2147483649; SELECT * FROM t;",
                "ok\nok 1\nok 1\nerror 26: value out of range\nerror 26: value out of range\nA,B\n1,2147483648\nrows 1\n",
            ),
        ],
    );
}

// Copied values are checked only in the found rows, and if one is out of range for its target's type nothing changes.
#[test]
fn copies_from_type_to_type(rt: HostRuntime) {
    check_bigint_layings(
        &rt,
        "CREATE TABLE t (a INTEGER, b BIGINT {using}); \
         INSERT INTO t VALUES (1, 2147483647), (2, 2147483648), (3, NULL), (4, -2147483649); \
         UPDATE t SET a = b WHERE a = 1; UPDATE t SET a = b WHERE a = 2; UPDATE t SET a = b WHERE a = 3; \
         UPDATE t SET b = 9, a = b WHERE a = 4; UPDATE t SET a = b, b = a WHERE a = 4; UPDATE t SET a = b; \
         UPDATE t SET a = b WHERE b > 2147483647 AND a = 5; SELECT * FROM t; UPDATE t SET b = a; UPDATE t SET a = b; SELECT b, a FROM t;",
        "ok\nok 4\nok 1\nerror 26: value out of range\nok 1\nerror 26: value out of range\nerror 26: value out of range\n\
         error 26: value out of range\nok 0\nA,B\n2147483647,2147483647\n2,2147483648\nNULL,NULL\n4,-2147483649\nrows 4\n\
         ok 4\nok 4\nB,A\n2147483647,2147483647\n2,2\nNULL,NULL\n4,4\nrows 4\n",
    );
}

// Copies a column whose values are out of range before the row is updated, and one whose values are out of range only
// afterwards.
#[test]
fn copies_are_of_the_row_as_it_was(rt: HostRuntime) {
    check_script(
        &rt,
        "CREATE TABLE t (a INTEGER, b BIGINT, c BIGINT); INSERT INTO t VALUES (1, 2147483648, 3); UPDATE t SET b = c, a = b; \
         UPDATE t SET c = b, a = c; UPDATE t SET b = c, c = b; UPDATE t SET a = b, b = a; SELECT * FROM t;",
        "ok\nok 1\nerror 26: value out of range\nok 1\nok 1\nerror 26: value out of range\n\
         A,B,C\n3,2147483648,2147483648\nrows 1\n",
    );
}

// Error 60 is the last error of its statement, and no table is created.
#[test]
fn no_bigint_in_layout_h(rt: HostRuntime) {
    check_examples(
        &rt,
        &[
            (
                "CREATE TABLE t (a INT); CREATE TABLE t (a BIGINT USING H); CREATE TABLE u (a BIGINT USING H, a INT); \
                 CREATE TABLE u (a INT, b BIGINT USING H DICTIONARY); CREATE TABLE u (a INT USING H, b BIGINT); TABLES;",
                "ok\nerror 21: table exists\nerror 23: column named twice\nerror 60: layout H holds no BIGINT\nok\n\
                 TABLE,COLUMNS,ROWS\nT,1,0\nU,2,0\nrows 2\n",
            ),
            (
                "CREATE TABLE t (a INT, b BIGINT); INSERT INTO t VALUES (1, 4294967296); REBUILD u (b USING H); \
                 REBUILD t (b USING H, z USING H); REBUILD t (b USING H, b USING V); REBUILD t (a USING H, b USING H); \
                 REBUILD t (b USING H OFFSET); REBUILD t (a USING H, b USING S DICTIONARY); SELECT * FROM t WHERE a < b; REBUILD t; \
                 SELECT * FROM t;",
                "ok\nok 1\nerror 20: no such table\nerror 22: no such column\nerror 23: column named twice\n\
                 error 60: layout H holds no BIGINT\nerror 60: layout H holds no BIGINT\nok\nA,B\n1,4294967296\nrows 1\nok\n\
                 A,B\n1,4294967296\nrows 1\n",
            ),
        ],
    );
}

#[test]
fn limits_before_the_layout(rt: HostRuntime) {
    let others = numbered(&rt, ", c", 1..64, " INT");
    check_pieces(
        &rt,
        &[
            ("CREATE TABLE t (c0 BIGINT USING H", 1),
            (others.as_str(), 1),
            ("); CREATE TABLE t (c0 BIGINT USING H", 1),
            (others.as_str(), 1),
            (", c64 INT);", 1),
        ],
        "error 60: layout H holds no BIGINT\nerror 24: over a limit\n",
    );
}

// Checks the reply to a LOAD of a file into a BIGINT and an INTEGER, and all rows after it.
fn check_load<R: Abort + AllocGlobal>(rt: &R, bytes: &[u8], replies: &str) {
    let script = "CREATE TABLE t (a BIGINT, b INT); LOAD t FROM 'f'; SELECT * FROM t;";
    check_files(rt, &[("f", bytes)], script, replies);
}

#[test]
fn fields_by_the_type_of_their_column(rt: HostRuntime) {
    check_load(
        &rt,
        b"9223372036854775807,-2147483648\r\n\"-9223372036854775808\",\r\n,2147483647\n2147483648,0\n",
        "ok\nok 4\nA,B\n9223372036854775807,-2147483648\n-9223372036854775808,NULL\nNULL,2147483647\n2147483648,0\nrows 4\n",
    );
    for bytes in [
        b"9223372036854775808,1\n".as_slice(),
        b"1,1\n-9223372036854775809,1\n".as_slice(),
        b"1,2147483648\n".as_slice(),
        b"99999999999999999999999,1\n".as_slice(),
    ] {
        check_load(
            &rt,
            bytes,
            "ok\nerror 26: value out of range\nA,B\nrows 0\n",
        );
    }
}

// A saved table keeps its types.
#[test]
fn saved_and_opened(rt: HostRuntime) {
    check_bigint_layings(
        &rt,
        "CREATE TABLE t (a BIGINT {using}, b INT); INSERT INTO t VALUES (-9223372036854775808, 1), (NULL, 2), (9223372036854775807, 3); \
         SAVE t TO 'f'; OPEN u FROM 'f'; SELECT * FROM u; INSERT INTO u VALUES (4294967296, 4); INSERT INTO u VALUES (1, 4294967296); \
         REBUILD u (a USING H); SELECT SUM(a), MAX(b) FROM u;",
        "ok\nok 3\nok 3\nok 3\nA,B\n-9223372036854775808,1\nNULL,2\n9223372036854775807,3\nrows 3\nok 1\n\
         error 26: value out of range\nerror 60: layout H holds no BIGINT\nSUM(A),MAX(B)\n4294967295,4\nrows 1\n",
    );
}

// The table of one column A, a BIGINT, of three rows: 3, NULL, -1, in layout V and of kind OFFSET.
const SAVED: [u8; 32] = [
    0x42, 0x49, 0x54, 0x43, 0x4f, 0x4c, 0x02, 0x00, 0x01, 0x00, 0x03, 0x00, 0x00, 0x00, 0x01, 0x41,
    0x01, 0x01, 0x00, 0x05, 0xff, 0xff, 0xff, 0xff, 0xff, 0xff, 0xff, 0xff, 0x03, 0x01, 0x00, 0x00,
];

// In a file, a BIGINT of small values differs from an INTEGER only by its type.
#[test]
fn small_values_saved_and_opened(rt: HostRuntime) {
    let mut folder = check_files(
        &rt,
        &[],
        "CREATE TABLE t (a bigint using v offset); INSERT INTO t VALUES (3), (NULL), (-1); SAVE t TO 'f'; OPEN u FROM 'f'; \
         SELECT a FROM u WHERE a < 3; INSERT INTO u VALUES (4294967296);",
        "ok\nok 3\nok 3\nok 3\nA\n-1\nrows 1\nok 1\n",
    );
    check_file(&rt, &mut folder, ("f", SAVED.as_slice()));
}

#[test]
fn bigint_is_no_name(rt: HostRuntime) {
    check_script(
        &rt,
        "CREATE TABLE bigint (a INT); CREATE TABLE v (bigint INT); CREATE TABLE v (a BIG INT); CREATE TABLE v (a BIGINT INT);",
        "error 10: syntax error\nerror 10: syntax error\nerror 10: syntax error\nerror 10: syntax error\n",
    );
}
