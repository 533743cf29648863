//! Set functions of the found rows, in every layout and kind of the columns.

use crate::harness::{check_layings, check_pieces, joined};
use std::process::Abort;

#[test]
fn functions_of_no_rows(rt: HostRuntime) {
    check_layings(
        &rt,
        "CREATE TABLE e (a INT {using}); SELECT COUNT(*), COUNT(a), SUM(a), MIN(a), MAX(a), MEDIAN(a) FROM e; SELECT a FROM e;",
        "ok\nCOUNT(*),COUNT(A),SUM(A),MIN(A),MAX(A),MEDIAN(A)\n0,0,NULL,NULL,NULL,NULL\nrows 1\nA\nrows 0\n",
    );
}

#[test]
fn the_ends_of_the_type_added_up(rt: HostRuntime) {
    check_layings(
        &rt,
        "CREATE TABLE t (a INT {using}); INSERT INTO t VALUES (-2147483648), (2147483647); SELECT SUM(a), MEDIAN(a) FROM t;",
        "ok\nok 2\nSUM(A),MEDIAN(A)\n-1,-2147483648\nrows 1\n",
    );
}

// The last rows of a segment of codes of two bits are found, and nothing after them.
#[test]
fn codes_at_the_end_of_a_segment(rt: HostRuntime) {
    let script = joined(
        &rt,
        &[
            ("CREATE TABLE t (a INT {using}); INSERT INTO t VALUES ", 1),
            ("(0), ", 62),
            (
                "(3), (3); SELECT COUNT(*) FROM t WHERE a = 3; SELECT SUM(a), MAX(a), MEDIAN(a) FROM t;",
                1,
            ),
        ],
    );
    check_layings(
        &rt,
        script.as_str(),
        "ok\nok 64\nCOUNT(*)\n2\nrows 1\nSUM(A),MAX(A),MEDIAN(A)\n6,3,0\nrows 1\n",
    );
}

#[test]
fn nulls_are_left_out(rt: HostRuntime) {
    check_layings(
        &rt,
        "CREATE TABLE t (a INT {using}); INSERT INTO t VALUES (4), (NULL), (1), (9), (2); \
         SELECT MEDIAN(a), SUM(a), COUNT(a), MIN(a), MAX(a) FROM t; SELECT MIN(a), MEDIAN(a) FROM t WHERE a > 2; \
         SELECT COUNT(*), COUNT(a), count ( * ), sum(A), SUM(a), MIN(a) FROM t WHERE a IS NULL OR a > 1; \
         REBUILD t (a USING S DICTIONARY); SELECT MEDIAN(a), SUM(a), COUNT(a), MIN(a), MAX(a) FROM t;",
        "ok\nok 5\nMEDIAN(A),SUM(A),COUNT(A),MIN(A),MAX(A)\n2,16,4,1,9\nrows 1\nMIN(A),MEDIAN(A)\n4,4\nrows 1\n\
         COUNT(*),COUNT(A),COUNT(*),SUM(A),SUM(A),MIN(A)\n4,3,4,15,15,2\nrows 1\nok\n\
         MEDIAN(A),SUM(A),COUNT(A),MIN(A),MAX(A)\n2,16,4,1,9\nrows 1\n",
    );
}

#[test]
fn functions_of_nulls_alone(rt: HostRuntime) {
    check_layings(
        &rt,
        "CREATE TABLE t (a INT {using}, b INT {using}); INSERT INTO t VALUES (NULL, 7), (NULL, 8); \
         SELECT COUNT(*), COUNT(a), SUM(a), MIN(a), MAX(a), MEDIAN(a), SUM(b) FROM t; SELECT COUNT(*), SUM(b) FROM t WHERE a < 5; \
         UPDATE t SET a = -3 WHERE b = 8; SELECT COUNT(a), SUM(a), MIN(a), MAX(a), MEDIAN(a) FROM t;",
        "ok\nok 2\nCOUNT(*),COUNT(A),SUM(A),MIN(A),MAX(A),MEDIAN(A),SUM(B)\n2,0,NULL,NULL,NULL,NULL,15\nrows 1\n\
         COUNT(*),SUM(B)\n0,NULL\nrows 1\nok 1\nCOUNT(A),SUM(A),MIN(A),MAX(A),MEDIAN(A)\n1,-3,-3,-3,-3\nrows 1\n",
    );
}

/// The numbers from 1 to 300, each with its remainder modulo 2.
fn numbers_and_rests<R: Abort + AllocGlobal>(rt: &R) -> String {
    let mut pairs = String::from_str(rt.alloc(), "(1, 1)").expect(rt, "memory");
    for number in 2..301u32 {
        let rest = number % 2;
        let pair = format!(in rt.alloc(); ", ({number}, {rest})").expect(rt, "memory");
        pairs.push_str(pair.as_str()).expect(rt, "memory");
    }
    pairs
}

#[test]
fn rows_left_by_a_delete(rt: HostRuntime) {
    let pairs = numbers_and_rests(&rt);
    let script = joined(
        &rt,
        &[
            (
                "CREATE TABLE t (a INT {using}, b INT {using}); INSERT INTO t VALUES ",
                1,
            ),
            (pairs.as_str(), 1),
            (
                "; DELETE FROM t WHERE b = 0; SELECT COUNT(*) FROM t WHERE NOT a IS NULL; \
                 REBUILD t (a USING H); SELECT COUNT(*) FROM t WHERE NOT a IS NULL; \
                 SELECT SUM(a), MEDIAN(a), MAX(a), SUM(b), MIN(b) FROM t;",
                1,
            ),
        ],
    );
    check_layings(
        &rt,
        script.as_str(),
        "ok\nok 300\nok 150\nCOUNT(*)\n150\nrows 1\nok\nCOUNT(*)\n150\nrows 1\n\
         SUM(A),MEDIAN(A),MAX(A),SUM(B),MIN(B)\n22500,149,299,150,1\nrows 1\n",
    );
}

#[test]
fn columns_beside_functions(rt: HostRuntime) {
    check_layings(
        &rt,
        "CREATE TABLE t (a INT {using}); SELECT a, COUNT(*) FROM t; SELECT COUNT(*), a FROM t; SELECT z, COUNT(*) FROM t; \
         SELECT a, SUM(z) FROM t; SELECT a, COUNT(*) FROM u; SELECT a, COUNT(*) FROM t WHERE z = 1; \
         SELECT SUM(*) FROM t; SELECT *, COUNT(*) FROM t; SELECT COUNT() FROM t; SELECT COUNT(1) FROM t; SELECT count FROM t;",
        "ok\nerror 27: columns and set functions mixed\nerror 27: columns and set functions mixed\nerror 22: no such column\n\
         error 22: no such column\nerror 20: no such table\nerror 22: no such column\n\
         error 10: syntax error\nerror 10: syntax error\nerror 10: syntax error\nerror 10: syntax error\nerror 10: syntax error\n",
    );
}

#[test]
fn faults_before_columns_beside_functions(rt: HostRuntime) {
    check_pieces(
        &rt,
        &[
            (
                "CREATE TABLE t (a INT); SELECT a, COUNT(*) FROM t WHERE a IN (",
                1,
            ),
            ("1, ", 1_000),
            ("1); SELECT a, COUNT(z) FROM t WHERE a IN (", 1),
            ("1, ", 1_000),
            ("1); SELECT COUNT(*), a FROM t WHERE a IN (", 1),
            ("1, ", 999),
            ("1);", 1),
        ],
        "ok\nerror 24: over a limit\nerror 22: no such column\nerror 27: columns and set functions mixed\n",
    );
}
