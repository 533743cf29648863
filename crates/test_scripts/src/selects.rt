//! Tables created, filled and read.

use crate::harness::{check_examples, check_pieces, numbered};

#[test]
fn rows_that_meet_a_comparison(rt: HostRuntime) {
    check_examples(
        &rt,
        &[
            (
                "CREATE TABLE t (a INTEGER); INSERT INTO t VALUES (3), (NULL), (-1); SELECT a FROM t WHERE a < 3;",
                "ok\nok 3\nA\n-1\nrows 1\n",
            ),
            (
                "CREATE TABLE t (a INT); INSERT INTO t VALUES (1), (2), (NULL); \
             SELECT a FROM t WHERE a = 2; SELECT a FROM t WHERE a <> 2; SELECT a FROM t WHERE a != 2; \
             SELECT a FROM t WHERE a <= 1; SELECT a FROM t WHERE a > 1; SELECT a FROM t WHERE a >= 1;",
                "ok\nok 3\nA\n2\nrows 1\nA\n1\nrows 1\nA\n1\nrows 1\nA\n1\nrows 1\nA\n2\nrows 1\nA\n1\n2\nrows 2\n",
            ),
        ],
    );
}

#[test]
fn literals_beyond_the_columns_type(rt: HostRuntime) {
    check_examples(
        &rt,
        &[(
            "CREATE TABLE t (a INTEGER); INSERT INTO t VALUES (0), (255), (NULL); \
         INSERT INTO t VALUES (7), (2147483648); SELECT a FROM t WHERE a < 2147483648; \
         SELECT a FROM t WHERE a = 300; SELECT a FROM t WHERE a > -5; \
         SELECT a FROM t WHERE a < 9223372036854775808; SELECT a FROM t WHERE a < 9223372036854775808 #;",
            "ok\nok 3\nerror 26: value out of range\nA\n0\n255\nrows 2\nA\nrows 0\nA\n0\n255\nrows 2\n\
         error 13: number too large\nerror 13: number too large\n",
        )],
    );
}

#[test]
fn columns_by_name_and_all(rt: HostRuntime) {
    check_examples(
        &rt,
        &[(
            "CREATE TABLE t (a INT, b INTEGER USING H DICTIONARY); INSERT INTO t (b) VALUES (5), (6); \
         SELECT b, a, b FROM t WHERE b != 5; SELECT * FROM t WHERE a = 1; INSERT INTO t VALUES (1); \
         UPDATE t SET a = 1;",
            "ok\nok 2\nB,A,B\n6,NULL,6\nrows 1\nA,B\nrows 0\nerror 25: wrong number of values\nok 2\n",
        )],
    );
}

#[test]
fn the_ends_of_the_type(rt: HostRuntime) {
    check_examples(
        &rt,
        &[(
            "create table Ends (a int, b int using p); insert into ends values (-2147483648, +2147483647); \
         insert into ends values (-2147483649, 0); select * from ENDS where A >= -9223372036854775808;",
            "ok\nok 1\nerror 26: value out of range\nA,B\n-2147483648,2147483647\nrows 1\n",
        )],
    );
}

#[test]
fn two_hundred_and_fifty_seven_rows(rt: HostRuntime) {
    let others = numbered(&rt, ",(", 1..257, ")");
    check_pieces(
        &rt,
        &[
            (
                "CREATE TABLE t (a INT USING V); INSERT INTO t VALUES (0)",
                1,
            ),
            (others.as_str(), 1),
            ("; SELECT a FROM t WHERE a >= 255;", 1),
        ],
        "ok\nok 257\nA\n255\n256\nrows 2\n",
    );
}
