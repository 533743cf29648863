//! Refusals: each is the first that holds, and leaves the store unchanged.

use crate::harness::check_examples;

#[test]
fn of_create(rt: HostRuntime) {
    check_examples(
        &rt,
        &[
            (
                "CREATE TABLE t (a INT); CREATE TABLE T (b INTEGER, b INTEGER); CREATE TABLE u (a INT, A INT); \
             SELECT * FROM t; SELECT * FROM u;",
                "ok\nerror 21: table exists\nerror 23: column named twice\nA\nrows 0\nerror 20: no such table\n",
            ),
            (
                "CREATE TABLE select (a INT); CREATE TABLE t (a); CREATE TABLE t ();",
                "error 10: syntax error\nerror 10: syntax error\nerror 10: syntax error\n",
            ),
        ],
    );
}

#[test]
fn of_insert(rt: HostRuntime) {
    check_examples(
        &rt,
        &[(
            "CREATE TABLE t (a INT, b INT); INSERT INTO u VALUES (1); INSERT INTO t (z, z) VALUES (1); \
         INSERT INTO t (a, a) VALUES (1); INSERT INTO t VALUES (1, 2), (99999999999); \
         INSERT INTO t VALUES (1, 2), (1, 99999999999); INSERT INTO t (b) VALUES (1, 2); SELECT * FROM t;",
            "ok\nerror 20: no such table\nerror 22: no such column\nerror 23: column named twice\n\
         error 25: wrong number of values\nerror 26: value out of range\nerror 25: wrong number of values\nA,B\nrows 0\n",
        )],
    );
}

#[test]
fn of_select(rt: HostRuntime) {
    check_examples(
        &rt,
        &[(
            "CREATE TABLE t (a INT); SELECT a FROM u; SELECT z FROM t; SELECT a FROM t WHERE z = 1; SELECT z FROM u WHERE y = 1;",
            "ok\nerror 20: no such table\nerror 22: no such column\nerror 22: no such column\nerror 20: no such table\n",
        )],
    );
}
