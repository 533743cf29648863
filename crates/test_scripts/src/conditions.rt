//! Conditions of three truth values.

use crate::harness::{check_examples, check_pieces};

// Three truth values: unknown finds no row, also under NOT.
#[test]
fn rows_that_a_condition_finds(rt: HostRuntime) {
    check_examples(
        &rt,
        &[
            (
                "CREATE TABLE t (a INTEGER); INSERT INTO t VALUES (1), (2), (NULL); \
                 SELECT a FROM t WHERE a NOT IN (1, NULL); SELECT a FROM t WHERE NOT (a < 2); \
                 SELECT a FROM t WHERE (a < 2) IS UNKNOWN;",
                "ok\nok 3\nA\nrows 0\nA\n2\nrows 1\nA\nNULL\nrows 1\n",
            ),
            (
                "CREATE TABLE t (a INTEGER); INSERT INTO t VALUES (1), (2), (NULL); \
                 SELECT a FROM t WHERE a = NULL; SELECT a FROM t WHERE NOT a = NULL; \
                 SELECT a FROM t WHERE a IN (2, NULL); SELECT a FROM t WHERE NULL = NULL IS UNKNOWN;",
                "ok\nok 3\nA\nrows 0\nA\nrows 0\nA\n2\nrows 1\nA\n1\n2\nNULL\nrows 3\n",
            ),
            (
                "CREATE TABLE t (a INTEGER); INSERT INTO t VALUES (1), (2), (NULL); \
                 SELECT a FROM t WHERE a IS NULL; SELECT a FROM t WHERE a IS NOT NULL; \
                 SELECT a FROM t WHERE a = 1 IS NOT TRUE; SELECT a FROM t WHERE NOT (a = 1) IS FALSE;",
                "ok\nok 3\nA\nNULL\nrows 1\nA\n1\n2\nrows 2\nA\n2\nNULL\nrows 2\nA\n1\nNULL\nrows 2\n",
            ),
        ],
    );
}

// BETWEEN is two comparisons. Its ends may be NULL or in the wrong order.
#[test]
fn ranges(rt: HostRuntime) {
    check_examples(
        &rt,
        &[(
            "CREATE TABLE t (a INTEGER); INSERT INTO t VALUES (1), (2), (4); \
                 SELECT a FROM t WHERE a NOT BETWEEN 3 AND NULL; SELECT a FROM t WHERE a BETWEEN 3 AND NULL; \
                 SELECT a FROM t WHERE a BETWEEN 5 AND 1; SELECT a FROM t WHERE a BETWEEN 2 AND 4; \
                 SELECT a FROM t WHERE 2 BETWEEN a AND 3;",
            "ok\nok 3\nA\n1\n2\nrows 2\nA\nrows 0\nA\nrows 0\nA\n2\n4\nrows 2\nA\n1\n2\nrows 2\n",
        )],
    );
}

// A column compared with a column, with NULL on either side.
#[test]
fn two_columns(rt: HostRuntime) {
    check_examples(
        &rt,
        &[(
            "CREATE TABLE t (a INT USING V, b INT USING S DICTIONARY); \
                 INSERT INTO t VALUES (5, 5), (-3, 4), (NULL, 1), (7, NULL); SELECT * FROM t WHERE a < b; \
                 SELECT * FROM t WHERE a = b; SELECT * FROM t WHERE NOT a < b; SELECT * FROM t WHERE b <> 2; \
                 SELECT * FROM t WHERE 4 < a; SELECT * FROM t WHERE 1 = 1; \
                 SELECT * FROM t WHERE b IN (1, 4) OR a IS NULL AND b = 9;",
            "ok\nok 4\nA,B\n-3,4\nrows 1\nA,B\n5,5\nrows 1\nA,B\n5,5\nrows 1\nA,B\n5,5\n-3,4\nNULL,1\n\
                 rows 3\nA,B\n5,5\n7,NULL\nrows 2\nA,B\n5,5\n-3,4\nNULL,1\n7,NULL\nrows 4\nA,B\n-3,4\n\
                 NULL,1\nrows 2\n",
        )],
    );
}

// NOT binds before AND, AND before OR, and IS before NOT.
#[test]
fn how_tightly_words_bind(rt: HostRuntime) {
    check_examples(
        &rt,
        &[(
            "CREATE TABLE t (a INTEGER); INSERT INTO t VALUES (1), (2), (NULL); \
                 SELECT a FROM t WHERE a = 1 OR a = 2 AND a = 3; \
                 SELECT a FROM t WHERE (a = 1 OR a = 2) AND a = 2; \
                 SELECT a FROM t WHERE NOT a = 1 AND a = 1; SELECT a FROM t WHERE NOT (a = 1 AND a = 1); \
                 SELECT a FROM t WHERE NOT a = 1 IS UNKNOWN;",
            "ok\nok 3\nA\n1\nrows 1\nA\n2\nrows 1\nA\nrows 0\nA\n2\nrows 1\nA\n1\n2\nrows 2\n",
        )],
    );
}

// Texts that look like a condition but aren't.
#[test]
fn what_is_no_condition(rt: HostRuntime) {
    check_examples(
        &rt,
        &[(
            "CREATE TABLE t (a INT); SELECT a FROM t WHERE; SELECT a FROM t WHERE a; \
                 SELECT a FROM t WHERE NOT NOT a = 1; SELECT a FROM t WHERE a = 1 IS TRUE IS TRUE; \
                 SELECT a FROM t WHERE a BETWEEN 1; SELECT a FROM t WHERE a IN (); \
                 SELECT a FROM t WHERE a IN (a); SELECT a FROM t WHERE (a) = 1; \
                 SELECT a FROM t WHERE a IS NOT 1; SELECT a FROM t WHERE (a = 1; \
                 SELECT a FROM t WHERE a = 1 OR; SELECT a FROM t WHERE a NOT = 1; \
                 SELECT a FROM t WHERE a IS NULL IS UNKNOWN;",
            "ok\nerror 10: syntax error\nerror 10: syntax error\nerror 10: syntax error\n\
                 error 10: syntax error\nerror 10: syntax error\nerror 10: syntax error\n\
                 error 10: syntax error\nerror 10: syntax error\nerror 10: syntax error\n\
                 error 10: syntax error\nerror 10: syntax error\nerror 10: syntax error\nA\nrows 0\n",
        )],
    );
}

// A list of 1,000 entries is accepted; a longer one is refused, after a column that doesn't exist.
#[test]
fn entries_of_a_list(rt: HostRuntime) {
    check_pieces(
        &rt,
        &[
            (
                "CREATE TABLE t (a INT); INSERT INTO t VALUES (1), (2); SELECT a FROM t WHERE a IN (",
                1,
            ),
            ("1, ", 999),
            ("1); SELECT a FROM t WHERE a IN (", 1),
            ("1, ", 1000),
            ("1); SELECT a FROM t WHERE a IN (", 1),
            ("1, ", 1000),
            ("1) AND z = 1; SELECT z FROM u WHERE a IN (", 1),
            ("1, ", 1000),
            ("1);", 1),
        ],
        "ok\nok 2\nA\n1\nrows 1\nerror 24: over a limit\nerror 22: no such column\nerror 20: no such table\n",
    );
}
