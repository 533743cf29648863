//! Rows updated and deleted, and columns rebuilt.

use crate::harness::{check_examples, check_layings, check_pieces, joined, numbered};

#[test]
fn sets_take_place_all_at_once(rt: HostRuntime) {
    check_examples(
        &rt,
        &[
            (
                "CREATE TABLE t (a INT, b INT); INSERT INTO t VALUES (1, 2), (NULL, 5); UPDATE t SET a = b, b = a; SELECT * FROM t;",
                "ok\nok 2\nok 2\nA,B\n2,1\n5,NULL\nrows 2\n",
            ),
            (
                "CREATE TABLE t (a INT, b INT, c INT); INSERT INTO t VALUES (1, 2, 3), (4, 5, 6); \
             UPDATE t SET c = a, a = NULL WHERE b > 2; UPDATE t SET b = +9; SELECT * FROM t; \
             UPDATE t SET a = a, b = -2147483648 WHERE a IS NULL; SELECT * FROM t;",
                "ok\nok 2\nok 1\nok 2\nA,B,C\n1,9,3\nNULL,9,4\nrows 2\nok 1\nA,B,C\n1,9,3\nNULL,-2147483648,4\nrows 2\n",
            ),
        ],
    );
}

// Both columns have the same values, so the same encoding, and their codes are exchanged as they are.
#[test]
fn values_of_two_columns_exchanged(rt: HostRuntime) {
    check_layings(
        &rt,
        "CREATE TABLE t (a INT {using}, b INT {using}, c INT); \
         INSERT INTO t VALUES (1, 9, 0), (9, 1, 0), (NULL, 1, 1), (1, NULL, 0), (1, 1, 1), (9, 9, 0); \
         UPDATE t SET a = b, b = a WHERE c = 0; SELECT * FROM t; UPDATE t SET b = a, a = b; SELECT * FROM t; \
         SELECT MIN(a), COUNT(b) FROM t WHERE a >= b;",
        "ok\nok 6\nok 4\nA,B,C\n9,1,0\n1,9,0\nNULL,1,1\nNULL,1,0\n1,1,1\n9,9,0\nrows 6\n\
         ok 6\nA,B,C\n1,9,0\n9,1,0\n1,NULL,1\n1,NULL,0\n1,1,1\n9,9,0\nrows 6\n\
         MIN(A),COUNT(B)\n1,3\nrows 1\n",
    );
}

#[test]
fn an_updated_row_keeps_its_place(rt: HostRuntime) {
    check_examples(
        &rt,
        &[
            (
                "CREATE TABLE t (a INT); INSERT INTO t VALUES (1), (2), (3); UPDATE t SET a = 1000000 WHERE a = 2; SELECT a FROM t;",
                "ok\nok 3\nok 1\nA\n1\n1000000\n3\nrows 3\n",
            ),
            // The reply counts the rows that are found, whether or not their values change.
            (
                "CREATE TABLE t (a INT); INSERT INTO t VALUES (1), (2), (NULL); UPDATE t SET a = 2 WHERE a >= 1; \
             UPDATE t SET a = 2; UPDATE t SET a = 3 WHERE a = 7; UPDATE t SET a = 4 WHERE NOT a = 2; SELECT a FROM t;",
                "ok\nok 3\nok 2\nok 3\nok 0\nok 0\nA\n2\n2\n2\nrows 3\n",
            ),
        ],
    );
}

#[test]
fn rows_at_which_a_condition_is_unknown_stay(rt: HostRuntime) {
    check_examples(
        &rt,
        &[(
            "CREATE TABLE t (a INT); INSERT INTO t VALUES (1), (NULL), (2), (1); DELETE FROM t WHERE a = 1; SELECT a FROM t; \
         UPDATE t SET a = 5 WHERE NOT a = 7; SELECT a FROM t; DELETE FROM t WHERE a IN (1, NULL); DELETE FROM t; \
         SELECT a FROM t; DELETE FROM t; INSERT INTO t VALUES (8); SELECT a FROM t;",
            "ok\nok 4\nok 2\nA\nNULL\n2\nrows 2\nok 1\nA\nNULL\n5\nrows 2\nok 0\nok 2\nA\nrows 0\nok 0\nok 1\nA\n8\nrows 1\n",
        )],
    );
}

#[test]
fn half_of_three_hundred_rows(rt: HostRuntime) {
    let pairs = numbered(&rt, "(", 1..151, ", 1), (0, 0), ");
    let replies = joined(
        &rt,
        &[
            ("ok\nok 301\nok 151\nB\n", 1),
            ("1\n", 150),
            ("rows 150\nok\nB\n", 1),
            ("1\n", 150),
            ("rows 150\n", 1),
        ],
    );
    check_pieces(
        &rt,
        &[
            ("CREATE TABLE t (a INT, b INT); INSERT INTO t VALUES ", 1),
            (pairs.as_str(), 1),
            (
                "(0, 0); DELETE FROM t WHERE b = 0; SELECT b FROM t WHERE NOT a IS NULL; REBUILD t (a USING H); \
             SELECT b FROM t WHERE NOT a IS NULL;",
                1,
            ),
        ],
        replies.as_str(),
    );
}

#[test]
fn columns_laid_anew(rt: HostRuntime) {
    check_examples(
        &rt,
        &[
            (
                "CREATE TABLE t (a INT USING V OFFSET, b INT USING S DICTIONARY); INSERT INTO t VALUES (5, 5), (-3, 4), (NULL, 1), (7, NULL); \
             REBUILD t (a USING S, b USING P OFFSET); SELECT * FROM t WHERE a < b; REBUILD t; SELECT * FROM t WHERE a = b; \
             REBUILD T (B using h dictionary); SELECT * FROM t WHERE NOT a < b; SELECT * FROM t WHERE b = 2; SELECT * FROM t WHERE b > 6; \
             SELECT * FROM t WHERE b <> 2;",
                "ok\nok 4\nok\nA,B\n-3,4\nrows 1\nok\nA,B\n5,5\nrows 1\nok\nA,B\n5,5\nrows 1\nA,B\nrows 0\nA,B\nrows 0\n\
             A,B\n5,5\n-3,4\nNULL,1\nrows 3\n",
            ),
            (
                "CREATE TABLE rebuild (rebuild INT, offset INT); REBUILD rebuild (rebuild USING V OFFSET, offset USING P); \
             UPDATE rebuild SET offset = rebuild, rebuild = 1; DELETE FROM rebuild; TABLES;",
                "ok\nok\nok 0\nok 0\nTABLE,COLUMNS,ROWS\nREBUILD,2,0\nrows 1\n",
            ),
        ],
    );
}

#[test]
fn refusals_of_update(rt: HostRuntime) {
    let long = joined(&rt, &[("1, ", 1_000)]);
    check_examples(
        &rt,
        &[(
            "CREATE TABLE t (a INT, b INT); INSERT INTO t VALUES (1, 2); UPDATE u SET z = 1; UPDATE t SET z = 1, a = 1, a = 99999999999; \
         UPDATE t SET a = z; UPDATE t SET a = 1, a = 2 WHERE z = 1; UPDATE t SET a = 1, a = 99999999999; \
         UPDATE t SET a = 2147483648 WHERE a = 7; UPDATE t SET a = 1, b = -2147483649; SELECT * FROM t;",
            "ok\nok 1\nerror 20: no such table\nerror 22: no such column\nerror 22: no such column\nerror 22: no such column\n\
         error 23: column named twice\nerror 26: value out of range\nerror 26: value out of range\nA,B\n1,2\nrows 1\n",
        )],
    );
    check_pieces(
        &rt,
        &[
            (
                "CREATE TABLE t (a INT); UPDATE t SET a = 99999999999 WHERE a IN (",
                1,
            ),
            (long.as_str(), 1),
            ("1); UPDATE t SET a = 1, a = 2 WHERE a IN (", 1),
            (long.as_str(), 1),
            ("1); DELETE FROM t WHERE z IN (", 1),
            (long.as_str(), 1),
            ("1); DELETE FROM t WHERE a IN (", 1),
            (long.as_str(), 1),
            ("1);", 1),
        ],
        "ok\nerror 24: over a limit\nerror 23: column named twice\nerror 22: no such column\nerror 24: over a limit\n",
    );
}

#[test]
fn refusals_of_delete_and_rebuild(rt: HostRuntime) {
    check_examples(
        &rt,
        &[(
            "CREATE TABLE t (a INT); INSERT INTO t VALUES (1); DELETE FROM u WHERE z = 1; DELETE FROM t WHERE z = 1; \
         REBUILD u (z USING V); REBUILD t (z USING V, a USING V, a USING V); REBUILD t (a USING V, a USING H); SELECT a FROM t;",
            "ok\nok 1\nerror 20: no such table\nerror 22: no such column\nerror 20: no such table\nerror 22: no such column\n\
         error 23: column named twice\nA\n1\nrows 1\n",
        )],
    );
}

#[test]
fn what_is_no_change(rt: HostRuntime) {
    check_examples(
        &rt,
        &[(
            "UPDATE t; UPDATE t SET; UPDATE t SET a; UPDATE t SET a = 1,; UPDATE t SET a <= 1; UPDATE t SET 1 = a; DELETE t; \
         DELETE FROM t WHERE; REBUILD; REBUILD t (); REBUILD t (a); REBUILD t (a USING V,); REBUILD t (a USING X); REBUILD t (a OFFSET);",
            "error 10: syntax error\nerror 10: syntax error\nerror 10: syntax error\nerror 10: syntax error\n\
         error 10: syntax error\nerror 10: syntax error\nerror 10: syntax error\nerror 10: syntax error\n\
         error 10: syntax error\nerror 10: syntax error\nerror 10: syntax error\nerror 10: syntax error\n\
         error 10: syntax error\nerror 10: syntax error\n",
        )],
    );
}
