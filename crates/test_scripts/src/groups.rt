//! GROUP BY, in every layout and kind of the columns. The replies are worked out by hand.

use crate::harness::{check_bigint_layings, check_examples, check_layings};

#[test]
fn a_line_for_each_value(rt: HostRuntime) {
    check_layings(
        &rt,
        "CREATE TABLE t (a INT {using}, b INT {using}); INSERT INTO t VALUES (2, 10), (NULL, 5), (1, NULL), (2, 3), (NULL, 7); \
         SELECT a, COUNT(*), SUM(b) FROM t GROUP BY a; SELECT COUNT(b) FROM t WHERE b > 100 GROUP BY a; \
         SELECT a, a FROM t GROUP BY a;",
        "ok\nok 5\nA,COUNT(*),SUM(B)\n1,1,NULL\n2,2,13\nNULL,2,12\nrows 3\nCOUNT(B)\nrows 0\nA,A\n1,1\n2,2\nNULL,NULL\nrows 3\n",
    );
}

#[test]
fn each_function_of_a_group(rt: HostRuntime) {
    check_layings(
        &rt,
        "CREATE TABLE t (a INT {using}, b INT {using}); INSERT INTO t VALUES (2, 10), (NULL, 5), (1, NULL), (2, 3), (NULL, 7); \
         SELECT MEDIAN(b), a, MIN(b), MAX(b), COUNT(b), SUM(a) FROM t GROUP BY a; SELECT COUNT(*) FROM t GROUP BY b; \
         SELECT SUM(b), SUM(b), a FROM t WHERE NOT b = 3 GROUP BY a;",
        "ok\nok 5\nMEDIAN(B),A,MIN(B),MAX(B),COUNT(B),SUM(A)\nNULL,1,NULL,NULL,0,1\n3,2,3,10,2,4\n5,NULL,5,7,2,NULL\nrows 3\n\
         COUNT(*)\n1\n1\n1\n1\n1\nrows 5\nSUM(B),SUM(B),A\n10,10,2\n12,12,NULL\nrows 2\n",
    );
}

#[test]
fn groups_of_rows_that_are_left(rt: HostRuntime) {
    check_layings(
        &rt,
        "CREATE TABLE t (a INT {using}, b INT {using}); \
         INSERT INTO t VALUES (-3, 1), (7, 2), (-3, 4), (7, 8), (0, 16), (NULL, 32); DELETE FROM t WHERE b = 4; \
         UPDATE t SET a = -3 WHERE b = 8; SELECT a, SUM(b) FROM t GROUP BY a; DELETE FROM t; SELECT a FROM t GROUP BY a;",
        "ok\nok 6\nok 1\nok 1\nA,SUM(B)\n-3,9\n0,16\n7,2\nNULL,32\nrows 4\nok 5\nA\nrows 0\n",
    );
}

#[test]
fn groups_at_the_ends_of_64_bits(rt: HostRuntime) {
    let script =
        "CREATE TABLE t (a BIGINT {using}, b BIGINT {using}); INSERT INTO t VALUES (9223372036854775807, 1), (-9223372036854775808, -9223372036854775808), (NULL, NULL), \
         (-9223372036854775808, -9223372036854775808); SELECT a, COUNT(*), SUM(b), MIN(b) FROM t GROUP BY a;";
    let replies =
        "ok\nok 4\nA,COUNT(*),SUM(B),MIN(B)\n-9223372036854775808,2,-18446744073709551616,-9223372036854775808\n\
         9223372036854775807,1,1,1\nNULL,1,NULL,NULL\nrows 3\n";
    check_bigint_layings(&rt, script, replies);
}

#[test]
fn sums_that_do_not_fit_64_bits_among_others(rt: HostRuntime) {
    let script =
        "CREATE TABLE t (a INT {using}, b BIGINT {using}); INSERT INTO t VALUES (4, -9223372036854775808), (3, 9223372036854775807), (1, 5), (3, 1), (2, NULL), \
         (NULL, 7), (4, 0); SELECT a, SUM(b), COUNT(b) FROM t GROUP BY a; SELECT SUM(b), a FROM t WHERE NOT a = 3 GROUP BY a;";
    let replies =
        "ok\nok 7\nA,SUM(B),COUNT(B)\n1,5,1\n2,NULL,0\n3,9223372036854775808,2\n4,-9223372036854775808,2\nNULL,7,1\nrows 5\n\
         SUM(B),A\n5,1\nNULL,2\n-9223372036854775808,4\nrows 3\n";
    check_bigint_layings(&rt, script, replies);
}

#[test]
fn what_groups_refuse(rt: HostRuntime) {
    check_examples(
        &rt,
        &[(
            "CREATE TABLE t (a INT, b INT); INSERT INTO t VALUES (1, 2); SELECT b, COUNT(*) FROM t GROUP BY a; \
             SELECT * FROM t GROUP BY a; SELECT a FROM t GROUP BY z; SELECT * FROM t GROUP BY z; SELECT z FROM t GROUP BY a; \
             SELECT b FROM t WHERE z = 1 GROUP BY a; SELECT a FROM t GROUP a; SELECT a FROM u GROUP BY a; \
             STATS SELECT b FROM t GROUP BY a; STATS SELECT a FROM t GROUP BY a;",
            "ok\nok 1\nerror 27: columns and set functions mixed\nerror 27: columns and set functions mixed\n\
             error 22: no such column\nerror 22: no such column\nerror 22: no such column\nerror 22: no such column\n\
             error 10: syntax error\nerror 20: no such table\nerror 27: columns and set functions mixed\nunits 0\n",
        )],
    );
}
